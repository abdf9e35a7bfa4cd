ghost use Rattle.std.specs.Prelude.{◌≡◌};
ghost use Rattle.gn_rules.specs.Sought.{has};

use crate::rule::Rule;

/// Which rules are looked for.
#[derive(Clone, Copy, Debug)]
pub enum Sought {
    /// Each of them.
    Any,
    /// This one alone.
    Only(Rule),
}

impl Sought {
    /// Whether the rule is among them.
    pub fn has(self, rule: Rule) -> bool
        ensures { result ≡ has self rule }
    {
        match self {
            Sought::Any => true,
            Sought::Only(only) => only.number() == rule.number(),
        }
    }
}
