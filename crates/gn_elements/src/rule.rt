ghost use Rattle.std.specs.Prelude.{◌≡◌};

/// A rule that a line can break.
#[derive(Clone, Copy, Debug, PartialEq, Eq)]
pub(crate) enum Rule {
    /// `v` has three numbers behind it.
    NoPosition,
    /// `f` has at least three references behind it, `l` two, and `p` one.
    TooFewReferences,
    /// A reference is a number other than 0, perhaps with a sign, and then nothing or a slash.
    NoReference,
    /// A reference names a vertex above its line.
    NoVertex,
    /// There are at most 2^23 vertices, edges, faces and corners each.
    TooManyElements,
}

impl Rule {
    ghost use Rattle.gn_elements.specs.Rules.{rule_number};

    /// The rule's number, from 1.
    pub(crate) fn number(self) -> u8
        ensures { result ≡ rule_number self }
    {
        match self {
            Rule::NoPosition => 1,
            Rule::TooFewReferences => 2,
            Rule::NoReference => 3,
            Rule::NoVertex => 4,
            Rule::TooManyElements => 5,
        }
    }
}
