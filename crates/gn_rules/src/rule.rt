ghost use Rattle.std.specs.Prelude.{◌≡◌};
ghost use Rattle.gn_rules.specs.Number.{number_of};

/// A rule of trees that are of their form, named by its number.
#[derive(Clone, Copy, Debug, PartialEq, Eq)]
pub enum Rule {
    /// F2: no name is twice in its list or is one that links use.
    Names,
    /// F3: links, names of groups and keys name what is there.
    Links,
    /// F4: an input is of the kind of its socket.
    Kinds,
    /// F5: no node leads back to itself.
    Order,
    /// F6: zones are nested in zones at most twice.
    Height,
    /// F7: there are at most 16,384 nodes.
    Count,
}

impl Rule {
    /// The number behind the `F` of its name.
    pub fn number(self) -> u8
        ensures { result ≡ number_of self }
    {
        match self {
            Rule::Names => 2,
            Rule::Links => 3,
            Rule::Kinds => 4,
            Rule::Order => 5,
            Rule::Height => 6,
            Rule::Count => 7,
        }
    }
}
