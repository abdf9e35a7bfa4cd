use gn_value::V3;

/// The geometry that a tree gives out.
#[derive(Clone, Copy, Debug, PartialEq, Eq)]
pub enum Plan {
    /// The geometry without elements.
    Empty,
    /// The tree's input.
    Input,
    /// The tree's input with each vertex moved to a position, or from its own if none is given, by an
    /// offset; as it is where no vertex is selected.
    Move {
        selected: bool,
        to: Option<V3>,
        by: V3,
    },
}
