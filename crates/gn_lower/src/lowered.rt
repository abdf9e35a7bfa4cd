use gn_lazy::Graph;
use gn_table::Constant;
use gn_tree::Kind;

/// A graph that was made of a tree, with its constants by their slots.
#[derive(Drop)]
pub struct Lowered {
    pub graph: Graph<Kind>,
    pub constants: Vec<Constant>,
}
