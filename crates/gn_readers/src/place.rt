ghost use Rattle.std.specs.Prelude.{◌≡◌, option_map};
ghost use Rattle.gn_readers.specs.Readers.{link_at as link_meant};

use gn_lazy::{Graph, Link};

/// Where the value of a link goes.
#[derive(Clone, Copy, Debug, PartialEq, Eq)]
pub enum Place {
    /// An input of a node, both by their numbers.
    Input { node: usize, input: usize },
    /// A root, by its number.
    Root { root: usize },
}

/// A link that leads to an output of a node.
#[derive(Clone, Copy, Debug, PartialEq, Eq)]
pub struct Reader {
    /// The output's number.
    pub output: usize,
    /// Where the link's value goes.
    pub place: Place,
}

/// The link whose value goes to a place. It is `None` exactly where the graph has no such place.
pub fn link_at<K: Drop>(graph: &Graph<K>, place: Place) -> Option<&Link>
    ensures { option_map (λ link. link.now) result ≡ link_meant graph.now place }
{
    match place {
        Place::Input { node, input } => match graph.node(node as u64) {
            Some(at) => at.inputs.get(input),
            None => None,
        },
        Place::Root { root } => graph.roots().get(root),
    }
}
