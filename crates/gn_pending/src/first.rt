ghost use Rattle.std.specs.Prelude.{◌≡◌, ℕ, [], ◌∷◌, ◌++◌, List, None};
ghost use Rattle.gn_pending.specs.Flags.{IsFirstOf};

use crate::flags::flag_at;
use gn_lazy::Graph;
use gn_node_set::is_before;

/// The node that was first so far, or the one with this number if it is flagged and its path is before.
fn earlier<K: Drop>(
    graph: &Graph<K>,
    flags: &[bool],
    first: Option<u64>,
    number: u64,
) -> Option<u64>
    ensures { (ns : List ℕ) → IsFirstOf graph.now.nodes flags.now ns first → IsFirstOf graph.now.nodes flags.now (ns ++ number ∷ []) result }
{
    let Some(at) = graph.node(number) else {
        return first;
    };
    if !flag_at(flags, number as usize) {
        return first;
    }
    let Some(so_far) = first else {
        return Some(number);
    };
    let Some(other) = graph.node(so_far) else {
        return Some(number);
    };
    if is_before(&at.path, &other.path) {
        return Some(number);
    }
    first
}

/// Of the nodes with these numbers the flagged one whose path is first. It is `None` exactly where
/// none of them is flagged.
pub fn first_flagged<K: Drop>(graph: &Graph<K>, flags: &[bool], numbers: &[usize]) -> Option<u64>
    ensures { IsFirstOf graph.now.nodes flags.now numbers.now result }
{
    let mut first = None;
    for number in numbers {
        first = earlier(graph, flags, first, *number as u64);
    }
    first
}
