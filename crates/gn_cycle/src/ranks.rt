ghost use Rattle.std.specs.Prelude.{◌≡◌, IsTrue};
ghost use Rattle.gn_cycle.specs.Graph.{lists};
ghost use Rattle.gn_cycle.specs.Ranks as spec;

use crate::targets::targets_of;

/// The number of a node; 0 for one that isn't there.
pub(crate) fn number_of(numbers: &[usize], node: usize) -> usize
    ensures { result ≡ spec.rank numbers.now node }
{
    match numbers.get(node) {
        Some(number) => *number,
        None => 0,
    }
}

fn are_at_most(ranks: &[usize], limit: usize, nodes: &[usize]) -> bool
    ensures { result ≡ spec.are_at_most ranks.now limit nodes.now }
{
    nodes.iter().all(|node| number_of(ranks, *node) <= limit)
}

/// Whether no edge leads to a higher rank; only a yes says something.
pub(crate) fn none_rises(targets: &[Vec<usize>], ranks: &[usize]) -> bool
    ensures { IsTrue result → spec.NoneRises (lists targets.now) ranks.now }
{
    for node in 0..targets.len() {
        if !are_at_most(ranks, number_of(ranks, node), targets_of(targets, node)) {
            return false;
        }
    }
    true
}

fn are_below(ranks: &[usize], limit: usize, nodes: &[usize]) -> bool
    ensures { result ≡ spec.are_below ranks.now limit nodes.now }
{
    nodes.iter().all(|node| number_of(ranks, *node) < limit)
}

/// Whether all edges of the node lead to lower ranks.
pub(crate) fn leads_down(targets: &[Vec<usize>], ranks: &[usize], node: usize) -> bool
    ensures { result ≡ spec.leads_down (lists targets.now) ranks.now node }
{
    are_below(ranks, number_of(ranks, node), targets_of(targets, node))
}
