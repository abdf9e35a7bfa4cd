ghost use Rattle.std.specs.Prelude.{◌≡◌, ◌<◌, ◌∷◌, [], ℕ, IfOk, OnOk, MatchOption, slice_index, length, map};
ghost use Rattle.gn_cycle.specs.Graph as graph;
ghost use Rattle.gn_cycle.specs.Graph.{lists};
ghost use Rattle.gn_stands.specs.Order.{greatest};
ghost use Rattle.gn_order.specs.Acyclic.{IsAcyclic};
ghost use Rattle.gn_order.specs.Heights.{at, AreKnown, AreHeights};
ghost use Rattle.gn_order.specs.Walk.{AreOpen, Goes, IsFirstOpen, Found, Keeps, Knows};

use gn_memory::Memory;
use std::alloc::Global;
use std::collections::VecDeque;

/// A node on the way, with the position of the next of its targets.
#[derive(Clone, Copy)]
pub(crate) struct Visit {
    node: usize,
    next: usize,
}

/// The targets of a node; none of one that isn't there.
fn targets_of(targets: &[Vec<usize>], node: usize) -> &[usize]
    ensures { result.now ≡ graph.targets (lists targets.now) node }
{
    match targets.get(node) {
        Some(list) => list.as_slice(),
        None => &[],
    }
}

/// The height of a node; 0 where it is not known.
fn height_of(heights: &[usize], node: usize) -> usize
    ensures { result ≡ at heights.now node }
{
    match heights.get(node) {
        Some(height) => *height,
        None => 0,
    }
}

/// The position, from one on, of the first target whose height is not known.
fn first_open(heights: &[usize], targets: &[usize], from: usize) -> Option<usize>
    ensures { AreKnown heights.now targets.now from → IsFirstOpen heights.now targets.now from result }
{
    for position in from..targets.len() {
        if height_of(heights, targets[position]) == 0 {
            return Some(position);
        }
    }
    None
}

/// The greatest height of some nodes; 0 where there are none.
fn greatest_height(heights: &[usize], nodes: &[usize]) -> usize
    ensures { result ≡ greatest (map (at heights.now) nodes.now) }
{
    let mut most = 0;
    for node in nodes {
        most = height_of(heights, *node).max(most);
    }
    most
}

/// Goes on from a node to the first of its targets whose height is not known; if all are known, finds the
/// node's own height.
fn step(
    targets: &[Vec<usize>],
    heights: &mut [usize],
    way: &mut VecDeque<Visit>,
    visit: Visit,
) -> Result<(), Memory>
    requires acyclic { IsAcyclic (lists targets.now) }
    requires found { Found (lists targets.now) heights.old }
    requires open { AreOpen (lists targets.now) heights.old 0 (visit ∷ way.old.items) }
    ensures { OnOk result (Goes (lists targets.now) heights.old (visit ∷ way.old.items) heights.new way.new.items) }
{
    let list = targets_of(targets, visit.node);
    match first_open(heights, list, visit.next) {
        None => {
            heights[visit.node] = greatest_height(heights, list) + 1;
            Ok(())
        }
        Some(next) => {
            way.push_front(Visit {
                node: visit.node,
                next,
            })?;
            way.push_front(Visit {
                node: list[next],
                next: 0,
            })?;
            Ok(())
        }
    }
}

/// Finds the height of a node, and of all that it leads to.
fn find_from(
    targets: &[Vec<usize>],
    heights: &mut [usize],
    way: &mut VecDeque<Visit>,
    start: usize,
) -> Result<(), Memory>
    requires acyclic { IsAcyclic (lists targets.now) }
    requires found { Found (lists targets.now) heights.old }
    requires begins { (way.old.items ≡ []) × (start < length targets.now) }
    ensures { OnOk result ((way.new.items ≡ []) × Found (lists targets.now) heights.new × Keeps heights.old heights.new × Knows heights.new start) }
{
    if height_of(heights, start) != 0 {
        return Ok(());
    }
    way.push_front(Visit {
        node: start,
        next: 0,
    })?;
    'walk: while let Some(visit) = way.pop_front() {
        step(targets, heights, way, visit)?;
    }
    Ok(())
}

/// The height of each node: the number of nodes on the longest walk from it along links.
pub(crate) fn heights_of(alloc: Global, targets: &[Vec<usize>]) -> Result<Vec<usize>, Memory>
    requires { IsAcyclic (lists targets.now) }
    ensures { IfOk result (λ heights. AreHeights (lists targets.now) heights.items) }
{
    let mut heights = vec![in alloc; 0; targets.len()]?;
    let mut way = VecDeque::new(alloc);
    for node in 0..targets.len() {
        find_from(targets, &mut heights, &mut way, node)?;
    }
    Ok(heights)
}
