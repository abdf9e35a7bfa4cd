ghost use Rattle.std.specs.Prelude.{◌≡◌, List, IfOk, OnOk, Decides, length};
ghost use Rattle.gn_cycle.specs.Graph.{Leads, lists, has};
ghost use Rattle.gn_cycle.specs.Search as search;
ghost use Rattle.gn_cycle.specs.Search.{State, with_node, with_nodes};

use crate::targets::targets_of;
use gn_memory::Memory;
use std::alloc::Global;

/// Marks the node, and returns whether it exists and had no mark.
fn mark(marks: &mut Vec<bool>, node: usize) -> bool
    ensures marked { marks.new.items ≡ search.mark marks.old.items node }
    ensures is_new { result ≡ search.is_new marks.old.items node }
{
    if node < marks.len() && !marks[node] {
        marks[node] = true;
        return true;
    }
    false
}

/// Puts a node behind the others, unless it was met before.
fn meet(met: &mut Vec<bool>, queue: &mut Vec<usize>, node: usize) -> Result<(), Memory>
    ensures { OnOk result ((met.new.items, queue.new.items) ≡ with_node (met.old.items, queue.old.items) node) }
{
    if mark(met, node) {
        queue.push(node)?;
    }
    Ok(())
}

fn meet_all(met: &mut Vec<bool>, queue: &mut Vec<usize>, nodes: &[usize]) -> Result<(), Memory>
    ensures { OnOk result ((met.new.items, queue.new.items) ≡ with_nodes (met.old.items, queue.old.items) nodes.now) }
{
    for node in nodes {
        meet(met, queue, *node)?;
    }
    Ok(())
}

fn has_node(nodes: &[usize], node: usize) -> bool
    ensures { result ≡ has nodes.now node }
{
    nodes.iter().any(|other| *other == node)
}

/// Whether the node leads back to itself.
pub(crate) fn leads_back(
    alloc: Global,
    targets: &[Vec<usize>],
    start: usize,
) -> Result<bool, Memory>
    ensures { IfOk result (λ found. Decides found (Leads (lists targets.now) start start)) }
{
    let mut met = vec![in alloc; false; targets.len()]?;
    let mut queue = Vec::new(alloc);
    queue.push(start)?;
    let mut at = 0;
    while at < queue.len() {
        let next = targets_of(targets, queue[at]);
        if has_node(next, start) {
            return Ok(true);
        }
        meet_all(&mut met, &mut queue, next)?;
        at += 1;
    }
    Ok(false)
}
