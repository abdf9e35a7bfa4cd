ghost use Rattle.std.specs.Prelude.{◌≡◌, ◌<◌, ◌+◌, [], Bool, Some, IfOk, length, replicate};
ghost use Rattle.gn_readers.specs.declared.place.Place.{Place as MeantPlace};
ghost use Rattle.gn_readers.specs.Readers.{link_at as link_meant, lists_of, HaveReaders, HaveReadersAt, IsOneMore, before_input, before_root};

use crate::place::{Place, Reader};
use gn_lazy::{Graph, Link, Origin};
use gn_memory::Memory;
use std::alloc::Global;

/// Notes the link at a place that was not looked at, among the readers of the node that it leads to.
fn note<K: Drop>(
    graph: &Graph<K>,
    readers: &mut Vec<Vec<Reader>>,
    link: &Link,
    place: Place,
) -> Result<(), Memory>
    requires { link_meant graph.now place ≡ Some link.now }
    ensures { IfOk result (λ _. (looked looked2 : MeantPlace → Bool) → IsOneMore looked place looked2 → HaveReadersAt graph.now looked (lists_of readers.old.items) → HaveReadersAt graph.now looked2 (lists_of readers.new.items)) }
{
    let Origin::Out { node, socket } = link.origin else {
        return Ok(());
    };
    let number = node as usize;
    if readers.len() <= number {
        return Ok(());
    }
    readers[number].push(Reader {
        output: socket as usize,
        place,
    })?;
    Ok(())
}

/// Notes the links of a node's inputs.
fn note_inputs<K: Drop>(
    graph: &Graph<K>,
    readers: &mut Vec<Vec<Reader>>,
    node: usize,
) -> Result<(), Memory>
    requires there { node < length graph.now.nodes }
    requires before { HaveReadersAt graph.now (before_input node 0) (lists_of readers.old.items) }
    ensures { IfOk result (λ _. HaveReadersAt graph.now (before_input (node + 1) 0) (lists_of readers.new.items)) }
{
    let Some(at) = graph.node(node as u64) else {
        unreachable!();
    };
    for (input, link) in at.inputs.iter().enumerate() {
        note(graph, readers, link, Place::Input { node, input })?;
    }
    Ok(())
}

/// Notes the links of the roots.
fn note_roots<K: Drop>(graph: &Graph<K>, readers: &mut Vec<Vec<Reader>>) -> Result<(), Memory>
    requires { HaveReadersAt graph.now (before_root 0) (lists_of readers.old.items) }
    ensures { IfOk result (λ _. HaveReaders graph.now (lists_of readers.new.items)) }
{
    for (root, link) in graph.roots().iter().enumerate() {
        note(graph, readers, link, Place::Root { root })?;
    }
    Ok(())
}

/// This number of nodes without readers.
fn no_readers(alloc: Global, count: usize) -> Result<Vec<Vec<Reader>>, Memory>
    ensures { IfOk result (λ readers. lists_of readers.items ≡ replicate count []) }
{
    let mut readers = Vec::with_capacity(alloc, count)?;
    for _at in 0..count {
        readers.push(Vec::new(alloc))?;
    }
    Ok(readers)
}

/// Of each node the links that lead to its outputs, each once.
pub fn readers_of<K: Drop>(alloc: Global, graph: &Graph<K>) -> Result<Vec<Vec<Reader>>, Memory>
    ensures { IfOk result (λ readers. HaveReaders graph.now (lists_of readers.items)) }
{
    let mut readers = no_readers(alloc, graph.len() as usize)?;
    for node in 0..graph.len() {
        note_inputs(graph, &mut readers, node as usize)?;
    }
    note_roots(graph, &mut readers)?;
    Ok(readers)
}
