use crate::Graph;
use crate::components::components;
use std::alloc::{AllocError, Global};
use std::test::Fail;

/// Two cycles, one of which leads to the other, a node that leads to itself, nodes on the way to a
/// cycle, and an edge to a node past the end.
static EDGES: [&[usize]; 7] = [&[1], &[2], &[1, 3], &[4, 9], &[3], &[5], &[5, 0]];

fn graph_of(alloc: Global, edges: &[&[usize]]) -> Result<Vec<Vec<usize>>, AllocError> {
    let mut targets = Vec::new(alloc);
    for list in edges {
        targets.push(Vec::from_slice(alloc, list)?)?;
    }
    Ok(targets)
}

#[test]
fn components_are_numbered_as_they_end(rt: HostRuntime) -> Result<(), Fail> {
    let alloc = rt.alloc();
    let targets = graph_of(alloc, &EDGES)?;
    let found = components(alloc, &targets);
    assert!(rt; found.is_ok_and(|numbers| numbers.as_slice() == [3, 2, 2, 1, 1, 4, 5].as_slice()));
    Ok(())
}

#[test]
fn nodes_on_cycles_are_told(rt: HostRuntime) -> Result<(), Fail> {
    let alloc = rt.alloc();
    let Ok(graph) = Graph::new(alloc, graph_of(alloc, &EDGES)?) else {
        return Err(Fail::new("a graph"));
    };
    let wanted = [
        false, true, true, true, true, true, false, false, false, false,
    ];
    for node in 0..10 {
        let found = graph.is_on_cycle(alloc, node);
        assert!(rt; found.is_ok_and(|on| on == wanted[node]), "{node}");
    }
    Ok(())
}
