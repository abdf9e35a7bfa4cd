ghost use Rattle.std.specs.Prelude.{◌≡◌, IsTrue};
ghost use Rattle.gn_cycle.specs.Graph.{lists};
ghost use Rattle.gn_order.specs.Acyclic.{IsAcyclic};
ghost use Rattle.gn_graph_tests.specs.Falls as spec;

use gn_order::by_rank;
use std::alloc::{AllocError, Global};
use std::test::Fail;

/// A graph, a number for each node by which all its edges fall, and the order of its nodes.
struct Case {
    targets: &'static [&'static [usize]],
    numbers: &'static [usize],
    order: &'static [usize],
}

static CASES: [Case; 10] = [
    Case {
        targets: &[],
        numbers: &[],
        order: &[],
    },
    Case {
        targets: &[&[]],
        numbers: &[0],
        order: &[0],
    },
    // Without edges the order is that of the numbers.
    Case {
        targets: &[&[], &[], &[]],
        numbers: &[0, 0, 0],
        order: &[0, 1, 2],
    },
    // Chains, to the left and to the right.
    Case {
        targets: &[&[], &[0], &[1]],
        numbers: &[0, 1, 2],
        order: &[0, 1, 2],
    },
    Case {
        targets: &[&[1], &[2], &[]],
        numbers: &[2, 1, 0],
        order: &[2, 1, 0],
    },
    // Two ways of one length to a node.
    Case {
        targets: &[&[1, 2], &[3], &[3], &[]],
        numbers: &[2, 1, 1, 0],
        order: &[3, 1, 2, 0],
    },
    // Of two ways the longer counts, whichever comes first.
    Case {
        targets: &[&[1, 3], &[2], &[3], &[]],
        numbers: &[3, 2, 1, 0],
        order: &[3, 2, 1, 0],
    },
    Case {
        targets: &[&[3, 1], &[2], &[3], &[]],
        numbers: &[3, 2, 1, 0],
        order: &[3, 2, 1, 0],
    },
    // An edge twice.
    Case {
        targets: &[&[1, 1], &[]],
        numbers: &[1, 0],
        order: &[1, 0],
    },
    // Nodes of one rank in parts that do not meet, and a node that both lead to.
    Case {
        targets: &[&[2], &[4], &[5], &[5, 4], &[], &[]],
        numbers: &[2, 1, 1, 1, 0, 0],
        order: &[4, 5, 1, 2, 3, 0],
    },
];

/// The number of a node; 0 where it has none.
fn number_of(numbers: &[usize], node: usize) -> usize
    ensures { result ≡ spec.number_of numbers.now node }
{
    match numbers.get(node) {
        Some(number) => *number,
        None => 0,
    }
}

fn are_below(numbers: &[usize], count: usize, limit: usize, nodes: &[usize]) -> bool
    ensures { result ≡ spec.are_below numbers.now count limit nodes.now }
{
    nodes
        .iter()
        .all(|node| *node < count && number_of(numbers, *node) < limit)
}

/// Whether each edge leads to a node with a lower number.
fn falls(targets: &[Vec<usize>], numbers: &[usize]) -> bool
    ensures { IsTrue result → IsAcyclic (lists targets.now) }
{
    for node in 0..targets.len() {
        let limit = number_of(numbers, node);
        if !are_below(numbers, targets.len(), limit, &targets[node]) {
            return false;
        }
    }
    true
}

fn graph_of(alloc: Global, edges: &[&[usize]]) -> Result<Vec<Vec<usize>>, AllocError> {
    let mut targets = Vec::new(alloc);
    for list in edges {
        targets.push(Vec::from_slice(alloc, list)?)?;
    }
    Ok(targets)
}

#[test]
fn nodes_stand_by_rank_and_number(rt: HostRuntime) -> Result<(), Fail> {
    let alloc = rt.alloc();
    for case in &CASES {
        let targets = graph_of(alloc, case.targets)?;
        if !falls(&targets, case.numbers) {
            return Err(Fail::new("edges that fall"));
        }
        let order = by_rank(alloc, &targets);
        assert!(rt; order.is_ok_and(|nodes| nodes.as_slice() == case.order));
    }
    Ok(())
}

/// As many nodes as a tree may have.
const MOST: usize = 16384;

/// Each node leads to the next one.
fn chain(alloc: Global) -> Result<Vec<Vec<usize>>, AllocError> {
    let mut targets = Vec::with_capacity(alloc, MOST)?;
    for node in 1..MOST {
        targets.push(Vec::from_slice(alloc, &[node])?)?;
    }
    targets.push(Vec::new(alloc))?;
    Ok(targets)
}

/// The first node leads to all others.
fn join(alloc: Global) -> Result<Vec<Vec<usize>>, AllocError> {
    let mut others = Vec::with_capacity(alloc, MOST)?;
    for node in 1..MOST {
        others.push(node)?;
    }
    let mut targets = Vec::with_capacity(alloc, MOST)?;
    targets.push(others)?;
    for _ in 1..MOST {
        targets.push(Vec::new(alloc))?;
    }
    Ok(targets)
}

/// The numbers from the greatest down to 1.
fn downwards(alloc: Global) -> Result<Vec<usize>, AllocError> {
    let mut numbers = Vec::with_capacity(alloc, MOST)?;
    for node in 0..MOST {
        numbers.push(MOST - node)?;
    }
    Ok(numbers)
}

#[test]
fn a_long_chain_is_put_in_order(rt: HostRuntime) -> Result<(), Fail> {
    let alloc = rt.alloc();
    let targets = chain(alloc)?;
    let numbers = downwards(alloc)?;
    if !falls(&targets, &numbers) {
        return Err(Fail::new("edges that fall"));
    }
    let Ok(order) = by_rank(alloc, &targets) else {
        return Err(Fail::new("an order"));
    };
    assert_eq!(rt; order.len(), MOST);
    assert!(rt;
        order
            .iter()
            .zip(&numbers)
            .all(|(node, number)| *node < MOST && *node + 1 == *number)
    );
    Ok(())
}

#[test]
fn a_wide_join_is_put_in_order(rt: HostRuntime) -> Result<(), Fail> {
    let alloc = rt.alloc();
    let targets = join(alloc)?;
    let numbers = downwards(alloc)?;
    if !falls(&targets, &numbers) {
        return Err(Fail::new("edges that fall"));
    }
    let Ok(order) = by_rank(alloc, &targets) else {
        return Err(Fail::new("an order"));
    };
    assert_eq!(rt; order.len(), MOST);
    assert!(rt; order.first().is_some_and(|node| *node == 1));
    assert!(rt; order.last().is_some_and(|node| *node == 0));
    Ok(())
}
