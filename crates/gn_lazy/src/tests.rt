ghost use Rattle.std.specs.Prelude.{◌≡◌, IfOk};

use crate::{Graph, GraphFault, GraphNode, Link, Origin, Path, PathStep};
use smallvec::SmallVec;
use std::alloc::{AllocError, Global};
use std::cmp::Ordering;
use std::test::Fail;

fn step(node: u32, turn: Option<u32>) -> PathStep {
    PathStep { node, turn }
}

fn path(alloc: Global, steps: &[PathStep]) -> Result<Path, AllocError>
    ensures { IfOk result (λ path. path.steps.items ≡ steps.now) }
{
    Ok(Path {
        steps: steps.to_vec(alloc)?,
    })
}

#[test]
fn paths_are_ordered_by_their_steps_from_the_left(rt: HostRuntime) -> Result<(), Fail> {
    let first = path(rt.alloc(), &[step(1, Some(3)), step(7, None)])?;
    let inside = path(
        rt.alloc(),
        &[step(1, Some(3)), step(7, None), step(0, None)],
    )?;
    let later_turn = path(rt.alloc(), &[step(1, Some(10)), step(0, None)])?;
    let zone = path(rt.alloc(), &[step(1, None)])?;
    let later_node = path(rt.alloc(), &[step(2, Some(0))])?;
    assert_eq!(rt; later_turn.cmp(&later_node), Ordering::Less);
    assert_eq!(rt; first.cmp(&inside), Ordering::Less);
    assert_eq!(rt; inside.cmp(&later_turn), Ordering::Less);
    assert_eq!(rt; zone.cmp(&first), Ordering::Less);
    assert_eq!(rt; first.cmp(&first), Ordering::Equal);
    Ok(())
}

#[test]
fn a_path_is_printed_by_ids_and_turns(rt: HostRuntime) -> Result<(), Fail> {
    let inner = path(
        rt.alloc(),
        &[step(0, None), step(4, Some(12)), step(1, None)],
    )?;
    let text = inner.text(rt.alloc(), &["g", "r", "add"])?;
    assert_eq!(rt; text.as_slice(), b"g/r#12/add".as_slice());
    Ok(())
}

// A node without a path, with one link and two outputs.
fn node(alloc: Global, origin: Origin) -> Result<GraphNode<u8>, AllocError> {
    let mut inputs = Vec::with_capacity(alloc, 1)?;
    inputs.push(Link {
        origin,
        through: SmallVec::new(alloc),
    })?;
    Ok(GraphNode {
        path: path(alloc, &[])?,
        kind: 0,
        inputs,
        outputs: 2,
    })
}

#[test]
fn links_lead_to_what_is_there(rt: HostRuntime) -> Result<(), Fail> {
    let alloc = rt.alloc();
    let mut graph = Graph::new(alloc, 3);
    let bad = Err(GraphFault::BadLink { node: 1, input: 0 });
    assert_eq!(rt; graph.add(node(alloc, Origin::Input)?), Ok(0));
    let origins = [
        (Origin::Out { node: 1, socket: 0 }, bad),
        (Origin::Out { node: 0, socket: 2 }, bad),
        (Origin::Constant { slot: 3 }, bad),
    ];
    for (origin, answer) in origins {
        assert_eq!(rt; graph.add(node(alloc, origin)?), answer);
    }
    assert_eq!(rt;
        graph.add(node(alloc, Origin::Out { node: 0, socket: 1 })?),
        Ok(1)
    );
    assert_eq!(rt;
        graph.add(node(alloc, Origin::Constant { slot: 2 })?),
        Ok(2)
    );
    assert_eq!(rt; graph.len(), 3);
    assert_eq!(rt; graph.node(3).is_none(), true);
    let root = Link {
        origin: Origin::Out { node: 3, socket: 0 },
        through: SmallVec::new(alloc),
    };
    assert_eq!(rt;
        graph.root(root),
        Err(GraphFault::BadLink { node: 3, input: 0 })
    );
    Ok(())
}
