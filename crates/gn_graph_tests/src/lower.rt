use gn_lazy::{GraphNode, Link, Origin};
use gn_lower::{Constant, Lowered, lower};
use gn_read::read_tree;
use gn_tree::Kind;
use std::alloc::{AllocError, Global};
use std::process::Abort;
use std::test::Fail;

/// A tree, and the graph of it: its nodes with their paths and what they read, what it gives out, and
/// how many constants there are.
struct Case {
    tree: &'static str,
    graph: &'static str,
}

fn put_origin(text: &mut String, origin: Origin) -> Result<(), AllocError> {
    match origin {
        Origin::Input => text.push_str("in"),
        Origin::Constant { slot } => write!(text, "c{slot}"),
        Origin::Out { node, socket } => write!(text, "{node}.{socket}"),
    }
}

fn put_link(text: &mut String, link: &Link) -> Result<(), AllocError> {
    text.push_str(" ")?;
    put_origin(text, link.origin)?;
    for kind in &link.through {
        write!(text, ">{kind}")?;
    }
    Ok(())
}

fn put_node(text: &mut String, node: &GraphNode<Kind>) -> Result<(), AllocError> {
    for step in &node.path.steps {
        write!(text, "/{}", step.node)?;
    }
    write!(text, "({})", node.outputs)?;
    for link in &node.inputs {
        put_link(text, link)?;
    }
    text.push_str("; ")
}

/// The graph as a text.
fn written(alloc: Global, lowered: &Lowered) -> Result<String, AllocError> {
    let mut text = String::new(alloc);
    for number in 0..lowered.graph.len() {
        if let Some(node) = lowered.graph.node(number) {
            put_node(&mut text, node)?;
        }
    }
    text.push_str("out")?;
    for link in lowered.graph.roots() {
        put_link(&mut text, link)?;
    }
    write!(text, "; {}", lowered.constants.len())?;
    Ok(text)
}

fn expect(rt: &impl Abort, alloc: Global, case: &Case) -> Result<(), Fail> {
    match read_tree(alloc, case.tree.as_bytes()) {
        Ok(tree) => {
            let lowered = lower(alloc, &tree)?;
            let text = written(alloc, &lowered)?;
            assert_eq!(rt; text.as_str(), case.graph, "{}", case.tree);
        }
        Err(_) => assert!(rt; false, "{}", case.tree),
    }
    Ok(())
}

/// Each is worked out by hand: kinds have the numbers of truth, int, fixed, vector in turn, and a cube
/// reads its size, three numbers.
static CASES: [Case; 6] = [
    Case {
        tree: r#"{"format":1,"nodes":[]}"#,
        graph: "out c0; 1",
    },
    Case {
        tree: r#"{"format":1,"nodes":[],"output":{"from":"input","socket":"geometry"}}"#,
        graph: "out in; 0",
    },
    Case {
        tree: r#"{"format":1,"nodes":[{"id":"b","kind":"math","set":{"op":"add"},"in":{"a":{"from":"a","socket":"value"}}},{"id":"a","kind":"integer","set":{"value":1}}]}"#,
        graph: "/1(1); /0(1) 0.0>2 c0; out c1; 2",
    },
    Case {
        tree: r#"{"format":1,"nodes":[{"id":"up","kind":"set_position","in":{"geometry":{"from":"input","socket":"geometry"},"offset":["0","0","1"]}}],"output":{"from":"up","socket":"geometry"}}"#,
        graph: "/0(1) in c0 c1 c2; out 0.0; 3",
    },
    Case {
        tree: r#"{"format":1,"groups":[{"name":"in","inputs":[{"name":"shape","kind":"geometry"},{"name":"amount","kind":"fixed"}],"outputs":[{"name":"made","kind":"geometry"}],"nodes":[{"id":"s","kind":"set_position","in":{"geometry":{"from":"input","socket":"shape"},"offset":{"from":"input","socket":"amount"}}}],"output":{"made":{"from":"s","socket":"geometry"}}},{"name":"out","inputs":[{"name":"shape","kind":"geometry"},{"name":"amount","kind":"int"}],"outputs":[{"name":"spare","kind":"geometry"},{"name":"made","kind":"geometry"}],"nodes":[{"id":"n","kind":"group","set":{"group":"in"},"in":{"shape":{"from":"input","socket":"shape"},"amount":{"from":"input","socket":"amount"}}}],"output":{"made":{"from":"n","socket":"made"}}}],"nodes":[{"id":"h","kind":"group","set":{"group":"out"},"in":{"shape":{"from":"g","socket":"made"}}},{"id":"g","kind":"group","set":{"group":"out"},"in":{"shape":{"from":"input","socket":"geometry"},"amount":3}}],"output":{"from":"h","socket":"made"}}"#,
        graph: "/1/0/0(1) in c0 c1 c2>2>3; /0/0/0(1) 0.0 c3 c4 c5>2>3; out 1.0; 6",
    },
    Case {
        tree: r#"{"format":1,"nodes":[{"id":"r","kind":"repeat","set":{"items":[{"name":"x","kind":"fixed"},{"name":"g","kind":"geometry"}],"nodes":[],"output":{"x":{"from":"input","socket":"x"}}},"in":{"iterations":4,"g":{"from":"input","socket":"geometry"}}},{"id":"j","kind":"join_geometry","in":{"geometry":[{"from":"r","socket":"g"},{"from":"input","socket":"geometry"},{"from":"r","socket":"g"}]}}],"output":{"from":"j","socket":"geometry"}}"#,
        graph: "/0(2) c0 c1 in; /1(1) 0.1 in 0.1; out 1.0; 2",
    },
];

#[test]
fn a_tree_becomes_the_graph_that_is_worked_out(rt: HostRuntime) -> Result<(), Fail> {
    for case in &CASES {
        expect(&rt, rt.alloc(), case)?;
    }
    Ok(())
}

#[test]
fn constants_have_the_slots_of_their_links(rt: HostRuntime) -> Result<(), Fail> {
    let text =
        r#"{"format":1,"nodes":[{"id":"up","kind":"set_position"}],"output":{"from":"up","socket":"geometry"}}"#;
    let Ok(tree) = read_tree(rt.alloc(), text.as_bytes()) else {
        return Err(Fail::new("no tree"));
    };
    let lowered = lower(rt.alloc(), &tree)?;
    assert!(rt; matches!(lowered.constants.first(), Some(Constant::NoGeometry)));
    assert!(rt; matches!(lowered.constants.get(2), Some(Constant::Position)));
    Ok(())
}
