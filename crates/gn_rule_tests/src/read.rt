use gn_read::{TreeFault, read_tree};
use std::alloc::Global;
use std::process::Abort;
use std::test::Fail;

/// Compares what is said of a text: `ok`, `no JSON`, or the rule and the pointer.
fn expect(rt: &impl Abort, alloc: Global, text: &str, wanted: &str) -> Result<(), Fail> {
    let said = match read_tree(alloc, text.as_bytes()) {
        Ok(good) => {
            assert!(rt; good.tree().format == 1, "{text}");
            String::from_str(alloc, "ok")?
        }
        Err(TreeFault::Text) => String::from_str(alloc, "no JSON")?,
        Err(TreeFault::Form { place, rule }) => format!(in alloc; "F{rule} {place}")?,
        Err(TreeFault::Memory) => String::from_str(alloc, "out of memory")?,
    };
    assert_eq!(rt; said.as_str(), wanted, "{text}");
    Ok(())
}

/// Nodes of a tree without groups, and what is said of it.
static NODES: [(&str, &str); 32] = [
    (
        r#"{"id":"y","kind":"index"},{"id":"z","kind":"repeat","set":{"items":[],"nodes":[{"id":"a","kind":"index"},{"id":"a","kind":"id"}]}}"#,
        "F2 /nodes/1/set/nodes/1",
    ),
    (
        r#"{"id":"y","kind":"index"},{"id":"z","kind":"repeat","set":{"items":[],"nodes":[{"id":"a","kind":"index"},{"id":"b","kind":"clamp","in":{"value":{"from":"y","socket":"index"}}}]}}"#,
        "F3 /nodes/1/set/nodes/1/in/value",
    ),
    (
        r#"{"id":"y","kind":"index"},{"id":"z","kind":"repeat","set":{"items":[],"nodes":[{"id":"a","kind":"index"},{"id":"b","kind":"clamp","in":{"value":1}}]}}"#,
        "F4 /nodes/1/set/nodes/1/in/value",
    ),
    (
        r#"{"id":"a","kind":"index"},{"id":"b","kind":"clamp","in":{"max":"1","value":{"from":"a","socket":"value"}}}"#,
        "F3 /nodes/1/in/value",
    ),
    (
        r#"{"id":"a","kind":"index"},{"id":"b","kind":"clamp","in":{"max":"1","value":true}}"#,
        "F4 /nodes/1/in/value",
    ),
    (
        r#"{"id":"a","kind":"clamp","in":{"value":{"from":"a","socket":"value"}}}"#,
        "F5 /nodes/0",
    ),
    (
        r#"{"id":"a","kind":"index"},{"id":"b","kind":"index"}"#,
        "ok",
    ),
    (
        r#"{"id":"a","kind":"index"},{"id":"b","kind":"index"},{"id":"a","kind":"id"}"#,
        "F2 /nodes/2",
    ),
    (
        r#"{"id":"a","kind":"index"},{"id":"input","kind":"index"}"#,
        "F2 /nodes/1",
    ),
    (r#"{"id":"iterations","kind":"index"}"#, "F2 /nodes/0"),
    (
        r#"{"id":"a","kind":"clamp","in":{"value":{"from":"b","socket":"value"}}},{"id":"b","kind":"float","set":{"value":"1"}}"#,
        "ok",
    ),
    (
        r#"{"id":"a","kind":"clamp","in":{"min":"0","value":{"from":"b","socket":"values"}}},{"id":"b","kind":"float","set":{"value":"1"}}"#,
        "F3 /nodes/0/in/value",
    ),
    (
        r#"{"id":"a","kind":"clamp","in":{"value":{"from":"c","socket":"value"}}}"#,
        "F3 /nodes/0/in/value",
    ),
    (
        r#"{"id":"a","kind":"join_geometry","in":{"geometry":[{"from":"input","socket":"geometry"},{"from":"input","socket":"mesh"}]}}"#,
        "F3 /nodes/0/in/geometry/1",
    ),
    (
        r#"{"id":"a","kind":"group","set":{"group":"g"}}"#,
        "F3 /nodes/0/set/group",
    ),
    (
        r#"{"id":"a","kind":"group","set":{"group":"g"},"in":{"x":1}}"#,
        "F3 /nodes/0/in/x",
    ),
    (
        r#"{"id":"a","kind":"clamp","in":{"max":"1","value":1}}"#,
        "F4 /nodes/0/in/value",
    ),
    (
        r#"{"id":"a","kind":"switch","set":{"type":"int"},"in":{"false":1,"true":"1"}}"#,
        "F4 /nodes/0/in/true",
    ),
    (
        r#"{"id":"a","kind":"clamp","in":{"value":{"from":"input","socket":"geometry"}}}"#,
        "F4 /nodes/0/in/value",
    ),
    (
        r#"{"id":"a","kind":"flip_faces","in":{"geometry":true}}"#,
        "F4 /nodes/0/in/geometry",
    ),
    (
        r#"{"id":"a","kind":"flip_faces","in":{"geometry":[]}}"#,
        "F4 /nodes/0/in/geometry",
    ),
    (
        r#"{"id":"a","kind":"join_geometry","in":{"geometry":[]}}"#,
        "ok",
    ),
    (
        r#"{"id":"a","kind":"join_geometry","in":{"geometry":{"from":"input","socket":"geometry"}}}"#,
        "ok",
    ),
    (
        r#"{"id":"a","kind":"set_position","in":{"geometry":{"from":"b","socket":"geometry"}}},{"id":"b","kind":"set_position","in":{"geometry":{"from":"a","socket":"geometry"}}}"#,
        "F5 /nodes/0",
    ),
    (
        r#"{"id":"a","kind":"set_position","in":{"geometry":{"from":"b","socket":"geometry"}}},{"id":"b","kind":"set_position","in":{"geometry":{"from":"b","socket":"geometry"}}}"#,
        "F5 /nodes/1",
    ),
    (
        r#"{"id":"a","kind":"set_position","in":{"geometry":{"from":"b","socket":"geometry"}}},{"id":"d","kind":"mesh_line"},{"id":"b","kind":"set_position","in":{"geometry":{"from":"c","socket":"geometry"}}},{"id":"c","kind":"set_position","in":{"geometry":{"from":"b","socket":"geometry"}}},{"id":"e","kind":"set_position","in":{"geometry":{"from":"c","socket":"geometry"}}}"#,
        "F5 /nodes/2",
    ),
    (
        r#"{"id":"z","kind":"repeat","set":{"items":[{"name":"g","kind":"geometry"}],"nodes":[{"id":"up","kind":"set_position","in":{"geometry":{"from":"input","socket":"g"}}}],"output":{"g":{"from":"up","socket":"geometry"}}},"in":{"iterations":3,"g":{"from":"input","socket":"geometry"}}}"#,
        "ok",
    ),
    (
        r#"{"id":"z","kind":"repeat","set":{"items":[{"name":"g","kind":"geometry"}],"nodes":[{"id":"up","kind":"set_position","in":{"geometry":{"from":"input","socket":"geometry"}}}]}}"#,
        "F3 /nodes/0/set/nodes/0/in/geometry",
    ),
    (
        r#"{"id":"z","kind":"repeat","set":{"items":[{"name":"g","kind":"geometry"},{"name":"iteration","kind":"int"}],"nodes":[{"id":"input","kind":"index"}]}}"#,
        "F2 /nodes/0/set/items/1",
    ),
    (
        r#"{"id":"z","kind":"repeat","set":{"items":[{"name":"g","kind":"geometry"}],"nodes":[{"id":"a","kind":"index"}],"output":{"g":{"from":"a","socket":"index"}}},"in":{"g":{"from":"a","socket":"x"}}},{"id":"a","kind":"index"}"#,
        "F3 /nodes/0/in/g",
    ),
    (
        r#"{"id":"y","kind":"index"},{"id":"z","kind":"repeat","set":{"items":[{"name":"g","kind":"geometry"}],"nodes":[{"id":"a","kind":"flip_faces","in":{"geometry":{"from":"b","socket":"geometry"}}},{"id":"b","kind":"flip_faces","in":{"geometry":{"from":"a","socket":"geometry"}}}],"output":{"g":{"from":"a","socket":"geometry"}}}}"#,
        "F5 /nodes/1/set/nodes/0",
    ),
    (
        r#"{"id":"a","kind":"index"},{"id":"z","kind":"repeat","set":{"items":[],"nodes":[{"id":"y","kind":"repeat","set":{"items":[],"nodes":[{"id":"x","kind":"repeat","set":{"items":[],"nodes":[]}}]}}]}}"#,
        "F6 /nodes/1",
    ),
];

#[test]
fn names_the_rule_that_nodes_break(rt: HostRuntime) -> Result<(), Fail> {
    let alloc = rt.alloc();
    for (nodes, wanted) in NODES {
        let text = format!(in alloc; "{{\"format\":1,\"nodes\":[{nodes}]}}")?;
        expect(&rt, alloc, &text, wanted)?;
    }
    Ok(())
}

/// Whole trees, and what is said of them.
static TREES: [(&str, &str); 29] = [
    (
        r#"{"format":1,"groups":[{"name":"f","inputs":[],"outputs":[],"nodes":[]},{"name":"g","inputs":[],"outputs":[],"nodes":[{"id":"a","kind":"index"},{"id":"a","kind":"id"}]}],"nodes":[{"id":"a","kind":"index"}]}"#,
        "F2 /groups/1/nodes/1",
    ),
    (
        r#"{"format":1,"groups":[{"name":"f","inputs":[],"outputs":[],"nodes":[]},{"name":"g","inputs":[],"outputs":[],"nodes":[{"id":"a","kind":"index"},{"id":"b","kind":"clamp","in":{"value":{"from":"c","socket":"value"}}}]}],"nodes":[{"id":"a","kind":"index"}]}"#,
        "F3 /groups/1/nodes/1/in/value",
    ),
    (
        r#"{"format":1,"groups":[{"name":"f","inputs":[],"outputs":[],"nodes":[]},{"name":"g","inputs":[],"outputs":[],"nodes":[{"id":"a","kind":"index"},{"id":"b","kind":"clamp","in":{"value":1}}]}],"nodes":[{"id":"a","kind":"index"}]}"#,
        "F4 /groups/1/nodes/1/in/value",
    ),
    (
        r#"{"format":1,"groups":[{"name":"f","inputs":[],"outputs":[],"nodes":[]},{"name":"g","inputs":[],"outputs":[],"nodes":[{"id":"a","kind":"index"},{"id":"b","kind":"clamp","in":{"value":{"from":"b","socket":"value"}}}]}],"nodes":[{"id":"a","kind":"index"}]}"#,
        "F5 /groups/1/nodes/1",
    ),
    (
        r#"{"format":1,"groups":[{"name":"f","inputs":[],"outputs":[],"nodes":[]},{"name":"g","inputs":[],"outputs":[],"nodes":[{"id":"a","kind":"index"},{"id":"z","kind":"repeat","set":{"items":[],"nodes":[{"id":"y","kind":"repeat","set":{"items":[],"nodes":[{"id":"x","kind":"repeat","set":{"items":[],"nodes":[]}}]}}]}}]}],"nodes":[{"id":"a","kind":"index"}]}"#,
        "F6 /groups/1/nodes/1",
    ),
    ("", "no JSON"),
    (r#"{"format":1"#, "no JSON"),
    (r#"{"format":1,"nodes":[]} []"#, "no JSON"),
    ("[1e400]", "no JSON"),
    ("[]", "F1 /"),
    (r#"{"format":0,"nodes":[]}"#, "F1 /format"),
    (
        r#"{"nodes":[{"kind":"id","id":"b/"}],"format":1}"#,
        "F1 /nodes/0/id",
    ),
    (
        r#"{"nodes":[{"kind":"group","id":"b","in":{"a/~":null},"set":{"group":"g"}}],"format":1}"#,
        "F1 /nodes/0/in/a~1~0",
    ),
    (
        r#"{"format":1,"nodes":[{"id":"a","kind":"float","set":{"value":0.5}}]}"#,
        "F1 /nodes/0/set/value",
    ),
    (
        r#"{"format":2,"nodes":[{"id":"input","kind":"index"}]}"#,
        "F1 /format",
    ),
    (r#"{"format":1,"nodes":[],"output":[]}"#, "F4 /output"),
    (
        r#"{"format":1,"nodes":[],"output":{"from":"input","socket":"geometry"}}"#,
        "ok",
    ),
    (
        r#"{"format":1,"nodes":[],"output":{"from":"a","socket":"geometry"}}"#,
        "F3 /output",
    ),
    (
        r#"{"format":1,"nodes":[{"id":"a","kind":"index"}],"output":{"from":"a","socket":"index"}}"#,
        "F4 /output",
    ),
    (
        r#"{"format":1,"groups":[{"name":"g","inputs":[],"outputs":[],"nodes":[]},{"name":"g","inputs":[],"outputs":[],"nodes":[]}],"nodes":[]}"#,
        "F2 /groups/1",
    ),
    (
        r#"{"format":1,"groups":[{"name":"g","inputs":[{"name":"a","kind":"int"},{"name":"a","kind":"int"}],"outputs":[{"name":"output","kind":"int"}],"nodes":[]}],"nodes":[]}"#,
        "F2 /groups/0/inputs/1",
    ),
    (
        r#"{"format":1,"groups":[{"name":"g","inputs":[{"name":"a","kind":"int"}],"outputs":[{"name":"b","kind":"int"}],"nodes":[],"output":{"b":{"from":"input","socket":"a"}}}],"nodes":[{"id":"n","kind":"group","set":{"group":"g"},"in":{"a":{"from":"n","socket":"b"}}}]}"#,
        "F5 /nodes/0",
    ),
    (
        r#"{"format":1,"groups":[{"name":"g","inputs":[],"outputs":[{"name":"b","kind":"int"}],"nodes":[],"output":{"b":1,"c":2}}],"nodes":[]}"#,
        "F3 /groups/0/output/c",
    ),
    (
        r#"{"format":1,"groups":[{"name":"g","inputs":[],"outputs":[{"name":"b","kind":"int"}],"nodes":[],"output":{"b":true}}],"nodes":[{"id":"a","kind":"clamp","in":{"value":1}}]}"#,
        "F4 /groups/0/output/b",
    ),
    (
        r#"{"format":1,"groups":[{"name":"f","inputs":[],"outputs":[],"nodes":[{"id":"n","kind":"group","set":{"group":"g"},"in":{"a":1}}]},{"name":"g","inputs":[{"name":"a","kind":"int"}],"outputs":[],"nodes":[]}],"nodes":[]}"#,
        "F3 /groups/0/nodes/0/set/group",
    ),
    (
        r#"{"format":1,"groups":[{"name":"f","inputs":[],"outputs":[],"nodes":[{"id":"n","kind":"group","set":{"group":"f"}}]}],"nodes":[]}"#,
        "F3 /groups/0/nodes/0/set/group",
    ),
    (
        r#"{"format":1,"groups":[{"name":"f","inputs":[],"outputs":[],"nodes":[{"id":"z","kind":"repeat","set":{"items":[],"nodes":[{"id":"y","kind":"repeat","set":{"items":[],"nodes":[]}}]}}]}],"nodes":[{"id":"n","kind":"group","set":{"group":"f"}}]}"#,
        "ok",
    ),
    (
        r#"{"format":1,"groups":[{"name":"f","inputs":[],"outputs":[],"nodes":[{"id":"z","kind":"repeat","set":{"items":[],"nodes":[{"id":"y","kind":"repeat","set":{"items":[],"nodes":[]}}]}}]}],"nodes":[{"id":"n","kind":"group","set":{"group":"f"}},{"id":"x","kind":"repeat","set":{"items":[],"nodes":[{"id":"n","kind":"group","set":{"group":"f"}}]}}]}"#,
        "F6 /nodes/1",
    ),
    (
        r#"{"format":1,"nodes":[{"id":"a","kind":"clamp","in":{"value":1}},{"id":"b","kind":"clamp","in":{"value":{"from":"b","socket":"values"}}}]}"#,
        "F3 /nodes/1/in/value",
    ),
];

#[test]
fn names_the_rule_that_trees_break(rt: HostRuntime) -> Result<(), Fail> {
    for (text, wanted) in TREES {
        expect(&rt, rt.alloc(), text, wanted)?;
    }
    Ok(())
}

/// The text of that many arrays, each in the one before.
fn nested(alloc: Global, depth: u64) -> Result<String, Fail> {
    let mut text = String::new(alloc);
    for _ in 0..depth {
        text.push('[')?;
    }
    for _ in 0..depth {
        text.push(']')?;
    }
    Ok(text)
}

#[test]
fn refuses_128_nested_arrays(rt: HostRuntime) -> Result<(), Fail> {
    let alloc = rt.alloc();
    expect(&rt, alloc, &nested(alloc, 127)?, "F1 /")?;
    expect(&rt, alloc, &nested(alloc, 128)?, "no JSON")
}

#[test]
fn refuses_bytes_that_are_no_text(rt: HostRuntime) {
    let bytes = [b'"', 0xff, b'"'];
    assert!(rt; matches!(read_tree(rt.alloc(), &bytes), Err(TreeFault::Text)));
}

/// A tree of groups `g0` of two nodes, and each further one of two group nodes of the one before, up
/// to `last`, with a node of the last one, and that number of further nodes.
fn doubling(alloc: Global, last: u32, further: u32) -> Result<String, Fail> {
    let mut text = String::from_str(
        alloc,
        r#"{"format":1,"groups":[{"name":"g0","inputs":[],"outputs":[],"nodes":[{"id":"a","kind":"index"},{"id":"b","kind":"index"}]}"#,
    )?;
    for group in 0..last {
        let next = group + 1;
        let more = format!(in alloc;
            ",{{\"name\":\"g{next}\",\"inputs\":[],\"outputs\":[],\"nodes\":[{{\"id\":\"a\",\"kind\":\"group\",\"set\":{{\"group\":\"g{group}\"}}}},{{\"id\":\"b\",\"kind\":\"group\",\"set\":{{\"group\":\"g{group}\"}}}}]}}"
        )?;
        text.push_str(&more)?;
    }
    let own = format!(in alloc;
        "],\"nodes\":[{{\"id\":\"n\",\"kind\":\"group\",\"set\":{{\"group\":\"g{last}\"}}}}"
    )?;
    text.push_str(&own)?;
    for number in 0..further {
        let more = format!(in alloc; ",{{\"id\":\"x{number}\",\"kind\":\"index\"}}")?;
        text.push_str(&more)?;
    }
    text.push_str("]}")?;
    Ok(text)
}

/// Groups that double, further nodes, and what is said of the tree.
static DOUBLING: [(u32, u32, &str); 4] = [
    (12, 1, "ok"),
    (12, 2, "F7 /nodes"),
    (40, 0, "F7 /nodes"),
    (70, 0, "F7 /nodes"),
];

#[test]
fn counts_nodes_with_groups_unfolded(rt: HostRuntime) -> Result<(), Fail> {
    for (last, further, wanted) in DOUBLING {
        let text = doubling(rt.alloc(), last, further)?;
        expect(&rt, rt.alloc(), &text, wanted)?;
    }
    Ok(())
}

/// A list of nodes that lead to each other in turn, the first to the second and so on, and the last one
/// to the node of that number, or to none.
fn chain(alloc: Global, length: u32, back: Option<u32>) -> Result<String, Fail> {
    let mut text = String::from_str(alloc, r#"{"format":1,"nodes":["#)?;
    for number in 1..length {
        let node = format!(in alloc;
            "{{\"id\":\"n{number}\",\"kind\":\"flip_faces\",\"in\":{{\"geometry\":{{\"from\":\"n{}\",\"socket\":\"geometry\"}}}}}},",
            number + 1
        )?;
        text.push_str(&node)?;
    }
    match back {
        Some(number) => {
            let node = format!(in alloc;
                "{{\"id\":\"n{length}\",\"kind\":\"flip_faces\",\"in\":{{\"geometry\":{{\"from\":\"n{number}\",\"socket\":\"geometry\"}}}}}}"
            )?;
            text.push_str(&node)?;
        }
        None => {
            let node = format!(in alloc; "{{\"id\":\"n{length}\",\"kind\":\"mesh_line\"}}")?;
            text.push_str(&node)?;
        }
    }
    text.push_str("]}")?;
    Ok(text)
}

#[test]
fn follows_long_chains(rt: HostRuntime) -> Result<(), Fail> {
    let alloc = rt.alloc();
    expect(&rt, alloc, &chain(alloc, 16_384, None)?, "ok")?;
    expect(&rt, alloc, &chain(alloc, 16_384, Some(1))?, "F5 /nodes/0")?;
    expect(&rt, alloc, &chain(alloc, 300, Some(290))?, "F5 /nodes/289")?;
    Ok(())
}
