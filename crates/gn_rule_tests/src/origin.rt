use gn_origin::find_plan;
use gn_plans::Plan;
use gn_read::read_tree;
use std::alloc::Global;
use std::process::Abort;
use std::test::Fail;

fn written(alloc: Global, found: Option<Plan>) -> Result<String, Fail> {
    match found {
        None => Ok(String::from_str(alloc, "none")?),
        Some(Plan::Empty) => Ok(String::from_str(alloc, "empty")?),
        Some(Plan::Input) => Ok(String::from_str(alloc, "input")?),
        Some(
            Plan::Move {
                selected,
                to: None,
                by,
            },
        ) => Ok(format!(in alloc; "{selected}, by {} {} {}", by.x.0, by.y.0, by.z.0)?),
        Some(
            Plan::Move {
                selected,
                to: Some(to),
                by,
            },
        ) => Ok(format!(in alloc;
            "{selected}, to {} {} {}, by {} {} {}",
            to.x.0, to.y.0, to.z.0, by.x.0, by.y.0, by.z.0
        )?),
    }
}

fn expect(rt: &impl Abort, alloc: Global, text: &str, wanted: &str) -> Result<(), Fail> {
    match read_tree(alloc, text.as_bytes()) {
        Ok(tree) => {
            let said = written(alloc, find_plan(alloc, &tree)?)?;
            assert_eq!(rt; said.as_str(), wanted, "{text}");
        }
        Err(_) => assert!(rt; false, "{text}"),
    }
    Ok(())
}

/// Trees, and what they ask for.
static TREES: [(&str, &str); 13] = [
    (r#"{"format":1,"nodes":[]}"#, "empty"),
    (
        r#"{"format":1,"nodes":[],"output":{"from":"input","socket":"geometry"}}"#,
        "input",
    ),
    (
        r#"{"format":1,"nodes":[{"id":"up","kind":"set_position","in":{"geometry":{"from":"input","socket":"geometry"},"offset":["0","0","1"]}}],"output":{"from":"up","socket":"geometry"}}"#,
        "true, by 0 0 4294967296",
    ),
    (
        r#"{"format":1,"nodes":[{"id":"up","kind":"set_position","in":{"geometry":{"from":"input","socket":"geometry"},"selection":false,"position":["1","2","-3"]}}],"output":{"from":"up","socket":"geometry"}}"#,
        "false, to 4294967296 8589934592 -12884901888, by 0 0 0",
    ),
    (
        r#"{"format":1,"groups":[{"name":"in","inputs":[{"name":"shape","kind":"geometry"},{"name":"amount","kind":"fixed"}],"outputs":[{"name":"made","kind":"geometry"}],"nodes":[{"id":"s","kind":"set_position","in":{"geometry":{"from":"input","socket":"shape"},"offset":{"from":"input","socket":"amount"}}}],"output":{"made":{"from":"s","socket":"geometry"}}},{"name":"out","inputs":[{"name":"shape","kind":"geometry"},{"name":"amount","kind":"int"}],"outputs":[{"name":"spare","kind":"geometry"},{"name":"made","kind":"geometry"}],"nodes":[{"id":"n","kind":"group","set":{"group":"in"},"in":{"shape":{"from":"input","socket":"shape"},"amount":{"from":"input","socket":"amount"}}}],"output":{"made":{"from":"n","socket":"made"}}}],"nodes":[{"id":"g","kind":"group","set":{"group":"out"},"in":{"shape":{"from":"input","socket":"geometry"},"amount":3}}],"output":{"from":"g","socket":"made"}}"#,
        "true, by 12884901888 12884901888 12884901888",
    ),
    (
        r#"{"format":1,"groups":[{"name":"f","inputs":[{"name":"a","kind":"int"},{"name":"b","kind":"truth"}],"outputs":[{"name":"a","kind":"fixed"},{"name":"b","kind":"int"}],"nodes":[],"output":{"a":{"from":"input","socket":"a"},"b":{"from":"input","socket":"b"}}}],"nodes":[{"id":"n","kind":"group","set":{"group":"f"},"in":{"b":true}},{"id":"s","kind":"set_position","in":{"geometry":{"from":"input","socket":"geometry"},"selection":{"from":"n","socket":"a"},"position":{"from":"n","socket":"b"}}}],"output":{"from":"s","socket":"geometry"}}"#,
        "false, to 4294967296 4294967296 4294967296, by 0 0 0",
    ),
    (
        r#"{"format":1,"groups":[{"name":"f","inputs":[],"outputs":[{"name":"a","kind":"int"},{"name":"b","kind":"geometry"}],"nodes":[]}],"nodes":[{"id":"n","kind":"group","set":{"group":"f"}}],"output":{"from":"n","socket":"b"}}"#,
        "empty",
    ),
    (
        r#"{"format":1,"nodes":[{"id":"s","kind":"set_position"}],"output":{"from":"s","socket":"geometry"}}"#,
        "none",
    ),
    (
        r#"{"format":1,"nodes":[{"id":"s","kind":"set_position","in":{"geometry":{"from":"input","socket":"geometry"}}},{"id":"t","kind":"set_position","in":{"geometry":{"from":"s","socket":"geometry"}}}],"output":{"from":"t","socket":"geometry"}}"#,
        "none",
    ),
    (
        r#"{"format":1,"nodes":[{"id":"p","kind":"position"},{"id":"s","kind":"set_position","in":{"geometry":{"from":"input","socket":"geometry"},"offset":{"from":"p","socket":"position"}}}],"output":{"from":"s","socket":"geometry"}}"#,
        "none",
    ),
    (
        r#"{"format":1,"nodes":[{"id":"w","kind":"switch","set":{"type":"geometry"},"in":{"true":{"from":"input","socket":"geometry"}}}],"output":{"from":"w","socket":"output"}}"#,
        "none",
    ),
    (
        r#"{"format":1,"nodes":[{"id":"s","kind":"set_position","in":{"geometry":{"from":"input","socket":"geometry"}}},{"id":"w","kind":"flip_faces"}],"output":{"from":"s","socket":"geometry"}}"#,
        "true, by 0 0 0",
    ),
    (
        r#"{"format":1,"nodes":[{"id":"r","kind":"repeat","set":{"items":[{"name":"g","kind":"geometry"}],"nodes":[]},"in":{"g":{"from":"input","socket":"geometry"}}}],"output":{"from":"r","socket":"g"}}"#,
        "none",
    ),
];

#[test]
fn says_what_trees_ask_for(rt: HostRuntime) -> Result<(), Fail> {
    for (text, wanted) in TREES {
        expect(&rt, rt.alloc(), text, wanted)?;
    }
    Ok(())
}

/// A tree that hands its input through a chain of group nodes.
fn chain(alloc: Global, length: u32) -> Result<String, Fail> {
    let mut text = String::from_str(
        alloc,
        r#"{"format":1,"groups":[{"name":"g","inputs":[{"name":"a","kind":"geometry"}],"outputs":[{"name":"b","kind":"geometry"}],"nodes":[],"output":{"b":{"from":"input","socket":"a"}}}],"nodes":[{"id":"n0","kind":"group","set":{"group":"g"},"in":{"a":{"from":"input","socket":"geometry"}}}"#,
    )?;
    let mut last = 0u32;
    for number in 1..length {
        let node = format!(in alloc;
            ",{{\"id\":\"n{number}\",\"kind\":\"group\",\"set\":{{\"group\":\"g\"}},\"in\":{{\"a\":{{\"from\":\"n{last}\",\"socket\":\"b\"}}}}}}"
        )?;
        text.push_str(&node)?;
        last = number;
    }
    let end = format!(in alloc; "],\"output\":{{\"from\":\"n{last}\",\"socket\":\"b\"}}}}")?;
    text.push_str(&end)?;
    Ok(text)
}

#[test]
fn follows_long_chains(rt: HostRuntime) -> Result<(), Fail> {
    let alloc = rt.alloc();
    expect(&rt, alloc, &chain(alloc, 2000)?, "input")
}
