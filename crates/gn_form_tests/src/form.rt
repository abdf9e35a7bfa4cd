use gn_form::first_misfit;
use gn_pointers::pointer_string;
use serde_json::Value;
use std::alloc::Global;
use std::process::Abort;
use std::test::Fail;

/// Compares the text of the first pointer that is not of its form, or `none`.
fn expect_pointer(rt: &impl Abort, alloc: Global, text: &str, pointer: &str) -> Result<(), Fail> {
    let tree = Value::from_slice(alloc, text.as_bytes())?;
    let found = match first_misfit(alloc, &tree)? {
        Some(found) => pointer_string(alloc, &found)?,
        None => String::from_str(alloc, "none")?,
    };
    assert_eq!(rt; found.as_str(), pointer, "{text}");
    Ok(())
}

/// Whole trees.
static TREES: [(&str, &str); 21] = [
    (r#"{"format":1,"nodes":[]}"#, "none"),
    (
        r#"{"nodes":[],"groups":[],"output":true,"format":1}"#,
        "none",
    ),
    (r#"{"format":0,"nodes":[]}"#, "/format"),
    (r#"{"format":"1","nodes":{}}"#, "/format"),
    (r#"{"format":2,"format":1,"nodes":[]}"#, "none"),
    (r#"{"format":1}"#, "/"),
    (r#"{"format":1,"nodes":[],"name":"a"}"#, "/"),
    (r#"[]"#, "/"),
    (r#"{"format":1,"nodes":{}}"#, "/nodes"),
    (r#"{"format":1,"nodes":[],"output":[]}"#, "none"),
    (r#"{"format":1,"nodes":[],"output":{}}"#, "/output"),
    (
        r#"{"format":1,"nodes":[],"output":{"from":"a","socket":"B"}}"#,
        "/output/socket",
    ),
    (r#"{"format":1,"nodes":[],"output":null}"#, "/output"),
    (
        r#"{"format":1,"nodes":[],"groups":[{"name":"g","inputs":[],"outputs":[],"nodes":[]}]}"#,
        "none",
    ),
    (
        r#"{"format":1,"nodes":[],"groups":[{"name":"g","inputs":[],"nodes":[]}]}"#,
        "/groups/0",
    ),
    (
        r#"{"format":1,"nodes":[3],"groups":[{"name":"G","inputs":[{"name":"a","kind":"bool"}],"outputs":[],"nodes":[]}]}"#,
        "/groups/0/inputs/0/kind",
    ),
    (
        r#"{"format":1,"nodes":[],"groups":[{"name":"g","inputs":[],"outputs":[{"name":"a","kind":"geometry","list":true}],"nodes":[]}]}"#,
        "/groups/0/outputs/0",
    ),
    (
        r#"{"format":1,"nodes":[],"groups":[{"name":"g","inputs":[],"outputs":[],"nodes":[],"output":{"Value":1}}]}"#,
        "/groups/0/output",
    ),
    (
        r#"{"format":1,"nodes":[],"groups":[{"name":"g","inputs":[],"outputs":[],"nodes":[],"output":{"a":1,"b":"x"}}]}"#,
        "/groups/0/output/b",
    ),
    (
        r#"{"format":1,"nodes":[{"id":"a","kind":"index"},7,8]}"#,
        "/nodes/1",
    ),
    (
        r#"{"format":1,"nodes":[{"id":"a","kind":"index"}],"groups":7}"#,
        "/groups",
    ),
];

#[test]
fn names_the_first_misfit_of_a_tree(rt: HostRuntime) -> Result<(), Fail> {
    for (text, pointer) in TREES {
        expect_pointer(&rt, rt.alloc(), text, pointer)?;
    }
    Ok(())
}

/// Nodes of a tree with one node, and the pointer in the node.
static NODES: [(&str, &str); 29] = [
    (r#"{"id":"a","kind":"index","set":{},"in":{}}"#, "none"),
    (r#"{"id":"a","kind":"index","set":[]}"#, "/nodes/0/set"),
    (r#"{"id":"a","kind":"index","at":1}"#, "/nodes/0"),
    (r#"{"kind":"index"}"#, "/nodes/0"),
    (r#"{"id":"a"}"#, "/nodes/0"),
    (r#"{"id":7,"kind":"indices"}"#, "/nodes/0/id"),
    (
        r#"{"id":"a","kind":"cube","in":{"size":["1","1","x"]}}"#,
        "/nodes/0/in/size",
    ),
    (
        r#"{"id":"a","kind":"cube","in":{"size":["1","1","2"]}}"#,
        "none",
    ),
    (r#"{"id":"a","kind":"cube","in":{"size":[]}}"#, "none"),
    (
        r#"{"id":"a","kind":"cube","in":{"size":[{"from":"b","socket":"c"},"1"]}}"#,
        "/nodes/0/in/size/1",
    ),
    (
        r#"{"id":"a","kind":"cube","in":{"size":{"from":"b"}}}"#,
        "/nodes/0/in/size",
    ),
    (
        r#"{"id":"a","kind":"cube","in":{"radius":1}}"#,
        "/nodes/0/in",
    ),
    (
        r#"{"id":"a","kind":"group","set":{"group":"g"},"in":{"A/b~":null}}"#,
        "/nodes/0/in/A~1b~0",
    ),
    (
        r#"{"id":"a","kind":"group","set":{"group":"g"},"in":{"A":1}}"#,
        "none",
    ),
    (
        r#"{"id":"a","kind":"no kind","set":{"x":null},"in":{"y":"1","z":1.5}}"#,
        "/nodes/0/in/z",
    ),
    (
        r#"{"id":"a","kind":"no kind","set":{"x":null},"in":{"y":"1"}}"#,
        "/nodes/0/kind",
    ),
    (r#"{"id":"a","kind":"no kind","set":0}"#, "/nodes/0/kind"),
    (r#"{"id":"a","kind":"float"}"#, "/nodes/0"),
    (r#"{"id":"a","kind":"float","set":{}}"#, "/nodes/0/set"),
    (r#"{"id":"a","kind":"float","set":{"value":"0.5"}}"#, "none"),
    (
        r#"{"id":"a","kind":"float","set":{"value":"0.5","op":"add"}}"#,
        "/nodes/0/set",
    ),
    (
        r#"{"id":"a","kind":"math","set":{"op":"scale"}}"#,
        "/nodes/0/set/op",
    ),
    (
        r#"{"id":"a","kind":"compare","set":{"type":"vector","op":"less"}}"#,
        "/nodes/0/set/type",
    ),
    (
        r#"{"id":"a","kind":"switch","set":{"type":"geometry"}}"#,
        "none",
    ),
    (
        r#"{"id":"a","kind":"named_attribute","set":{"name":"n","type":"geometry"}}"#,
        "/nodes/0/set/type",
    ),
    (
        r#"{"id":"a","kind":"delete_geometry","set":{"place":"corner"}}"#,
        "/nodes/0/set/place",
    ),
    (
        r#"{"id":"a","kind":"map_range","set":{"clamp":1}}"#,
        "/nodes/0/set/clamp",
    ),
    (
        r#"{"id":"a","kind":"repeat","set":{"items":[],"nodes":[{"id":"b","kind":"c"}]}}"#,
        "/nodes/0/set/nodes/0/kind",
    ),
    (
        r#"{"id":"a","kind":"repeat","set":{"items":[],"nodes":[],"output":{"x":[1]}}}"#,
        "/nodes/0/set/output/x",
    ),
];

#[test]
fn names_the_first_misfit_of_a_node(rt: HostRuntime) -> Result<(), Fail> {
    let alloc = rt.alloc();
    for (node, pointer) in NODES {
        let text = format!(in alloc; "{{\"format\":1,\"nodes\":[{node}]}}")?;
        expect_pointer(&rt, alloc, &text, pointer)?;
    }
    Ok(())
}

/// Trees in which a value is not of its form behind others that are, one for each form that can be
/// the first. Of a node whose kind is none, `kind` comes before a `set` that is no object.
static FORMS: [(&str, &str); 23] = [
    (
        r#"{"zone":0,"format":1,"nodes":[],"groups":[],"output":1}"#,
        "/",
    ),
    (
        r#"{"format":1,"nodes":[],"groups":[{"name":"g","inputs":[],"outputs":[],"nodes":[]},7]}"#,
        "/groups/1",
    ),
    (
        r#"{"format":1,"nodes":[],"groups":[{"name":"g","inputs":[{"name":"a","kind":"int"},null],"outputs":[],"nodes":[]}]}"#,
        "/groups/0/inputs/1",
    ),
    (
        r#"{"format":1,"nodes":[{"id":"a","kind":"index"},[]]}"#,
        "/nodes/1",
    ),
    (
        r#"{"format":1,"nodes":[{"id":"a","kind":"join_geometry","in":{"geometry":[{"from":"b","socket":"c"},"1"]}}]}"#,
        "/nodes/0/in/geometry/1",
    ),
    (
        r#"{"format":1,"nodes":[{"id":"a","kind":"clamp","in":{"value":null,"min":"0"}}]}"#,
        "/nodes/0/in/value",
    ),
    (r#"{"nodes":[7],"format":true}"#, "/format"),
    (
        r#"{"format":1,"nodes":[{"id":"a","kind":"index"},{"id":"A","kind":"index"}]}"#,
        "/nodes/1/id",
    ),
    (
        r#"{"format":1,"nodes":[{"id":"a","kind":"index"},{"id":"b","kind":"cubes"}]}"#,
        "/nodes/1/kind",
    ),
    (
        r#"{"format":1,"nodes":[{"id":"a","kind":"index"},{"id":"b","kind":"sample_index","set":{"type":"int","place":"point","clamp":0}}]}"#,
        "/nodes/1/set/clamp",
    ),
    (
        r#"{"format":1,"nodes":[{"id":"a","kind":"index"},{"id":"b","kind":"remove_named_attribute","set":{"name":""}}]}"#,
        "/nodes/1/set/name",
    ),
    (
        r#"{"format":1,"nodes":[{"id":"a","kind":"index"},{"id":"b","kind":"import_obj","set":{"file":""}}]}"#,
        "/nodes/1/set/file",
    ),
    (
        r#"{"format":1,"nodes":[{"id":"a","kind":"compare","set":{"op":"less","type":"float"}}]}"#,
        "/nodes/0/set/type",
    ),
    (
        r#"{"format":1,"nodes":[{"id":"a","kind":"index"},{"id":"b","kind":"compare","set":{"op":"<","type":"int"}}]}"#,
        "/nodes/1/set/op",
    ),
    (
        r#"{"format":1,"nodes":[{"id":"a","kind":"index"},{"id":"b","kind":"evaluate_on_domain","set":{"place":"vertex","type":"int"}}]}"#,
        "/nodes/1/set/place",
    ),
    (
        r#"{"format":1,"nodes":[{"id":"a","kind":"index"},{"id":"b","kind":"vector","set":{"value":["0","0","0","0"]}}]}"#,
        "/nodes/1/set/value",
    ),
    (r#"{"nodes":[7],"format":1,"groups":{}}"#, "/groups"),
    (
        r#"{"format":1,"nodes":[],"groups":[{"name":"g","inputs":[],"outputs":7,"nodes":[]}]}"#,
        "/groups/0/outputs",
    ),
    (
        r#"{"format":1,"nodes":[],"groups":[{"name":"g","inputs":[],"outputs":[],"nodes":null}]}"#,
        "/groups/0/nodes",
    ),
    (
        r#"{"format":1,"nodes":[],"groups":[{"name":"g","inputs":[],"outputs":[],"nodes":[],"output":[]}]}"#,
        "/groups/0/output",
    ),
    (
        r#"{"format":1,"nodes":[{"id":"a","kind":"index"},{"id":"b","kind":"clamp","in":[]}]}"#,
        "/nodes/1/in",
    ),
    (
        r#"{"format":1,"nodes":[{"id":"a","kind":"index"},{"id":"b","kind":"float","set":"value"}]}"#,
        "/nodes/1/set",
    ),
    (
        r#"{"format":1,"nodes":[{"id":"a","kind":"index"},{"id":"b","kind":"no kind","in":1}]}"#,
        "/nodes/1/in",
    ),
];

#[test]
fn names_a_misfit_of_each_form(rt: HostRuntime) -> Result<(), Fail> {
    for (text, pointer) in FORMS {
        expect_pointer(&rt, rt.alloc(), text, pointer)?;
    }
    Ok(())
}

/// Trees in which a key is missing or unknown, at each level.
static KEYS: [(&str, &str); 21] = [
    (r#"{"nodes":[]}"#, "/"),
    (r#"{"format":1,"nodes":[],"Nodes":[]}"#, "/"),
    (
        r#"{"format":1,"nodes":[],"groups":[{"inputs":[],"outputs":[],"nodes":[]}]}"#,
        "/groups/0",
    ),
    (
        r#"{"format":1,"nodes":[],"groups":[{"name":"g","outputs":[],"nodes":[]}]}"#,
        "/groups/0",
    ),
    (
        r#"{"format":1,"nodes":[],"groups":[{"name":"g","inputs":[],"outputs":[]}]}"#,
        "/groups/0",
    ),
    (
        r#"{"format":1,"nodes":[],"groups":[{"name":"g","inputs":[],"outputs":[],"nodes":[],"kind":"group"}]}"#,
        "/groups/0",
    ),
    (
        r#"{"format":1,"nodes":[],"groups":[{"name":"g","inputs":[{"name":"a"}],"outputs":[],"nodes":[]}]}"#,
        "/groups/0/inputs/0",
    ),
    (
        r#"{"format":1,"nodes":[],"groups":[{"name":"g","inputs":[{"kind":"int"}],"outputs":[],"nodes":[]}]}"#,
        "/groups/0/inputs/0",
    ),
    (
        r#"{"format":1,"nodes":[],"groups":[{"name":"g","inputs":[],"outputs":[],"nodes":[{"id":"a","kind":"index","type":"int"}]}]}"#,
        "/groups/0/nodes/0",
    ),
    (
        r#"{"format":1,"nodes":[],"output":{"from":"a"}}"#,
        "/output",
    ),
    (
        r#"{"format":1,"nodes":[],"output":{"socket":"a"}}"#,
        "/output",
    ),
    (
        r#"{"format":1,"nodes":[],"output":{"from":"a","socket":"b","to":"c"}}"#,
        "/output",
    ),
    (
        r#"{"format":1,"nodes":[{"id":"a","kind":"join_geometry","in":{"geometry":[{"from":"b","socket":"c"},{"socket":"c"}]}}]}"#,
        "/nodes/0/in/geometry/1",
    ),
    (
        r#"{"format":1,"nodes":[{"id":"a","kind":"join_geometry","in":{"geometry":[{"from":"b","socket":"c","":0}]}}]}"#,
        "/nodes/0/in/geometry/0",
    ),
    (
        r#"{"format":1,"nodes":[{"id":"a","kind":"compare","set":{"op":"less"}}]}"#,
        "/nodes/0/set",
    ),
    (
        r#"{"format":1,"nodes":[{"id":"a","kind":"index","set":{"value":1}}]}"#,
        "/nodes/0/set",
    ),
    (
        r#"{"format":1,"nodes":[{"id":"a","kind":"repeat","set":{"items":[]}}]}"#,
        "/nodes/0/set",
    ),
    (
        r#"{"format":1,"nodes":[{"id":"a","kind":"repeat","set":{"nodes":[]}}]}"#,
        "/nodes/0/set",
    ),
    (
        r#"{"format":1,"nodes":[{"id":"a","kind":"repeat","set":{"items":[],"nodes":[],"inputs":[]}}]}"#,
        "/nodes/0/set",
    ),
    (
        r#"{"format":1,"nodes":[{"id":"a","kind":"repeat","set":{"items":[{"name":"x","kind":"int","value":0}],"nodes":[]}}]}"#,
        "/nodes/0/set/items/0",
    ),
    (
        r#"{"format":1,"nodes":[{"id":"a","kind":"repeat","set":{"items":[],"nodes":[{"id":"b","kind":"import_obj"}]}}]}"#,
        "/nodes/0/set/nodes/0",
    ),
];

#[test]
fn names_the_object_where_a_key_is_unknown_or_missing(rt: HostRuntime) -> Result<(), Fail> {
    for (text, pointer) in KEYS {
        expect_pointer(&rt, rt.alloc(), text, pointer)?;
    }
    Ok(())
}

/// Trees that break their form at several pointers.
static SEVERAL: [(&str, &str); 6] = [
    (r#"{"format":0,"nodes":{},"color":1}"#, "/"),
    (
        r#"{"nodes":{},"groups":[{"name":"g","inputs":[],"outputs":[],"nodes":[{"id":"","kind":""}]}],"format":1}"#,
        "/groups/0/nodes/0/id",
    ),
    (
        r#"{"format":1,"nodes":[{"id":"a","kind":"group","set":{"group":"g"},"in":{"b":null,"a":null,"B":null}}]}"#,
        "/nodes/0/in/B",
    ),
    (
        r#"{"format":1,"nodes":[{"set":{"value":1},"kind":"float","in":{},"id":7}]}"#,
        "/nodes/0/id",
    ),
    (
        r#"{"format":1,"nodes":[{"id":"a","kind":"index"},{"id":"a","kind":"index"},0,{},{},{},{},{},{},{},0]}"#,
        "/nodes/2",
    ),
    (
        r#"{"format":1,"nodes":[{"id":"a","kind":"repeat","set":{"output":{"x":null},"nodes":[{"id":"b","kind":"float"}],"items":[]}}]}"#,
        "/nodes/0/set/nodes/0",
    ),
];

#[test]
fn names_the_first_of_several_misfits(rt: HostRuntime) -> Result<(), Fail> {
    for (text, pointer) in SEVERAL {
        expect_pointer(&rt, rt.alloc(), text, pointer)?;
    }
    Ok(())
}
