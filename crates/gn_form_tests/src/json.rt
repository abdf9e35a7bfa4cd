use gn_json::read;
use gn_tree::{Setting, TreeInput};
use gn_value::{Fx, V3, Value};
use std::test::Fail;

#[test]
fn reads_a_tree_of_one_node(rt: HostRuntime) -> Result<(), Fail> {
    let text =
        r#"{"format":1,"nodes":[{"id":"up","kind":"set_position","in":{"offset":["0","0","1"],"geometry":{"from":"input","socket":"geometry"}}}],"output":{"from":"up","socket":"geometry"}}"#;
    let tree = read(rt.alloc(), text.as_bytes())?;
    assert_eq!(rt; tree.format, 1);
    assert_eq!(rt; tree.groups.len(), 0);
    let [node] = tree.nodes.as_slice() else {
        return Err(Fail::new("one node"));
    };
    assert_eq!(rt; node.id.as_str(), "up");
    assert_eq!(rt; node.kind.as_str(), "set_position");
    let [
        (first, TreeInput::Link { link }),
        (second, TreeInput::Constant { value }),
    ] = node.inputs.as_slice()
    else {
        return Err(Fail::new("a link and a constant"));
    };
    assert_eq!(rt; first.as_str(), "geometry");
    assert_eq!(rt; link.from.as_str(), "input");
    assert_eq!(rt; second.as_str(), "offset");
    let up = V3 {
        x: Fx(0),
        y: Fx(0),
        z: Fx(4_294_967_296),
    };
    assert_eq!(rt; *value, Value::Vector(up));
    Ok(())
}

#[test]
fn reads_settings_in_the_order_of_the_row(rt: HostRuntime) -> Result<(), Fail> {
    let text =
        r#"{"format":1,"nodes":[{"id":"r","kind":"repeat","set":{"output":{"x":[]},"nodes":[{"id":"c","kind":"compare","set":{"op":"less","type":"int"}}],"items":[{"name":"x","kind":"fixed"}]}}]}"#;
    let tree = read(rt.alloc(), text.as_bytes())?;
    let [zone] = tree.nodes.as_slice() else {
        return Err(Fail::new("one node"));
    };
    let [Setting::Zone { zone }] = zone.settings.as_slice() else {
        return Err(Fail::new("a zone"));
    };
    assert_eq!(rt; zone.items.len(), 1);
    assert_eq!(rt; zone.output.len(), 1);
    let [inner] = zone.nodes.as_slice() else {
        return Err(Fail::new("a node in the zone"));
    };
    let [Setting::Of { .. }, Setting::Op { name }] = inner.settings.as_slice() else {
        return Err(Fail::new("a type and then an operation"));
    };
    assert_eq!(rt; name.as_str(), "less");
    Ok(())
}

/// Nodes of each kind, with how many settings and inputs they have; a zone counts as one setting.
static KINDS: [(&str, usize, usize); 59] = [
    (r#""kind":"float","set":{"value":"1.5"}"#, 1, 0),
    (r#""kind":"integer","set":{"value":-3}"#, 1, 0),
    (r#""kind":"boolean","set":{"value":true}"#, 1, 0),
    (r#""kind":"vector","set":{"value":["1","0","-1"]}"#, 1, 0),
    (r#""kind":"position""#, 0, 0),
    (r#""kind":"index""#, 0, 0),
    (r#""kind":"id""#, 0, 0),
    (r#""kind":"normal""#, 0, 0),
    (
        r#""kind":"named_attribute","set":{"name":"mass","type":"fixed"}"#,
        2,
        0,
    ),
    (r#""kind":"edge_vertices""#, 0, 0),
    (r#""kind":"vertex_neighbors""#, 0, 0),
    (
        r#""kind":"math","set":{"op":"sqrt"},"in":{"a":"2","b":"3"}"#,
        1,
        2,
    ),
    (
        r#""kind":"integer_math","set":{"op":"negate"},"in":{"a":2,"b":3}"#,
        1,
        2,
    ),
    (
        r#""kind":"vector_math","set":{"op":"cross"},"in":{"a":["1","0","0"],"b":["0","1","0"],"scale":"2"}"#,
        1,
        3,
    ),
    (
        r#""kind":"boolean_math","set":{"op":"xor"},"in":{"a":true,"b":false}"#,
        1,
        2,
    ),
    (
        r#""kind":"compare","set":{"type":"fixed","op":"less_equal"},"in":{"a":"1","b":"2"}"#,
        2,
        2,
    ),
    (
        r#""kind":"clamp","in":{"value":"1","min":"0","max":"2"}"#,
        0,
        3,
    ),
    (
        r#""kind":"map_range","set":{"clamp":false},"in":{"value":"1","from_min":"0","from_max":"2","to_min":"3","to_max":"4"}"#,
        1,
        5,
    ),
    (
        r#""kind":"mix","set":{"type":"vector"},"in":{"factor":"0.5","a":["0","0","0"],"b":["1","1","1"]}"#,
        1,
        3,
    ),
    (
        r#""kind":"float_to_integer","set":{"op":"truncate"},"in":{"value":"1"}"#,
        1,
        1,
    ),
    (
        r#""kind":"combine_xyz","in":{"x":"1","y":"2","z":"3"}"#,
        0,
        3,
    ),
    (
        r#""kind":"separate_xyz","in":{"vector":["1","2","3"]}"#,
        0,
        1,
    ),
    (
        r#""kind":"random_value","set":{"type":"int"},"in":{"min":0,"max":9,"probability":"0.5","id":{"from":"b","socket":"id"},"seed":7}"#,
        1,
        5,
    ),
    (
        r#""kind":"switch","set":{"type":"geometry"},"in":{"switch":true,"false":{"from":"b","socket":"c"},"true":[]}"#,
        1,
        3,
    ),
    (
        r#""kind":"accumulate_field","set":{"type":"vector","place":"corner"},"in":{"value":["1","1","1"],"group":0}"#,
        2,
        2,
    ),
    (
        r#""kind":"evaluate_at_index","set":{"type":"truth","place":"edge"},"in":{"value":true,"index":3}"#,
        2,
        2,
    ),
    (
        r#""kind":"evaluate_on_domain","set":{"type":"int","place":"face"},"in":{"value":1}"#,
        2,
        1,
    ),
    (
        r#""kind":"sample_index","set":{"type":"fixed","place":"cloud","clamp":true},"in":{"geometry":{"from":"b","socket":"c"},"value":"1","index":0}"#,
        3,
        3,
    ),
    (
        r#""kind":"sample_nearest","set":{"place":"instance"},"in":{"geometry":[],"position":["0","0","0"]}"#,
        1,
        2,
    ),
    (
        r#""kind":"capture_attribute","set":{"type":"int","place":"point"},"in":{"geometry":[],"value":1}"#,
        2,
        2,
    ),
    (
        r#""kind":"store_named_attribute","set":{"name":"mass","type":"fixed","place":"point"},"in":{"geometry":[],"selection":true,"value":"1"}"#,
        3,
        3,
    ),
    (
        r#""kind":"remove_named_attribute","set":{"name":"mass"},"in":{"geometry":[]}"#,
        1,
        1,
    ),
    (
        r#""kind":"attribute_statistic","set":{"place":"face"},"in":{"geometry":[],"selection":true,"attribute":"1"}"#,
        1,
        3,
    ),
    (r#""kind":"domain_size","in":{"geometry":[]}"#, 0, 1),
    (
        r#""kind":"set_position","in":{"geometry":[],"selection":true,"position":["0","0","0"],"offset":["0","0","1"]}"#,
        0,
        4,
    ),
    (
        r#""kind":"set_id","in":{"geometry":[],"selection":true,"id":4}"#,
        0,
        3,
    ),
    (
        r#""kind":"join_geometry","in":{"geometry":[{"from":"b","socket":"c"},{"from":"d","socket":"e"}]}"#,
        0,
        1,
    ),
    (
        r#""kind":"transform_geometry","in":{"geometry":[],"translation":["0","0","1"],"row_x":["1","0","0"],"row_y":["0","1","0"],"row_z":["0","0","1"]}"#,
        0,
        5,
    ),
    (
        r#""kind":"delete_geometry","set":{"place":"edge"},"in":{"geometry":[],"selection":true}"#,
        1,
        2,
    ),
    (
        r#""kind":"separate_geometry","set":{"place":"instance"},"in":{"geometry":[],"selection":false}"#,
        1,
        2,
    ),
    (r#""kind":"separate_components","in":{"geometry":[]}"#, 0, 1),
    (r#""kind":"bounding_box","in":{"geometry":[]}"#, 0, 1),
    (
        r#""kind":"flip_faces","in":{"geometry":[],"selection":true}"#,
        0,
        2,
    ),
    (
        r#""kind":"mesh_to_points","set":{"place":"corner"},"in":{"geometry":[],"selection":true,"position":["0","0","0"]}"#,
        1,
        3,
    ),
    (
        r#""kind":"points_to_vertices","in":{"geometry":[],"selection":true}"#,
        0,
        2,
    ),
    (
        r#""kind":"duplicate_elements","in":{"geometry":[],"selection":true,"amount":2}"#,
        0,
        3,
    ),
    (
        r#""kind":"mesh_line","in":{"count":4,"start":["0","0","0"],"offset":["1","0","0"]}"#,
        0,
        3,
    ),
    (
        r#""kind":"grid","in":{"size_x":"1","size_y":"1","vertices_x":3,"vertices_y":3}"#,
        0,
        4,
    ),
    (r#""kind":"cube","in":{"size":["1","1","1"]}"#, 0, 1),
    (
        r#""kind":"points","in":{"count":5,"position":["0","0","0"]}"#,
        0,
        2,
    ),
    (r#""kind":"import_obj","set":{"file":"a.obj"}"#, 1, 0),
    (
        r#""kind":"repeat","set":{"items":[{"name":"x","kind":"int"}],"nodes":[{"id":"b","kind":"index"}],"output":{"x":1}},"in":{"iterations":3,"x":0}"#,
        1,
        2,
    ),
    (r#""kind":"group","set":{"group":"g"},"in":{"x":0}"#, 1, 1),
    (
        r#""kind":"geometry_to_instance","in":{"geometry":[]}"#,
        0,
        1,
    ),
    (
        r#""kind":"instance_on_points","in":{"points":[],"selection":true,"instance":[],"scale":["1","1","1"]}"#,
        0,
        4,
    ),
    (r#""kind":"realize_instances","in":{"geometry":[]}"#, 0, 1),
    (
        r#""kind":"translate_instances","in":{"geometry":[],"selection":true,"translation":["0","0","1"]}"#,
        0,
        3,
    ),
    (
        r#""kind":"scale_instances","in":{"geometry":[],"selection":true,"scale":["2","2","2"]}"#,
        0,
        3,
    ),
    (
        r#""kind":"instances_to_points","in":{"geometry":[],"selection":true,"position":["0","0","0"]}"#,
        0,
        3,
    ),
];

#[test]
fn reads_a_node_of_each_kind(rt: HostRuntime) -> Result<(), Fail> {
    let alloc = rt.alloc();
    for (node, settings, inputs) in KINDS {
        let text = format!(in alloc; "{{\"format\":1,\"nodes\":[{{\"id\":\"a\",{node}}}]}}")?;
        let tree = read(alloc, text.as_bytes())?;
        let [node] = tree.nodes.as_slice() else {
            return Err(Fail::new("one node"));
        };
        assert_eq!(rt; node.settings.len(), settings, "{text}");
        assert_eq!(rt; node.inputs.len(), inputs, "{text}");
    }
    Ok(())
}

#[test]
fn keeps_one_link_apart_from_a_list(rt: HostRuntime) -> Result<(), Fail> {
    let text =
        r#"{"format":1,"nodes":[{"id":"a","kind":"group","set":{"group":"g"},"in":{"c":[],"a":{"from":"b","socket":"c"},"b":[{"from":"d","socket":"e"}]}}],"output":[]}"#;
    let tree = read(rt.alloc(), text.as_bytes())?;
    let [node] = tree.nodes.as_slice() else {
        return Err(Fail::new("one node"));
    };
    let [
        (_, TreeInput::Link { link }),
        (_, TreeInput::Links { links: one }),
        (_, TreeInput::Links { links: none }),
    ] = node.inputs.as_slice()
    else {
        return Err(Fail::new("a link and two lists"));
    };
    assert_eq!(rt; link.from.as_str(), "b");
    assert_eq!(rt; one.len(), 1);
    assert_eq!(rt; none.len(), 0);
    assert!(rt; matches!(tree.output, Some(TreeInput::Links { .. })));
    Ok(())
}

#[test]
fn reads_groups(rt: HostRuntime) -> Result<(), Fail> {
    let text =
        r#"{"format":1,"nodes":[],"groups":[{"name":"g","inputs":[{"name":"a","kind":"truth"}],"outputs":[{"name":"b","kind":"geometry"},{"name":"c","kind":"vector"}],"nodes":[{"id":"n","kind":"id"}],"output":{"c":["0","0","0"]}},{"name":"h","inputs":[],"outputs":[],"nodes":[]}]}"#;
    let tree = read(rt.alloc(), text.as_bytes())?;
    let [g, h] = tree.groups.as_slice() else {
        return Err(Fail::new("two groups"));
    };
    assert_eq!(rt; g.name.as_str(), "g");
    assert_eq!(rt; g.inputs.len(), 1);
    assert_eq!(rt; g.outputs.len(), 2);
    assert_eq!(rt; g.nodes.len(), 1);
    assert_eq!(rt; g.output.len(), 1);
    assert_eq!(rt; h.name.as_str(), "h");
    assert_eq!(rt; h.output.len(), 0);
    Ok(())
}

/// The bytes of the longest tree that the program takes, 4 MiB.
const LONGEST: usize = 4_194_304;

#[test]
fn reads_a_tree_of_4_mib(rt: HostRuntime) -> Result<(), Fail> {
    let mut text = String::from_str(
        rt.alloc(),
        "{\"format\":1,\"nodes\":[{\"id\":\"a\",\"kind\":\"normal\"}",
    )?;
    for _ in 0..161_317 {
        text.push_str(",{\"id\":\"b\",\"kind\":\"index\"}")?;
    }
    text.push_str("]}")?;
    assert!(rt; text.len() <= LONGEST && LONGEST < text.len() + 26);
    let tree = read(rt.alloc(), text.as_bytes())?;
    assert_eq!(rt; tree.nodes.len(), 161_318);
    Ok(())
}
