use gn_kinds::{SocketKind, find_kind, find_place, find_row, kind_name, place_name};
use gn_value::Place;

/// Kinds with how many settings, inputs and outputs they have.
static COUNTS: [(&str, usize, usize, usize); 7] = [
    ("float", 1, 0, 1),
    ("vector_math", 1, 3, 2),
    ("random_value", 1, 5, 1),
    ("store_named_attribute", 3, 3, 1),
    ("domain_size", 0, 1, 6),
    ("repeat", 3, 1, 0),
    ("group", 1, 0, 0),
];

#[test]
fn a_kind_is_found_by_its_name(rt: HostRuntime) {
    for (kind, settings, inputs, outputs) in COUNTS {
        let row = find_row(kind);
        assert!(rt;
            row.is_some_and(|row| row.settings.len() == settings),
            "{kind}"
        );
        assert!(rt; row.is_some_and(|row| row.inputs.len() == inputs), "{kind}");
        assert!(rt;
            row.is_some_and(|row| row.outputs.len() == outputs),
            "{kind}"
        );
    }
    assert!(rt; find_row("index_switch").is_none());
}

#[test]
fn names_go_there_and_back(rt: HostRuntime) {
    let kinds = [SocketKind::Int, SocketKind::Geometry];
    assert!(rt; find_kind(&kinds, kind_name(SocketKind::Int)) == Some(SocketKind::Int));
    assert!(rt; find_kind(&kinds, "fixed").is_none());
    let places = [Place::Edge, Place::Cloud];
    assert!(rt; find_place(&places, place_name(Place::Cloud)) == Some(Place::Cloud));
    assert!(rt; find_place(&places, "point").is_none());
}
