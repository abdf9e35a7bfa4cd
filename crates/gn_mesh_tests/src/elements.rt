use gn_elements::{ObjFault, Parts, read_parts};

/// Texts with a bad line, its number and its rule.
static BAD: [(&str, u64, u8); 17] = [
    ("v 0 0", 1, 1),
    ("v 1 2 x", 1, 1),
    ("v 1e100 0 0", 1, 1),
    ("v 0 0 # 0", 1, 1),
    ("v 0 0 0\nv 1 0 0\nv 0 1 0\nf 1 2 0\n", 4, 3),
    ("v 0 0 0\nv 1 0 0\nv 0 1 0\nf 1 2 4\n", 4, 4),
    ("v 0 0 0\nv 1 0 0\nv 0 1 0\nf 1 2\n", 4, 2),
    ("v 0 0 0\nf 1 1\\\n 2 3\\\n", 2, 4),
    ("v 0 0 0\nf 2 x 1\n", 2, 3),
    ("v 0 0 0\nf x 2\n", 2, 2),
    ("v 0 0 0\nl 1\n", 2, 2),
    ("v 0 0 0\nl 1 -0\n", 2, 3),
    ("v 0 0 0\nl 1 +\n", 2, 3),
    ("v 0 0 0\nl 1 -2\n", 2, 4),
    ("v 0 0 0\np\n", 2, 2),
    ("v 0 0 0\np 1 1x\n", 2, 3),
    ("v 0 0 0\np 99999999999999999999\nv\n", 2, 4),
];

/// Reads the parts that a text spells.
fn parts(rt: &HostRuntime, text: &str) -> Result<Parts, ObjFault> {
    read_parts(rt.alloc(), text.as_bytes())
}

#[test]
fn names_the_first_bad_line_and_its_least_rule(rt: HostRuntime) {
    for (text, line, rule) in BAD {
        match parts(&rt, text) {
            Ok(_) => panic!(rt; "{text}"),
            Err(fault) => assert_eq!(rt; fault, ObjFault::Bad { line, rule }, "{text}"),
        }
    }
}

#[test]
fn reads_rows_faces_and_references_from_both_ends(rt: HostRuntime) {
    let text =
        "\u{FEFF}# T\r\nv 0 0 0 1\r\nv 1 0 0\nv 0 1 0\nl 3 2 2\nf -3/1 +2//5 003/9/9\nf 1 2 1\np 1\nvn 0 0 1\n";
    let Ok(parts) = parts(&rt, text) else {
        panic!(rt; "no parts are read");
    };
    assert_eq!(rt; parts.points.len(), 3);
    assert_eq!(rt; parts.corner_points.as_slice(), [0, 1, 2].as_slice());
    assert_eq!(rt; parts.corner_edges.as_slice(), [1, 0, 2].as_slice());
    assert_eq!(rt; parts.faces.as_slice(), [0, 3].as_slice());
    let edges = parts.edges.into_vec();
    assert_eq!(rt; edges.as_slice(), [(1, 2), (0, 1), (0, 2)].as_slice());
}

#[test]
fn compares_the_vertices_of_a_long_face(rt: HostRuntime) {
    let mut text = String::new(rt.alloc());
    for _ in 0..40 {
        text.push_str("v 0 0 0\n").expect(&rt, "memory");
    }
    text.push_str("f -1 -2 -3 -4 -5 -6 -7 -8 -9 -10 -11 -12 -13 -14 -15 -16 -17 -18\n")
        .expect(&rt, "memory");
    text.push_str("f 1 2 3 4 5 6 7 8 9 10 11 12 13 14 15 16 17 18 1\n")
        .expect(&rt, "memory");
    let Ok(parts) = parts(&rt, text.as_str()) else {
        panic!(rt; "no parts are read");
    };
    assert_eq!(rt; parts.faces.as_slice(), [0, 18].as_slice());
    assert_eq!(rt; parts.edges.len(), 18);
}
