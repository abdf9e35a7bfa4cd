use gn_geom::{Geometry, Mesh};
use gn_io::{MemSink, Put, Sink};
use gn_obj::{ObjFault, read_obj, write_obj};
use gn_value::{Fx, V3};
use std::alloc::Global;
use std::fmt::Write;
use std::process::Abort;
use std::test::Fail;

/// A geometry of a mesh with vertices at these raw numbers.
fn geometry(
    rt: &impl Abort,
    alloc: Global,
    points: &[(i64, i64, i64)],
    edges: &[(u32, u32)],
    faces: &[u32],
    corner_points: &[u32],
    corner_edges: &[u32],
) -> Result<Geometry, Fail> {
    assert!(rt; points.len() < 100);
    assert!(rt; edges.len() < 100);
    assert!(rt; faces.len() < 100);
    assert!(rt; corner_points.len() < 100);
    assert!(rt; corner_edges.len() < 100);
    let mut at = Vec::new(alloc);
    at.resize(points.len(), V3::ZERO)?;
    for (place, (x, y, z)) in at.iter_mut().zip(points) {
        *place = V3 {
            x: Fx(*x),
            y: Fx(*y),
            z: Fx(*z),
        };
    }
    assert!(rt; at.len() < 100);
    let mesh = Mesh::from_parts(
        alloc,
        at,
        edges.to_vec(alloc)?,
        faces.to_vec(alloc)?,
        corner_points.to_vec(alloc)?,
        corner_edges.to_vec(alloc)?,
    );
    Ok(Geometry {
        mesh: mesh.ok().ok_or("no mesh")?,
    })
}

const ONE: i64 = 1 << 32;

/// A triangle, and an edge from it to a vertex of no face.
fn flag(rt: &impl Abort, alloc: Global) -> Result<Geometry, Fail> {
    geometry(
        rt,
        alloc,
        &[(0, 0, 0), (ONE, 0, 0), (0, ONE, 0), (0, 7 * ONE, 0)],
        &[(2, 3), (0, 1), (1, 2), (0, 2)],
        &[0, 3],
        &[0, 1, 2],
        &[1, 2, 3],
    )
}

const FLAG: &str = "v 0 0 0\nv 1 0 0\nv 0 1 0\nv 0 7 0\nl 3 4\nf 1 2 3\n";

/// Writes into a sink with that room and those failing calls, and compares the answer with what is
/// held.
fn write(
    rt: &impl Abort,
    alloc: Global,
    geometry: &Geometry,
    fail: &[(u64, u64)],
    room: usize,
    text: &str,
) -> Result<Put, Fail> {
    let mut out = MemSink::new(alloc, fail.to_vec(alloc)?, room)?;
    let answer = write_obj(geometry, &mut out);
    let held = match answer {
        Put::All => text.len() as u64,
        Put::Failed { taken } => taken,
    };
    assert_eq!(rt; out.held().len() as u64, held);
    assert!(rt; text.as_bytes().starts_with(out.held()));
    Ok(answer)
}

#[test]
fn only_an_edge_of_no_face_has_a_line(rt: HostRuntime) -> Result<(), Fail> {
    let alloc = rt.alloc();
    let flag = flag(&rt, alloc)?;
    assert_eq!(rt; write(&rt, alloc, &flag, &[], 100, FLAG)?, Put::All);
    let nothing = Geometry::empty(alloc)?;
    assert_eq!(rt; write(&rt, alloc, &nothing, &[], 0, "")?, Put::All);
    Ok(())
}

#[test]
fn the_bytes_that_went_in_are_counted_where_a_put_fails(rt: HostRuntime) -> Result<(), Fail> {
    let alloc = rt.alloc();
    let flag = flag(&rt, alloc)?;
    for taken in [0, 1, 9, 45] {
        let answer = write(&rt, alloc, &flag, &[(1, taken)], 100, FLAG)?;
        assert_eq!(rt; answer, Put::Failed { taken });
    }
    let answer = write(&rt, alloc, &flag, &[], 45, FLAG)?;
    assert_eq!(rt; answer, Put::Failed { taken: 45 });
    Ok(())
}

#[test]
fn numbers_have_as_few_digits_as_tell_them_apart(rt: HostRuntime) -> Result<(), Fail> {
    let alloc = rt.alloc();
    let one = geometry(
        &rt,
        alloc,
        &[(42950, -429496730, 10737418240)],
        &[],
        &[0],
        &[],
        &[],
    )?;
    let text = "v 0.0000100001 -0.1000000001 2.5\n";
    assert_eq!(rt; write(&rt, alloc, &one, &[], 100, text)?, Put::All);
    let largest = geometry(&rt, alloc, &[(i64::MAX, 0, 0)], &[], &[0], &[], &[])?;
    let text = "v 2147483647.9999999998 0 0\n";
    assert_eq!(rt; write(&rt, alloc, &largest, &[], 100, text)?, Put::All);
    Ok(())
}

/// How many edges the star has.
const RAYS: u32 = 10_000;

/// Edges from one vertex to each of ten thousand others.
fn star(rt: &impl Abort, alloc: Global) -> Result<Geometry, Fail> {
    let mut points = Vec::new(alloc);
    points.resize(RAYS as usize + 1, V3::ZERO)?;
    let mut edges = Vec::new(alloc);
    for k in 1..RAYS + 1 {
        edges.push((0, k))?;
    }
    assert!(rt; edges.len() < 20_000);
    let offsets = [0].to_vec(alloc)?;
    let mesh = Mesh::from_parts(
        alloc,
        points,
        edges,
        offsets,
        Vec::new(alloc),
        Vec::new(alloc),
    );
    Ok(Geometry {
        mesh: mesh.ok().ok_or("no mesh")?,
    })
}

fn star_text(alloc: Global) -> Result<String, Fail> {
    let mut text = String::new(alloc);
    for _ in 0..RAYS + 1 {
        text.push_str("v 0 0 0\n")?;
    }
    for k in 2..RAYS + 2 {
        writeln!(text, "l 1 {k}")?;
    }
    Ok(text)
}

#[test]
fn each_put_of_a_large_star_fails_alone(rt: HostRuntime) -> Result<(), Fail> {
    let alloc = rt.alloc();
    let star = star(&rt, alloc)?;
    let text = star_text(alloc)?;
    let text = text.as_str();
    let len = text.len();
    assert_eq!(rt; write(&rt, alloc, &star, &[], len, text)?, Put::All);
    let mut last = 0;
    for call in 1..20 {
        match write(&rt, alloc, &star, &[(call, 7)], len, text)? {
            Put::All => break,
            Put::Failed { .. } => last = call,
        }
    }
    assert_eq!(rt; last, 11);
    Ok(())
}

/// A cube as a modelling program writes it.
const CUBE: &str =
    "# a sample cube\n# two comment lines\nmtllib cube.mtl\no Cube\nv 1.000000 1.000000 -1.000000\nv 1.000000 -1.000000 -1.000000\nv 1.000000 1.000000 1.000000\nv 1.000000 -1.000000 1.000000\nv -1.000000 1.000000 -1.000000\nv -1.000000 -1.000000 -1.000000\nv -1.000000 1.000000 1.000000\nv -1.000000 -1.000000 1.000000\nvn -0.0000 1.0000 -0.0000\nvt 0.625000 0.500000\ns 0\nusemtl Material\nf 1/1/1 5/1/1 7/1/1 3/1/1\nf 4/1/1 3/1/1 7/1/1 8/1/1\nf 8/1/1 7/1/1 5/1/1 6/1/1\nf 6/1/1 2/1/1 4/1/1 8/1/1\nf 2/1/1 1/1/1 3/1/1 4/1/1\nf 6/1/1 5/1/1 1/1/1 2/1/1\n";

#[test]
fn reads_a_cube(rt: HostRuntime) {
    let Ok(cube) = read_obj(rt.alloc(), CUBE.as_bytes()) else {
        panic!(rt; "no mesh");
    };
    let topology = cube.topology();
    assert_eq!(rt; topology.points, 8);
    assert_eq!(rt;
        topology.edges,
        [
            (0, 4),
            (4, 6),
            (2, 6),
            (0, 2),
            (2, 3),
            (6, 7),
            (3, 7),
            (4, 5),
            (5, 7),
            (1, 5),
            (1, 3),
            (0, 1),
        ]
        .as_slice()
    );
    assert_eq!(rt; topology.faces, [0, 4, 8, 12, 16, 20, 24].as_slice());
    assert_eq!(rt;
        &topology.corner_points[..8],
        [0, 4, 6, 2, 3, 2, 6, 7].as_slice()
    );
    assert_eq!(rt;
        &topology.corner_edges[..8],
        [0, 1, 2, 3, 4, 2, 5, 6].as_slice()
    );
    assert_eq!(rt;
        cube.points()[1],
        V3 {
            x: Fx(ONE),
            y: Fx(-ONE),
            z: Fx(-ONE)
        }
    );
}

/// Texts with a bad line, its number and its rule.
static BAD: [(&str, u64, u8); 5] = [
    ("v 0 0 0\nv 1 0 0\nv 0 1 0\nf 1 2 0\n", 4, 3),
    ("v 0 0 0\nv 1 0 0\nv 0 1 0\nf 1 2 4\n", 4, 4),
    ("v 0 0 0\nv 1 0 0\nv 0 1 0\nf 1 2\n", 4, 2),
    ("v 1e100 0 0\n", 1, 1),
    ("# f\n\nf 1\\\n2\\\n", 3, 2),
];

#[test]
fn reports_the_first_bad_line(rt: HostRuntime) {
    for (text, line, rule) in BAD {
        match read_obj(rt.alloc(), text.as_bytes()) {
            Err(fault) => assert_eq!(rt; fault, ObjFault::Bad { line, rule }, "{text}"),
            Ok(_) => panic!(rt; "{text}"),
        }
    }
}

#[test]
fn what_is_written_is_read_again(rt: HostRuntime) -> Result<(), Fail> {
    let alloc = rt.alloc();
    let flag = flag(&rt, alloc)?;
    let mut out = MemSink::new(alloc, Vec::new(alloc), 100)?;
    assert_eq!(rt; write_obj(&flag, &mut out), Put::All);
    let Ok(again) = read_obj(alloc, out.held()) else {
        panic!(rt; "no mesh");
    };
    assert_eq!(rt; again.points(), flag.mesh.points());
    let (read, written) = (again.topology(), flag.mesh.topology());
    assert_eq!(rt; read.points, written.points);
    assert_eq!(rt; read.edges, written.edges);
    assert_eq!(rt; read.faces, written.faces);
    assert_eq!(rt; read.corner_points, written.corner_points);
    assert_eq!(rt; read.corner_edges, written.corner_edges);
    Ok(())
}
