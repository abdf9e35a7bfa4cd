use gn_geom::{Geometry, Mesh, PartsFault, edges_of};
use gn_value::{Fx, V3};
use std::alloc::Global;
use std::process::Abort;
use std::test::Fail;

/// What lists make: a mesh of four vertices, or the fault.
fn made(
    rt: &impl Abort,
    alloc: Global,
    edges: &[(u32, u32)],
    faces: &[u32],
    corner_points: &[u32],
    corner_edges: &[u32],
) -> Result<Result<Mesh, PartsFault>, Fail> {
    assert!(rt; edges.len() < 100);
    assert!(rt; faces.len() < 100);
    assert!(rt; corner_points.len() < 100);
    assert!(rt; corner_edges.len() < 100);
    Ok(Mesh::from_parts(
        alloc,
        [V3::ZERO; 4].to_vec(alloc)?,
        edges.to_vec(alloc)?,
        faces.to_vec(alloc)?,
        corner_points.to_vec(alloc)?,
        corner_edges.to_vec(alloc)?,
    ))
}

fn is_loose(rt: &impl Abort, mesh: &Mesh, edge: u32) -> bool {
    assert!(rt; (edge as usize) < mesh.topology().edges.len());
    mesh.loose(edge)
}

#[test]
fn a_triangle_with_one_more_edge_is_a_mesh(rt: HostRuntime) -> Result<(), Fail> {
    let edges = [(0, 1), (2, 3), (1, 2), (0, 2)];
    let mut mesh = made(&rt, rt.alloc(), &edges, &[0, 3], &[0, 1, 2], &[0, 2, 3])?
        .ok()
        .ok_or("a fault")?;
    assert_eq!(rt; mesh.points().len(), 4);
    let topology = mesh.topology();
    assert_eq!(rt; topology.points, 4);
    assert_eq!(rt; topology.edges, edges.as_slice());
    assert_eq!(rt; topology.faces, [0, 3].as_slice());
    assert_eq!(rt; topology.corner_points, [0, 1, 2].as_slice());
    assert_eq!(rt; topology.corner_edges, [0, 2, 3].as_slice());
    for (edge, loose) in [(0, false), (1, true), (2, false), (3, false)] {
        assert_eq!(rt; is_loose(&rt, &mesh, edge), loose);
    }
    let moved = [V3::splat(Fx(7)); 4].to_vec(rt.alloc())?;
    assert_eq!(rt; mesh.points().len(), 4);
    assert_eq!(rt; moved.len(), 4);
    mesh.set_points(moved)?;
    assert_eq!(rt; mesh.points(), [V3::splat(Fx(7)); 4].as_slice());
    assert_eq!(rt; mesh.topology().points, 4);
    Ok(())
}

#[test]
fn one_wrong_number_makes_no_mesh(rt: HostRuntime) -> Result<(), Fail> {
    let good = [(0u32, 1u32), (1, 2), (0, 2), (2, 3)];
    let triangle = [0u32, 1, 2];
    let numbers = [0u32, 1, 2];
    let whole = [0u32, 3];
    let cases: [(&[(u32, u32)], &[u32], &[u32], &[u32], &str); 16] = [
        (
            &[(0, 1), (1, 2), (0, 2), (2, 4)],
            &whole,
            &triangle,
            &numbers,
            "an edge to no vertex",
        ),
        (
            &[(0, 1), (1, 2), (0, 2), (3, 2)],
            &whole,
            &triangle,
            &numbers,
            "the greater first",
        ),
        (
            &[(0, 1), (1, 2), (0, 2), (3, 3)],
            &whole,
            &triangle,
            &numbers,
            "an edge to itself",
        ),
        (
            &[(0, 1), (1, 2), (0, 2), (1, 2)],
            &whole,
            &triangle,
            &numbers,
            "an edge twice",
        ),
        (&good, &[], &triangle, &numbers, "no offsets"),
        (&good, &[], &[], &[], "no offsets and no corners"),
        (&good, &[0], &triangle, &numbers, "corners of no face"),
        (&good, &[1, 4], &triangle, &numbers, "a first offset of 1"),
        (&good, &[0, 2], &[0, 1], &[0, 0], "a face of two corners"),
        (
            &good,
            &[0, 3, 3],
            &triangle,
            &numbers,
            "a face of no corners",
        ),
        (
            &good,
            &whole,
            &triangle,
            &[0, 1],
            "a corner without an edge",
        ),
        (&good, &whole, &[0, 1, 4], &numbers, "a corner at no vertex"),
        (
            &good,
            &whole,
            &triangle,
            &[0, 1, 4],
            "a corner with no edge",
        ),
        (
            &good,
            &[0, 4],
            &[0, 1, 2, 1],
            &[0, 1, 1, 0],
            "a vertex twice",
        ),
        (
            &good,
            &whole,
            &triangle,
            &[0, 2, 1],
            "edges of other corners",
        ),
        (&good, &whole, &triangle, &[0, 1, 3], "another closing edge"),
    ];
    for (edges, faces, corner_points, corner_edges, what) in cases {
        let fault = made(&rt, rt.alloc(), edges, faces, corner_points, corner_edges)?.err();
        assert_eq!(rt; fault, Some(PartsFault::Invalid), "{what}");
    }
    Ok(())
}

/// The vertices of each face of the sample cube.
const CUBE: [[u32; 4]; 6] = [
    [0, 4, 6, 2],
    [3, 2, 6, 7],
    [7, 6, 4, 5],
    [5, 1, 3, 7],
    [1, 0, 2, 3],
    [5, 4, 0, 1],
];

#[test]
fn the_edges_of_a_cube_come_as_they_are_first_met(rt: HostRuntime) -> Result<(), Fail> {
    let mut faces = Vec::new(rt.alloc());
    for face in CUBE {
        faces.push(face.to_vec(rt.alloc())?)?;
    }
    let edges = edges_of(rt.alloc(), &faces)?;
    let wanted = [
        (0, 4),
        (4, 6),
        (2, 6),
        (0, 2),
        (2, 3),
        (6, 7),
        (3, 7),
        (4, 5),
        (5, 7),
        (1, 5),
        (1, 3),
        (0, 1),
    ];
    assert_eq!(rt; edges.as_slice(), wanted.as_slice());
    Ok(())
}

#[test]
fn ten_thousand_triangles_around_one_vertex(rt: HostRuntime) -> Result<(), Fail> {
    let mut faces = Vec::new(rt.alloc());
    for k in 1u32..10_001 {
        faces.push([0, k, k + 1].to_vec(rt.alloc())?)?;
    }
    let edges = edges_of(rt.alloc(), &faces)?;
    assert_eq!(rt; edges.len(), 20_001);
    assert_eq!(rt;
        &edges[..5],
        [(0, 1), (1, 2), (0, 2), (2, 3), (0, 3)].as_slice()
    );
    assert_eq!(rt; edges[20_000], (0, 10_001));
    Ok(())
}

#[test]
fn the_empty_geometry_has_nothing(rt: HostRuntime) -> Result<(), Fail> {
    let geometry = Geometry::empty(rt.alloc())?;
    assert_eq!(rt; geometry.mesh.points().len(), 0);
    let topology = geometry.mesh.topology();
    assert_eq!(rt; topology.edges.len(), 0);
    assert_eq!(rt; topology.faces, [0].as_slice());
    Ok(())
}
