use gn_memory::Memory;
use gn_prim::{cuboid, line};
use gn_value::Place::{Corner, Edge, Face, Point};
use gn_value::{Fx, V3};
use std::alloc::Global;
use std::test::Fail;

/// The vertices of a line, and how many edges it has.
fn ends_of_a_line(alloc: Global) -> Result<(Option<V3>, Option<V3>, u64), Memory> {
    let line = line(alloc, 4, V3::splat(Fx(-1)), V3::splat(Fx(3)))?;
    Ok((
        line.points().first().copied(),
        line.points().last().copied(),
        line.count(Edge),
    ))
}

#[test]
fn a_line_has_an_edge_less_than_vertices(rt: HostRuntime) -> Result<(), Fail> {
    let (first, last, edges) = ends_of_a_line(rt.alloc())?;
    assert!(rt; first == Some(V3::splat(Fx(-1))));
    assert!(rt; last == Some(V3::splat(Fx(8))));
    assert!(rt; edges == 3);
    Ok(())
}

#[test]
fn a_cuboid_has_six_faces(rt: HostRuntime) -> Result<(), Fail> {
    let cuboid = cuboid(rt.alloc(), V3::ZERO, V3::splat(Fx(1)))?;
    for (place, count) in [(Point, 8), (Edge, 12), (Face, 6), (Corner, 24)] {
        assert!(rt; cuboid.count(place) == count);
    }
    assert!(rt; cuboid.points().last().copied() == Some(V3::splat(Fx(1))));
    Ok(())
}
