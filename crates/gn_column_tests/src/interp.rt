use gn_attr::{Column, array};
use gn_geom::Mesh;
use gn_interp::{adapt, count_on};
use gn_value::Place::{self, Corner, Edge, Face, Point};
use gn_value::{Fx, V3};
use std::alloc::Global;
use std::process::Abort;
use std::test::Fail;

/// The triangle 0 1 2 and the quad 1 3 4 2, which share an edge, and a vertex that nothing has.
pub(crate) fn sample(alloc: Global) -> Result<Mesh, Fail> {
    let edges = [(0, 1), (1, 2), (0, 2), (1, 3), (3, 4), (2, 4)];
    let mesh = Mesh::from_parts(
        alloc,
        [V3::ZERO; 6].to_vec(alloc)?,
        edges.to_vec(alloc)?,
        [0, 3, 7].to_vec(alloc)?,
        [0, 1, 2, 1, 3, 4, 2].to_vec(alloc)?,
        [0, 1, 2, 3, 4, 5, 1].to_vec(alloc)?,
    )?;
    Ok(mesh)
}

/// A column of the sample on another place.
fn adapted(
    rt: &impl Abort,
    alloc: Global,
    column: &Column,
    from: Place,
    to: Place,
) -> Result<Column, Fail> {
    let mesh = sample(alloc)?;
    let topology = mesh.topology();
    assert_eq!(rt; column.len(), count_on(&topology, from));
    Ok(adapt(alloc, column, from, to, &topology)?)
}

fn integers(alloc: Global, values: &[i32]) -> Result<Column, Fail> {
    Ok(Column::Int(array::array_of(values.to_vec(alloc)?)?))
}

fn truths(alloc: Global, values: &[bool]) -> Result<Column, Fail> {
    Ok(Column::Truth(array::array_of(values.to_vec(alloc)?)?))
}

/// Compares integers of a place, on another one, with those that are wanted.
fn compare(
    rt: &impl Abort,
    alloc: Global,
    (from, values): (Place, &[i32]),
    (to, want): (Place, &[i32]),
) -> Result<(), Fail> {
    let is_wanted = match adapted(rt, alloc, &integers(alloc, values)?, from, to)? {
        Column::Int(means) => means.items() == want,
        _ => false,
    };
    assert!(rt; is_wanted);
    Ok(())
}

#[test]
fn integers_become_means_that_are_rounded_down(rt: HostRuntime) -> Result<(), Fail> {
    let points: &[i32] = &[1, 2, 4, -1, 0, 9];
    let edges: &[i32] = &[1, 2, 4, -1, 0, 3];
    let faces: &[i32] = &[3, -4];
    let corners: &[i32] = &[1, 2, 4, 5, -1, 0, 3];
    let rows: [(Place, &[i32], Place, &[i32]); 14] = [
        (Point, points, Edge, &[1, 3, 2, 0, -1, 2]),
        (Point, points, Face, &[2, 1]),
        (Point, points, Corner, &[1, 2, 4, 2, -1, 0, 4]),
        (Edge, edges, Point, &[2, 0, 3, -1, 1, 0]),
        (Edge, edges, Face, &[2, 1]),
        (Edge, edges, Corner, &[2, 1, 3, 0, -1, 1, 2]),
        (Edge, edges, Edge, edges),
        (Face, faces, Point, &[3, -1, -1, -4, -4, 0]),
        (Face, faces, Edge, &[3, -1, 3, -4, -4, -4]),
        (Face, faces, Corner, &[3, 3, 3, -4, -4, -4, -4]),
        (Corner, corners, Point, &[1, 3, 3, -1, 0, 0]),
        (Corner, corners, Edge, &[1, 3, 2, 2, -1, 1]),
        (Corner, corners, Face, &[2, 1]),
        (Point, &[i32::MAX; 6], Face, &[i32::MAX; 2]),
    ];
    for (from, values, to, want) in rows {
        compare(&rt, rt.alloc(), (from, values), (to, want))?;
    }
    Ok(())
}

#[test]
fn one_truth_suffices_on_three_pairs_of_places(rt: HostRuntime) -> Result<(), Fail> {
    let (y, n) = (true, false);
    let rows: [(Place, &[bool], Place, &[bool]); 8] = [
        (Point, &[y, y, n, y, n, n], Edge, &[y, n, n, y, n, n]),
        (Edge, &[y, n, n, n, n, y], Point, &[y, y, y, n, y, n]),
        (Edge, &[y, y, y, n, y, y], Face, &[y, n]),
        (Face, &[y, n], Point, &[y, y, y, n, n, n]),
        (Face, &[y, n], Edge, &[y, y, y, n, n, n]),
        (Face, &[y, n], Corner, &[y, y, y, n, n, n, n]),
        (Corner, &[y, y, n, y, y, y, y], Point, &[y, y, n, y, y, n]),
        (Corner, &[y, y, n, y, y, y, y], Face, &[n, y]),
    ];
    for (from, values, to, want) in rows {
        let is_wanted = match adapted(&rt, rt.alloc(), &truths(rt.alloc(), values)?, from, to)? {
            Column::Truth(truths) => truths.items() == want,
            _ => false,
        };
        assert!(rt; is_wanted);
    }
    Ok(())
}

#[test]
fn vectors_become_means_by_component(rt: HostRuntime) -> Result<(), Fail> {
    let at = |x, y, z| V3 {
        x: Fx(x),
        y: Fx(y),
        z: Fx(z),
    };
    let values = [
        at(3, 4, -1),
        at(3, 4, 0),
        at(3, 0, 0),
        at(i64::MIN, 0, 1),
        at(0, -9, 1),
        at(7, 7, 7),
    ];
    let column = Column::Vector(array::array_of(values.to_vec(rt.alloc())?)?);
    let quad = at(i64::MIN / 4 + 1, -2, 0);
    let is_wanted = match adapted(&rt, rt.alloc(), &column, Point, Face)? {
        Column::Vector(means) => means.items() == [at(3, 2, -1), quad].as_slice(),
        _ => false,
    };
    assert!(rt; is_wanted);
    Ok(())
}

#[test]
fn fixed_numbers_become_means_too(rt: HostRuntime) -> Result<(), Fail> {
    let values = [Fx(5), Fx(-2), Fx(0), Fx(1), Fx(1), Fx(1), Fx(1)];
    let column = Column::Fixed(array::array_of(values.to_vec(rt.alloc())?)?);
    let is_wanted = match adapted(&rt, rt.alloc(), &column, Corner, Face)? {
        Column::Fixed(means) => means.items() == [Fx(1), Fx(1)].as_slice(),
        _ => false,
    };
    assert!(rt; is_wanted);
    Ok(())
}
