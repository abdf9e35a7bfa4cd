ghost use Rattle.std.specs.Prelude.{◌≡◌, ◌<◌, ◌≤◌, ◌+◌, ◌-◌, ◌*◌, ◌^◌, ◌++◌, [], suc, map, flat_map, IfOk, OnOk};
ghost use Rattle.std.specs.List.{range_with_len};
ghost use Rattle.gn_shapes.specs.Grids.{along_side, cells, grid as grid_shape};
ghost use Rattle.gn_geometry.specs.Meshes.{plain_mesh, IsSole};
ghost use Rattle.gn_grid.specs.GridLists.{point_in, up_pair, across_pair, face_cells, face_vertices, face_edges, edge_pairs, up_from_first, across_from_first, four_vertices, four_edges};

use gn_geometry::Mesh;
use gn_memory::Memory;
use gn_value::whole::{divide_down, saturate_i64};
use gn_value::{Fx, V3};
use std::alloc::Global;

/// The raw coordinate of a vertex on a side of a size, among a count that share it evenly.
fn along(size: i64, count: u32, number: u32) -> i64
    requires { number < count }
    ensures { result ≡ along_side size count number }
{
    if count == 1 {
        return 0;
    }
    let steps = count as i128 - 1;
    saturate_i64(divide_down((2 * number as i128 - steps) * size as i128, 2 * steps))
}

/// The raw coordinates of all vertices on a side.
fn side(alloc: Global, size: i64, count: u32) -> Result<Vec<i64>, Memory>
    ensures { IfOk result (λ places. places.items ≡ map (along_side size count) (range_with_len 0 count)) }
{
    let mut places = Vec::with_capacity(alloc, count as usize)?;
    for number in 0..count {
        places.push(along(size, count, number))?;
    }
    Ok(places)
}

fn point(x: i64, y: i64) -> V3
    ensures { result ≡ point_in x y }
{
    V3 {
        x: Fx(x),
        y: Fx(y),
        z: Fx(0),
    }
}

/// Adds the vertices of a column.
fn add_points(points: &mut Vec<V3>, x: i64, ys: &[i64]) -> Result<(), Memory>
    ensures { OnOk result (points.new.items ≡ points.old.items ++ map (point_in x) ys.now) }
{
    for y in ys.iter() {
        points.push(point(x, *y))?;
    }
    Ok(())
}

/// The vertices at these coordinates, by x and then by y.
fn points(alloc: Global, count: u32, xs: &[i64], ys: &[i64]) -> Result<Vec<V3>, Memory>
    ensures { IfOk result (λ points. points.items ≡ flat_map (λ x. map (point_in x) ys.now) xs.now) }
{
    let mut points = Vec::with_capacity(alloc, count as usize)?;
    for x in xs.iter() {
        add_points(&mut points, *x, ys)?;
    }
    Ok(points)
}

/// Adds the edges up a column whose lowest vertex is `first`.
fn add_up(edges: &mut Vec<(u32, u32)>, first: u32, steps: u32) -> Result<(), Memory>
    requires { first + steps < 2 ^ 32 }
    ensures { OnOk result (edges.new.items ≡ edges.old.items ++ map (up_from_first first) (range_with_len 0 steps)) }
{
    for y in 0..steps {
        edges.push((first + y, first + y + 1))?;
    }
    Ok(())
}

/// Adds the edges up all columns.
fn add_all_up(edges: &mut Vec<(u32, u32)>, columns: u32, rows: u32) -> Result<(), Memory>
    requires { columns * rows ≤ 2 ^ 23 }
    ensures { OnOk result (edges.new.items ≡ edges.old.items ++ map (up_pair columns rows) (cells columns (rows - 1))) }
{
    let steps = rows.saturating_sub(1);
    for x in 0..columns {
        add_up(edges, x * rows, steps)?;
    }
    Ok(())
}

/// Adds the edges from a column, whose lowest vertex is `first`, to the next.
fn add_across(edges: &mut Vec<(u32, u32)>, first: u32, next: u32, rows: u32) -> Result<(), Memory>
    requires first { first + rows < 2 ^ 32 }
    requires next { next + rows < 2 ^ 32 }
    ensures { OnOk result (edges.new.items ≡ edges.old.items ++ map (across_from_first first next) (range_with_len 0 rows)) }
{
    for y in 0..rows {
        edges.push((first + y, next + y))?;
    }
    Ok(())
}

/// Adds the edges from each column to the next.
fn add_all_across(edges: &mut Vec<(u32, u32)>, columns: u32, rows: u32) -> Result<(), Memory>
    requires { columns * rows ≤ 2 ^ 23 }
    ensures { OnOk result (edges.new.items ≡ edges.old.items ++ map (across_pair columns rows) (cells (columns - 1) rows)) }
{
    for x in 0..columns.saturating_sub(1) {
        add_across(edges, x * rows, (x + 1) * rows, rows)?;
    }
    Ok(())
}

fn edges(alloc: Global, columns: u32, rows: u32, count: u32) -> Result<Vec<(u32, u32)>, Memory>
    requires { columns * rows ≤ 2 ^ 23 }
    ensures { IfOk result (λ edges. edges.items ≡ edge_pairs columns rows) }
{
    let mut edges = Vec::with_capacity(alloc, count as usize)?;
    add_all_up(&mut edges, columns, rows)?;
    add_all_across(&mut edges, columns, rows)?;
    Ok(edges)
}

/// Adds the corners' vertices of the faces between a column, whose lowest vertex is `first`, and the next.
fn add_vertices(corners: &mut Vec<u32>, first: u32, next: u32, steps: u32) -> Result<(), Memory>
    requires first { first + steps < 2 ^ 32 }
    requires next { next + steps < 2 ^ 32 }
    ensures { OnOk result (corners.new.items ≡ corners.old.items ++ flat_map (four_vertices first next) (range_with_len 0 steps)) }
{
    for y in 0..steps {
        corners.extend_from_slice(&[first + y, next + y, next + y + 1, first + y + 1])?;
    }
    Ok(())
}

/// The vertices of all corners.
fn corner_points(alloc: Global, columns: u32, rows: u32, faces: u32) -> Result<Vec<u32>, Memory>
    requires { columns * rows ≤ 2 ^ 23 }
    ensures { IfOk result (λ corners. corners.items ≡ flat_map (face_vertices columns rows) (face_cells columns rows)) }
{
    let mut corners = Vec::with_capacity(alloc, faces as usize * 4)?;
    let steps = rows.saturating_sub(1);
    for x in 0..columns.saturating_sub(1) {
        add_vertices(&mut corners, x * rows, (x + 1) * rows, steps)?;
    }
    Ok(corners)
}

/// Adds the corners' edges of the faces between two columns, by the number of the lowest edge below, at the right and at the left.
fn add_edges(
    corners: &mut Vec<u32>,
    below: u32,
    right: u32,
    left: u32,
    steps: u32,
) -> Result<(), Memory>
    requires below { below + steps < 2 ^ 32 }
    requires right { right + steps < 2 ^ 32 }
    requires left { left + steps < 2 ^ 32 }
    ensures { OnOk result (corners.new.items ≡ corners.old.items ++ flat_map (four_edges below right left) (range_with_len 0 steps)) }
{
    for y in 0..steps {
        corners.extend_from_slice(&[below + y, right + y, below + y + 1, left + y])?;
    }
    Ok(())
}

/// The edges of all corners.
fn corner_edges(alloc: Global, columns: u32, rows: u32, faces: u32) -> Result<Vec<u32>, Memory>
    requires { columns * rows ≤ 2 ^ 23 }
    ensures { IfOk result (λ corners. corners.items ≡ flat_map (face_edges columns rows) (face_cells columns rows)) }
{
    let mut corners = Vec::with_capacity(alloc, faces as usize * 4)?;
    let steps = rows.saturating_sub(1);
    let across = columns * steps;
    for x in 0..columns.saturating_sub(1) {
        add_edges(
            &mut corners,
            across + x * rows,
            (x + 1) * steps,
            x * steps,
            steps,
        )?;
    }
    Ok(corners)
}

/// Where the corners of each face begin, and their number at last.
fn offsets(alloc: Global, faces: u32) -> Result<Vec<u32>, Memory>
    requires { 4 * faces ≤ 2 ^ 23 }
    ensures { IfOk result (λ offsets. offsets.items ≡ map (λ k. 4 * k) (range_with_len 0 (suc faces))) }
{
    let mut offsets = Vec::with_capacity(alloc, faces as usize + 1)?;
    for face in 0..faces + 1 {
        offsets.push(4 * face)?;
    }
    Ok(offsets)
}

/// The grid of these sizes with these numbers of vertices along x and along y, which has nothing where one of the numbers is 0.
pub fn grid(
    alloc: Global,
    size_x: Fx,
    size_y: Fx,
    vertices_x: u32,
    vertices_y: u32,
) -> Result<Mesh, Memory>
    requires points { vertices_x * vertices_y ≤ 2 ^ 23 }
    requires edges { vertices_x * (vertices_y - 1) + (vertices_x - 1) * vertices_y ≤ 2 ^ 23 }
    requires corners { 4 * ((vertices_x - 1) * (vertices_y - 1)) ≤ 2 ^ 23 }
    ensures shape { IfOk result (λ m. plain_mesh m ≡ record { shape = grid_shape vertices_x vertices_y size_x.0 size_y.0; columns = [] }) }
    ensures sole { IfOk result IsSole }
{
    let (columns, rows) = (vertices_x, vertices_y);
    let (across, up) = (columns.saturating_sub(1), rows.saturating_sub(1));
    let faces = across * up;
    let xs = side(alloc, size_x.0, columns)?;
    let ys = side(alloc, size_y.0, rows)?;
    Mesh::from_valid_parts(
        alloc,
        points(alloc, columns * rows, &xs, &ys)?,
        edges(alloc, columns, rows, columns * up + across * rows)?,
        offsets(alloc, faces)?,
        corner_points(alloc, columns, rows, faces)?,
        corner_edges(alloc, columns, rows, faces)?,
    )
}
