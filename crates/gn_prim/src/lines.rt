ghost use Rattle.std.specs.Prelude.{◌≡◌, ◌≤◌, ◌^◌, ◌+ℤ◌, ◌*ℤ◌, [], pos, map, IfOk};
ghost use Rattle.std.specs.List.{range_with_len};
ghost use Rattle.gn_value.specs.Arithmetic.{sat};
ghost use Rattle.gn_shapes.specs.Lines.{point_of_line, line as line_shape};
ghost use Rattle.gn_geometry.specs.Meshes.{plain_mesh, IsSole};
ghost use Rattle.gn_prim.specs.Links.{links};

use gn_geometry::Mesh;
use gn_memory::Memory;
use gn_value::whole::saturate_i64;
use gn_value::{Fx, V3};
use std::alloc::Global;

/// A raw coordinate of a vertex on the line, brought into range once.
fn along(start: i64, offset: i64, number: u32) -> i64
    ensures { result ≡ sat (start +ℤ (pos number *ℤ offset)) }
{
    saturate_i64(start as i128 + number as i128 * offset as i128)
}

fn point(start: V3, offset: V3, number: u32) -> V3
    ensures { result ≡ point_of_line start offset number }
{
    V3 {
        x: Fx(along(start.x.0, offset.x.0, number)),
        y: Fx(along(start.y.0, offset.y.0, number)),
        z: Fx(along(start.z.0, offset.z.0, number)),
    }
}

fn points(alloc: Global, count: u32, start: V3, offset: V3) -> Result<Vec<V3>, Memory>
    ensures { IfOk result (λ points. points.items ≡ map (point_of_line start offset) (range_with_len 0 count)) }
{
    let mut points = Vec::with_capacity(alloc, count as usize)?;
    for number in 0..count {
        points.push(point(start, offset, number))?;
    }
    Ok(points)
}

/// Each of these many vertices but the last, with the next.
fn edges(alloc: Global, count: u32) -> Result<Vec<(u32, u32)>, Memory>
    ensures { IfOk result (λ edges. edges.items ≡ links count) }
{
    let mut edges = Vec::with_capacity(alloc, count as usize)?;
    for next in 1..count {
        edges.push((next - 1, next))?;
    }
    Ok(edges)
}

/// This number of vertices, from a start on by an offset each, and an edge from each to the next.
pub fn line(alloc: Global, count: u32, start: V3, offset: V3) -> Result<Mesh, Memory>
    requires { count ≤ 2 ^ 23 }
    ensures shape { IfOk result (λ m. plain_mesh m ≡ record { shape = line_shape count start offset; columns = [] }) }
    ensures sole { IfOk result IsSole }
{
    let points = points(alloc, count, start, offset)?;
    let edges = edges(alloc, count)?;
    let mut faces = Vec::with_capacity(alloc, 1)?;
    faces.push(0)?;
    Mesh::from_valid_parts(
        alloc,
        points,
        edges,
        faces,
        Vec::new(alloc),
        Vec::new(alloc),
    )
}
