ghost use Rattle.std.specs.Prelude.{◌≡◌, ◌≤◌, ◌<◌, ◌+◌, length, flat_map, slice_range};
ghost use Rattle.gn_decimal.specs.Decimal.{dec};
ghost use Rattle.gn_plain.specs.Topology.{AreOffsets, edge_of};
ghost use Rattle.gn_geom.specs.Meshes.{plain_of};
ghost use Rattle.gn_geom.specs.Geometries.{plain_geometry};
ghost use Rattle.gn_io.specs.Outside.{Rose};
ghost use Rattle.gn_io.specs.Sink.{OnFailedPut};
ghost use Rattle.gn_obj.specs.Written.{spaced, vertex_word, vertex_line, edge_line};
ghost use Rattle.gn_obj.specs.Written.{loose_edge_line, obj_text};
ghost use Rattle.gn_obj.specs.Pages.{TakesText, Written, with_text};
ghost use Rattle.gn_obj.specs.Texts.{face_text, faces_text, loose_edges_text, mesh_text};

use crate::page::{Page, Unwritten, flush, make_room};
use gn_geom::{Geometry, Mesh};
use gn_io::{Put, Sink};
use gn_value::{Fx, V3};

/// Puts a space and a number behind what is on the page.
#[inline(always)]
fn append_number(page: &mut Page, value: Fx)
    requires { length page.old.waiting + 25 ≤ 16384 }
    ensures text { page.new ≡ with_text page.old (spaced (dec value.0)) }
    ensures room { length page.new.waiting ≤ length page.old.waiting + 25 }
{
    page.append(b" ");
    page.append_number(value);
}

/// Puts a space and the number of a vertex, counted from 1, behind what is on the page.
#[inline(always)]
fn append_vertex(page: &mut Page, vertex: u32)
    requires { length page.old.waiting + 11 ≤ 16384 }
    ensures text { page.new ≡ with_text page.old (vertex_word vertex) }
    ensures room { length page.new.waiting ≤ length page.old.waiting + 11 }
{
    page.append(b" ");
    page.append_whole(u64::from(vertex) + 1);
}

/// Puts the line of a vertex behind what is on the page.
#[inline(always)]
fn append_vertex_line(page: &mut Page, point: V3)
    requires { length page.old.waiting + 128 ≤ 16384 }
    ensures { page.new ≡ with_text page.old (vertex_line point) }
{
    page.append(b"v");
    append_number(page, point.x);
    append_number(page, point.y);
    append_number(page, point.z);
    page.append(b"\n");
}

/// Puts the line of an edge behind what is on the page.
#[inline(always)]
fn append_edge_line(page: &mut Page, edge: (u32, u32))
    requires { length page.old.waiting + 128 ≤ 16384 }
    ensures { page.new ≡ with_text page.old (edge_line (edge_of edge)) }
{
    page.append(b"l");
    append_vertex(page, edge.0);
    append_vertex(page, edge.1);
    page.append(b"\n");
}

/// Writes a short text.
#[inline(always)]
fn write_text<K: Sink>(out: &mut K, page: &mut Page, text: &[u8]) -> Result<(), Unwritten>
    requires { length text.now ≤ 128 }
    ensures { Written text.now K.held K.faults out.old out.new page.old page.new result }
{
    make_room(out, page)?;
    page.append(text);
    Ok(())
}

/// Writes a space and the number of a vertex.
#[inline(always)]
fn write_vertex<K: Sink>(out: &mut K, page: &mut Page, vertex: u32) -> Result<(), Unwritten>
    ensures { Written (vertex_word vertex)
        K.held K.faults out.old out.new page.old page.new result }
{
    make_room(out, page)?;
    append_vertex(page, vertex);
    Ok(())
}

/// Writes the line of a vertex.
#[inline(always)]
fn write_vertex_line<K: Sink>(out: &mut K, page: &mut Page, point: V3) -> Result<(), Unwritten>
    ensures { Written (vertex_line point) K.held K.faults out.old out.new page.old page.new result }
{
    make_room(out, page)?;
    append_vertex_line(page, point);
    Ok(())
}

/// Writes the line of an edge.
#[inline(always)]
fn write_edge_line<K: Sink>(out: &mut K, page: &mut Page, edge: (u32, u32)) -> Result<(), Unwritten>
    ensures { Written (edge_line (edge_of edge))
        K.held K.faults out.old out.new page.old page.new result }
{
    make_room(out, page)?;
    append_edge_line(page, edge);
    Ok(())
}

/// Writes the lines of all vertices.
fn write_points<K: Sink>(out: &mut K, page: &mut Page, points: &[V3]) -> Result<(), Unwritten>
    ensures { Written (flat_map vertex_line points.now)
        K.held K.faults out.old out.new page.old page.new result }
{
    for point in points {
        write_vertex_line(out, page, *point)?;
    }
    Ok(())
}

/// Writes the line of an edge, if no face has it.
#[inline(always)]
fn write_loose_edge<K: Sink>(
    out: &mut K,
    page: &mut Page,
    mesh: &Mesh,
    number: u32,
    edge: (u32, u32),
) -> Result<(), Unwritten>
    requires { number < length mesh.now.edges.items }
    ensures { Written (loose_edge_line (plain_of mesh.now) (number, edge_of edge))
        K.held K.faults out.old out.new page.old page.new result }
{
    if mesh.loose(number) {
        return write_edge_line(out, page, edge);
    }
    Ok(())
}

/// Writes the lines of the edges that no face has.
fn write_loose_edges<K: Sink>(out: &mut K, page: &mut Page, mesh: &Mesh) -> Result<(), Unwritten>
    ensures { Written (loose_edges_text mesh.now)
        K.held K.faults out.old out.new page.old page.new result }
{
    for (number, edge) in mesh.topology().edges.iter().enumerate() {
        write_loose_edge(out, page, mesh, number as u32, *edge)?;
    }
    Ok(())
}

/// Writes spaces and the numbers of vertices.
#[inline(always)]
fn write_vertices<K: Sink>(out: &mut K, page: &mut Page, vertices: &[u32]) -> Result<(), Unwritten>
    ensures { Written (flat_map vertex_word vertices.now)
        K.held K.faults out.old out.new page.old page.new result }
{
    for vertex in vertices {
        write_vertex(out, page, *vertex)?;
    }
    Ok(())
}

/// Writes the line of a face.
#[inline(always)]
fn write_face<K: Sink>(out: &mut K, page: &mut Page, vertices: &[u32]) -> Result<(), Unwritten>
    ensures { Written (face_text vertices.now)
        K.held K.faults out.old out.new page.old page.new result }
{
    write_text(out, page, b"f")?;
    write_vertices(out, page, vertices)?;
    write_text(out, page, b"\n")
}

/// Writes the lines of all faces, whose corners begin at these offsets.
fn write_faces<K: Sink>(
    out: &mut K,
    page: &mut Page,
    offsets: &[u32],
    corner_points: &[u32],
) -> Result<(), Unwritten>
    requires { AreOffsets (length corner_points.now) offsets.now }
    ensures { Written (faces_text offsets.now corner_points.now)
        K.held K.faults out.old out.new page.old page.new result }
{
    let [first, ends @ ..] = offsets else {
        return Ok(());
    };
    let mut begin = *first as usize;
    for end in ends {
        let end = *end as usize;
        write_corners(out, page, corner_points, begin, end)?;
        begin = end;
    }
    Ok(())
}

/// Writes the line of a face by where its corners begin and end.
#[inline(always)]
fn write_corners<K: Sink>(
    out: &mut K,
    page: &mut Page,
    corner_points: &[u32],
    begin: usize,
    end: usize,
) -> Result<(), Unwritten>
    requires { (begin ≤ end) × (end ≤ length corner_points.now) }
    ensures { Written (face_text (slice_range corner_points.now begin end))
        K.held K.faults out.old out.new page.old page.new result }
{
    write_face(out, page, &corner_points[begin..end])
}

/// Writes the lines of a mesh: its vertices, then the edges that no face has, then its faces.
fn write_mesh<K: Sink>(out: &mut K, page: &mut Page, mesh: &Mesh) -> Result<(), Unwritten>
    ensures { Written (mesh_text mesh.now)
        K.held K.faults out.old out.new page.old page.new result }
{
    write_points(out, page, mesh.points())?;
    write_loose_edges(out, page, mesh)?;
    let topology = mesh.topology();
    write_faces(out, page, topology.faces, topology.corner_points)
}

/// Writes a geometry as OBJ: a line `v X Y Z` for each vertex, then `l A B` for each edge that no
/// face has, in the order of the edges, and then `f A B C` and further for each face. Vertices are
/// counted from 1. It takes no memory.
///
/// `Failed` comes only where the count of faults of `out` rose in this call. Its `taken` is the
/// number of bytes that went in, or 2^64 - 1 where there are more; they are a front part of the
/// text.
pub fn write_obj<K: Sink>(geometry: &Geometry, out: &mut K) -> Put
    ensures takes { TakesText (obj_text (plain_geometry geometry.now)) result
        (K.held out.old) (K.held out.new) }
    ensures failed { OnFailedPut result (Rose (K.faults out.old) (K.faults out.new)) }
    ensures faults { K.faults out.old ≤ K.faults out.new }
{
    let mut page = Page::new();
    match write_mesh(out, &mut page, &geometry.mesh) {
        Ok(()) => {}
        Err(_) => return Put::Failed { taken: page.sent() },
    }
    match flush(out, &mut page) {
        Ok(()) => Put::All,
        Err(_) => Put::Failed { taken: page.sent() },
    }
}
