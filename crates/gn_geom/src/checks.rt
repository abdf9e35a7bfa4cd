// Whether lists are the parts of a mesh. Each check looks at a list once.
ghost use Rattle.std.specs.Prelude.{◌≡◌, ◌≢◌, ◌↔◌, ◌<◌, ◌≤◌, ◌^◌, ℕ, length, slice_range};
ghost use Rattle.std.specs.Prelude.{IsTrue, All, AllPairs, IfOk};
ghost use Rattle.gn_plain.specs.Topology.{AreOffsets, IsNumbered, IsValid};
ghost use Rattle.gn_geom.specs.Meshes.{topology_with};
ghost use Rattle.gn_geom.specs.Faces.{AreAround, AreFaces, IsFace};

use gn_edges::{Edges, edge_between};
use gn_memory::Memory;
use std::alloc::Global;

/// Whether each edge has its lesser vertex first.
pub(crate) fn have_lesser_first(edges: &[(u32, u32)]) -> bool
    ensures { IsTrue result ↔ All (λ e. e.0 < e.1) edges.now }
{
    edges.iter().all(|edge| edge.0 < edge.1)
}

/// Whether each edge is between vertices that are there.
pub(crate) fn have_vertices(edges: &[(u32, u32)], points: usize) -> bool
    ensures { IsTrue result ↔ All (λ e. e.1 < points) edges.now }
{
    edges.iter().all(|edge| (edge.1 as usize) < points)
}

/// Whether each number is below the count.
pub(crate) fn are_below(numbers: &[u32], count: usize) -> bool
    ensures { IsTrue result ↔ All (λ n. n < count) numbers.now }
{
    numbers.iter().all(|number| (*number as usize) < count)
}

/// Whether no edge is there twice.
pub(crate) fn edges_differ(alloc: Global, edges: &[(u32, u32)]) -> Result<bool, Memory>
    ensures { IfOk result (λ b. IsTrue b ↔ AllPairs (λ a b. a ≢ b) edges.now) }
{
    let mut seen = Edges::new(alloc);
    for edge in edges {
        if !seen.insert(*edge)? {
            return Ok(false);
        }
    }
    Ok(true)
}

/// Whether the offsets rise from 0 by at least 3 to the count.
pub(crate) fn are_offsets(offsets: &[u32], count: usize) -> bool
    ensures { IsTrue result ↔ AreOffsets count offsets.now }
{
    let [first, others @ ..] = offsets else {
        return false;
    };
    if *first != 0 {
        return false;
    }
    let mut from = 0;
    for next in others {
        if u64::from(*next) < u64::from(from) + 3 {
            return false;
        }
        from = *next;
    }
    from as usize == count
}

/// Whether a face names no vertex twice. Each vertex that it names is marked with its number.
fn differ(vertices: &[u32], marks: &mut [u32], number: u32) -> bool
    requires within { All (λ v. v < length marks.old) vertices.now }
    requires unmarked { All (λ m. m < number) marks.old }
    ensures differ { IsTrue result ↔ AllPairs (λ a b. a ≢ b) vertices.now }
    ensures marked { All (λ m. m ≤ number) marks.new }
{
    for vertex in vertices {
        if marks[*vertex as usize] == number {
            return false;
        }
        marks[*vertex as usize] = number;
    }
    true
}

/// Whether the edge of each corner of a face joins its vertex and that of the next corner.
fn are_joined(vertices: &[u32], corner_edges: &[u32], edges: &[(u32, u32)]) -> bool
    requires paired { length vertices.now ≡ length corner_edges.now }
    requires within { All (λ k. k < length edges.now) corner_edges.now }
    ensures { IsTrue result ↔ AreAround edges.now vertices.now corner_edges.now }
{
    let [first, others @ ..] = vertices else {
        return true;
    };
    let mut from = *first;
    for (k, edge) in corner_edges.iter().enumerate() {
        let to = if k < others.len() { others[k] } else { *first };
        if edges[*edge as usize] != edge_between(from, to) {
            return false;
        }
        from = to;
    }
    true
}

/// Whether the corners from `begin` to `end` name no vertex twice and have the edges around them.
fn is_face(
    begin: usize,
    end: usize,
    corner_points: &[u32],
    corner_edges: &[u32],
    edges: &[(u32, u32)],
    marks: &mut [u32],
    number: u32,
) -> bool
    requires range { (begin ≤ end) × (end ≤ length corner_points.now) }
    requires paired { length corner_points.now ≡ length corner_edges.now }
    requires corner_points_within { All (λ v. v < length marks.old) corner_points.now }
    requires corner_edges_within { All (λ k. k < length edges.now) corner_edges.now }
    requires unmarked { All (λ m. m < number) marks.old }
    ensures face { IsTrue result ↔ IsFace edges.now
        (slice_range corner_points.now begin end) (slice_range corner_edges.now begin end) }
    ensures marked { All (λ m. m ≤ number) marks.new }
{
    let vertices = &corner_points[begin..end];
    differ(vertices, marks, number) && are_joined(vertices, &corner_edges[begin..end], edges)
}

/// Whether the corners of each face name no vertex twice and have the edges around them. There is
/// a mark for each vertex.
fn are_faces(
    offsets: &[u32],
    corner_points: &[u32],
    corner_edges: &[u32],
    edges: &[(u32, u32)],
    marks: &mut [u32],
) -> bool
    requires offsets { AreOffsets (length corner_points.now) offsets.now }
    requires few { length offsets.now < 2 ^ 32 }
    requires paired { length corner_points.now ≡ length corner_edges.now }
    requires corner_points_within { All (λ v. v < length marks.old) corner_points.now }
    requires corner_edges_within { All (λ k. k < length edges.now) corner_edges.now }
    requires unmarked { All (λ m. m < 1) marks.old }
    ensures { IsTrue result ↔ AreFaces edges.now offsets.now corner_points.now corner_edges.now }
{
    let [first, ends @ ..] = offsets else {
        return true;
    };
    let mut begin = *first as usize;
    let mut number = 0;
    for end in ends {
        let end = *end as usize;
        number += 1;
        if !is_face(
            begin,
            end,
            corner_points,
            corner_edges,
            edges,
            marks,
            number,
        ) {
            return false;
        }
        begin = end;
    }
    true
}

/// Whether these lists are the topology of a mesh with that number of vertices.
pub(crate) fn are_parts(
    alloc: Global,
    points: usize,
    edges: &[(u32, u32)],
    faces: &[u32],
    corner_points: &[u32],
    corner_edges: &[u32],
) -> Result<bool, Memory>
    requires { IsNumbered (topology_with
        points edges.now faces.now corner_points.now corner_edges.now) }
    ensures { IfOk result (λ b. IsTrue b ↔ IsValid (topology_with
        points edges.now faces.now corner_points.now corner_edges.now)) }
{
    if corner_points.len() != corner_edges.len() {
        return Ok(false);
    }
    if !have_lesser_first(edges) || !have_vertices(edges, points) {
        return Ok(false);
    }
    if !are_below(corner_points, points) || !are_below(corner_edges, edges.len()) {
        return Ok(false);
    }
    if !are_offsets(faces, corner_points.len()) || !edges_differ(alloc, edges)? {
        return Ok(false);
    }
    let mut marks = Vec::new(alloc);
    marks.resize(points, 0)?;
    Ok(are_faces(faces, corner_points, corner_edges, edges, &mut marks))
}
