//! Which elements of a place take values from which elements of another.
ghost use Rattle.std.specs.Prelude.{◌≡◌, ◌+◌, ◌-◌, ◌<◌, ◌^◌, [], ◌∷◌, ◌++◌, length, map, flat_map, slice_index, nat_lt, if◌then◌else◌, IfOk};
ghost use Rattle.std.specs.List.{zip};
ghost use Rattle.gn_plain.specs.Topology.{IsNumbered, IsValid, corner_of, edge_of};
ghost use Rattle.gn_plain.specs.Interpolation.{along_edges, corners, corners_on, last_edge, takings, turned};
ghost use Rattle.gn_interp.specs.Takings.{corner_takings, topology_of, touching_of, unplaced};

use gn_memory::Memory;
use gn_value::Place;
use gn_value::op::Topology;
use std::alloc::Global;

/// A corner by its number among all: its vertex, its edge, its face, the edge of the corner before it
/// in the face, and the corner behind it.
#[derive(Clone, Copy, Debug)]
struct Touching {
    corner: u32,
    vertex: u32,
    edge: u32,
    face: u32,
    edge_before: u32,
    next: u32,
}

/// Each edge takes from its two vertices.
fn along_edges(alloc: Global, edges: &[(u32, u32)]) -> Result<Vec<(u32, u32)>, Memory>
    requires { length edges.now < 2 ^ 32 }
    ensures { IfOk result (λ takings. takings.items ≡ along_edges 0 (map edge_of edges.now)) }
{
    let mut takings = Vec::with_capacity(alloc, 2 * edges.len())?;
    for (edge, vertices) in edges.iter().enumerate() {
        takings.push((edge as u32, vertices.0))?;
        takings.push((edge as u32, vertices.1))?;
    }
    Ok(takings)
}

/// Each vertex takes from the edges at it.
fn at_vertices(alloc: Global, edges: &[(u32, u32)]) -> Result<Vec<(u32, u32)>, Memory>
    requires { length edges.now < 2 ^ 32 }
    ensures { IfOk result (λ takings. takings.items ≡ turned (along_edges 0 (map edge_of edges.now))) }
{
    let mut takings = Vec::with_capacity(alloc, 2 * edges.len())?;
    for (edge, vertices) in edges.iter().enumerate() {
        takings.push((vertices.0, edge as u32))?;
        takings.push((vertices.1, edge as u32))?;
    }
    Ok(takings)
}

fn add(takings: &mut Vec<(u32, u32)>, taker: u32, source: u32) -> Result<(), Memory>
    ensures { IfOk result (λ _. takings.new.items ≡ takings.old.items ++ (taker, source) ∷ []) }
{
    takings.push((taker, source))?;
    Ok(())
}

fn add_both(
    takings: &mut Vec<(u32, u32)>,
    taker: u32,
    first: u32,
    second: u32,
) -> Result<(), Memory>
    ensures { IfOk result (λ _. takings.new.items ≡ takings.old.items ++ (taker, first) ∷ (taker, second) ∷ []) }
{
    takings.push((taker, first))?;
    takings.push((taker, second))?;
    Ok(())
}

/// Adds what takes from what at a corner.
fn add_corner(
    takings: &mut Vec<(u32, u32)>,
    from: Place,
    to: Place,
    c: Touching,
) -> Result<(), Memory>
    ensures { IfOk result (λ _. takings.new.items ≡ takings.old.items ++ corner_takings from to (touching_of c)) }
{
    match (from, to) {
        (Place::Point, Place::Face) => add(takings, c.face, c.vertex),
        (Place::Point, Place::Corner) => add(takings, c.corner, c.vertex),
        (Place::Edge, Place::Face) => add(takings, c.face, c.edge),
        (Place::Edge, Place::Corner) => add_both(takings, c.corner, c.edge, c.edge_before),
        (Place::Face, Place::Point) => add(takings, c.vertex, c.face),
        (Place::Face, Place::Edge) => add(takings, c.edge, c.face),
        (Place::Face, Place::Corner) => add(takings, c.corner, c.face),
        (Place::Corner, Place::Point) => add(takings, c.vertex, c.corner),
        (Place::Corner, Place::Edge) => add_both(takings, c.edge, c.corner, c.next),
        (Place::Corner, Place::Face) => add(takings, c.face, c.corner),
        _ => Ok(()),
    }
}

/// The edge of the last corner.
fn last_of(edges: &[u32]) -> u32
    requires { 0 < length edges.now }
    ensures { result ≡ slice_index edges.now (length edges.now - 1) }
{
    edges[edges.len() - 1]
}

/// The corner behind one of a face, whose `count` corners are numbered from `first` on.
fn next_of(first: u32, count: usize, at: usize) -> u32
    requires numbered { first + count < 2 ^ 32 }
    requires within { at < count }
    ensures { result ≡ (if nat_lt (at + 1) count then first + at + 1 else first) }
{
    if at + 1 < count {
        first + at as u32 + 1
    } else {
        first
    }
}

/// Adds what takes from what at the corners of a face, which are numbered from `first` on.
fn add_face(
    takings: &mut Vec<(u32, u32)>,
    from: Place,
    to: Place,
    face: u32,
    first: u32,
    vertices: &[u32],
    edges: &[u32],
) -> Result<(), Memory>
    requires some { 0 < length vertices.now }
    requires paired { length vertices.now ≡ length edges.now }
    requires numbered { first + length vertices.now < 2 ^ 32 }
    ensures { let corners = map corner_of (zip vertices.now edges.now) in
        IfOk result (λ _. takings.new.items ≡ takings.old.items ++ flat_map (corner_takings from to) (corners_on face first first (last_edge corners) corners)) }
{
    let mut edge_before = last_of(edges);
    for (at, vertex) in vertices.iter().enumerate() {
        let corner = first + at as u32;
        let edge = edges[at];
        let touching = Touching {
            corner,
            vertex: *vertex,
            edge,
            face,
            edge_before,
            next: next_of(first, vertices.len(), at),
        };
        add_corner(takings, from, to, touching)?;
        edge_before = edge;
    }
    Ok(())
}

/// What takes from what at the corners of all faces.
fn at_corners(
    alloc: Global,
    from: Place,
    to: Place,
    topology: &Topology<'_>,
) -> Result<Vec<(u32, u32)>, Memory>
    requires valid { IsValid (topology_of topology.now) }
    requires numbered { IsNumbered (topology_of topology.now) }
    ensures { IfOk result (λ takings. takings.items ≡ flat_map (corner_takings from to) (corners (unplaced (topology_of topology.now)))) }
{
    let mut takings = Vec::with_capacity(alloc, topology.corner_points.len())?;
    let [first, ends @ ..] = topology.faces else {
        return Ok(takings);
    };
    let mut begin = *first;
    for (face, end) in ends.iter().enumerate() {
        let vertices = &topology.corner_points[begin as usize..*end as usize];
        let edges = &topology.corner_edges[begin as usize..*end as usize];
        add_face(&mut takings, from, to, face as u32, begin, vertices, edges)?;
        begin = *end;
    }
    Ok(takings)
}

/// The elements of a place that take from elements of another, each with one that it takes from.
pub(crate) fn takings(
    alloc: Global,
    from: Place,
    to: Place,
    topology: &Topology<'_>,
) -> Result<Vec<(u32, u32)>, Memory>
    requires valid { IsValid (topology_of topology.now) }
    requires numbered { IsNumbered (topology_of topology.now) }
    ensures { IfOk result (λ pairs. pairs.items ≡ takings from to (unplaced (topology_of topology.now))) }
{
    match (from, to) {
        (Place::Point, Place::Edge) => along_edges(alloc, topology.edges),
        (Place::Edge, Place::Point) => at_vertices(alloc, topology.edges),
        _ => at_corners(alloc, from, to, topology),
    }
}
