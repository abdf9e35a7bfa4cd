ghost use Rattle.std.specs.Prelude.{◌≡◌, flat_map, IfOk, OnOk};
ghost use Rattle.gn_plain.specs.Edges.{edges_around, first_seen};
ghost use Rattle.gn_edges.specs.Added.{edges_in, Adds};

use gn_edges::Edges;
use gn_memory::Memory;
use std::alloc::Global;

/// Puts the edges around a face behind the others, each unless it is one of them.
fn add_edges_around(edges: &mut Edges, face: &[u32]) -> Result<(), Memory>
    ensures { OnOk result (Adds (edges_around face.now) edges.old edges.new) }
{
    let [first, others @ ..] = face else {
        return Ok(());
    };
    let mut from = *first;
    for to in others {
        edges.add(from, *to)?;
        from = *to;
    }
    edges.add(from, *first)?;
    Ok(())
}

/// The different edges around these faces, in the order in which they are first met, the lesser
/// vertex of each first.
///
/// Each list has the vertices of a face in order. The last one is a neighbour of the first.
pub fn edges_of(alloc: Global, face_points: &[Vec<u32>]) -> Result<Vec<(u32, u32)>, Memory>
    ensures { IfOk result (λ edges. edges_in edges.items
        ≡ first_seen (flat_map (λ face. edges_around face.items) face_points.now)) }
{
    let mut edges = Edges::new(alloc);
    for face in face_points {
        add_edges_around(&mut edges, face)?;
    }
    Ok(edges.into_vec())
}
