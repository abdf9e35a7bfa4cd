// The corner lists of a mesh in which faces are turned over.
ghost use Rattle.std.specs.Prelude.{◌≡◌, ◌+◌, length, IfOk};
ghost use Rattle.gn_plain.specs.Topology.{IsNumbered, IsValid, faces_of};
ghost use Rattle.gn_interp.specs.Takings.{topology_of};
ghost use Rattle.gn_geometry_rows.specs.Flips.{corner_order, flipped_faces};
ghost use Rattle.gn_flip.specs.Turned.{is_chosen, with_corners};

use crate::order::{Orders, find_orders};
use gn_memory::Memory;
use gn_picks::picked_items;
use gn_value::op::Topology;
use std::alloc::Global;

/// The corners of a mesh in which some faces are turned over.
#[derive(Drop)]
pub struct CornerLists {
    /// The vertex of each corner.
    pub corner_points: Vec<u32>,
    /// The edge of each corner, which leads to the vertex of the face's next one.
    pub corner_edges: Vec<u32>,
    /// The number that each corner had before, by which values on corners go with them.
    pub order: Vec<u32>,
}

/// The corners of a mesh, where the selected faces are turned over: the first corner of a face stays, and
/// the others come in the opposite order. `selected` has a truth for each face.
pub fn flipped(
    alloc: Global,
    topology: &Topology<'_>,
    selected: &[bool],
) -> Result<CornerLists, Memory>
    requires valid { IsValid (topology_of topology.now) }
    requires numbered { IsNumbered (topology_of topology.now) }
    requires selected { length selected.now + 1 ≡ length topology.now.faces.now }
    ensures faces { IfOk result (λ f. faces_of (with_corners (topology_of topology.now) f.corner_points.items f.corner_edges.items) ≡ flipped_faces (is_chosen selected.now) 0 (faces_of (topology_of topology.now))) }
    ensures valid { IfOk result (λ f. IsValid (with_corners (topology_of topology.now) f.corner_points.items f.corner_edges.items)) }
    ensures numbered { IfOk result (λ f. IsNumbered (with_corners (topology_of topology.now) f.corner_points.items f.corner_edges.items)) }
    ensures order { IfOk result (λ f. f.order.items ≡ corner_order (is_chosen selected.now) 0 0 (faces_of (topology_of topology.now))) }
{
    let Orders { corners, edges } = find_orders(alloc, topology, selected)?;
    let corner_points = picked_items(alloc, topology.corner_points, &corners, 0)?;
    let corner_edges = picked_items(alloc, topology.corner_edges, &edges, 0)?;
    Ok(CornerLists {
        corner_points,
        corner_edges,
        order: corners,
    })
}
