// The order of corners in faces that are turned over or not.
ghost use Rattle.std.specs.Prelude.{◌≡◌, ◌<◌, ◌≤◌, ◌+◌, ◌-◌, ◌++◌, length, reverse, IfOk, OnOk};
ghost use Rattle.std.specs.List.{range_with_len};
ghost use Rattle.gn_plain.specs.Topology.{IsValid, faces_of};
ghost use Rattle.gn_interp.specs.Takings.{topology_of};
ghost use Rattle.gn_geometry_rows.specs.Flips.{corner_order};
ghost use Rattle.gn_flip.specs.Turned.{edge_order, is_chosen, turned_edges, turned_vertices};

use gn_memory::Memory;
use gn_value::op::Topology;
use std::alloc::Global;

/// In which order the corners of all faces give their vertices, and in which order their edges.
#[derive(Drop)]
pub(crate) struct Orders {
    pub(crate) corners: Vec<u32>,
    pub(crate) edges: Vec<u32>,
}

/// Adds the numbers from `first` on and below `end`, in order.
fn add_up(numbers: &mut Vec<u32>, first: u32, end: u32) -> Result<(), Memory>
    requires { first ≤ end }
    ensures { OnOk result (numbers.new.items ≡ numbers.old.items ++ range_with_len first (end - first)) }
{
    for number in first..end {
        numbers.push(number)?;
    }
    Ok(())
}

/// Adds the numbers from `first` on and below `end`, the greatest first.
fn add_down(numbers: &mut Vec<u32>, first: u32, end: u32) -> Result<(), Memory>
    requires { first ≤ end }
    ensures { OnOk result (numbers.new.items ≡ numbers.old.items ++ reverse (range_with_len first (end - first))) }
{
    for above in 0..end - first {
        numbers.push(end - 1 - above)?;
    }
    Ok(())
}

/// Adds the corners of a face, in the order in which they give their vertices.
fn add_corners(corners: &mut Vec<u32>, first: u32, end: u32, is_turned: bool) -> Result<(), Memory>
    requires { first < end }
    ensures { OnOk result (corners.new.items ≡ corners.old.items ++ turned_vertices is_turned (range_with_len first (end - first))) }
{
    if !is_turned {
        return add_up(corners, first, end);
    }
    corners.push(first)?;
    add_down(corners, first + 1, end)
}

/// Adds the corners of a face, in the order in which they give their edges.
fn add_edges(edges: &mut Vec<u32>, first: u32, end: u32, is_turned: bool) -> Result<(), Memory>
    requires { first ≤ end }
    ensures { OnOk result (edges.new.items ≡ edges.old.items ++ turned_edges is_turned (range_with_len first (end - first))) }
{
    if is_turned {
        add_down(edges, first, end)
    } else {
        add_up(edges, first, end)
    }
}

/// In which order the corners give their vertices and their edges, where the selected faces are turned
/// over.
pub(crate) fn find_orders(
    alloc: Global,
    topology: &Topology<'_>,
    selected: &[bool],
) -> Result<Orders, Memory>
    requires valid { IsValid (topology_of topology.now) }
    requires selected { length selected.now + 1 ≡ length topology.now.faces.now }
    ensures corners { IfOk result (λ o. o.corners.items ≡ corner_order (is_chosen selected.now) 0 0 (faces_of (topology_of topology.now))) }
    ensures edges { IfOk result (λ o. o.edges.items ≡ edge_order (is_chosen selected.now) 0 0 (faces_of (topology_of topology.now))) }
{
    let mut corners = Vec::with_capacity(alloc, topology.corner_points.len())?;
    let mut edges = Vec::with_capacity(alloc, topology.corner_points.len())?;
    let mut first = 0;
    for (face, is_turned) in selected.iter().enumerate() {
        let end = topology.faces[face + 1];
        add_corners(&mut corners, first, end, *is_turned)?;
        add_edges(&mut edges, first, end, *is_turned)?;
        first = end;
    }
    Ok(Orders { corners, edges })
}
