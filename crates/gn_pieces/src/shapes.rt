//! The shapes of meshes and the points of clouds one behind another.
ghost use Rattle.std.specs.Prelude.{◌≡◌, ◌+◌, ◌<◌, ◌^◌, ◌++◌, [], None, length, map, All, IfOk, OnOk};
ghost use Rattle.std.specs.List.{flat_map};
ghost use Rattle.gn_value.specs.declared.value.Place.TheVariants.{Corner};
ghost use Rattle.gn_plain.specs.Geometry.{count_in};
ghost use Rattle.gn_plain.specs.Topology.{IsNumbered, IsValid};
ghost use Rattle.gn_geom.specs.Meshes as meshes;
ghost use Rattle.gn_joins.specs.Appended.{appended, ends_behind};
ghost use Rattle.gn_joins.specs.Limits.{count_together, first_over};
ghost use Rattle.gn_pieces.specs.Lists.{mesh_places, no_topology, topology_of, AreJoined};
ghost use Rattle.gn_pieces.specs.Views.{geometry_of, moved_points};

use crate::view::{Placing, View};
use gn_geometry::Mesh;
use gn_memory::Memory;
use gn_transform::append_moved;
use gn_value::{Place, V3};
use std::alloc::Global;

/// The lists of a mesh: where the vertices are, the two vertices of each edge, where the corners of
/// each face begin with the number of corners at last, and the vertex and the edge of each corner.
#[derive(Drop)]
pub struct Lists {
    pub points: Vec<V3>,
    pub edges: Vec<(u32, u32)>,
    pub faces: Vec<u32>,
    pub corner_points: Vec<u32>,
    pub corner_edges: Vec<u32>,
}

/// Puts points behind others, where an instance puts them if one does.
fn append_points(
    into: &mut Vec<V3>,
    points: &[V3],
    placing: &Option<Placing<'_>>,
) -> Result<(), Memory>
    ensures { OnOk result (into.new.items ≡ into.old.items ++ moved_points placing.now points.now) }
{
    match placing {
        Some(placing) => append_moved(into, &placing.transform, points),
        None => {
            into.extend_from_slice(points)?;
            Ok(())
        }
    }
}

/// Puts the two vertices of edges behind others, each shifted.
fn append_ends(into: &mut Vec<(u32, u32)>, ends: &[(u32, u32)], shift: u32) -> Result<(), Memory>
    requires lesser { All (λ e. e.0 + shift < 2 ^ 32) ends.now }
    requires greater { All (λ e. e.1 + shift < 2 ^ 32) ends.now }
    ensures { OnOk result (into.new.items ≡ into.old.items ++ map (ends_behind shift) ends.now) }
{
    for &(lesser, greater) in ends {
        into.push((lesser + shift, greater + shift))?;
    }
    Ok(())
}

/// Puts numbers behind others, each shifted.
fn append_numbers(into: &mut Vec<u32>, numbers: &[u32], shift: u32) -> Result<(), Memory>
    requires { All (λ n. n + shift < 2 ^ 32) numbers.now }
    ensures { OnOk result (into.new.items ≡ into.old.items ++ map (λ n. n + shift) numbers.now) }
{
    for number in numbers {
        into.push(*number + shift)?;
    }
    Ok(())
}

/// How many elements geometries have together on a place, at most 2^64 - 1.
fn room(views: &[View<'_>], place: Place) -> usize {
    let mut room = 0usize;
    for view in views {
        room = room.saturating_add(view.elements(place) as usize);
    }
    room
}

impl Lists {
    /// The lists of the mesh that has nothing, with room for those of these geometries.
    fn with_room(alloc: Global, views: &[View<'_>]) -> Result<Lists, Memory>
        ensures { IfOk result (λ l. (l.points.items ≡ []) × (topology_of l ≡ no_topology)) }
    {
        let mut faces = Vec::with_capacity(alloc, room(views, Place::Face).saturating_add(1))?;
        faces.push(0)?;
        let corners = room(views, Place::Corner);
        Ok(Lists {
            points: Vec::with_capacity(alloc, room(views, Place::Point))?,
            edges: Vec::with_capacity(alloc, room(views, Place::Edge))?,
            faces,
            corner_points: Vec::with_capacity(alloc, corners)?,
            corner_edges: Vec::with_capacity(alloc, corners)?,
        })
    }

    /// Puts the lists of a mesh behind these.
    fn append(&mut self, mesh: &Mesh, placing: &Option<Placing<'_>>) -> Result<(), Memory>
        requires points { length self.old.points.items + length mesh.now.shape.points.items < 2 ^ 32 }
        requires edges { length self.old.edges.items + length mesh.now.shape.edges.items < 2 ^ 32 }
        requires corners { length self.old.corner_points.items + count_in (meshes.plain_of mesh.now.shape) Corner < 2 ^ 32 }
        ensures points { OnOk result (self.new.points.items ≡ self.old.points.items ++ moved_points placing.now mesh.now.shape.points.items) }
        ensures topology { OnOk result (topology_of self.new ≡ appended (topology_of self.old) (meshes.topology_of mesh.now.shape)) }
        ensures valid { IsValid (meshes.topology_of mesh.now.shape) }
    {
        let topology = mesh.topology();
        let vertices = self.points.len() as u32;
        let edges = self.edges.len() as u32;
        let corners = self.corner_points.len() as u32;
        append_points(&mut self.points, mesh.points(), placing)?;
        append_ends(&mut self.edges, topology.edges, vertices)?;
        append_numbers(&mut self.corner_points, topology.corner_points, vertices)?;
        append_numbers(&mut self.corner_edges, topology.corner_edges, edges)?;
        append_numbers(&mut self.faces, &topology.faces[1..], corners)
    }
}

/// The lists of the meshes of geometries one behind another, with their numbers shifted.
///
/// Condition: together they have at most 2^23 elements on each place of a mesh.
pub fn joined_lists(alloc: Global, views: &[View<'_>]) -> Result<Lists, Memory>
    requires { first_over (count_together (map geometry_of views.now)) mesh_places ≡ None }
    ensures joined { IfOk result (λ l. AreJoined l (map (λ g. g.mesh.shape) (map geometry_of views.now))) }
    ensures numbered { IfOk result (λ l. IsNumbered (topology_of l)) }
{
    let mut lists = Lists::with_room(alloc, views)?;
    for view in views {
        lists.append(view.mesh(), &view.placing)?;
    }
    Ok(lists)
}

/// The points of the clouds of geometries one behind another.
pub fn joined_points(alloc: Global, views: &[View<'_>]) -> Result<Vec<V3>, Memory>
    ensures { IfOk result (λ ps. ps.items ≡ flat_map (λ g. g.cloud.points) (map geometry_of views.now)) }
{
    let mut points = Vec::with_capacity(alloc, room(views, Place::Cloud))?;
    for view in views {
        append_points(&mut points, view.cloud().points(), &view.placing)?;
    }
    Ok(points)
}
