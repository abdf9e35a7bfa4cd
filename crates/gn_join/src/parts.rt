//! The mesh and the cloud of a join.
ghost use Rattle.std.specs.Prelude.{◌≡◌, ◌<◌, ◌^◌, map, None, IfOk};
ghost use Rattle.gn_value.specs.declared.value.Place.TheVariants as place;
ghost use Rattle.gn_geometry.specs.Meshes as meshes;
ghost use Rattle.gn_geometry.specs.Meshes.{plain_mesh};
ghost use Rattle.gn_geometry.specs.Clouds as clouds;
ghost use Rattle.gn_geometry.specs.Clouds.{plain_cloud};
ghost use Rattle.gn_joins.specs.Joins.{joined_cloud, joined_mesh};
ghost use Rattle.gn_joins.specs.Limits.{count_together, first_over};
ghost use Rattle.gn_pieces.specs.Lists.{mesh_places};
ghost use Rattle.gn_pieces.specs.Views.{geometry_of};

use gn_geometry::{Cloud, Mesh};
use gn_memory::Memory;
use gn_pieces::{Component, View, joined_columns, joined_lists, joined_points};
use std::alloc::Global;

/// The mesh of a join. Condition: together the geometries have at most 2^23 elements on each place
/// of a mesh.
pub fn joined_mesh(alloc: Global, views: &[View<'_>]) -> Result<Mesh, Memory>
    requires { first_over (count_together (map geometry_of views.now)) mesh_places ≡ None }
    ensures mesh { IfOk result (λ m. plain_mesh m ≡ joined_mesh (map geometry_of views.now)) }
    ensures sole { IfOk result meshes.IsSole }
{
    let columns = joined_columns(alloc, views, Component::Mesh)?;
    let lists = joined_lists(alloc, views)?;
    let mut mesh = Mesh::from_valid_parts(
        alloc,
        lists.points,
        lists.edges,
        lists.faces,
        lists.corner_points,
        lists.corner_edges,
    )?;
    mesh.set_columns(columns);
    Ok(mesh)
}

/// The cloud of a join. Condition: together the geometries have fewer than 2^32 points.
pub fn joined_cloud(alloc: Global, views: &[View<'_>]) -> Result<Cloud, Memory>
    requires { count_together (map geometry_of views.now) place.Cloud < 2 ^ 32 }
    ensures cloud { IfOk result (λ c. plain_cloud c ≡ joined_cloud (map geometry_of views.now)) }
    ensures sole { IfOk result clouds.IsSole }
{
    let columns = joined_columns(alloc, views, Component::Cloud)?;
    let points = joined_points(alloc, views)?;
    let mut cloud = Cloud::from_points(alloc, points)?;
    cloud.set_columns(columns);
    Ok(cloud)
}
