//! Geometries one after another.
ghost use Rattle.std.specs.Prelude.{◌≡◌, map, None, All, IfOk, IfErr, OnOk};
ghost use Rattle.gn_attr.specs.Columns.{plain_columns};
ghost use Rattle.gn_geometry.specs.Clouds as clouds;
ghost use Rattle.gn_geometry.specs.Clouds.{plain_cloud};
ghost use Rattle.gn_geometry.specs.Geometries.{plain_geometry, IsSole};
ghost use Rattle.gn_geometry.specs.Meshes as meshes;
ghost use Rattle.gn_geometry.specs.Meshes.{plain_mesh};
ghost use Rattle.gn_joins.specs.Joins.{instance_part, joined, joined_cloud, joined_columns, joined_mesh};
ghost use Rattle.gn_joins.specs.Limits.{all_places, count_together, first_over, too_many};
ghost use Rattle.gn_pieces.specs.Views.{geometry_of};
ghost use Rattle.gn_join.specs.Faults.{IsSizeFault};
ghost use Rattle.gn_join.specs.Gathering.{AreColumnsOfAll};

use crate::fault::SizeFault;
use crate::limit::too_many;
use crate::parts::{joined_cloud, joined_mesh};
use crate::placed::joined_instances;
use gn_attr::Columns;
use gn_geometry::{Cloud, Geometry, Mesh};
use gn_memory::Memory;
use gn_pieces::{Component, View, joined_columns};
use std::alloc::Global;

/// What a join has beside its instances: its mesh, its cloud, and the columns of its instances.
#[derive(Drop)]
struct Sides {
    mesh: Mesh,
    cloud: Cloud,
    columns: Columns,
}

/// Geometries as they stand, to be joined.
fn views_of(alloc: Global, parts: &[Geometry]) -> Result<Vec<View<'_>>, Memory>
    ensures { IfOk result (λ views. map geometry_of views.items ≡ map plain_geometry parts.now) }
{
    let mut views = Vec::with_capacity(alloc, parts.len())?;
    for geometry in parts {
        views.push(View {
            geometry,
            placing: None,
        })?;
    }
    Ok(views)
}

/// The mesh, the cloud and the columns of the instances of a join.
fn sides_of(alloc: Global, parts: &[Geometry]) -> Result<Sides, Memory>
    requires { first_over (count_together (map plain_geometry parts.now)) all_places ≡ None }
    ensures mesh { IfOk result (λ s. plain_mesh s.mesh ≡ joined_mesh (map plain_geometry parts.now)) }
    ensures cloud { IfOk result (λ s. plain_cloud s.cloud ≡ joined_cloud (map plain_geometry parts.now)) }
    ensures columns { IfOk result (λ s. plain_columns s.columns ≡ joined_columns (map instance_part (map plain_geometry parts.now))) }
    ensures fit { IfOk result (λ s. AreColumnsOfAll (map plain_geometry parts.now) s.columns) }
    ensures sole { IfOk result (λ s. meshes.IsSole s.mesh × clouds.IsSole s.cloud) }
{
    let views = views_of(alloc, parts)?;
    let mesh = joined_mesh(alloc, &views)?;
    let cloud = joined_cloud(alloc, &views)?;
    let columns = joined_columns(alloc, &views, Component::Instances)?;
    Ok(Sides {
        mesh,
        cloud,
        columns,
    })
}

/// The join of geometries. Condition: together they have at most 2^23 elements on each place.
fn joined(alloc: Global, parts: Vec<Geometry>) -> Result<Geometry, Memory>
    requires { first_over (count_together (map plain_geometry parts.items)) all_places ≡ None }
    ensures joined { IfOk result (λ g. plain_geometry g ≡ joined (map plain_geometry parts.items)) }
    ensures sole { IfOk result (λ g. All IsSole parts.items → IsSole g) }
{
    let sides = sides_of(alloc, &parts)?;
    let mut instances = joined_instances(alloc, parts)?;
    instances.set_columns(sides.columns);
    Ok(Geometry {
        mesh: sides.mesh,
        cloud: sides.cloud,
        instances,
    })
}

/// The join of geometries: on each place the elements of one after another, and the columns of all.
/// A column has the place and the kind with which its name is first seen.
///
/// `SizeFault::Limit` comes exactly where a place would have more than 2^23 elements.
pub fn join(alloc: Global, parts: Vec<Geometry>) -> Result<Geometry, SizeFault>
    ensures joined { IfOk result (λ g. plain_geometry g ≡ joined (map plain_geometry parts.items)) }
    ensures within { OnOk result (too_many (joined (map plain_geometry parts.items)) ≡ None) }
    ensures fault { IfErr result (IsSizeFault (too_many (joined (map plain_geometry parts.items)))) }
    ensures sole { IfOk result (λ g. All IsSole parts.items → IsSole g) }
{
    if let Some((place, elements)) = too_many(&parts) {
        return Err(SizeFault::Limit { place, elements });
    }
    match joined(alloc, parts) {
        Ok(geometry) => Ok(geometry),
        Err(_) => Err(SizeFault::Memory),
    }
}
