//! Geometry in place of instances.
ghost use Rattle.std.specs.Prelude.{◌≡◌, ℕ, ◌<◌, [], ◌∷◌, None, true, false, length, map, All, IfOk, IfErr, OnOk, slice_index_or};
ghost use Rattle.gn_plain.specs.Geometry.{count, no_instances};
ghost use Rattle.gn_attr.specs.Columns.{plain_columns};
ghost use Rattle.gn_geometry.specs.Clouds as clouds;
ghost use Rattle.gn_geometry.specs.Clouds.{plain_cloud};
ghost use Rattle.gn_geometry.specs.Geometries.{columns_in, instances_in, items_in, parts_in, plain_geometry, IsSole};
ghost use Rattle.gn_geometry.specs.Meshes as meshes;
ghost use Rattle.gn_geometry.specs.Meshes.{plain_mesh};
ghost use Rattle.gn_joins.specs.Limits.{all_places, first_over, too_many};
ghost use Rattle.gn_joins.specs.Realized.{realized};
ghost use Rattle.gn_pieces.specs.Views.{geometry_of};
ghost use Rattle.gn_join.specs.Faults.{IsLimit};
ghost use Rattle.gn_inst.specs.Realizing.{is_named, placed_parts, AreRealized};

use crate::counts::too_many_realized;
use crate::placed::{columns_of, items_of, parts_of};
use gn_geometry::{Cloud, Geometry, Instances, Mesh, Transform};
use gn_join::{SizeFault, joined_cloud, joined_mesh};
use gn_memory::Memory;
use gn_pieces::{Placing, View};
use std::alloc::Global;

/// For each part whether an item names it.
fn named_parts(alloc: Global, items: &[(Transform, u32)], count: usize) -> Result<Vec<bool>, Memory>
    requires { All (λ i. i.1 < count) items.now }
    ensures long { IfOk result (λ named. length named.items ≡ count) }
    ensures named { IfOk result (λ named. (k : ℕ) → k < count → slice_index_or named.items k false ≡ is_named items.now k) }
{
    let mut named = Vec::new(alloc);
    named.resize(count, false)?;
    for &(_, part) in items {
        named[part as usize] = true;
    }
    Ok(named)
}

/// A geometry as it stands, and behind it each part as an item places it.
fn placed_views<'a>(
    alloc: Global,
    geometry: &'a Geometry,
    parts: &'a [Geometry],
) -> Result<Vec<View<'a>>, Memory>
    requires { length parts.now ≡ length (parts_in (instances_in geometry.now)) }
    ensures { IfOk result (λ views. map geometry_of views.items ≡ plain_geometry geometry.now ∷ placed_parts (plain_columns (columns_in (instances_in geometry.now))) 0 (items_in (instances_in geometry.now)) (map plain_geometry parts.now)) }
{
    let items = items_of(geometry);
    let columns = columns_of(geometry);
    let mut views = Vec::with_capacity(alloc, items.len().saturating_add(1))?;
    views.push(View {
        geometry,
        placing: None,
    })?;
    for (item, &(transform, part)) in items.iter().enumerate() {
        views.push(View {
            geometry: &parts[part as usize],
            placing: Some(Placing {
                transform,
                columns,
                item,
            }),
        })?;
    }
    Ok(views)
}

/// A mesh and a cloud, and no instances.
fn without_instances(alloc: Global, mesh: Mesh, cloud: Cloud) -> Geometry
    ensures geometry { plain_geometry result ≡ record { mesh = plain_mesh mesh; cloud = plain_cloud cloud; instances = no_instances } }
    ensures sole { meshes.IsSole mesh → clouds.IsSole cloud → IsSole result }
{
    Geometry {
        mesh,
        cloud,
        instances: Instances::from_parts(alloc, Vec::new(alloc), Vec::new(alloc)),
    }
}

/// A part, realised where it is wanted, and else the geometry that has nothing. Condition: where it is
/// wanted there are at most 2^23 elements on each place.
#[cycle(realizing)]
fn realized_part(alloc: Global, part: &Geometry, is_wanted: bool) -> Result<Geometry, Memory>
    requires { is_wanted ≡ true → first_over (count (realized (plain_geometry part.now))) all_places ≡ None }
    ensures { IfOk result (λ g. is_wanted ≡ true → plain_geometry g ≡ realized (plain_geometry part.now)) }
{
    if is_wanted {
        realized(alloc, part)
    } else {
        Geometry::empty(alloc)
    }
}

/// The parts of a geometry, realised where an item names them, and else with nothing.
#[cycle(realizing)]
fn realized_parts(alloc: Global, geometry: &Geometry) -> Result<Vec<Geometry>, Memory>
    requires { first_over (count (realized (plain_geometry geometry.now))) all_places ≡ None }
    ensures long { IfOk result (λ parts. length parts.items ≡ length (parts_in (instances_in geometry.now))) }
    ensures realized { IfOk result (λ parts. AreRealized geometry.now parts.items) }
{
    let parts = parts_of(geometry);
    let named = named_parts(alloc, items_of(geometry), parts.len())?;
    let mut all = Vec::with_capacity(alloc, parts.len())?;
    for (at, part) in parts.iter().enumerate() {
        all.push(realized_part(alloc, part, named[at])?)?;
    }
    Ok(all)
}

/// A geometry, and behind it what its instances place, realised. Condition: there are at most 2^23
/// elements on each place.
#[cycle(realizing)]
fn realized(alloc: Global, geometry: &Geometry) -> Result<Geometry, Memory>
    requires { first_over (count (realized (plain_geometry geometry.now))) all_places ≡ None }
    ensures realized { IfOk result (λ g. plain_geometry g ≡ realized (plain_geometry geometry.now)) }
    ensures sole { IfOk result IsSole }
{
    let parts = realized_parts(alloc, geometry)?;
    let views = placed_views(alloc, geometry, &parts)?;
    let mesh = joined_mesh(alloc, &views)?;
    let cloud = joined_cloud(alloc, &views)?;
    Ok(without_instances(alloc, mesh, cloud))
}

/// A geometry with, in place of its instances, what these place: moved by their transforms, with their
/// columns where there is none of that name, and realised as well. Each part is realised once.
///
/// `SizeFault::Limit` comes exactly where a place would have more than 2^23 elements.
pub fn realize(alloc: Global, geometry: &Geometry) -> Result<Geometry, SizeFault>
    ensures realized { IfOk result (λ g. plain_geometry g ≡ realized (plain_geometry geometry.now)) }
    ensures within { OnOk result (too_many (realized (plain_geometry geometry.now)) ≡ None) }
    ensures fault { IfErr result (IsLimit (too_many (realized (plain_geometry geometry.now)))) }
    ensures sole { IfOk result IsSole }
{
    let Ok(over) = too_many_realized(alloc, geometry) else {
        return Err(SizeFault::Memory);
    };
    if let Some((place, elements)) = over {
        return Err(SizeFault::Limit { place, elements });
    }
    match realized(alloc, geometry) {
        Ok(geometry) => Ok(geometry),
        Err(_) => Err(SizeFault::Memory),
    }
}
