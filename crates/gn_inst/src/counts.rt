//! How many elements geometry has once its instances are realised.
ghost use Rattle.std.specs.Prelude.{◌≡◌, ◌+◌, ◌<◌, ◌-◌, ◌^◌, length, map, min, slice_index, All, IfOk};
ghost use Rattle.std.specs.List.{sum_by};
ghost use Rattle.gn_plain.specs.Geometry.{count};
ghost use Rattle.gn_geometry.specs.Geometries.{instances_in, parts_in, plain_geometry};
ghost use Rattle.gn_joins.specs.Limits.{all_places, first_over, too_many};
ghost use Rattle.gn_joins.specs.Realized.{realized};
ghost use Rattle.gn_inst.specs.Realizing.{capped, capped_count, own};

use crate::placed::{items_of, parts_of};
use gn_geometry::{Geometry, Transform};
use gn_join::{MOST_ELEMENTS, PLACES};
use gn_memory::Memory;
use gn_value::Place;
use std::alloc::Global;

/// How many elements a geometry has on a place without its instances.
fn own_count(geometry: &Geometry, place: Place) -> u64
    ensures { result ≡ count (own (plain_geometry geometry.now)) place }
{
    match place {
        Place::Instance => 0,
        _ => geometry.count(place),
    }
}

/// A number, and behind it those of the parts that items name, added up to at most 2^64 - 1.
fn total(own: u64, items: &[(Transform, u32)], counts: &[u64]) -> u64
    requires { All (λ i. i.1 < length counts.now) items.now }
    ensures { result ≡ capped (own + sum_by (λ i. slice_index counts.now i.1) items.now) }
{
    let mut total = own;
    for &(_, part) in items {
        total = total.saturating_add(counts[part as usize]);
    }
    total
}

/// How many elements each part of a geometry has on a place once its instances are realised.
#[cycle(counts)]
fn part_counts(alloc: Global, geometry: &Geometry, place: Place) -> Result<Vec<u64>, Memory>
    ensures { IfOk result (λ ns. ns.items ≡ map (capped_count place) (parts_in (instances_in geometry.now))) }
{
    let parts = parts_of(geometry);
    let mut counts = Vec::with_capacity(alloc, parts.len())?;
    for part in parts {
        counts.push(realized_count(alloc, part, place)?)?;
    }
    Ok(counts)
}

/// How many elements a geometry has on a place once its instances are realised, at most 2^64 - 1.
#[cycle(counts)]
fn realized_count(alloc: Global, geometry: &Geometry, place: Place) -> Result<u64, Memory>
    ensures { IfOk result (λ n. n ≡ capped_count place geometry.now) }
{
    let counts = part_counts(alloc, geometry, place)?;
    let own = own_count(geometry, place);
    Ok(total(own, items_of(geometry), &counts))
}

/// The first place on which a geometry has too many elements once its instances are realised, and how
/// many, at most 2^64 - 1.
pub(crate) fn too_many_realized(
    alloc: Global,
    geometry: &Geometry,
) -> Result<Option<(Place, u64)>, Memory>
    ensures { IfOk result (λ over. over ≡ too_many (realized (plain_geometry geometry.now))) }
{
    for place in &PLACES {
        let elements = realized_count(alloc, geometry, *place)?;
        if elements > MOST_ELEMENTS {
            return Ok(Some((*place, elements)));
        }
    }
    Ok(None)
}
