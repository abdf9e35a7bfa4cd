//! A geometry once more. The functions lead back to each other, as the types do.
ghost use Rattle.std.specs.Prelude.{◌≡◌, IfOk, OnOk, OnErr};
ghost use Rattle.std.specs.List.{AllZip, flat_map};
ghost use Rattle.gn_geometry.specs.Notes.{noted_each, NotesFirst};
ghost use Rattle.gn_geometry.specs.Geometries.{geometry_copies, instance_copies, AreTwinInstances, IsTwinGeometry, KeepsGeometry, KeepsInstances};

use crate::geometry::{Geometry, Instances, Transform};
use gn_memory::Memory;
use gn_shared::Meter;
use std::alloc::Global;

/// The same geometry once more: each array whose handle has more than one part is shared, and any
/// other is copied, which is noted.
#[cycle(twins)]
pub(crate) fn second_geometry<L>(
    alloc: Global,
    geometry: &mut Geometry,
    meter: &mut Meter<L>,
) -> Result<Geometry, Memory>
    ensures kept { KeepsGeometry geometry.old geometry.new }
    ensures twin { IfOk result (IsTwinGeometry geometry.old) }
    ensures noted { OnOk result (meter.new ≡ noted_each (geometry_copies geometry.old) meter.old) }
    ensures refused { OnErr result (NotesFirst (geometry_copies geometry.old) meter.old meter.new) }
{
    let mesh = geometry.mesh.second(alloc, meter)?;
    let cloud = geometry.cloud.second(alloc, meter)?;
    let instances = second_instances(alloc, &mut geometry.instances, meter)?;
    Ok(Geometry {
        mesh,
        cloud,
        instances,
    })
}

/// The same items once more.
fn copied(alloc: Global, items: &Vec<(Transform, u32)>) -> Result<Vec<(Transform, u32)>, Memory>
    ensures { IfOk result (λ copy. copy.items ≡ items.now.items) }
{
    let mut copy = Vec::new(alloc);
    copy.extend_from_slice(items)?;
    Ok(copy)
}

/// The same instances once more, in the same way.
#[cycle(twins)]
fn second_instances<L>(
    alloc: Global,
    instances: &mut Instances,
    meter: &mut Meter<L>,
) -> Result<Instances, Memory>
    ensures kept { KeepsInstances instances.old instances.new }
    ensures twin { IfOk result (AreTwinInstances instances.old) }
    ensures noted { OnOk result (meter.new ≡ noted_each (instance_copies instances.old) meter.old) }
    ensures refused { OnErr result (NotesFirst (instance_copies instances.old) meter.old meter.new) }
{
    let items = copied(alloc, &instances.items)?;
    let parts = second_parts(alloc, &mut instances.parts, meter)?;
    let columns = instances.columns.second(meter)?;
    Ok(Instances {
        parts,
        items,
        columns,
    })
}

/// The same parts once more, in the same way.
#[cycle(twins)]
fn second_parts<L>(
    alloc: Global,
    parts: &mut Vec<Geometry>,
    meter: &mut Meter<L>,
) -> Result<Vec<Geometry>, Memory>
    ensures kept { AllZip KeepsGeometry parts.old.items parts.new.items }
    ensures twins { IfOk result (λ twins. AllZip IsTwinGeometry parts.old.items twins.items) }
    ensures noted { OnOk result (meter.new ≡ noted_each (flat_map geometry_copies parts.old.items) meter.old) }
    ensures refused { OnErr result (NotesFirst (flat_map geometry_copies parts.old.items) meter.old meter.new) }
{
    let mut twins = Vec::with_capacity(alloc, parts.len())?;
    for at in 0..parts.len() {
        let twin = second_geometry(alloc, &mut parts[at], meter)?;
        twins.push(twin)?;
    }
    Ok(twins)
}
