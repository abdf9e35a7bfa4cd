//! The instances of geometries one behind another.
ghost use Rattle.std.specs.Prelude.{◌≡◌, ◌+◌, ◌<◌, ◌^◌, length, map, All, IfOk, OnOk};
ghost use Rattle.gn_plain.specs.Geometry.{placed_in};
ghost use Rattle.gn_geometry.specs.Geometries.{items_in, plain_geometry, plain_instances, AreSoleInstances, IsSole};
ghost use Rattle.gn_value.specs.declared.value.Place.TheVariants.{Instance};
ghost use Rattle.gn_joins.specs.Joins.{joined_placed, placed_behind};
ghost use Rattle.gn_joins.specs.Limits.{count_together};
ghost use Rattle.gn_join.specs.Gathering.{item_placed, part_in, placed_of, slots_of, AreNumbered, IsGathered, Numbers, StaySole};

use gn_geometry::{Geometry, Instances, Transform};
use gn_memory::Memory;
use std::alloc::Global;
use std::mem;

/// A part that instances place: it is to be put among the parts of the join, or is there under a
/// number.
#[derive(Drop)]
enum Slot {
    Waiting(Geometry),
    At(u32),
}

/// The parts and the items of the instances of a join.
#[derive(Drop)]
struct Gathered {
    parts: Vec<Geometry>,
    items: Vec<(Transform, u32)>,
}

/// Parts of which none is among those of the join.
fn waiting(alloc: Global, parts: Vec<Geometry>) -> Result<Vec<Slot>, Memory>
    ensures { IfOk result (λ slots. slots.items ≡ slots_of parts.items) }
{
    let mut slots = Vec::with_capacity(alloc, parts.len())?;
    for part in parts {
        slots.push(Slot::Waiting(part))?;
    }
    Ok(slots)
}

/// The number of a part among those of the join. Where it is not there it is put behind them.
fn number_of(parts: &mut Vec<Geometry>, slot: &mut Slot) -> Result<u32, Memory>
    requires { length parts.old.items < 2 ^ 32 }
    ensures { IfOk result (λ n. Numbers slot.old parts.old.items parts.new.items n slot.new) }
{
    let next = parts.len() as u32;
    match mem::replace(slot, Slot::At(next)) {
        Slot::Waiting(part) => {
            parts.push(part)?;
            Ok(next)
        }
        Slot::At(number) => {
            *slot = Slot::At(number);
            Ok(number)
        }
    }
}

/// Puts an instance of a part behind the others.
fn place(
    gathered: &mut Gathered,
    slots: &mut Vec<Slot>,
    transform: Transform,
    number: u32,
) -> Result<(), Memory>
    requires there { number < length slots.old.items }
    requires numbered { AreNumbered gathered.old.parts.items slots.old.items }
    requires gathered { IsGathered gathered.old }
    requires few { length gathered.old.items.items + 1 < 2 ^ 32 }
    ensures numbered { OnOk result (AreNumbered gathered.new.parts.items slots.new.items) }
    ensures gathered { OnOk result (IsGathered gathered.new) }
    ensures parts { OnOk result (map (part_in gathered.new.parts.items) slots.new.items ≡ map (part_in gathered.old.parts.items) slots.old.items) }
    ensures placed { OnOk result (placed_of gathered.new ≡ placed_behind (placed_of gathered.old) (item_placed (map (part_in gathered.old.parts.items) slots.old.items) (transform, number))) }
    ensures long { OnOk result (length gathered.new.items.items ≡ length gathered.old.items.items + 1) }
    ensures sole { OnOk result (StaySole gathered.old.parts.items slots.old.items gathered.new.parts.items slots.new.items) }
{
    let number = number_of(&mut gathered.parts, &mut slots[number as usize])?;
    gathered.items.push((transform, number))?;
    Ok(())
}

/// Puts instances behind the others. Parts that none of them places are dropped.
fn append(gathered: &mut Gathered, alloc: Global, instances: Instances) -> Result<(), Memory>
    requires gathered { IsGathered gathered.old }
    requires few { length gathered.old.items.items + length (items_in instances) < 2 ^ 32 }
    ensures gathered { OnOk result (IsGathered gathered.new) }
    ensures placed { OnOk result (placed_of gathered.new ≡ placed_behind (placed_of gathered.old) (placed_in (plain_instances instances))) }
    ensures long { OnOk result (length gathered.new.items.items ≡ length gathered.old.items.items + length (items_in instances)) }
    ensures sole { OnOk result (All IsSole gathered.old.parts.items → AreSoleInstances instances → All IsSole gathered.new.parts.items) }
{
    let (parts, items) = instances.into_parts();
    let mut slots = waiting(alloc, parts)?;
    for &(transform, number) in &items {
        place(gathered, &mut slots, transform, number)?;
    }
    Ok(())
}

/// The instances of geometries one behind another, without columns.
///
/// Condition: together there are at most 2^23 of them.
pub(crate) fn joined_instances(
    alloc: Global,
    geometries: Vec<Geometry>,
) -> Result<Instances, Memory>
    requires { count_together (map plain_geometry geometries.items) Instance < 2 ^ 32 }
    ensures placed { IfOk result (λ is. placed_in (plain_instances is) ≡ joined_placed (map (λ g. placed_in g.instances) (map plain_geometry geometries.items))) }
    ensures sole { IfOk result (λ is. All IsSole geometries.items → AreSoleInstances is) }
{
    let mut gathered = Gathered {
        parts: Vec::new(alloc),
        items: Vec::new(alloc),
    };
    for geometry in geometries {
        append(&mut gathered, alloc, geometry.instances)?;
    }
    Ok(Instances::from_parts(alloc, gathered.parts, gathered.items))
}
