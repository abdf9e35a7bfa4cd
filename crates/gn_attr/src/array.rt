//! Shared arrays that are handed on or written to, with the copies that this takes.
ghost use Rattle.std.specs.Prelude.{◌≡◌, length, OnOk, OnErr, IfOk};
ghost use Rattle.gn_attr.specs.Handles.{IsSole, IsTwin, Keeps, Owns, has_one_part, noted_if};
ghost use Rattle.gn_attr.specs.Writing.{chosen};

use gn_memory::Memory;
use gn_shared::{Meter, SharedArray, USERS};
use std::alloc::Global;

/// An array of these items, with one handle.
pub fn array_of<T: Drop>(items: Vec<T>) -> Result<SharedArray<T, USERS>, Memory>
    ensures items { IfOk result (λ array. array.items ≡ items.items) }
    ensures sole { IfOk result IsSole }
{
    match SharedArray::new(items) {
        Ok(array) => Ok(array),
        Err(_) => Err(Memory),
    }
}

/// An array of the same items, with one handle.
pub(crate) fn copied<T: Copy + Drop>(
    alloc: Global,
    array: &SharedArray<T, USERS>,
) -> Result<SharedArray<T, USERS>, Memory>
    ensures items { IfOk result (λ copy. copy.items ≡ array.now.items) }
    ensures sole { IfOk result IsSole }
{
    let mut items = Vec::new(alloc);
    items.extend_from_slice(array.items())?;
    array_of(items)
}

/// One more handle on the items: of the same block where this handle has more than one part, and
/// else of a copy, which is noted.
pub fn second<T: Copy + Drop, L>(
    alloc: Global,
    array: &mut SharedArray<T, USERS>,
    meter: &mut Meter<L>,
) -> Result<SharedArray<T, USERS>, Memory>
    ensures kept { Keeps array.old array.new }
    ensures twin { IfOk result (IsTwin array.old) }
    ensures noted { OnOk result (meter.new ≡ noted_if (has_one_part array.old) meter.old) }
    ensures refused { OnErr result (meter.new ≡ meter.old) }
{
    match array.share() {
        Ok(twin) => Ok(twin),
        Err(_) => {
            let twin = copied(alloc, array)?;
            meter.note_copy();
            Ok(twin)
        }
    }
}

/// Makes the handle the only one of its block, so that its items can be written to: where the block
/// has other handles, by a copy, which is noted.
pub fn own<T: Copy + Drop, L>(
    alloc: Global,
    array: &mut SharedArray<T, USERS>,
    meter: &mut Meter<L>,
) -> Result<(), Memory>
    ensures items { array.new.items ≡ array.old.items }
    ensures sole { OnOk result (IsSole array.new) }
    ensures noted { OnOk result (Owns array.old array.new meter.old meter.new) }
    ensures refused { OnErr result ((array.new ≡ array.old) × (meter.new ≡ meter.old)) }
{
    if array.claim().is_ok() {
        return Ok(());
    }
    let own = copied(alloc, array)?;
    *array = own;
    meter.note_copy();
    Ok(())
}

/// Puts the values over the items, where they are selected.
fn put_selected<T: Copy>(items: &mut [T], values: &[T], selected: &[bool])
    requires values { length values.now ≡ length items.old }
    requires selected { length selected.now ≡ length items.old }
    ensures { items.new ≡ chosen selected.now values.now items.old }
{
    for (at, is_selected) in selected.iter().enumerate() {
        if *is_selected {
            items[at] = values[at];
        }
    }
}

/// Writes the values over the items of an array, where they are selected: in place where the handle
/// can be the only one of its block, and else into a copy, which is noted.
pub fn write<T: Copy + Drop, L>(
    alloc: Global,
    array: &mut SharedArray<T, USERS>,
    values: &[T],
    selected: &[bool],
    meter: &mut Meter<L>,
) -> Result<(), Memory>
    requires values { length values.now ≡ length array.old.items }
    requires selected { length selected.now ≡ length array.old.items }
    ensures items { OnOk result (array.new.items ≡ chosen selected.now values.now array.old.items) }
    ensures sole { OnOk result (IsSole array.new) }
    ensures noted { OnOk result (Owns array.old array.new meter.old meter.new) }
    ensures refused { OnErr result ((array.new ≡ array.old) × (meter.new ≡ meter.old)) }
{
    own(alloc, array, meter)?;
    put_selected(array.sole_items(), values, selected);
    Ok(())
}
