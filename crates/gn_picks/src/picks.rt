// Values that are picked by the numbers of their elements.
ghost use Rattle.std.specs.Prelude.{◌≡◌, map, slice_index_or, IfOk};
ghost use Rattle.gn_attr.specs.Columns.{values_of, IsSoleColumn};
ghost use Rattle.gn_attr.specs.Handles.{IsSole};
ghost use Rattle.gn_geometry_rows.specs.Picked.{picked};

use gn_attr::Column;
use gn_attr::array::array_of;
use gn_memory::Memory;
use gn_shared::{SharedArray, USERS};
use gn_value::{Fx, V3};
use std::alloc::Global;

/// The item of a number, or another one past the end.
fn item_or<T: Copy>(items: &[T], number: usize, other: T) -> T
    ensures { result ≡ slice_index_or items.now number other }
{
    items.get(number).copied().unwrap_or(other)
}

/// The items of some numbers, in the order of these; past the end it is `other`.
pub fn picked_items<T: Copy>(
    alloc: Global,
    items: &[T],
    numbers: &[u32],
    other: T,
) -> Result<Vec<T>, Memory>
    ensures { IfOk result (λ picked. picked.items ≡ map (λ k. slice_index_or items.now k other) numbers.now) }
{
    let mut picked = Vec::with_capacity(alloc, numbers.len())?;
    for number in numbers {
        picked.push(item_or(items, *number as usize, other))?;
    }
    Ok(picked)
}

/// An array of its own with the items of some numbers; past the end it is `other`.
fn picked_array<T: Copy + Drop>(
    alloc: Global,
    array: &SharedArray<T, USERS>,
    numbers: &[u32],
    other: T,
) -> Result<SharedArray<T, USERS>, Memory>
    ensures items { IfOk result (λ picked. picked.items ≡ map (λ k. slice_index_or array.now.items k other) numbers.now) }
    ensures sole { IfOk result IsSole }
{
    let items = picked_items(alloc, array.items(), numbers, other)?;
    array_of(items)
}

/// The values that a column has at the elements of some numbers, in the order of these; past the end a
/// value is zero. The column has an array of its own.
#[tactic(auto, using(crate::proofs::Picking::truths_picked, crate::proofs::Picking::ints_picked, crate::proofs::Picking::fixed_picked, crate::proofs::Picking::vectors_picked))]
pub fn picked(alloc: Global, column: &Column, numbers: &[u32]) -> Result<Column, Memory>
    ensures values { IfOk result (λ c. values_of c ≡ picked numbers.now (values_of column.now)) }
    ensures sole { IfOk result IsSoleColumn }
{
    match column {
        Column::Truth(array) => {
            let truths = picked_array(alloc, array, numbers, false)?;
            Ok(Column::Truth(truths))
        }
        Column::Int(array) => {
            let integers = picked_array(alloc, array, numbers, 0)?;
            Ok(Column::Int(integers))
        }
        Column::Fixed(array) => {
            let fixed = picked_array(alloc, array, numbers, Fx(0))?;
            Ok(Column::Fixed(fixed))
        }
        Column::Vector(array) => {
            let vectors = picked_array(alloc, array, numbers, V3::ZERO)?;
            Ok(Column::Vector(vectors))
        }
    }
}
