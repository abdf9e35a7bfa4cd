//! Values of one kind that are put behind one another.
ghost use Rattle.std.specs.Prelude.{◌≡◌, [], ◌∷◌, replicate, slice_index_or, IfOk, OnOk};
ghost use Rattle.gn_value.specs.Values.{zero_of};
ghost use Rattle.gn_plain.specs.Columns.{kind_of_values, value_of};
ghost use Rattle.gn_attr.specs.Columns as attr;
ghost use Rattle.gn_attr.specs.Columns.{IsSoleColumn};
ghost use Rattle.gn_joins.specs.Joins.{values_in};
ghost use Rattle.gn_joins.specs.Realized.{repeated};
ghost use Rattle.gn_pieces.specs.Behind.{first_values, values_behind, values_of};

use gn_attr::Column;
use gn_attr::array::array_of;
use gn_memory::Memory;
use gn_value::op::Register;
use gn_value::{Fx, V3, Value, ValueKind};
use std::alloc::Global;

/// The value of a column at an element; past the end it is zero.
fn value(column: &Column, element: usize) -> Value
    ensures { result ≡ value_of (attr.values_of column.now) element }
{
    match column {
        Column::Truth(array) => Value::Truth(at(array.items(), element, false)),
        Column::Int(array) => Value::Int(at(array.items(), element, 0)),
        Column::Fixed(array) => Value::Fixed(at(array.items(), element, Fx(0))),
        Column::Vector(array) => Value::Vector(at(array.items(), element, V3::ZERO)),
    }
}

/// The item of a number, or another one past the end.
fn at<T: Copy>(items: &[T], number: usize, other: T) -> T
    ensures { result ≡ slice_index_or items.now number other }
{
    if number < items.len() {
        items[number]
    } else {
        other
    }
}

/// No values of a kind, with room for some.
pub(crate) fn no_values(alloc: Global, kind: ValueKind, room: usize) -> Result<Register, Memory>
    ensures { IfOk result (λ r. values_of r ≡ values_in kind []) }
{
    Ok(match kind {
        ValueKind::Truth => Register::Truth(Vec::with_capacity(alloc, room)?),
        ValueKind::Int => Register::Int(Vec::with_capacity(alloc, room)?),
        ValueKind::Fixed => Register::Fixed(Vec::with_capacity(alloc, room)?),
        ValueKind::Vector => Register::Vector(Vec::with_capacity(alloc, room)?),
    })
}

/// Puts a value behind others, as a value of their kind.
fn push(values: &mut Register, value: Value) -> Result<(), Memory>
    ensures { OnOk result (values_of values.new ≡ values_behind (values_of values.old) (value ∷ [])) }
{
    match values {
        Register::Truth(truths) => truths.push(value.as_truth())?,
        Register::Int(integers) => integers.push(value.as_integer())?,
        Register::Fixed(numbers) => numbers.push(value.as_fixed())?,
        Register::Vector(vectors) => vectors.push(value.as_vector())?,
    }
    Ok(())
}

/// Puts one value behind others, `times` times.
fn push_times(values: &mut Register, value: Value, times: usize) -> Result<(), Memory>
    ensures { OnOk result (values_of values.new ≡ values_behind (values_of values.old) (replicate times value)) }
{
    for _done in 0..times {
        push(values, value)?;
    }
    Ok(())
}

/// Puts zeros behind others.
pub(crate) fn push_zeros(values: &mut Register, times: usize) -> Result<(), Memory>
    ensures { OnOk result (values_of values.new ≡ values_behind (values_of values.old) (replicate times (zero_of (kind_of_values (values_of values.old))))) }
{
    let zero = Value::zero(kind(values));
    push_times(values, zero, times)
}

/// The kind of values.
fn kind(values: &Register) -> ValueKind
    ensures { result ≡ kind_of_values (values_of values.now) }
{
    match values {
        Register::Truth(_) => ValueKind::Truth,
        Register::Int(_) => ValueKind::Int,
        Register::Fixed(_) => ValueKind::Fixed,
        Register::Vector(_) => ValueKind::Vector,
    }
}

/// Puts the first values of a column behind others, as values of their kind.
pub(crate) fn push_first(values: &mut Register, column: &Column, count: usize) -> Result<(), Memory>
    ensures { OnOk result (values_of values.new ≡ values_behind (values_of values.old) (first_values (attr.values_of column.now) count)) }
{
    for element in 0..count {
        push(values, value(column, element))?;
    }
    Ok(())
}

/// The column of these values.
pub(crate) fn column_of(values: Register) -> Result<Column, Memory>
    ensures values { IfOk result (λ c. attr.values_of c ≡ values_of values) }
    ensures sole { IfOk result IsSoleColumn }
{
    match values {
        Register::Truth(truths) => Ok(Column::Truth(array_of(truths)?)),
        Register::Int(integers) => Ok(Column::Int(array_of(integers)?)),
        Register::Fixed(numbers) => Ok(Column::Fixed(array_of(numbers)?)),
        Register::Vector(vectors) => Ok(Column::Vector(array_of(vectors)?)),
    }
}

/// A column with the value that another has at an item, `count` times.
pub(crate) fn repeated(
    alloc: Global,
    column: &Column,
    item: usize,
    count: usize,
) -> Result<Column, Memory>
    ensures { IfOk result (λ c. attr.values_of c ≡ repeated count item (attr.values_of column.now)) }
{
    let mut values = no_values(alloc, column.kind(), count)?;
    push_times(&mut values, value(column, item), count)?;
    column_of(values)
}
