//! One column: values of one kind.
ghost use Rattle.std.specs.Prelude.{◌≡◌, ◌↔◌, IsTrue, length, OnOk, OnErr, IfOk};
ghost use Rattle.gn_plain.specs.Columns.{count_of_values, kind_of_values};
ghost use Rattle.gn_attr.specs.Handles.{noted_if};
ghost use Rattle.gn_attr.specs.Columns.{values_of, one_part, IsSoleColumn, IsTwinColumn, KeepsColumn, OwnsColumn};
ghost use Rattle.gn_attr.specs.Writing.{AreAlike, values_chosen};

use crate::array;
use gn_memory::Memory;
use gn_shared::{Meter, SharedArray, USERS};
use gn_value::{Fx, V3, ValueKind};
use std::alloc::Global;

/// The values of a column.
#[derive(Drop)]
pub enum Column {
    Truth(SharedArray<bool, USERS>),
    Int(SharedArray<i32, USERS>),
    Fixed(SharedArray<Fx, USERS>),
    Vector(SharedArray<V3, USERS>),
}

impl Column {
    /// How many values there are.
    pub fn len(&self) -> usize
        ensures { result ≡ count_of_values (values_of self.now) }
    {
        match self {
            Column::Truth(array) => array.items().len(),
            Column::Int(array) => array.items().len(),
            Column::Fixed(array) => array.items().len(),
            Column::Vector(array) => array.items().len(),
        }
    }

    /// The kind of the values.
    pub fn kind(&self) -> ValueKind
        ensures { result ≡ kind_of_values (values_of self.now) }
    {
        match self {
            Column::Truth(_) => ValueKind::Truth,
            Column::Int(_) => ValueKind::Int,
            Column::Fixed(_) => ValueKind::Fixed,
            Column::Vector(_) => ValueKind::Vector,
        }
    }

    /// Whether the two have values of one kind, and as many.
    pub fn is_like(&self, other: &Column) -> bool
        ensures { IsTrue result ↔ AreAlike (values_of self.now) (values_of other.now) }
    {
        match (self, other) {
            (Column::Truth(a), Column::Truth(b)) => a.items().len() == b.items().len(),
            (Column::Int(a), Column::Int(b)) => a.items().len() == b.items().len(),
            (Column::Fixed(a), Column::Fixed(b)) => a.items().len() == b.items().len(),
            (Column::Vector(a), Column::Vector(b)) => a.items().len() == b.items().len(),
            _ => false,
        }
    }

    /// The same values once more: in the same block where the handle has more than one part, and
    /// else as a copy, which is noted.
    pub fn second<L>(&mut self, alloc: Global, meter: &mut Meter<L>) -> Result<Column, Memory>
        ensures kept { KeepsColumn self.old self.new }
        ensures twin { IfOk result (IsTwinColumn self.old) }
        ensures noted { OnOk result (meter.new ≡ noted_if (one_part self.old) meter.old) }
        ensures refused { OnErr result (meter.new ≡ meter.old) }
    {
        Ok(match self {
            Column::Truth(array) => Column::Truth(array::second(alloc, array, meter)?),
            Column::Int(array) => Column::Int(array::second(alloc, array, meter)?),
            Column::Fixed(array) => Column::Fixed(array::second(alloc, array, meter)?),
            Column::Vector(array) => Column::Vector(array::second(alloc, array, meter)?),
        })
    }

    /// The same values in an array of their own.
    pub fn copied(&self, alloc: Global) -> Result<Column, Memory>
        ensures values { IfOk result (λ copy. values_of copy ≡ values_of self.now) }
        ensures sole { IfOk result IsSoleColumn }
    {
        Ok(match self {
            Column::Truth(array) => Column::Truth(array::copied(alloc, array)?),
            Column::Int(array) => Column::Int(array::copied(alloc, array)?),
            Column::Fixed(array) => Column::Fixed(array::copied(alloc, array)?),
            Column::Vector(array) => Column::Vector(array::copied(alloc, array)?),
        })
    }

    /// Writes the values of another column over these, where they are selected: in place where the
    /// handle can be the only one of its block, and else into a copy, which is noted.
    pub fn write<L>(
        &mut self,
        alloc: Global,
        values: &Column,
        selected: &[bool],
        meter: &mut Meter<L>,
    ) -> Result<(), Memory>
        requires alike { AreAlike (values_of values.now) (values_of self.old) }
        requires selected { length selected.now ≡ count_of_values (values_of values.now) }
        ensures values { OnOk result (values_of self.new ≡ values_chosen selected.now (values_of values.now) (values_of self.old)) }
        ensures sole { OnOk result (IsSoleColumn self.new) }
        ensures noted { OnOk result (OwnsColumn self.old self.new meter.old meter.new) }
        ensures refused { OnErr result ((self.new ≡ self.old) × (meter.new ≡ meter.old)) }
    {
        match (self, values) {
            (Column::Truth(array), Column::Truth(values)) => {
                array::write(alloc, array, values.items(), selected, meter)
            }
            (Column::Int(array), Column::Int(values)) => {
                array::write(alloc, array, values.items(), selected, meter)
            }
            (Column::Fixed(array), Column::Fixed(values)) => {
                array::write(alloc, array, values.items(), selected, meter)
            }
            (Column::Vector(array), Column::Vector(values)) => {
                array::write(alloc, array, values.items(), selected, meter)
            }
            _ => unreachable!(),
        }
    }
}
