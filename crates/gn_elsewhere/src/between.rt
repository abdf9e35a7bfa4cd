// Values on one place of a mesh as values on another.
ghost use Rattle.std.specs.Prelude.{◌≡◌, IfOk};
ghost use Rattle.gn_value.specs.Registers.{register_len};
ghost use Rattle.gn_plain.specs.Topology.{IsNumbered, IsValid};
ghost use Rattle.gn_attr.specs.Columns.{values_of};
ghost use Rattle.gn_interp.specs.Gathered.{count_on, IsAdapted};
ghost use Rattle.gn_interp.specs.Takings.{topology_of, unplaced};
ghost use Rattle.gn_elsewhere.specs.Registers.{values_in};

use gn_attr::Column;
use gn_attr::array::array_of;
use gn_interp::adapt;
use gn_memory::Memory;
use gn_value::Place;
use gn_value::op::{Register, Topology};
use std::alloc::Global;

/// A column of a register's values.
fn column_of(values: Register) -> Result<Column, Memory>
    ensures { IfOk result (λ c. values_of c ≡ values_in values) }
{
    match values {
        Register::Truth(values) => Ok(Column::Truth(array_of(values)?)),
        Register::Int(values) => Ok(Column::Int(array_of(values)?)),
        Register::Fixed(values) => Ok(Column::Fixed(array_of(values)?)),
        Register::Vector(values) => Ok(Column::Vector(array_of(values)?)),
    }
}

/// The same items in a list of their own.
fn listed<T: Copy + Drop>(alloc: Global, items: &[T]) -> Result<Vec<T>, Memory>
    ensures { IfOk result (λ list. list.items ≡ items.now) }
{
    let mut list = Vec::new(alloc);
    list.extend_from_slice(items)?;
    Ok(list)
}

/// A register of a column's values.
fn register_of(alloc: Global, column: &Column) -> Result<Register, Memory>
    ensures { IfOk result (λ r. values_in r ≡ values_of column.now) }
{
    match column {
        Column::Truth(array) => Ok(Register::Truth(listed(alloc, array.items())?)),
        Column::Int(array) => Ok(Register::Int(listed(alloc, array.items())?)),
        Column::Fixed(array) => Ok(Register::Fixed(listed(alloc, array.items())?)),
        Column::Vector(array) => Ok(Register::Vector(listed(alloc, array.items())?)),
    }
}

/// Values on one place of a mesh as values on another.
///
/// Condition: the topology is valid, each of its lists has fewer than 2^32 members, and there are as
/// many values as the first place has elements.
pub fn bring(
    alloc: Global,
    values: Register,
    from: Place,
    to: Place,
    topology: &Topology<'_>,
) -> Result<Register, Memory>
    requires valid { IsValid (topology_of topology.now) }
    requires numbered { IsNumbered (topology_of topology.now) }
    requires count { register_len values ≡ count_on (topology_of topology.now) from }
    ensures { IfOk result (λ r. IsAdapted (unplaced (topology_of topology.now)) from to (count_on (topology_of topology.now) to) (values_in values) (values_in r)) }
{
    let column = column_of(values)?;
    let adapted = adapt(alloc, &column, from, to, topology)?;
    register_of(alloc, &adapted)
}
