// Sums of values of each kind.
ghost use Rattle.std.specs.Prelude.{◌≡◌, ℕ, ◌<◌, ◌^◌, length, slice_index, slice_index_or, pos, IfOk};
ghost use Rattle.gn_value.specs.Arithmetic.{sat_int};
ghost use Rattle.gn_value.specs.Values.{fx, v3};
ghost use Rattle.gn_value.specs.Registers.{register_kind, register_len, register_value};
ghost use Rattle.gn_value.specs.declared.value.Value.TheVariants.{Int as int};
ghost use Rattle.gn_plain.specs.Fields.{accumulated};
ghost use Rattle.gn_field.specs.Steps.{plain_part};
ghost use Rattle.gn_interp.specs.Numbers.{fixed_number, number_at};
ghost use Rattle.gn_elsewhere.specs.Sums.{total_at, vector_total};

use crate::groups::{Groups, numbered};
use crate::totals::totals;
use gn_field::Part;
use gn_interp::numbers::{components, fixed_numbers, integers, raw, vectors, wide};
use gn_memory::Memory;
use gn_value::op::{Axis, Register};
use gn_value::{Fx, V3};
use std::alloc::Global;

/// Sums of integers.
fn integer_sums(
    alloc: Global,
    part: Part,
    values: &[i32],
    groups: &Groups,
) -> Result<Vec<i32>, Memory>
    requires few { length values.now < 2 ^ 32 }
    requires long { length values.now ≡ length groups.now.of.items }
    requires group { (i : ℕ) → i < length groups.now.of.items → slice_index groups.now.of.items i < groups.now.count }
    ensures len { IfOk result (λ sums. length sums.items ≡ length values.now) }
    ensures sums { IfOk result (λ sums. (k : ℕ) → k < length values.now → number_at sums.items k ≡ sat_int (total_at (plain_part part) values.now groups.now.of.items k)) }
{
    let totals = totals(alloc, part, &wide(alloc, values)?, groups)?;
    integers(alloc, &totals)
}

/// Sums of raw numbers, as fixed numbers.
fn sums_of_raw(
    alloc: Global,
    part: Part,
    values: &[i64],
    groups: &Groups,
) -> Result<Vec<Fx>, Memory>
    requires few { length values.now < 2 ^ 32 }
    requires long { length values.now ≡ length groups.now.of.items }
    requires group { (i : ℕ) → i < length groups.now.of.items → slice_index groups.now.of.items i < groups.now.count }
    ensures len { IfOk result (λ sums. length sums.items ≡ length values.now) }
    ensures sums { IfOk result (λ sums. (k : ℕ) → k < length values.now → slice_index_or sums.items k (fx (pos 0)) ≡ fixed_number (total_at (plain_part part) values.now groups.now.of.items k)) }
{
    let totals = totals(alloc, part, values, groups)?;
    fixed_numbers(alloc, &totals)
}

/// Sums of vectors, by component.
fn vector_sums(alloc: Global, part: Part, values: &[V3], groups: &Groups) -> Result<Vec<V3>, Memory>
    requires few { length values.now < 2 ^ 32 }
    requires long { length values.now ≡ length groups.now.of.items }
    requires group { (i : ℕ) → i < length groups.now.of.items → slice_index groups.now.of.items i < groups.now.count }
    ensures len { IfOk result (λ sums. length sums.items ≡ length values.now) }
    ensures sums { IfOk result (λ sums. (k : ℕ) → k < length values.now → slice_index_or sums.items k (v3 (pos 0) (pos 0) (pos 0)) ≡ vector_total (plain_part part) values.now groups.now.of.items k) }
{
    let x = sums_of_raw(alloc, part, &components(alloc, values, Axis::X)?, groups)?;
    let y = sums_of_raw(alloc, part, &components(alloc, values, Axis::Y)?, groups)?;
    let z = sums_of_raw(alloc, part, &components(alloc, values, Axis::Z)?, groups)?;
    vectors(alloc, &x, &y, &z)
}

/// Of each element the sum of the values of its group that its part of the group has. A sum of truths is
/// false.
///
/// Condition: there is an integer of `groups` for each value, and there are fewer than 2^32 values.
pub fn sums(
    alloc: Global,
    part: Part,
    values: &Register,
    groups: &[i32],
) -> Result<Register, Memory>
    requires few { register_len values.now < 2 ^ 32 }
    requires long { length groups.now ≡ register_len values.now }
    ensures kind { IfOk result (λ r. register_kind r ≡ register_kind values.now) }
    ensures len { IfOk result (λ r. register_len r ≡ register_len values.now) }
    ensures sums { IfOk result (λ r. (k : ℕ) → k < register_len values.now → register_value k r ≡ accumulated (register_kind values.now) (plain_part part) (register_len values.now) (λ j. register_value j values.now) (λ j. int (number_at groups.now j)) k) }
{
    let groups = numbered(alloc, groups)?;
    match values {
        Register::Truth(values) => Ok(Register::Truth(vec![in alloc; false; values.len()]?)),
        Register::Int(values) => Ok(Register::Int(integer_sums(alloc, part, values, &groups)?)),
        Register::Fixed(values) => {
            let raws = raw(alloc, values)?;
            Ok(Register::Fixed(sums_of_raw(alloc, part, &raws, &groups)?))
        }
        Register::Vector(values) => Ok(Register::Vector(vector_sums(
            alloc, part, values, &groups,
        )?)),
    }
}
