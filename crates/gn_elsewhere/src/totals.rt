// Exact sums over the elements of a group.
ghost use Rattle.std.specs.Prelude.{◌≡◌, ℕ, ◌<◌, ◌≤◌, ◌+◌, ◌^◌, ◌+ℤ◌, length, slice_index, unsigned_abs, IfOk};
ghost use Rattle.gn_plain.specs.Fields.{leading as up_to, trailing as before, total as whole};
ghost use Rattle.gn_field.specs.Steps.{plain_part};
ghost use Rattle.gn_elsewhere.specs.Sums.{AreSums, AreTotals};

use crate::groups::Groups;
use gn_field::Part;
use gn_memory::Memory;
use std::alloc::Global;

/// The sum with one more number.
fn with(sum: i128, number: i64) -> i128
    requires { unsigned_abs sum ≤ 2 ^ 96 }
    ensures sum { result ≡ sum +ℤ number }
    ensures bounded { unsigned_abs result ≤ unsigned_abs sum + 2 ^ 63 }
{
    sum + number as i128
}

/// Adds the number of an element to the sum of its group.
fn add(sums: &mut Vec<i128>, numbers: &[i64], of: &[u32], at: usize)
    requires within { at < length of.now }
    requires long { length numbers.now ≡ length of.now }
    requires few { length of.now < 2 ^ 32 }
    requires group { (i : ℕ) → i < length of.now → slice_index of.now i < length sums.old.items }
    requires sums { AreSums numbers.now of.now at sums.old.items }
    ensures len { length sums.new.items ≡ length sums.old.items }
    ensures sums { AreSums numbers.now of.now (at + 1) sums.new.items }
{
    let group = of[at] as usize;
    let sum = with(sums[group], numbers[at]);
    sums[group] = sum;
}

/// Of each element the sum up to it.
fn leading(alloc: Global, numbers: &[i64], groups: &Groups) -> Result<Vec<i128>, Memory>
    requires long { length numbers.now ≡ length groups.now.of.items }
    requires few { length numbers.now < 2 ^ 32 }
    requires group { (i : ℕ) → i < length groups.now.of.items → slice_index groups.now.of.items i < groups.now.count }
    ensures len { IfOk result (λ totals. length totals.items ≡ length numbers.now) }
    ensures totals { IfOk result (λ totals. AreTotals up_to numbers.now groups.now.of.items totals.items) }
{
    let mut sums = vec![in alloc; 0i128; groups.count]?;
    let mut totals = Vec::with_capacity(alloc, numbers.len())?;
    for at in 0..numbers.len() {
        add(&mut sums, numbers, &groups.of, at);
        totals.push(sums[groups.of[at] as usize])?;
    }
    Ok(totals)
}

/// Of each element the sum before it.
fn trailing(alloc: Global, numbers: &[i64], groups: &Groups) -> Result<Vec<i128>, Memory>
    requires long { length numbers.now ≡ length groups.now.of.items }
    requires few { length numbers.now < 2 ^ 32 }
    requires group { (i : ℕ) → i < length groups.now.of.items → slice_index groups.now.of.items i < groups.now.count }
    ensures len { IfOk result (λ totals. length totals.items ≡ length numbers.now) }
    ensures totals { IfOk result (λ totals. AreTotals before numbers.now groups.now.of.items totals.items) }
{
    let mut sums = vec![in alloc; 0i128; groups.count]?;
    let mut totals = Vec::with_capacity(alloc, numbers.len())?;
    for at in 0..numbers.len() {
        totals.push(sums[groups.of[at] as usize])?;
        add(&mut sums, numbers, &groups.of, at);
    }
    Ok(totals)
}

/// The sums of all groups.
fn group_sums(alloc: Global, numbers: &[i64], groups: &Groups) -> Result<Vec<i128>, Memory>
    requires long { length numbers.now ≡ length groups.now.of.items }
    requires few { length numbers.now < 2 ^ 32 }
    requires group { (i : ℕ) → i < length groups.now.of.items → slice_index groups.now.of.items i < groups.now.count }
    ensures len { IfOk result (λ sums. length sums.items ≡ groups.now.count) }
    ensures sums { IfOk result (λ sums. AreSums numbers.now groups.now.of.items (length numbers.now) sums.items) }
{
    let mut sums = vec![in alloc; 0i128; groups.count]?;
    for at in 0..numbers.len() {
        add(&mut sums, numbers, &groups.of, at);
    }
    Ok(sums)
}

/// Of each element the sum of its group.
fn total(alloc: Global, numbers: &[i64], groups: &Groups) -> Result<Vec<i128>, Memory>
    requires long { length numbers.now ≡ length groups.now.of.items }
    requires few { length numbers.now < 2 ^ 32 }
    requires group { (i : ℕ) → i < length groups.now.of.items → slice_index groups.now.of.items i < groups.now.count }
    ensures len { IfOk result (λ totals. length totals.items ≡ length numbers.now) }
    ensures totals { IfOk result (λ totals. AreTotals whole numbers.now groups.now.of.items totals.items) }
{
    let sums = group_sums(alloc, numbers, groups)?;
    let mut totals = Vec::with_capacity(alloc, numbers.len())?;
    for group in &groups.of {
        totals.push(sums[*group as usize])?;
    }
    Ok(totals)
}

/// Of each element the exact sum of the numbers of its group that its part of the group has.
pub(crate) fn totals(
    alloc: Global,
    part: Part,
    numbers: &[i64],
    groups: &Groups,
) -> Result<Vec<i128>, Memory>
    requires long { length numbers.now ≡ length groups.now.of.items }
    requires few { length numbers.now < 2 ^ 32 }
    requires group { (i : ℕ) → i < length groups.now.of.items → slice_index groups.now.of.items i < groups.now.count }
    ensures len { IfOk result (λ totals. length totals.items ≡ length numbers.now) }
    ensures totals { IfOk result (λ totals. AreTotals (plain_part part) numbers.now groups.now.of.items totals.items) }
{
    match part {
        Part::Leading => leading(alloc, numbers, groups),
        Part::Trailing => trailing(alloc, numbers, groups),
        Part::Total => total(alloc, numbers, groups),
    }
}
