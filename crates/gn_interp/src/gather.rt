//! Values of the elements of one place, gathered by those of another.
ghost use Rattle.std.specs.Prelude.{◌≡◌, ◌+◌, ◌*◌, ◌<◌, ◌≤◌, ◌^◌, ◌+ℤ◌, length, unsigned_abs, IfOk};
ghost use Rattle.gn_interp.specs.Gathered.{AreGathered, joined_truth, mean_over, some_truth_over, total_of, truth_at, truth_over};
ghost use Rattle.gn_interp.specs.Numbers.{number_at};

use gn_memory::Memory;
use gn_value::whole::mean;
use std::alloc::Global;

/// What an element takes: the exact sum of the values, and how many there are.
#[derive(Clone, Copy, Debug)]
struct Total {
    sum: i128,
    count: u64,
}

impl Total {
    /// The total with one more value.
    fn with(self, value: i64) -> Total
        requires few { self.count < 2 ^ 63 }
        requires bounded { unsigned_abs self.sum ≤ 2 ^ 63 * self.count }
        ensures total { result ≡ record { sum = self.sum +ℤ value; count = self.count + 1 } }
        ensures bounded { unsigned_abs result.sum ≤ 2 ^ 63 * result.count }
    {
        Total {
            sum: self.sum + value as i128,
            count: self.count + 1,
        }
    }
}

/// The value of an element; 0 past the end.
fn number_at(values: &[i64], element: u32) -> i64
    ensures { result ≡ number_at values.now element }
{
    match values.get(element as usize) {
        Some(value) => *value,
        None => 0,
    }
}

/// The value of an element; false past the end.
fn truth_at(values: &[bool], element: u32) -> bool
    ensures { result ≡ truth_at values.now element }
{
    match values.get(element as usize) {
        Some(value) => *value,
        None => false,
    }
}

/// The totals of what the elements of a place take, of which there are `count`.
fn totals(
    alloc: Global,
    count: usize,
    takings: &[(u32, u32)],
    values: &[i64],
) -> Result<Vec<Total>, Memory>
    requires few { length takings.now < 2 ^ 63 }
    ensures count { IfOk result (λ totals. length totals.items ≡ count) }
    ensures totals { IfOk result (λ totals. AreGathered (total_of values.now) takings.now totals.items) }
{
    let mut totals = Vec::new(alloc);
    totals.resize(count, Total { sum: 0, count: 0 })?;
    for (taker, source) in takings {
        let taker = *taker as usize;
        if taker < totals.len() {
            totals[taker] = totals[taker].with(number_at(values, *source));
        }
    }
    Ok(totals)
}

/// The means of what the elements of a place take, rounded down; 0 where one takes nothing.
pub(crate) fn means(
    alloc: Global,
    count: usize,
    takings: &[(u32, u32)],
    values: &[i64],
) -> Result<Vec<i128>, Memory>
    requires few { length takings.now < 2 ^ 63 }
    ensures count { IfOk result (λ means. length means.items ≡ count) }
    ensures means { IfOk result (λ means. AreGathered (mean_over values.now) takings.now means.items) }
{
    let totals = totals(alloc, count, takings, values)?;
    let mut means = Vec::with_capacity(alloc, totals.len())?;
    for total in &totals {
        means.push(mean(total.sum, total.count))?;
    }
    Ok(means)
}

/// A truth with one more, where one suffices or all have to be true.
fn joined(before: Option<bool>, truth: bool, one_suffices: bool) -> bool
    ensures { result ≡ joined_truth one_suffices before truth }
{
    match before {
        None => truth,
        Some(before) if one_suffices => before || truth,
        Some(before) => before && truth,
    }
}

/// For the elements of a place whether one of the values that it takes is true, where one suffices,
/// and else whether all are; false where one takes nothing.
pub(crate) fn truths(
    alloc: Global,
    count: usize,
    takings: &[(u32, u32)],
    values: &[bool],
    one_suffices: bool,
) -> Result<Vec<bool>, Memory>
    ensures count { IfOk result (λ truths. length truths.items ≡ count) }
    ensures truths { IfOk result (λ truths. AreGathered (truth_over one_suffices values.now) takings.now truths.items) }
{
    let taken = taken_truths(alloc, count, takings, values, one_suffices)?;
    let mut truths = Vec::with_capacity(alloc, taken.len())?;
    for truth in &taken {
        truths.push(truth.unwrap_or(false))?;
    }
    Ok(truths)
}

fn taken_truths(
    alloc: Global,
    count: usize,
    takings: &[(u32, u32)],
    values: &[bool],
    one_suffices: bool,
) -> Result<Vec<Option<bool>>, Memory>
    ensures count { IfOk result (λ taken. length taken.items ≡ count) }
    ensures taken { IfOk result (λ taken. AreGathered (some_truth_over one_suffices values.now) takings.now taken.items) }
{
    let mut taken = Vec::new(alloc);
    taken.resize(count, None)?;
    for (taker, source) in takings {
        let taker = *taker as usize;
        if taker < taken.len() {
            let truth = truth_at(values, *source);
            taken[taker] = Some(joined(taken[taker], truth, one_suffices));
        }
    }
    Ok(taken)
}
