//! Means of values of each kind.
ghost use Rattle.std.specs.Prelude.{◌≡◌, ◌<◌, ◌^◌, length, map, IfOk};
ghost use Rattle.gn_value.specs.Values.{raw};
ghost use Rattle.gn_interp.specs.Numbers.{components};
ghost use Rattle.gn_interp.specs.Gathered.{AreGathered, fixed_over, integer_over, vector_over};

use crate::gather::means;
use crate::numbers::{components, fixed_numbers, integers, raw, vectors, wide};
use gn_memory::Memory;
use gn_value::op::Axis;
use gn_value::{Fx, V3};
use std::alloc::Global;

/// The means of integers.
pub(crate) fn integer_means(
    alloc: Global,
    count: usize,
    takings: &[(u32, u32)],
    values: &[i32],
) -> Result<Vec<i32>, Memory>
    requires few { length takings.now < 2 ^ 63 }
    ensures count { IfOk result (λ means. length means.items ≡ count) }
    ensures means { IfOk result (λ means. AreGathered (integer_over values.now) takings.now means.items) }
{
    let means = means(alloc, count, takings, &wide(alloc, values)?)?;
    integers(alloc, &means)
}

/// The means of raw numbers, as fixed numbers.
fn means_of_raw(
    alloc: Global,
    count: usize,
    takings: &[(u32, u32)],
    values: &[i64],
) -> Result<Vec<Fx>, Memory>
    requires few { length takings.now < 2 ^ 63 }
    ensures count { IfOk result (λ means. length means.items ≡ count) }
    ensures means { IfOk result (λ means. AreGathered (fixed_over values.now) takings.now means.items) }
{
    let means = means(alloc, count, takings, values)?;
    fixed_numbers(alloc, &means)
}

/// The means of fixed numbers.
pub(crate) fn fixed_means(
    alloc: Global,
    count: usize,
    takings: &[(u32, u32)],
    values: &[Fx],
) -> Result<Vec<Fx>, Memory>
    requires few { length takings.now < 2 ^ 63 }
    ensures count { IfOk result (λ means. length means.items ≡ count) }
    ensures means { IfOk result (λ means. AreGathered (fixed_over (map raw values.now)) takings.now means.items) }
{
    means_of_raw(alloc, count, takings, &raw(alloc, values)?)
}

/// The means of one component.
fn means_along(
    alloc: Global,
    count: usize,
    takings: &[(u32, u32)],
    values: &[V3],
    axis: Axis,
) -> Result<Vec<Fx>, Memory>
    requires few { length takings.now < 2 ^ 63 }
    ensures count { IfOk result (λ means. length means.items ≡ count) }
    ensures means { IfOk result (λ means. AreGathered (fixed_over (components axis values.now)) takings.now means.items) }
{
    means_of_raw(alloc, count, takings, &components(alloc, values, axis)?)
}

/// The means of vectors, by component.
pub(crate) fn vector_means(
    alloc: Global,
    count: usize,
    takings: &[(u32, u32)],
    values: &[V3],
) -> Result<Vec<V3>, Memory>
    requires few { length takings.now < 2 ^ 63 }
    ensures count { IfOk result (λ means. length means.items ≡ count) }
    ensures means { IfOk result (λ means. AreGathered (vector_over values.now) takings.now means.items) }
{
    let x = means_along(alloc, count, takings, values, Axis::X)?;
    let y = means_along(alloc, count, takings, values, Axis::Y)?;
    let z = means_along(alloc, count, takings, values, Axis::Z)?;
    vectors(alloc, &x, &y, &z)
}
