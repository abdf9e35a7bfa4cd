//! Lists of values as lists of numbers, and back.
ghost use Rattle.std.specs.Prelude.{◌≡◌, ℕ, ◌<◌, length, map, slice_index_or, IfOk};
ghost use Rattle.gn_value.specs.Arithmetic.{sat_int};
ghost use Rattle.gn_value.specs.Values.{raw};
ghost use Rattle.gn_value.specs.declared.vector.V3.{V3};
ghost use Rattle.gn_interp.specs.Numbers.{component_of, components, fixed_number, vector_at};

use gn_memory::Memory;
use gn_value::op::Axis;
use gn_value::whole::{saturate_i32, saturate_i64};
use gn_value::{Fx, V3};
use std::alloc::Global;

/// Integers as numbers of 64 bits.
pub fn wide(alloc: Global, values: &[i32]) -> Result<Vec<i64>, Memory>
    ensures { IfOk result (λ wide. wide.items ≡ values.now) }
{
    let mut wide = Vec::with_capacity(alloc, values.len())?;
    for value in values {
        wide.push(*value as i64)?;
    }
    Ok(wide)
}

/// The raw numbers.
pub fn raw(alloc: Global, values: &[Fx]) -> Result<Vec<i64>, Memory>
    ensures { IfOk result (λ raws. raws.items ≡ map raw values.now) }
{
    let mut raws = Vec::with_capacity(alloc, values.len())?;
    for value in values {
        raws.push(value.0)?;
    }
    Ok(raws)
}

/// The raw number of one component.
fn component(vector: V3, axis: Axis) -> i64
    ensures { result ≡ component_of axis vector }
{
    match axis {
        Axis::X => vector.x.0,
        Axis::Y => vector.y.0,
        Axis::Z => vector.z.0,
    }
}

/// The raw numbers of one component of each vector.
pub fn components(alloc: Global, values: &[V3], axis: Axis) -> Result<Vec<i64>, Memory>
    ensures { IfOk result (λ raws. raws.items ≡ components axis values.now) }
{
    let mut raws = Vec::with_capacity(alloc, values.len())?;
    for value in values {
        raws.push(component(*value, axis))?;
    }
    Ok(raws)
}

/// Numbers as integers: the nearest to each.
pub fn integers(alloc: Global, numbers: &[i128]) -> Result<Vec<i32>, Memory>
    ensures { IfOk result (λ integers. integers.items ≡ map sat_int numbers.now) }
{
    let mut integers = Vec::with_capacity(alloc, numbers.len())?;
    for number in numbers {
        integers.push(saturate_i32(*number))?;
    }
    Ok(integers)
}

/// Raw numbers as fixed numbers: the nearest to each.
pub fn fixed_numbers(alloc: Global, raws: &[i128]) -> Result<Vec<Fx>, Memory>
    ensures { IfOk result (λ fixed. fixed.items ≡ map fixed_number raws.now) }
{
    let mut fixed = Vec::with_capacity(alloc, raws.len())?;
    for raw in raws {
        fixed.push(Fx(saturate_i64(*raw)))?;
    }
    Ok(fixed)
}

/// Vectors of these components.
///
/// Condition: the lists are of one length.
pub fn vectors(alloc: Global, x: &[Fx], y: &[Fx], z: &[Fx]) -> Result<Vec<V3>, Memory>
    requires y { length y.now ≡ length x.now }
    requires z { length z.now ≡ length x.now }
    ensures len { IfOk result (λ vectors. length vectors.items ≡ length x.now) }
    ensures vectors { IfOk result (λ vectors. (i : ℕ) (d : V3) → i < length x.now → slice_index_or vectors.items i d ≡ vector_at x.now y.now z.now i) }
{
    let mut vectors = Vec::with_capacity(alloc, x.len())?;
    for at in 0..x.len() {
        vectors.push(V3 {
            x: x[at],
            y: y[at],
            z: z[at],
        })?;
    }
    Ok(vectors)
}
