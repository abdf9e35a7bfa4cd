// How registers are filled with values of another one.
ghost use Rattle.std.specs.Prelude.{◌≡◌, ℕ, ◌<◌, pos, length, slice_index, slice_index_or, All};
ghost use Rattle.gn_value.specs.Registers.{register_kind, register_len, register_value};
ghost use Rattle.gn_value.specs.Values.{kind_of as kind_of_value, zero_of};
ghost use Rattle.gn_plain.specs.Fields.{element_or};

use crate::copy::{kind_of, len_of};
use crate::filled::value_at;
use gn_registers::OfKind;
use gn_value::op::Register;
use gn_value::{Fx, V3, Value};

/// Sets each position to the value at the element there.
#[tactic(auto, using(crate::proofs::Elements::kind_of_value))]
fn pick_as<T: OfKind>(from: &Register, elements: &[u32], into: &mut [T])
    requires kind { T.KIND ≡ register_kind from.now }
    requires within { All (λ n. n < register_len from.now) elements.now }
    requires long { length into.old ≡ length elements.now }
    ensures { (k : ℕ) (d : T) → k < length into.old → T.as_value (slice_index_or into.new k d) ≡ register_value (slice_index elements.now k) from.now }
{
    let from: &[T] = T::list(from);
    for k in 0..into.len() {
        into[k] = from[elements[k] as usize];
    }
}

/// Sets each position to the value at the element there.
pub fn pick(from: &Register, elements: &[u32], into: &mut Register)
    requires kind { register_kind into.old ≡ register_kind from.now }
    requires within { All (λ n. n < register_len from.now) elements.now }
    requires long { register_len into.old ≡ length elements.now }
    ensures kind { register_kind into.new ≡ register_kind into.old }
    ensures len { register_len into.new ≡ register_len into.old }
    ensures values { (k : ℕ) → k < register_len into.old → register_value k into.new ≡ register_value (slice_index elements.now k) from.now }
{
    match into {
        Register::Truth(values) => pick_as(from, elements, values.as_mut_slice()),
        Register::Int(values) => pick_as(from, elements, values.as_mut_slice()),
        Register::Fixed(values) => pick_as(from, elements, values.as_mut_slice()),
        Register::Vector(values) => pick_as(from, elements, values.as_mut_slice()),
    }
}

/// The value of the element that an index names, or zero where there is no such element.
fn element_at(from: &Register, index: i32) -> Value
    ensures value { result ≡ element_or index (register_len from.now) (λ i. register_value i from.now) (zero_of (register_kind from.now)) }
    ensures kind { kind_of_value result ≡ register_kind from.now }
{
    if index < 0 {
        return Value::zero(kind_of(from));
    }
    let at = index as usize;
    if at >= len_of(from) {
        return Value::zero(kind_of(from));
    }
    value_at(from, at)
}

/// Sets each position to the value of the element that the index there names, or to zero where there
/// is no such element.
fn pick_at_as<T: OfKind>(from: &Register, indices: &[i32], into: &mut [T])
    requires kind { T.KIND ≡ register_kind from.now }
    requires long { length into.old ≡ length indices.now }
    ensures { (k : ℕ) (d : T) → k < length into.old → T.as_value (slice_index_or into.new k d) ≡ element_or (slice_index_or indices.now k (pos 0)) (register_len from.now) (λ i. register_value i from.now) (zero_of (register_kind from.now)) }
{
    for k in 0..into.len() {
        into[k] = T::of(element_at(from, indices[k]));
    }
}

/// Sets each position to the value of the element that the index there names, or to zero where there
/// is no such element.
pub fn pick_at(from: &Register, indices: &[i32], into: &mut Register)
    requires kind { register_kind into.old ≡ register_kind from.now }
    requires long { register_len into.old ≡ length indices.now }
    ensures kind { register_kind into.new ≡ register_kind into.old }
    ensures len { register_len into.new ≡ register_len into.old }
    ensures values { (k : ℕ) → k < register_len into.old → register_value k into.new ≡ element_or (slice_index_or indices.now k (pos 0)) (register_len from.now) (λ i. register_value i from.now) (zero_of (register_kind from.now)) }
{
    match into {
        Register::Truth(values) => pick_at_as(from, indices, values.as_mut_slice()),
        Register::Int(values) => pick_at_as(from, indices, values.as_mut_slice()),
        Register::Fixed(values) => pick_at_as(from, indices, values.as_mut_slice()),
        Register::Vector(values) => pick_at_as(from, indices, values.as_mut_slice()),
    }
}
