// Values that are put at some elements.
ghost use Rattle.std.specs.Prelude.{◌≡◌, ℕ, ◌<◌, All, length, slice_index, slice_index_or};
ghost use Rattle.gn_value.specs.Registers.{register_kind, register_len, register_value};
ghost use Rattle.gn_value.specs.declared.value.Value.{Value};
ghost use Rattle.gn_fill.specs.Put.{IsPut};

use gn_registers::OfKind;
use gn_value::op::Register;
use gn_value::{Fx, V3};

/// Puts the values of a register at elements.
fn put_as<T: OfKind>(values: &Register, elements: &[u32], into: &mut [T])
    requires kind { T.KIND ≡ register_kind values.now }
    requires long { register_len values.now ≡ length elements.now }
    requires within { All (λ n. n < length into.old) elements.now }
    ensures { (value : ℕ → Value) (d : T) → ((k : ℕ) → k < length elements.now → register_value k values.now ≡ value (slice_index elements.now k)) → IsPut elements.now value (λ i. T.as_value (slice_index_or into.old i d)) (λ i. T.as_value (slice_index_or into.new i d)) (length into.old) }
{
    let values: &[T] = T::list(values);
    for k in 0..elements.len() {
        into[elements[k] as usize] = values[k];
    }
}

/// Puts the values of a register at elements. The values at an element that comes more than once are
/// the same.
pub fn put(values: &Register, elements: &[u32], into: &mut Register)
    requires kind { register_kind values.now ≡ register_kind into.old }
    requires long { register_len values.now ≡ length elements.now }
    requires within { All (λ n. n < register_len into.old) elements.now }
    ensures kind { register_kind into.new ≡ register_kind into.old }
    ensures len { register_len into.new ≡ register_len into.old }
    ensures values { (value : ℕ → Value) → ((k : ℕ) → k < length elements.now → register_value k values.now ≡ value (slice_index elements.now k)) → IsPut elements.now value (λ i. register_value i into.old) (λ i. register_value i into.new) (register_len into.old) }
{
    match into {
        Register::Truth(into) => put_as(values, elements, into.as_mut_slice()),
        Register::Int(into) => put_as(values, elements, into.as_mut_slice()),
        Register::Fixed(into) => put_as(values, elements, into.as_mut_slice()),
        Register::Vector(into) => put_as(values, elements, into.as_mut_slice()),
    }
}
