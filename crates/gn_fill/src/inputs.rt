// What contexts and sources give at each position.
ghost use Rattle.std.specs.Prelude.{◌≡◌, ℕ, ◌<◌, length, slice_index, slice_index_or, All};
ghost use Rattle.gn_value.specs.Registers.{register_kind, register_len, register_value};
ghost use Rattle.gn_plain.specs.Contexts.{input_at, kind_of_input, length_of};
ghost use Rattle.gn_field.specs.Steps.{plain_input};

use crate::filled::value_at;
use gn_field::{Context, Input, Source};
use gn_registers::OfKind;
use gn_value::op::Register;
use gn_value::{Fx, V3};

/// Sets each position to an input at the element there.
fn read_as<T: OfKind, C: Context>(context: &C, input: &Input, elements: &[u32], into: &mut [T])
    requires kind { T.KIND ≡ kind_of_input (plain_input input.now) }
    requires within { All (λ n. n < length_of (C.meaning context.now)) elements.now }
    requires long { length into.old ≡ length elements.now }
    ensures { (k : ℕ) (d : T) → k < length into.old → T.as_value (slice_index_or into.new k d) ≡ input_at (C.meaning context.now) (plain_input input.now) (slice_index elements.now k) }
{
    for k in 0..into.len() {
        into[k] = T::of(context.input(input, elements[k]));
    }
}

/// Sets each position to an input at the element there.
pub fn read<C: Context>(context: &C, input: &Input, elements: &[u32], into: &mut Register)
    requires kind { register_kind into.old ≡ kind_of_input (plain_input input.now) }
    requires within { All (λ n. n < length_of (C.meaning context.now)) elements.now }
    requires long { register_len into.old ≡ length elements.now }
    ensures kind { register_kind into.new ≡ register_kind into.old }
    ensures len { register_len into.new ≡ register_len into.old }
    ensures values { (k : ℕ) → k < register_len into.old → register_value k into.new ≡ input_at (C.meaning context.now) (plain_input input.now) (slice_index elements.now k) }
{
    match into {
        Register::Truth(values) => read_as(context, input, elements, values.as_mut_slice()),
        Register::Int(values) => read_as(context, input, elements, values.as_mut_slice()),
        Register::Fixed(values) => read_as(context, input, elements, values.as_mut_slice()),
        Register::Vector(values) => read_as(context, input, elements, values.as_mut_slice()),
    }
}

/// Sets each position to what a source gives for the argument there.
fn sample_as<T: OfKind, S: Source>(source: &S, arg: &Register, into: &mut [T])
    requires takes { register_kind arg.now ≡ S.taken source.now }
    requires kind { T.KIND ≡ S.sources.kind source.now }
    requires long { length into.old ≡ register_len arg.now }
    ensures { (k : ℕ) (d : T) → k < length into.old → T.as_value (slice_index_or into.new k d) ≡ S.sources.value source.now (register_value k arg.now) }
{
    for k in 0..into.len() {
        into[k] = T::of(source.give(value_at(arg, k)));
    }
}

/// Sets each position to what a source gives for the argument there.
pub fn sample<S: Source>(source: &S, arg: &Register, into: &mut Register)
    requires takes { register_kind arg.now ≡ S.taken source.now }
    requires kind { register_kind into.old ≡ S.sources.kind source.now }
    requires long { register_len into.old ≡ register_len arg.now }
    ensures kind { register_kind into.new ≡ register_kind into.old }
    ensures len { register_len into.new ≡ register_len into.old }
    ensures values { (k : ℕ) → k < register_len into.old → register_value k into.new ≡ S.sources.value source.now (register_value k arg.now) }
{
    match into {
        Register::Truth(values) => sample_as(source, arg, values.as_mut_slice()),
        Register::Int(values) => sample_as(source, arg, values.as_mut_slice()),
        Register::Fixed(values) => sample_as(source, arg, values.as_mut_slice()),
        Register::Vector(values) => sample_as(source, arg, values.as_mut_slice()),
    }
}
