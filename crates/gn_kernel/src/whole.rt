//! The operations on whole registers.
ghost use Rattle.std.specs.Prelude.{◌≡◌, ◌<◌, ℕ, All, false, length, map, pos, slice_index_or};
ghost use Rattle.gn_value.specs.Registers.{register_kind, register_len, register_value, registers_named};
ghost use Rattle.gn_value.specs.Operations.{Takes, gives};
ghost use Rattle.gn_value.specs.Rows.{row};
ghost use Rattle.gn_value.specs.Values.{fx, v3};
ghost use Rattle.gn_value.specs.declared.value.Value.TheVariants.{Fixed as fixed, Int as int, Truth as truth, Vector as vector};
ghost use Rattle.gn_value.specs.declared.value.ValueKind.TheVariants.{Fixed, Int, Truth, Vector};
ghost use Rattle.gn_registers.specs.Arguments.{arguments};

use crate::numbers::{clamp, combine, map_range, mix, mix_vectors};
use crate::operations::{
    boolean_lists, compare_lists, component_lists, convert_lists, integer_lists, math_lists,
    round_lists, vector_lists, vector_number_lists,
};
use crate::random::{random_fixed, random_int, random_truth, random_vector};
use crate::selection::select;
use gn_registers::{Arguments, OfKind, each_five, each_four, each_three};
use gn_value::op::{CompareKind, MixKind, Op, Register};
use gn_value::{Fx, V3};

/// Sets each position of `into` to what the operation gives at that position of the registers that
/// `args` names, in order. These registers are as long as `into` and have the kinds that the
/// operation takes, and `into` has the kind that it gives.
pub fn many(op: &Op, registers: &[Register], args: &[u32], into: &mut Register)
    requires in_range { All (λ number. number < length registers.now) args.now }
    requires one_length { All (λ register. register_len register ≡ register_len into.old) (registers_named registers.now args.now) }
    requires takes { Takes op.now (map register_kind (registers_named registers.now args.now)) }
    requires gives { register_kind into.old ≡ gives op.now }
    ensures kind { register_kind into.new ≡ register_kind into.old }
    ensures len { register_len into.new ≡ register_len into.old }
    ensures values { (k : ℕ) → k < register_len into.old →
        register_value k into.new ≡ row op.now (map (register_value k) (registers_named registers.now args.now)) }
{
    let args = Arguments::new(registers, args);
    match into {
        Register::Truth(values) => many_truths(*op, &args, values.as_mut_slice()),
        Register::Int(values) => many_integers(*op, &args, values.as_mut_slice()),
        Register::Fixed(values) => many_numbers(*op, &args, values.as_mut_slice()),
        Register::Vector(values) => many_vectors(*op, &args, values.as_mut_slice()),
    }
}

/// The operations that give truths.
#[tactic(auto, unfolding(gn_value::specs::Operations::Takes, gn_value::specs::Operations::gives, gn_value::specs::Rows::row), using(crate::proofs::Results::vectors_give_no_truth, crate::proofs::Results::mixtures_give_no_truth))]
fn many_truths(op: Op, args: &Arguments, into: &mut [bool])
    requires long { All (λ register. register_len register ≡ length into.old) args.now }
    requires takes { Takes op (map register_kind args.now) }
    requires gives { gives op ≡ Truth }
    ensures { (k : ℕ) → k < length into.old → truth (slice_index_or into.new k false) ≡ row op (arguments k args.now) }
{
    match op {
        Op::BooleanMath { op } => boolean_lists(op, args, into),
        Op::Compare {
            kind: CompareKind::Int,
            op,
        } => compare_lists::<i32>(op, args, into),
        Op::Compare {
            kind: CompareKind::Fixed,
            op,
        } => compare_lists::<Fx>(op, args, into),
        Op::RandomValue { .. } => each_three(args, into, random_truth),
        Op::Convert { .. } => convert_lists(args, into),
        Op::Select { cases, .. } => select(cases, args, into),
        Op::VectorMath { .. } | Op::Mix { .. } => {}
        // No other operation gives such values.
        _ => {}
    }
}

/// The operations that give integers.
#[tactic(auto, unfolding(gn_value::specs::Operations::Takes, gn_value::specs::Operations::gives, gn_value::specs::Rows::row), using(crate::proofs::Results::vectors_give_no_int, crate::proofs::Results::mixtures_give_no_int))]
fn many_integers(op: Op, args: &Arguments, into: &mut [i32])
    requires long { All (λ register. register_len register ≡ length into.old) args.now }
    requires takes { Takes op (map register_kind args.now) }
    requires gives { gives op ≡ Int }
    ensures { (k : ℕ) → k < length into.old → int (slice_index_or into.new k (pos 0)) ≡ row op (arguments k args.now) }
{
    match op {
        Op::IntegerMath { op } => integer_lists(op, args, into),
        Op::FloatToInteger { op } => round_lists(op, args, into),
        Op::RandomValue { .. } => each_four(args, into, random_int),
        Op::Convert { .. } => convert_lists(args, into),
        Op::Select { cases, .. } => select(cases, args, into),
        Op::VectorMath { .. } | Op::Mix { .. } => {}
        // No other operation gives such values.
        _ => {}
    }
}

/// The operations that give fixed numbers.
#[tactic(auto, unfolding(gn_value::specs::Operations::Takes, gn_value::specs::Operations::gives, gn_value::specs::Rows::row))]
fn many_numbers(op: Op, args: &Arguments, into: &mut [Fx])
    requires long { All (λ register. register_len register ≡ length into.old) args.now }
    requires takes { Takes op (map register_kind args.now) }
    requires gives { gives op ≡ Fixed }
    ensures { (k : ℕ) → k < length into.old → fixed (slice_index_or into.new k (fx (pos 0))) ≡ row op (arguments k args.now) }
{
    match op {
        Op::Math { op } => math_lists(op, args, into),
        Op::VectorMath { op } => vector_number_lists(op, args, into),
        Op::Clamp => each_three(args, into, clamp),
        Op::MapRange { clamp } => each_five(
            args,
            into,
            |value: Fx, a: Fx, b: Fx, c: Fx, d: Fx| map_range(clamp, value, (a, b), (c, d)),
        ),
        Op::Mix {
            kind: MixKind::Fixed,
        } => each_three(args, into, mix),
        Op::SeparateXyz { axis } => component_lists(axis, args, into),
        Op::RandomValue { .. } => each_four(args, into, random_fixed),
        Op::Convert { .. } => convert_lists(args, into),
        Op::Select { cases, .. } => select(cases, args, into),
        // No other operation gives such values.
        _ => {}
    }
}

/// The operations that give vectors.
#[tactic(auto, unfolding(gn_value::specs::Operations::Takes, gn_value::specs::Operations::gives, gn_value::specs::Rows::row))]
fn many_vectors(op: Op, args: &Arguments, into: &mut [V3])
    requires long { All (λ register. register_len register ≡ length into.old) args.now }
    requires takes { Takes op (map register_kind args.now) }
    requires gives { gives op ≡ Vector }
    ensures { (k : ℕ) → k < length into.old → vector (slice_index_or into.new k (v3 (pos 0) (pos 0) (pos 0))) ≡ row op (arguments k args.now) }
{
    match op {
        Op::VectorMath { op } => vector_lists(op, args, into),
        Op::Mix {
            kind: MixKind::Vector,
        } => each_three(args, into, mix_vectors),
        Op::CombineXyz => each_three(args, into, combine),
        Op::RandomValue { .. } => each_four(args, into, random_vector),
        Op::Convert { .. } => convert_lists(args, into),
        Op::Select { cases, .. } => select(cases, args, into),
        // No other operation gives such values.
        _ => {}
    }
}
