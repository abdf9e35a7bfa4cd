//! The operations that have a variant for each of several meanings, on whole registers.
ghost use Rattle.std.specs.Prelude.{◌≡◌, ◌<◌, ℕ, ℤ, All, [], ◌∷◌, false, length, map, pos, slice_index_or};
ghost use Rattle.gn_value.specs.Operations.{Takes, boolean_math_takes, integer_math_takes, math_takes, vector_math_gives, vector_math_takes};
ghost use Rattle.gn_value.specs.Registers.{register_kind, register_len};
ghost use Rattle.gn_value.specs.Rows.{compare_row, row};
ghost use Rattle.gn_value.specs.Values.{converted, fx, v3};
ghost use Rattle.gn_value.specs.declared.op.Op.TheVariants.{BooleanMath, Convert, FloatToInteger, IntegerMath, Math, SeparateXyz, VectorMath};
ghost use Rattle.gn_value.specs.declared.value.Value.TheVariants.{Fixed as fixed, Int as int, Truth as truth, Vector as vector};
ghost use Rattle.gn_value.specs.declared.value.ValueKind.TheVariants.{Fixed, Int, Vector};
ghost use Rattle.gn_registers.specs.Arguments.{argument, arguments};

use crate::numbers::{component, divide_integers, fraction, round, sign};
use gn_registers::{Arguments, Number, OfKind, each, each_two};
use gn_value::op::{
    Axis, BooleanMathOp, CompareOp, IntegerMathOp, MathOp, Register, RoundMode, VectorMathOp,
};
use gn_value::whole::modulo_i32;
use gn_value::{Fx, V3, convert};

/// An operation on fixed numbers at each position.
#[tactic(auto, unfolding(gn_value::specs::Rows::row, gn_value::specs::Rows::math_row))]
pub fn math_lists(op: MathOp, args: &Arguments, into: &mut [Fx])
    requires long { All (λ register. register_len register ≡ length into.old) args.now }
    requires kinds { map register_kind args.now ≡ math_takes op }
    ensures { (k : ℕ) → k < length into.old → fixed (slice_index_or into.new k (fx (pos 0))) ≡ row (Math op) (arguments k args.now) }
{
    match op {
        MathOp::Add => each_two(args, into, Fx::add),
        MathOp::Subtract => each_two(args, into, Fx::sub),
        MathOp::Multiply => each_two(args, into, Fx::mul),
        MathOp::Divide => each_two(args, into, Fx::div),
        MathOp::Modulo => each_two(args, into, Fx::modulo),
        MathOp::Minimum => each_two(args, into, Fx::min),
        MathOp::Maximum => each_two(args, into, Fx::max),
        MathOp::Absolute => each(args, into, Fx::abs),
        MathOp::Sign => each(args, into, sign),
        MathOp::Floor => each(args, into, Fx::floor),
        MathOp::Ceil => each(args, into, Fx::ceil),
        MathOp::Fraction => each(args, into, fraction),
        MathOp::Sqrt => each(args, into, Fx::sqrt),
        MathOp::LessThan => each_two(args, into, |x: Fx, y: Fx| Fx::from_truth(x.0 < y.0)),
        MathOp::GreaterThan => each_two(args, into, |x: Fx, y: Fx| Fx::from_truth(y.0 < x.0)),
    }
}

/// An operation on integers at each position.
#[tactic(auto, unfolding(gn_value::specs::Rows::row, gn_value::specs::Rows::integer_row))]
pub fn integer_lists(op: IntegerMathOp, args: &Arguments, into: &mut [i32])
    requires long { All (λ register. register_len register ≡ length into.old) args.now }
    requires kinds { map register_kind args.now ≡ integer_math_takes op }
    ensures { (k : ℕ) → k < length into.old → int (slice_index_or into.new k (pos 0)) ≡ row (IntegerMath op) (arguments k args.now) }
{
    match op {
        IntegerMathOp::Add => each_two(args, into, i32::saturating_add),
        IntegerMathOp::Subtract => each_two(args, into, i32::saturating_sub),
        IntegerMathOp::Multiply => each_two(args, into, i32::saturating_mul),
        IntegerMathOp::Divide => each_two(args, into, divide_integers),
        IntegerMathOp::Modulo => each_two(args, into, modulo_i32),
        IntegerMathOp::Minimum => each_two(args, into, i32::min),
        IntegerMathOp::Maximum => each_two(args, into, i32::max),
        IntegerMathOp::Absolute => each(args, into, i32::saturating_abs),
        IntegerMathOp::Sign => each(args, into, i32::signum),
        IntegerMathOp::Negate => each(args, into, i32::saturating_neg),
    }
}

/// An operation on truths at each position.
#[tactic(auto, unfolding(gn_value::specs::Rows::row, gn_value::specs::Rows::boolean_row))]
pub fn boolean_lists(op: BooleanMathOp, args: &Arguments, into: &mut [bool])
    requires long { All (λ register. register_len register ≡ length into.old) args.now }
    requires kinds { map register_kind args.now ≡ boolean_math_takes op }
    ensures { (k : ℕ) → k < length into.old → truth (slice_index_or into.new k false) ≡ row (BooleanMath op) (arguments k args.now) }
{
    match op {
        BooleanMathOp::And => each_two(args, into, |x: bool, y: bool| x && y),
        BooleanMathOp::Or => each_two(args, into, |x: bool, y: bool| x || y),
        BooleanMathOp::Xor => each_two(args, into, |x: bool, y: bool| x != y),
        BooleanMathOp::Nand => each_two(args, into, |x: bool, y: bool| !(x && y)),
        BooleanMathOp::Nor => each_two(args, into, |x: bool, y: bool| !(x || y)),
        BooleanMathOp::Not => each(args, into, |x: bool| !x),
    }
}

/// An operation that gives vectors at each position.
#[tactic(auto, unfolding(gn_value::specs::Rows::row, gn_value::specs::Rows::vector_row, gn_value::specs::Operations::vector_math_gives))]
pub fn vector_lists(op: VectorMathOp, args: &Arguments, into: &mut [V3])
    requires gives { vector_math_gives op ≡ Vector }
    requires long { All (λ register. register_len register ≡ length into.old) args.now }
    requires kinds { map register_kind args.now ≡ vector_math_takes op }
    ensures { (k : ℕ) → k < length into.old → vector (slice_index_or into.new k (v3 (pos 0) (pos 0) (pos 0))) ≡ row (VectorMath op) (arguments k args.now) }
{
    match op {
        VectorMathOp::Add => each_two(args, into, V3::add),
        VectorMathOp::Subtract => each_two(args, into, V3::sub),
        VectorMathOp::Multiply => each_two(args, into, V3::mul),
        VectorMathOp::Divide => each_two(args, into, V3::div),
        VectorMathOp::Minimum => each_two(args, into, V3::min),
        VectorMathOp::Maximum => each_two(args, into, V3::max),
        VectorMathOp::Absolute => each(args, into, V3::abs),
        VectorMathOp::Cross => each_two(args, into, V3::cross),
        VectorMathOp::Scale => each_two(args, into, V3::scale),
        VectorMathOp::Normalize => each(args, into, V3::normalize),
        VectorMathOp::Dot | VectorMathOp::Length | VectorMathOp::Distance => {}
    }
}

/// An operation on vectors that gives fixed numbers at each position.
#[tactic(auto, unfolding(gn_value::specs::Rows::row, gn_value::specs::Rows::vector_row, gn_value::specs::Operations::vector_math_gives))]
pub fn vector_number_lists(op: VectorMathOp, args: &Arguments, into: &mut [Fx])
    requires gives { vector_math_gives op ≡ Fixed }
    requires long { All (λ register. register_len register ≡ length into.old) args.now }
    requires kinds { map register_kind args.now ≡ vector_math_takes op }
    ensures { (k : ℕ) → k < length into.old → fixed (slice_index_or into.new k (fx (pos 0))) ≡ row (VectorMath op) (arguments k args.now) }
{
    match op {
        VectorMathOp::Dot => each_two(args, into, V3::dot),
        VectorMathOp::Length => each(args, into, V3::length),
        VectorMathOp::Distance => each_two(args, into, |x: V3, y: V3| x.sub(y).length()),
        _ => {}
    }
}

/// A comparison at each position.
#[tactic(auto, unfolding(gn_value::specs::Rows::row, gn_value::specs::Rows::compare_row))]
pub fn compare_lists<N: Number>(op: CompareOp, args: &Arguments, into: &mut [bool])
    requires long { All (λ register. register_len register ≡ length into.old) args.now }
    requires kinds { map register_kind args.now ≡ N.KIND ∷ N.KIND ∷ [] }
    ensures { (k : ℕ) → k < length into.old → slice_index_or into.new k false ≡ compare_row op (N.number (N.in_value (argument k args.now 0))) (N.number (N.in_value (argument k args.now 1))) }
{
    match op {
        CompareOp::Less => each_two(args, into, |x: N, y: N| x.number() < y.number()),
        CompareOp::LessEqual => each_two(args, into, |x: N, y: N| x.number() <= y.number()),
        CompareOp::Greater => each_two(args, into, |x: N, y: N| y.number() < x.number()),
        CompareOp::GreaterEqual => each_two(args, into, |x: N, y: N| y.number() <= x.number()),
        CompareOp::Equal => each_two(args, into, |x: N, y: N| x.number() == y.number()),
        CompareOp::NotEqual => each_two(args, into, |x: N, y: N| x.number() != y.number()),
    }
}

/// Rounds fixed numbers at each position.
#[tactic(auto, unfolding(gn_value::specs::Rows::row, gn_value::specs::Rows::round_row))]
pub fn round_lists(op: RoundMode, args: &Arguments, into: &mut [i32])
    requires long { All (λ register. register_len register ≡ length into.old) args.now }
    requires kinds { map register_kind args.now ≡ Fixed ∷ [] }
    ensures { (k : ℕ) → k < length into.old → int (slice_index_or into.new k (pos 0)) ≡ row (FloatToInteger op) (arguments k args.now) }
{
    match op {
        RoundMode::Round => each(args, into, |x: Fx| round(RoundMode::Round, x)),
        RoundMode::Floor => each(args, into, |x: Fx| round(RoundMode::Floor, x)),
        RoundMode::Ceil => each(args, into, |x: Fx| round(RoundMode::Ceil, x)),
        RoundMode::Truncate => each(args, into, |x: Fx| round(RoundMode::Truncate, x)),
    }
}

/// A component of the vectors at each position.
#[tactic(auto, unfolding(gn_value::specs::Rows::row))]
pub fn component_lists(op: Axis, args: &Arguments, into: &mut [Fx])
    requires long { All (λ register. register_len register ≡ length into.old) args.now }
    requires kinds { map register_kind args.now ≡ Vector ∷ [] }
    ensures { (k : ℕ) → k < length into.old → fixed (slice_index_or into.new k (fx (pos 0))) ≡ row (SeparateXyz op) (arguments k args.now) }
{
    match op {
        Axis::X => each(args, into, |v: V3| v.x),
        Axis::Y => each(args, into, |v: V3| v.y),
        Axis::Z => each(args, into, |v: V3| v.z),
    }
}

/// A value as one of another kind.
#[tactic(auto, using(crate::proofs::Results::converted_kind))]
fn convert_one<A: OfKind, T: OfKind>(value: A) -> T
    ensures { T.as_value result ≡ converted (A.as_value value) T.KIND }
{
    T::of(convert(value.value(), T::KIND))
}

/// The values of a register as those of another kind, at each position.
fn convert_from<A: OfKind, T: OfKind>(args: &Arguments, into: &mut [T])
    requires long { All (λ register. register_len register ≡ length into.old) args.now }
    requires kinds { map register_kind args.now ≡ A.KIND ∷ [] }
    ensures { (k : ℕ) → k < length into.old →
        T.as_value (slice_index_or into.new k T.zero) ≡ converted (argument k args.now 0) T.KIND }
{
    each(args, into, |x: A| convert_one::<A, T>(x))
}

/// Converts at each position.
#[tactic(auto, unfolding(gn_value::specs::Rows::row, gn_value::specs::Operations::Takes))]
pub fn convert_lists<T: OfKind>(args: &Arguments, into: &mut [T])
    requires long { All (λ register. register_len register ≡ length into.old) args.now }
    requires kinds { Takes (Convert T.KIND) (map register_kind args.now) }
    ensures { (k : ℕ) → k < length into.old →
        T.as_value (slice_index_or into.new k T.zero) ≡ row (Convert T.KIND) (arguments k args.now) }
{
    match args.get(0) {
        Register::Truth(_) => convert_from::<bool, T>(args, into),
        Register::Int(_) => convert_from::<i32, T>(args, into),
        Register::Fixed(_) => convert_from::<Fx, T>(args, into),
        Register::Vector(_) => convert_from::<V3, T>(args, into),
    }
}
