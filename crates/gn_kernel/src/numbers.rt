//! The operations on numbers, truths and vectors.
ghost use Rattle.std.specs.Prelude.{◌≡◌, ◌*ℤ◌, ◌-ℤ◌};
ghost use Rattle.std.specs.Int.{int_signum};
ghost use Rattle.gn_value.specs.Arithmetic.{floor_of, one, sat_int};
ghost use Rattle.gn_value.specs.Values.{by_component, fx, v3};
ghost use Rattle.gn_value.specs.Rows.{between, boolean_row, clamp_row, compare_row, component_row, integer_quotient, integer_row, map_range_row, math_row, mix_row, range_part, round_row, unit_part, vector_row};

use gn_registers::Number;
use gn_value::op::{
    Axis, BooleanMathOp, CompareOp, IntegerMathOp, MathOp, RoundMode, VectorMathOp,
};
use gn_value::whole::{modulo_i32, saturate_i32, scale_down};
use gn_value::{Fx, V3, Value};

/// An operation on fixed numbers.
#[tactic(auto, unfolding(gn_value::specs::Rows::math_row))]
pub fn math(op: MathOp, a: Fx, b: Fx) -> Fx
    ensures { result ≡ fx (math_row op a.0 b.0) }
{
    match op {
        MathOp::Add => a.add(b),
        MathOp::Subtract => a.sub(b),
        MathOp::Multiply => a.mul(b),
        MathOp::Divide => a.div(b),
        MathOp::Modulo => a.modulo(b),
        MathOp::Minimum => a.min(b),
        MathOp::Maximum => a.max(b),
        MathOp::Absolute => a.abs(),
        MathOp::Sign => sign(a),
        MathOp::Floor => a.floor(),
        MathOp::Ceil => a.ceil(),
        MathOp::Fraction => fraction(a),
        MathOp::Sqrt => a.sqrt(),
        MathOp::LessThan => Fx::from_truth(a.0 < b.0),
        MathOp::GreaterThan => Fx::from_truth(b.0 < a.0),
    }
}

/// -1, 0 or 1.
pub fn sign(a: Fx) -> Fx
    ensures { result ≡ fx (int_signum a.0 *ℤ one) }
{
    Fx(a.0.signum() * (1 << 32))
}

/// The number less its floor.
pub fn fraction(a: Fx) -> Fx
    ensures { result ≡ fx (a.0 -ℤ floor_of a.0) }
{
    Fx(a.0 - a.floor().0)
}

/// An operation on integers.
#[tactic(auto, unfolding(gn_value::specs::Rows::integer_row))]
pub fn integer_math(op: IntegerMathOp, a: i32, b: i32) -> i32
    ensures { result ≡ integer_row op a b }
{
    match op {
        IntegerMathOp::Add => a.saturating_add(b),
        IntegerMathOp::Subtract => a.saturating_sub(b),
        IntegerMathOp::Multiply => a.saturating_mul(b),
        IntegerMathOp::Divide => divide_integers(a, b),
        IntegerMathOp::Modulo => modulo_i32(a, b),
        IntegerMathOp::Minimum => a.min(b),
        IntegerMathOp::Maximum => a.max(b),
        IntegerMathOp::Absolute => a.saturating_abs(),
        IntegerMathOp::Sign => a.signum(),
        IntegerMathOp::Negate => a.saturating_neg(),
    }
}

/// The quotient rounded towards zero and brought into range; 0 where the divisor is 0.
pub fn divide_integers(a: i32, b: i32) -> i32
    ensures { result ≡ sat_int (integer_quotient a b) }
{
    if b == 0 { 0 } else { a.saturating_div(b) }
}

/// An operation on vectors; `scale` is read by `Scale` alone.
#[tactic(auto, unfolding(gn_value::specs::Rows::vector_row))]
pub fn vector_math(op: VectorMathOp, a: V3, b: V3, scale: Fx) -> Value
    ensures { result ≡ vector_row op a b scale.0 }
{
    match op {
        VectorMathOp::Add => Value::Vector(a.add(b)),
        VectorMathOp::Subtract => Value::Vector(a.sub(b)),
        VectorMathOp::Multiply => Value::Vector(a.mul(b)),
        VectorMathOp::Divide => Value::Vector(a.div(b)),
        VectorMathOp::Minimum => Value::Vector(a.min(b)),
        VectorMathOp::Maximum => Value::Vector(a.max(b)),
        VectorMathOp::Absolute => Value::Vector(a.abs()),
        VectorMathOp::Cross => Value::Vector(a.cross(b)),
        VectorMathOp::Scale => Value::Vector(a.scale(scale)),
        VectorMathOp::Normalize => Value::Vector(a.normalize()),
        VectorMathOp::Dot => Value::Fixed(a.dot(b)),
        VectorMathOp::Length => Value::Fixed(a.length()),
        VectorMathOp::Distance => Value::Fixed(a.sub(b).length()),
    }
}

/// An operation on truths.
#[tactic(auto, unfolding(gn_value::specs::Rows::boolean_row))]
pub fn boolean_math(op: BooleanMathOp, a: bool, b: bool) -> bool
    ensures { result ≡ boolean_row op a b }
{
    match op {
        BooleanMathOp::And => a && b,
        BooleanMathOp::Or => a || b,
        BooleanMathOp::Xor => a != b,
        BooleanMathOp::Nand => !(a && b),
        BooleanMathOp::Nor => !(a || b),
        BooleanMathOp::Not => !a,
    }
}

/// A comparison of two numbers.
#[tactic(auto, unfolding(gn_value::specs::Rows::compare_row))]
pub fn compare<N: Number>(op: CompareOp, a: N, b: N) -> bool
    ensures { result ≡ compare_row op (N.number a) (N.number b) }
{
    let (a, b) = (a.number(), b.number());
    match op {
        CompareOp::Less => a < b,
        CompareOp::LessEqual => a <= b,
        CompareOp::Greater => b < a,
        CompareOp::GreaterEqual => b <= a,
        CompareOp::Equal => a == b,
        CompareOp::NotEqual => a != b,
    }
}

/// The lesser of `high` and the greater of `value` and `low`.
#[tactic(auto, unfolding(gn_value::specs::Rows::clamp_row))]
pub fn clamp(value: Fx, low: Fx, high: Fx) -> Fx
    ensures { result ≡ fx (clamp_row value.0 low.0 high.0) }
{
    high.min(value.max(low))
}

/// The number brought into 0 to 1.
#[tactic(auto, unfolding(gn_value::specs::Rows::unit_part))]
pub fn unit_part(a: Fx) -> Fx
    ensures { result ≡ fx (unit_part a.0) }
{
    Fx::ONE.min(a.max(Fx::ZERO))
}

/// The number that lies this part of the way from `a` to `b`.
#[tactic(auto, unfolding(gn_value::specs::Rows::between))]
pub fn between(part: Fx, a: Fx, b: Fx) -> Fx
    ensures { result ≡ fx (between part.0 a.0 b.0) }
{
    a.add(b.sub(a).mul(part))
}

/// How far a value lies from the start of a range towards its end.
#[tactic(auto, unfolding(gn_value::specs::Rows::range_part))]
pub fn range_part(clamp: bool, value: Fx, low: Fx, high: Fx) -> Fx
    ensures { result ≡ fx (range_part clamp value.0 low.0 high.0) }
{
    let part = value.sub(low).div(high.sub(low));
    if clamp { unit_part(part) } else { part }
}

/// The value carried over from one range to another.
#[tactic(auto, unfolding(gn_value::specs::Rows::map_range_row))]
pub fn map_range(clamp: bool, value: Fx, from: (Fx, Fx), to: (Fx, Fx)) -> Fx
    ensures { result ≡ fx (map_range_row clamp value.0 from.0.0 from.1.0 to.0.0 to.1.0) }
{
    between(range_part(clamp, value, from.0, from.1), to.0, to.1)
}

/// The mixture of two numbers by a factor that is brought into 0 to 1.
#[tactic(auto, unfolding(gn_value::specs::Rows::mix_row))]
pub fn mix(factor: Fx, a: Fx, b: Fx) -> Fx
    ensures { result ≡ fx (mix_row factor.0 a.0 b.0) }
{
    between(unit_part(factor), a, b)
}

/// The mixture of two vectors by component.
pub fn mix_vectors(factor: Fx, a: V3, b: V3) -> V3
    ensures { result ≡ by_component (mix_row factor.0) a b }
{
    V3 {
        x: mix(factor, a.x, b.x),
        y: mix(factor, a.y, b.y),
        z: mix(factor, a.z, b.z),
    }
}

/// The integer that a fixed number is rounded to, brought into range.
#[tactic(auto, unfolding(gn_value::specs::Rows::round_row))]
pub fn round(op: RoundMode, a: Fx) -> i32
    ensures { result ≡ round_row op a.0 }
{
    match op {
        RoundMode::Round => saturate_i32(scale_down(a.0 as i128 + (1 << 31))),
        RoundMode::Floor => saturate_i32(scale_down(a.0 as i128)),
        RoundMode::Ceil => saturate_i32(-scale_down(-(a.0 as i128))),
        RoundMode::Truncate => saturate_i32(a.truncate() as i128),
    }
}

/// A component of a vector.
pub fn component(axis: Axis, a: V3) -> Fx
    ensures { result ≡ fx (component_row axis a) }
{
    match axis {
        Axis::X => a.x,
        Axis::Y => a.y,
        Axis::Z => a.z,
    }
}

/// The vector with these components.
pub fn combine(x: Fx, y: Fx, z: Fx) -> V3
    ensures { result ≡ v3 x.0 y.0 z.0 }
{
    V3 { x, y, z }
}
