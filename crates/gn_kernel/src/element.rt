//! What an operation gives at the values of its arguments.
ghost use Rattle.std.specs.Prelude.{◌≡◌, map};
ghost use Rattle.gn_value.specs.Values.{kind_of};
ghost use Rattle.gn_value.specs.Operations.{Takes};
ghost use Rattle.gn_value.specs.Rows.{choice_of, chosen, compare_values, mix_values, random_values, row, value_at};

use crate::numbers::{
    boolean_math, clamp, combine, compare, component, integer_math, map_range, math, mix,
    mix_vectors, round, vector_math,
};
use crate::random::{random_fixed, random_int, random_truth, random_vector};
use gn_registers::OfKind;
use gn_value::op::{CompareKind, CompareOp, MixKind, Op};
use gn_value::{Fx, Value, ValueKind, convert};

/// The value that an operation gives at its arguments, which have the kinds that it takes.
#[tactic(auto, unfolding(gn_value::specs::Rows::row))]
pub fn one(op: &Op, args: &[Value]) -> Value
    requires { Takes op.now (map kind_of args.now) }
    ensures { result ≡ row op.now args.now }
{
    match *op {
        Op::Math { op } => Value::Fixed(math(op, at(args, 0), at(args, 1))),
        Op::IntegerMath { op } => Value::Int(integer_math(op, at(args, 0), at(args, 1))),
        Op::VectorMath { op } => vector_math(op, at(args, 0), at(args, 1), at(args, 1)),
        Op::BooleanMath { op } => Value::Truth(boolean_math(op, at(args, 0), at(args, 1))),
        Op::Compare { kind, op } => Value::Truth(compared(kind, op, args)),
        Op::Clamp => Value::Fixed(clamp(at(args, 0), at(args, 1), at(args, 2))),
        Op::MapRange { clamp } => {
            let from = (at(args, 1), at(args, 2));
            let to = (at(args, 3), at(args, 4));
            Value::Fixed(map_range(clamp, at(args, 0), from, to))
        }
        Op::Mix { kind } => mixed(kind, args),
        Op::FloatToInteger { op } => Value::Int(round(op, at(args, 0))),
        Op::CombineXyz => Value::Vector(combine(at(args, 0), at(args, 1), at(args, 2))),
        Op::SeparateXyz { axis } => Value::Fixed(component(axis, at(args, 0))),
        Op::RandomValue { kind } => random(kind, args),
        Op::Convert { to } => convert(value_at(args, 0), to),
        Op::Select { kind, cases } => chosen(kind, cases, args),
    }
}

/// The argument at a position; false beyond the last.
fn value_at(args: &[Value], at: usize) -> Value
    ensures { result ≡ value_at args.now at }
{
    args.get(at).copied().unwrap_or(Value::Truth(false))
}

/// What the argument at a position holds; the zero where it is of another kind.
fn at<T: OfKind>(args: &[Value], at: usize) -> T
    ensures { result ≡ T.in_value (value_at args.now at) }
{
    T::of(value_at(args, at))
}

/// A comparison of the first two arguments.
fn compared(kind: CompareKind, op: CompareOp, args: &[Value]) -> bool
    ensures { result ≡ compare_values kind op args.now }
{
    match kind {
        CompareKind::Int => compare(op, at::<i32>(args, 0), at(args, 1)),
        CompareKind::Fixed => compare(op, at::<Fx>(args, 0), at(args, 1)),
    }
}

/// The mixture of the second and third argument by the first.
fn mixed(kind: MixKind, args: &[Value]) -> Value
    ensures { result ≡ mix_values kind args.now }
{
    match kind {
        MixKind::Fixed => Value::Fixed(mix(at(args, 0), at(args, 1), at(args, 2))),
        MixKind::Vector => Value::Vector(mix_vectors(at(args, 0), at(args, 1), at(args, 2))),
    }
}

/// A random value by the bounds, the id and the seed among the arguments.
fn random(kind: ValueKind, args: &[Value]) -> Value
    ensures { result ≡ random_values kind args.now }
{
    match kind {
        ValueKind::Truth => Value::Truth(random_truth(at(args, 0), at(args, 1), at(args, 2))),
        ValueKind::Int => {
            Value::Int(random_int(at(args, 0), at(args, 1), at(args, 2), at(args, 3)))
        }
        ValueKind::Fixed => {
            Value::Fixed(random_fixed(at(args, 0), at(args, 1), at(args, 2), at(args, 3)))
        }
        ValueKind::Vector => {
            Value::Vector(random_vector(at(args, 0), at(args, 1), at(args, 2), at(args, 3)))
        }
    }
}

/// The number by which a choice goes.
pub fn choice_of(by: Value) -> i32
    ensures { result ≡ choice_of by }
{
    match by {
        Value::Truth(truth) => truth as i32,
        Value::Int(integer) => integer,
        _ => 0,
    }
}

/// The value with the number that the choice says; the zero of the kind if no value has it.
#[tactic(auto, unfolding(gn_value::specs::Rows::chosen))]
fn chosen(kind: ValueKind, cases: u32, args: &[Value]) -> Value
    ensures { result ≡ chosen kind cases args.now }
{
    let choice = choice_of(value_at(args, 0));
    if 0 <= choice && (choice as i64) < cases as i64 {
        value_at(args, choice as usize + 1)
    } else {
        Value::zero(kind)
    }
}
