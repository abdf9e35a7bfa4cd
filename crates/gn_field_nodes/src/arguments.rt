//! Which of the fields at a node's inputs its operation reads.
ghost use Rattle.std.specs.Prelude.{◌≡◌, ◌<◌, length, take, remove};
ghost use Rattle.gn_value.specs.Operations.{math_takes, integer_math_takes, boolean_math_takes};
ghost use Rattle.gn_field_rows.specs.Arguments.{first, vector_arguments, random_arguments};

use gn_field::{Field, Source};
use gn_value::ValueKind;
use gn_value::op::{BooleanMathOp, IntegerMathOp, MathOp, VectorMathOp};

/// The first fields of a list.
fn first_of<S: Source>(count: usize, inputs: Vec<Field<S>>) -> Vec<Field<S>>
    ensures { result.items ≡ take count inputs.items }
{
    let mut first = inputs;
    first.truncate(count);
    first
}

/// Of a and b.
pub(crate) fn math<S: Source>(op: MathOp, inputs: Vec<Field<S>>) -> Vec<Field<S>>
    ensures { result.items ≡ first (math_takes op) inputs.items }
{
    match op {
        MathOp::Absolute
        | MathOp::Sign
        | MathOp::Floor
        | MathOp::Ceil
        | MathOp::Fraction
        | MathOp::Sqrt => first_of(1, inputs),
        _ => first_of(2, inputs),
    }
}

/// Of a and b.
pub(crate) fn integer_math<S: Source>(op: IntegerMathOp, inputs: Vec<Field<S>>) -> Vec<Field<S>>
    ensures { result.items ≡ first (integer_math_takes op) inputs.items }
{
    match op {
        IntegerMathOp::Absolute | IntegerMathOp::Sign | IntegerMathOp::Negate => {
            first_of(1, inputs)
        }
        _ => first_of(2, inputs),
    }
}

/// Of a and b.
pub(crate) fn boolean_math<S: Source>(op: BooleanMathOp, inputs: Vec<Field<S>>) -> Vec<Field<S>>
    ensures { result.items ≡ first (boolean_math_takes op) inputs.items }
{
    match op {
        BooleanMathOp::Not => first_of(1, inputs),
        _ => first_of(2, inputs),
    }
}

/// The fields but for the one at a place.
fn without<S: Source>(at: usize, inputs: Vec<Field<S>>) -> Vec<Field<S>>
    requires { at < length inputs.items }
    ensures { result.items ≡ remove inputs.items at }
{
    let mut rest = inputs;
    rest.remove(at);
    rest
}

/// Of a, b and scale.
pub(crate) fn vector_math<S: Source>(op: VectorMathOp, inputs: Vec<Field<S>>) -> Vec<Field<S>>
    requires { length inputs.items ≡ 3 }
    ensures { result.items ≡ vector_arguments op inputs.items }
{
    match op {
        VectorMathOp::Scale => without(1, inputs),
        VectorMathOp::Absolute | VectorMathOp::Normalize | VectorMathOp::Length => {
            first_of(1, inputs)
        }
        _ => first_of(2, inputs),
    }
}

/// Of min, max, probability, id and seed.
pub(crate) fn random_value<S: Source>(of: ValueKind, inputs: Vec<Field<S>>) -> Vec<Field<S>>
    requires { length inputs.items ≡ 5 }
    ensures { result.items ≡ random_arguments of inputs.items }
{
    match of {
        ValueKind::Truth => without(0, without(0, inputs)),
        _ => without(2, inputs),
    }
}
