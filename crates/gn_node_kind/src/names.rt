//! The names of operations.
ghost use Rattle.std.specs.Prelude.{◌≡◌, map};
ghost use Rattle.gn_node_kind.specs.Named as spec;
ghost use Rattle.gn_node_kind.specs.Named.{named_in};

use gn_value::op::{BooleanMathOp, CompareOp, IntegerMathOp, MathOp, RoundMode, VectorMathOp};

static MATH_OPS: [(&str, MathOp); 15] = [
    ("add", MathOp::Add),
    ("subtract", MathOp::Subtract),
    ("multiply", MathOp::Multiply),
    ("divide", MathOp::Divide),
    ("modulo", MathOp::Modulo),
    ("minimum", MathOp::Minimum),
    ("maximum", MathOp::Maximum),
    ("absolute", MathOp::Absolute),
    ("sign", MathOp::Sign),
    ("floor", MathOp::Floor),
    ("ceil", MathOp::Ceil),
    ("fraction", MathOp::Fraction),
    ("sqrt", MathOp::Sqrt),
    ("less_than", MathOp::LessThan),
    ("greater_than", MathOp::GreaterThan),
];

static INTEGER_MATH_OPS: [(&str, IntegerMathOp); 10] = [
    ("add", IntegerMathOp::Add),
    ("subtract", IntegerMathOp::Subtract),
    ("multiply", IntegerMathOp::Multiply),
    ("divide", IntegerMathOp::Divide),
    ("modulo", IntegerMathOp::Modulo),
    ("minimum", IntegerMathOp::Minimum),
    ("maximum", IntegerMathOp::Maximum),
    ("absolute", IntegerMathOp::Absolute),
    ("sign", IntegerMathOp::Sign),
    ("negate", IntegerMathOp::Negate),
];

static VECTOR_MATH_OPS: [(&str, VectorMathOp); 13] = [
    ("add", VectorMathOp::Add),
    ("subtract", VectorMathOp::Subtract),
    ("multiply", VectorMathOp::Multiply),
    ("divide", VectorMathOp::Divide),
    ("minimum", VectorMathOp::Minimum),
    ("maximum", VectorMathOp::Maximum),
    ("absolute", VectorMathOp::Absolute),
    ("cross", VectorMathOp::Cross),
    ("scale", VectorMathOp::Scale),
    ("normalize", VectorMathOp::Normalize),
    ("dot", VectorMathOp::Dot),
    ("length", VectorMathOp::Length),
    ("distance", VectorMathOp::Distance),
];

static BOOLEAN_MATH_OPS: [(&str, BooleanMathOp); 6] = [
    ("and", BooleanMathOp::And),
    ("or", BooleanMathOp::Or),
    ("xor", BooleanMathOp::Xor),
    ("nand", BooleanMathOp::Nand),
    ("nor", BooleanMathOp::Nor),
    ("not", BooleanMathOp::Not),
];

static COMPARE_OPS: [(&str, CompareOp); 6] = [
    ("less", CompareOp::Less),
    ("less_equal", CompareOp::LessEqual),
    ("greater", CompareOp::Greater),
    ("greater_equal", CompareOp::GreaterEqual),
    ("equal", CompareOp::Equal),
    ("not_equal", CompareOp::NotEqual),
];

static ROUND_MODES: [(&str, RoundMode); 4] = [
    ("round", RoundMode::Round),
    ("floor", RoundMode::Floor),
    ("ceil", RoundMode::Ceil),
    ("truncate", RoundMode::Truncate),
];

/// What is paired with the first of these names that is the text.
fn find_named<T: Copy>(list: &[(&'static str, T)], name: &str) -> Option<T>
    ensures { result ≡ named_in (map (λ x. (x.0.now, x.1)) list.now) name.now }
{
    for (word, item) in list {
        if *word == name {
            return Some(*item);
        }
    }
    None
}

/// The operation on fixed numbers of that name.
#[tactic(auto, unfolding(crate::specs::Named::math_ops))]
pub(crate) fn math_op(name: &str) -> Option<MathOp>
    ensures { result ≡ named_in spec.math_ops name.now }
{
    find_named(&MATH_OPS, name)
}

/// The operation on integers of that name.
#[tactic(auto, unfolding(crate::specs::Named::integer_math_ops))]
pub(crate) fn integer_math_op(name: &str) -> Option<IntegerMathOp>
    ensures { result ≡ named_in spec.integer_math_ops name.now }
{
    find_named(&INTEGER_MATH_OPS, name)
}

/// The operation on vectors of that name.
#[tactic(auto, unfolding(crate::specs::Named::vector_math_ops))]
pub(crate) fn vector_math_op(name: &str) -> Option<VectorMathOp>
    ensures { result ≡ named_in spec.vector_math_ops name.now }
{
    find_named(&VECTOR_MATH_OPS, name)
}

/// The operation on truths of that name.
#[tactic(auto, unfolding(crate::specs::Named::boolean_math_ops))]
pub(crate) fn boolean_math_op(name: &str) -> Option<BooleanMathOp>
    ensures { result ≡ named_in spec.boolean_math_ops name.now }
{
    find_named(&BOOLEAN_MATH_OPS, name)
}

/// The comparison of that name.
#[tactic(auto, unfolding(crate::specs::Named::compare_ops))]
pub(crate) fn compare_op(name: &str) -> Option<CompareOp>
    ensures { result ≡ named_in spec.compare_ops name.now }
{
    find_named(&COMPARE_OPS, name)
}

/// The way of rounding of that name.
#[tactic(auto, unfolding(crate::specs::Named::round_modes))]
pub(crate) fn round_mode(name: &str) -> Option<RoundMode>
    ensures { result ≡ named_in spec.round_modes name.now }
{
    find_named(&ROUND_MODES, name)
}
