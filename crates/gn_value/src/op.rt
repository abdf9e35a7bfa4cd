//! The operations on values, and what goes with them: registers of values, and the topology
//! of a mesh.
ghost use Rattle.std.specs.Prelude.{◌≡◌};
ghost use Rattle.gn_value.specs.Operations.{gives, vector_math_gives};

use crate::fixed::Fx;
use crate::value::ValueKind;
use crate::vector::V3;

/// An operation on fixed numbers a and b; those from `Absolute` to `Sqrt` take a alone.
#[derive(Clone, Copy, Debug, PartialEq, Eq, PartialOrd, Ord, Hash)]
pub enum MathOp {
    Add,
    Subtract,
    Multiply,
    Divide,
    Modulo,
    Minimum,
    Maximum,
    Absolute,
    Sign,
    Floor,
    Ceil,
    Fraction,
    Sqrt,
    LessThan,
    GreaterThan,
}

/// An operation on integers a and b; those from `Absolute` to `Negate` take a alone.
#[derive(Clone, Copy, Debug, PartialEq, Eq, PartialOrd, Ord, Hash)]
pub enum IntegerMathOp {
    Add,
    Subtract,
    Multiply,
    Divide,
    Modulo,
    Minimum,
    Maximum,
    Absolute,
    Sign,
    Negate,
}

/// An operation on vectors a and b; `Absolute`, `Normalize` and `Length` take a alone, and `Scale`
/// takes a and a fixed number. `Dot`, `Length` and `Distance` give a fixed number.
#[derive(Clone, Copy, Debug, PartialEq, Eq, PartialOrd, Ord, Hash)]
pub enum VectorMathOp {
    Add,
    Subtract,
    Multiply,
    Divide,
    Minimum,
    Maximum,
    Absolute,
    Cross,
    Scale,
    Normalize,
    Dot,
    Length,
    Distance,
}

/// An operation on truths a and b; `Not` takes a alone.
#[derive(Clone, Copy, Debug, PartialEq, Eq, PartialOrd, Ord, Hash)]
pub enum BooleanMathOp {
    And,
    Or,
    Xor,
    Nand,
    Nor,
    Not,
}

/// How two numbers are compared.
#[derive(Clone, Copy, Debug, PartialEq, Eq, PartialOrd, Ord, Hash)]
pub enum CompareOp {
    Less,
    LessEqual,
    Greater,
    GreaterEqual,
    Equal,
    NotEqual,
}

/// The kinds of numbers that can be compared.
#[derive(Clone, Copy, Debug, PartialEq, Eq, PartialOrd, Ord, Hash)]
pub enum CompareKind {
    Int,
    Fixed,
}

/// The kinds of values that can be mixed.
#[derive(Clone, Copy, Debug, PartialEq, Eq, PartialOrd, Ord, Hash)]
pub enum MixKind {
    Fixed,
    Vector,
}

/// How a fixed number becomes an integer: to the nearest one (half is rounded up), the one below,
/// the one above, or towards zero.
#[derive(Clone, Copy, Debug, PartialEq, Eq, PartialOrd, Ord, Hash)]
pub enum RoundMode {
    Round,
    Floor,
    Ceil,
    Truncate,
}

/// A component of a vector.
#[derive(Clone, Copy, Debug, PartialEq, Eq, PartialOrd, Ord, Hash)]
pub enum Axis {
    X,
    Y,
    Z,
}

/// An operation on the values of its arguments, in the order named here.
#[derive(Clone, Copy, Debug, PartialEq, Eq, PartialOrd, Ord, Hash)]
pub enum Op {
    /// Of fixed numbers.
    Math { op: MathOp },
    /// Of integers.
    IntegerMath { op: IntegerMathOp },
    /// Of vectors.
    VectorMath { op: VectorMathOp },
    /// Of truths.
    BooleanMath { op: BooleanMathOp },
    /// Whether a is to b as `op` says.
    Compare { kind: CompareKind, op: CompareOp },
    /// Of value, min and max: the lesser of max and the greater of value and min.
    Clamp,
    /// Of value, from_min, from_max, to_min and to_max: the value carried over linearly from one
    /// range to the other; with `clamp` it stays in the other range.
    MapRange { clamp: bool },
    /// Of factor, a and b: a + (b - a) * factor, the factor being brought into 0 to 1.
    Mix { kind: MixKind },
    /// Of a fixed number: the integer.
    FloatToInteger { op: RoundMode },
    /// Of x, y and z: the vector.
    CombineXyz,
    /// Of a vector: one component.
    SeparateXyz { axis: Axis },
    /// Of min, max, id and seed, or for a truth of probability, id and seed: a value that looks
    /// random and hangs on these alone.
    RandomValue { kind: ValueKind },
    /// Of a value of any kind: the value as one of another kind.
    Convert { to: ValueKind },
    /// Of a truth or an integer k, and as many values as `cases` says: value k, counted from 0, or
    /// the zero of the kind if k is not one of them.
    Select { kind: ValueKind, cases: u32 },
}

impl Op {
    /// The kind of the values that the operation gives.
    #[tactic(auto, unfolding(crate::specs::Operations::gives))]
    pub fn gives(self) -> ValueKind
        ensures { result ≡ gives self }
    {
        match self {
            Op::Math { .. } | Op::Clamp | Op::MapRange { .. } | Op::SeparateXyz { .. } => {
                ValueKind::Fixed
            }
            Op::IntegerMath { .. } | Op::FloatToInteger { .. } => ValueKind::Int,
            Op::BooleanMath { .. } | Op::Compare { .. } => ValueKind::Truth,
            Op::CombineXyz => ValueKind::Vector,
            Op::VectorMath { op } => vector_math_gives(op),
            Op::Mix {
                kind: MixKind::Fixed,
            } => ValueKind::Fixed,
            Op::Mix {
                kind: MixKind::Vector,
            } => ValueKind::Vector,
            Op::RandomValue { kind } | Op::Select { kind, .. } => kind,
            Op::Convert { to } => to,
        }
    }
}

/// The kind of the values that an operation on vectors gives.
#[tactic(auto, unfolding(crate::specs::Operations::vector_math_gives))]
fn vector_math_gives(op: VectorMathOp) -> ValueKind
    ensures { result ≡ vector_math_gives op }
{
    match op {
        VectorMathOp::Dot | VectorMathOp::Length | VectorMathOp::Distance => ValueKind::Fixed,
        _ => ValueKind::Vector,
    }
}

/// Many values of one kind.
#[derive(Debug, Drop)]
pub enum Register {
    Truth(Vec<bool>),
    Int(Vec<i32>),
    Fixed(Vec<Fx>),
    Vector(Vec<V3>),
}

/// How the elements of a mesh hang together. `corner_points` and `corner_edges` name each corner's
/// vertex and edge, and `faces` holds where each face's corners begin, and at last the number of
/// corners.
#[derive(Clone, Copy, Debug)]
pub struct Topology<'a> {
    pub points: u32,
    pub edges: &'a [(u32, u32)],
    pub corner_points: &'a [u32],
    pub corner_edges: &'a [u32],
    pub faces: &'a [u32],
}
