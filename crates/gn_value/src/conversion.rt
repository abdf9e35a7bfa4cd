ghost use Rattle.std.specs.Prelude.{◌≡◌};
ghost use Rattle.gn_value.specs.Values.{as_fixed, as_int, as_truth, as_vector, converted, fx};

use crate::fixed::Fx;
use crate::value::{Value, ValueKind};
use crate::vector::V3;

/// The value as one of another kind.
///
/// A truth counts as 0 or 1. A number is true where it is above 0, and a vector where it isn't all
/// zero. A vector as a number is the mean of its components, and a number as a vector stands in
/// each component. A fixed number becomes an integer by rounding towards zero.
#[tactic(auto, unfolding(crate::specs::Values::converted))]
pub fn convert(value: Value, to: ValueKind) -> Value
    ensures { result ≡ converted value to }
{
    match to {
        ValueKind::Truth => Value::Truth(value.as_truth()),
        ValueKind::Int => Value::Int(value.as_integer()),
        ValueKind::Fixed => Value::Fixed(value.as_fixed()),
        ValueKind::Vector => Value::Vector(value.as_vector()),
    }
}

impl Value {
    /// The value as a truth.
    pub fn as_truth(self) -> bool
        ensures { result ≡ as_truth self }
    {
        match self {
            Value::Truth(truth) => truth,
            Value::Int(integer) => 0 < integer,
            Value::Fixed(fixed) => 0 < fixed.0,
            Value::Vector(vector) => !vector.is_zero(),
        }
    }

    /// The value as an integer.
    pub fn as_integer(self) -> i32
        ensures { result ≡ as_int self }
    {
        match self {
            Value::Truth(truth) => truth as i32,
            Value::Int(integer) => integer,
            Value::Fixed(fixed) => fixed.truncate(),
            Value::Vector(vector) => vector.component_mean().truncate(),
        }
    }

    /// The value as a fixed number.
    pub fn as_fixed(self) -> Fx
        ensures { result ≡ fx (as_fixed self) }
    {
        match self {
            Value::Truth(truth) => Fx::from_truth(truth),
            Value::Int(integer) => Fx::from_integer(integer),
            Value::Fixed(fixed) => fixed,
            Value::Vector(vector) => vector.component_mean(),
        }
    }

    /// The value as a vector.
    pub fn as_vector(self) -> V3
        ensures { result ≡ as_vector self }
    {
        match self {
            Value::Truth(truth) => V3::splat(Fx::from_truth(truth)),
            Value::Int(integer) => V3::splat(Fx::from_integer(integer)),
            Value::Fixed(fixed) => V3::splat(fixed),
            Value::Vector(vector) => vector,
        }
    }
}
