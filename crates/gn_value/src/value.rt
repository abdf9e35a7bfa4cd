ghost use Rattle.std.specs.Prelude.{◌≡◌};
ghost use Rattle.gn_value.specs.Values.{kind_of, position_of, position_of_place, zero_of};

use crate::fixed::Fx;
use crate::vector::V3;

/// The kinds of values, in the order in which a conversion is numbered.
#[derive(Clone, Copy, Debug, PartialEq, Eq, PartialOrd, Ord, Hash)]
pub enum ValueKind {
    Truth,
    Int,
    Fixed,
    Vector,
}

/// One value of a field at one element.
#[derive(Clone, Copy, Debug, PartialEq, Eq, PartialOrd, Ord, Hash)]
pub enum Value {
    Truth(bool),
    Int(i32),
    Fixed(Fx),
    Vector(V3),
}

/// The places on which a geometry has elements: four of the mesh, the cloud's points and the
/// instances.
#[derive(Clone, Copy, Debug, PartialEq, Eq, PartialOrd, Ord, Hash)]
pub enum Place {
    Point,
    Edge,
    Face,
    Corner,
    Cloud,
    Instance,
}

impl ValueKind {
    /// The number by which a conversion names the kind, from 0.
    pub fn position(self) -> u8
        ensures { result ≡ position_of self }
    {
        self as u8
    }
}

impl Place {
    /// The number by which places are ordered, from 0.
    pub fn position(self) -> u8
        ensures { result ≡ position_of_place self }
    {
        self as u8
    }
}

impl Value {
    /// The kind of the value.
    pub fn kind(self) -> ValueKind
        ensures { result ≡ kind_of self }
    {
        match self {
            Value::Truth(_) => ValueKind::Truth,
            Value::Int(_) => ValueKind::Int,
            Value::Fixed(_) => ValueKind::Fixed,
            Value::Vector(_) => ValueKind::Vector,
        }
    }

    /// The zero of a kind: false, 0, or 0 in each component.
    pub fn zero(kind: ValueKind) -> Value
        ensures { result ≡ zero_of kind }
    {
        match kind {
            ValueKind::Truth => Value::Truth(false),
            ValueKind::Int => Value::Int(0),
            ValueKind::Fixed => Value::Fixed(Fx(0)),
            ValueKind::Vector => Value::Vector(V3 {
                x: Fx(0),
                y: Fx(0),
                z: Fx(0),
            }),
        }
    }
}
