use gn_kinds::{DefaultValue, SocketKind};
use gn_value::{Fx, V3, Value, ValueKind};

/// What an input has that nothing is linked to.
#[derive(Clone, Copy)]
pub enum Constant {
    /// This value.
    Value(Value),
    /// The position of the element that the input is read at.
    Position,
    /// The number of that element.
    Index,
    /// The id of that element.
    Id,
    /// The geometry without elements.
    NoGeometry,
}

impl Constant {
    ghost use Rattle.std.specs.Prelude.{◌≡◌};
    ghost use Rattle.gn_meaning.specs.Sites.{default_at, one_at, zero_at};
    ghost use Rattle.gn_table.specs.Constants.{name_of};

    /// The zero of a kind; of geometry the empty one.
    fn zero(kind: SocketKind) -> Constant
        ensures { name_of result ≡ zero_at kind }
    {
        match kind {
            SocketKind::Truth => Constant::Value(Value::zero(ValueKind::Truth)),
            SocketKind::Int => Constant::Value(Value::zero(ValueKind::Int)),
            SocketKind::Fixed => Constant::Value(Value::zero(ValueKind::Fixed)),
            SocketKind::Vector => Constant::Value(Value::zero(ValueKind::Vector)),
            SocketKind::Geometry => Constant::NoGeometry,
        }
    }

    /// One, of a vector in each component.
    fn one(kind: SocketKind) -> Constant
        ensures { name_of result ≡ one_at kind }
    {
        match kind {
            SocketKind::Truth => Constant::Value(Value::Truth(true)),
            SocketKind::Int => Constant::Value(Value::Int(1)),
            SocketKind::Fixed => Constant::Value(Value::Fixed(Fx::ONE)),
            SocketKind::Vector => Constant::Value(Value::Vector(V3 {
                x: Fx::ONE,
                y: Fx::ONE,
                z: Fx::ONE,
            })),
            SocketKind::Geometry => Constant::NoGeometry,
        }
    }

    /// What an input of that kind has by its default.
    pub fn of(kind: SocketKind, default: DefaultValue) -> Constant
        ensures { name_of result ≡ default_at kind default }
    {
        match default {
            DefaultValue::Zero => Constant::zero(kind),
            DefaultValue::One => Constant::one(kind),
            DefaultValue::Constant(value) => Constant::Value(value),
            DefaultValue::Position => Constant::Position,
            DefaultValue::Index => Constant::Index,
            DefaultValue::Id => Constant::Id,
        }
    }
}
