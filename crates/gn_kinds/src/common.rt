//! Sockets, defaults and settings that many rows of the table have in common.

use crate::row::{DefaultValue, InputRow, OutputRow, SocketKind};
use gn_value::{Fx, Place, V3, Value, ValueKind};

pub(crate) const ZERO: DefaultValue = DefaultValue::Zero;

pub(crate) const ONE: DefaultValue = DefaultValue::One;

const TRUE: DefaultValue = DefaultValue::Constant(Value::Truth(true));

pub(crate) const THREE: DefaultValue = DefaultValue::Constant(Value::Int(3));

pub(crate) const TEN: DefaultValue = DefaultValue::Constant(Value::Int(10));

pub(crate) const HALF: DefaultValue = DefaultValue::Constant(Value::Fixed(Fx(2_147_483_648)));

pub(crate) const X_AXIS: DefaultValue = DefaultValue::Constant(Value::Vector(V3 {
    x: Fx(4_294_967_296),
    y: Fx(0),
    z: Fx(0),
}));

pub(crate) const Y_AXIS: DefaultValue = DefaultValue::Constant(Value::Vector(V3 {
    x: Fx(0),
    y: Fx(4_294_967_296),
    z: Fx(0),
}));

pub(crate) const Z_AXIS: DefaultValue = DefaultValue::Constant(Value::Vector(V3 {
    x: Fx(0),
    y: Fx(0),
    z: Fx(4_294_967_296),
}));

pub(crate) const GEOMETRY: InputRow = InputRow::Geometry("geometry");

pub(crate) const GEOMETRIES: InputRow = InputRow::Geometries("geometry");

pub(crate) const SELECTION: InputRow = InputRow::Field("selection", ValueKind::Truth, TRUE);

pub(crate) const POSITION: InputRow = InputRow::Field(
    "position",
    ValueKind::Vector,
    DefaultValue::Position,
);

pub(crate) const INDEX: InputRow = InputRow::Field("index", ValueKind::Int, DefaultValue::Index);

pub(crate) const VALUE: InputRow = InputRow::Chosen("value", ZERO);

pub(crate) const FIXED_VALUE: InputRow = InputRow::Field("value", ValueKind::Fixed, ZERO);

pub(crate) const NEW_GEOMETRY: OutputRow = OutputRow::Geometry("geometry");

pub(crate) const CHOSEN: OutputRow = OutputRow::Chosen("value");

pub(crate) const NUMBER: OutputRow = OutputRow::Field("value", ValueKind::Fixed);

pub(crate) const INTEGER: OutputRow = OutputRow::Field("value", ValueKind::Int);

pub(crate) const TRUTH: OutputRow = OutputRow::Field("value", ValueKind::Truth);

pub(crate) const VECTOR: OutputRow = OutputRow::Field("vector", ValueKind::Vector);

pub(crate) const ANY_KIND: &[SocketKind] = &[
    SocketKind::Truth,
    SocketKind::Int,
    SocketKind::Fixed,
    SocketKind::Vector,
    SocketKind::Geometry,
];

pub(crate) const VALUE_KINDS: &[SocketKind] = &[
    SocketKind::Truth,
    SocketKind::Int,
    SocketKind::Fixed,
    SocketKind::Vector,
];

pub(crate) const ANY_PLACE: &[Place] = &[
    Place::Point,
    Place::Edge,
    Place::Face,
    Place::Corner,
    Place::Cloud,
    Place::Instance,
];

pub(crate) const MESH_PLACES: &[Place] = &[Place::Point, Place::Edge, Place::Face, Place::Corner];

pub(crate) const ANY_BUT_CORNER: &[Place] = &[
    Place::Point,
    Place::Edge,
    Place::Face,
    Place::Cloud,
    Place::Instance,
];
