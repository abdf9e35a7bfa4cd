ghost use Rattle.std.specs.Prelude.{◌≡◌};
ghost use Rattle.gn_kinds.specs.Row.{input_name, output_name};
ghost use Rattle.gn_kinds.specs.Seen.{input_of, output_of};

use gn_value::{Place, Value, ValueKind};

/// What a socket carries: a kind of values, or geometry.
#[derive(Clone, Copy, Debug, PartialEq, Eq, PartialOrd, Ord, Hash)]
pub enum SocketKind {
    Truth,
    Int,
    Fixed,
    Vector,
    Geometry,
}

/// What an input has to which nothing is linked and for which no constant is written.
#[derive(Clone, Copy, Debug, PartialEq, Eq)]
pub enum DefaultValue {
    /// The zero of its kind; of geometry the empty one.
    Zero,
    /// One, of a vector in each component.
    One,
    /// This value.
    Constant(Value),
    /// The position of the element that the input is read at.
    Position,
    /// The number of that element.
    Index,
    /// The id of that element.
    Id,
}

/// An input of a kind: its name, what it takes and its default.
#[derive(Clone, Copy)]
pub enum InputRow {
    /// A field, which has a value for each element.
    Field(&'static str, ValueKind, DefaultValue),
    /// One value.
    Single(&'static str, ValueKind, DefaultValue),
    /// One geometry.
    Geometry(&'static str),
    /// A list of geometry.
    Geometries(&'static str),
    /// A field or geometry, of the kind in the setting `type`.
    Chosen(&'static str, DefaultValue),
}

impl InputRow {
    /// The input's name.
    pub fn name(&self) -> &'static str
        ensures { result.now ≡ input_name (input_of self.now) }
    {
        match *self {
            InputRow::Field(name, _, _) => name,
            InputRow::Single(name, _, _) => name,
            InputRow::Geometry(name) => name,
            InputRow::Geometries(name) => name,
            InputRow::Chosen(name, _) => name,
        }
    }
}

/// An output of a kind: its name and what it gives.
#[derive(Clone, Copy)]
pub enum OutputRow {
    /// A field.
    Field(&'static str, ValueKind),
    /// One geometry.
    Geometry(&'static str),
    /// A field or geometry, of the kind in the setting `type`.
    Chosen(&'static str),
}

impl OutputRow {
    /// The output's name.
    pub fn name(&self) -> &'static str
        ensures { result.now ≡ output_name (output_of self.now) }
    {
        match *self {
            OutputRow::Field(name, _) => name,
            OutputRow::Geometry(name) => name,
            OutputRow::Chosen(name) => name,
        }
    }
}

/// A setting of a kind, and what it must be. Each is required but `Output`.
#[derive(Clone, Copy)]
pub enum SettingForm {
    /// `type`, the name of one of these kinds.
    Type(&'static [SocketKind]),
    /// `op`, one of these names.
    Op(&'static [&'static str]),
    /// `place`, the name of one of these places.
    Place(&'static [Place]),
    /// `clamp`, a truth.
    Clamp,
    /// `name`, the name of a column.
    Name,
    /// `file`, the name of a file.
    File,
    /// `value`, a constant of the kind.
    Value(ValueKind),
    /// `group`, the name of a group.
    Group,
    /// `items`, the sockets of a zone.
    Items,
    /// `nodes`, the body of a zone.
    Nodes,
    /// `output`, what a zone's body gives out.
    Output,
}

/// The row of a kind: its settings in their order, its inputs and its outputs.
#[derive(Clone, Copy)]
pub struct Row {
    pub kind: &'static str,
    pub settings: &'static [SettingForm],
    pub inputs: &'static [InputRow],
    pub outputs: &'static [OutputRow],
    /// Its further sockets are those of a group, or of the items of a zone.
    pub open: bool,
}
