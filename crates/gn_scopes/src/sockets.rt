ghost use Rattle.std.specs.Prelude.{◌≡◌, IfOk, map, List};
ghost use Rattle.gn_kinds.specs.Seen as seen;
ghost use Rattle.gn_tree.specs.Seen.{socket_of};
ghost use Rattle.gn_rules.specs.Sockets as rule;
ghost use Rattle.gn_rules.specs.Things.{socket_names};
ghost use Rattle.gn_kinds.specs.declared.row.SocketKind.{SocketKind};

use gn_kinds::{InputRow, OutputRow, SocketKind, find_row};
use gn_memory::Memory;
use gn_names::Names;
use gn_rules::Shape;
use gn_tree::Socket;
use gn_value::ValueKind;
use std::alloc::Global;

/// A socket that takes or gives one of the kind.
pub fn single(kind: SocketKind) -> Shape
    ensures { result ≡ rule.single kind }
{
    Shape { kind, many: false }
}

fn of_values(kind: ValueKind) -> SocketKind
    ensures { result ≡ rule.of_values kind }
{
    match kind {
        ValueKind::Truth => SocketKind::Truth,
        ValueKind::Int => SocketKind::Int,
        ValueKind::Fixed => SocketKind::Fixed,
        ValueKind::Vector => SocketKind::Vector,
    }
}

/// What an input takes, where the setting `type` names the kind.
pub fn input_shape(row: InputRow, chosen: SocketKind) -> Shape
    ensures { result ≡ (rule.input_of_row chosen (seen.input_of row)).shape }
{
    match row {
        InputRow::Field(_, kind, _) => single(of_values(kind)),
        InputRow::Single(_, kind, _) => single(of_values(kind)),
        InputRow::Geometry(_) => single(SocketKind::Geometry),
        InputRow::Geometries(_) => Shape {
            kind: SocketKind::Geometry,
            many: true,
        },
        InputRow::Chosen(_, _) => single(chosen),
    }
}

/// What an output gives, where the setting `type` names the kind.
pub fn output_shape(row: OutputRow, chosen: SocketKind) -> Shape
    ensures { result ≡ (rule.output_of_row chosen (seen.output_of row)).shape }
{
    match row {
        OutputRow::Field(_, kind) => single(of_values(kind)),
        OutputRow::Geometry(_) => single(SocketKind::Geometry),
        OutputRow::Chosen(_) => single(chosen),
    }
}

/// The rows of the inputs of a kind of node.
pub fn input_rows(kind: &str) -> &'static [InputRow]
    ensures { map seen.input_of result.now ≡ rule.inputs_of_kind kind.now }
{
    match find_row(kind) {
        Some(row) => row.inputs,
        None => &[],
    }
}

/// The rows of the outputs of a kind of node.
pub fn output_rows(kind: &str) -> &'static [OutputRow]
    ensures { map seen.output_of result.now ≡ rule.outputs_of_kind kind.now }
{
    match find_row(kind) {
        Some(row) => row.outputs,
        None => &[],
    }
}

/// What the first of these inputs with that name carries.
pub(crate) fn find_input(
    inputs: &'static [InputRow],
    chosen: SocketKind,
    name: &str,
) -> Option<Shape>
    ensures { result ≡ rule.declared (map (rule.input_of_row chosen) (map seen.input_of inputs.now)) name.now }
{
    for row in inputs {
        if name == row.name() {
            return Some(input_shape(*row, chosen));
        }
    }
    None
}

/// What the first output of the kind with that name carries.
pub(crate) fn find_output(kind: &str, chosen: SocketKind, name: &str) -> Option<Shape>
    ensures { result ≡ rule.declared (map (rule.output_of_row chosen) (rule.outputs_of_kind kind.now)) name.now }
{
    let outputs = output_rows(kind);
    for row in outputs {
        if name == row.name() {
            return Some(output_shape(*row, chosen));
        }
    }
    None
}

fn texts_of<'a>(alloc: Global, list: &'a [Socket]) -> Result<Vec<&'a str>, Memory>
    ensures { IfOk result (λ texts. map (λ text. text.now) texts.items ≡ socket_names (map socket_of list.now)) }
{
    let mut texts = Vec::with_capacity(alloc, list.len())?;
    for socket in list {
        texts.push(socket.name.as_str())?;
    }
    Ok(texts)
}

/// The sockets of a group or of a zone, which may be many, by their names.
#[derive(Drop)]
pub struct Sockets<'a> {
    pub list: &'a [Socket],
    pub names: Names<'a>,
    ghost named: { names ≡ socket_names (map socket_of list.now) },
}

impl<'a> Sockets<'a> {
    /// These sockets, with a look-up of their names.
    pub fn new(alloc: Global, list: &'a [Socket]) -> Result<Sockets<'a>, Memory>
        ensures { IfOk result (λ sockets. sockets.list.now ≡ list.now) }
    {
        let names = Names::new(alloc, texts_of(alloc, list)?)?;
        Ok(Sockets { list, names })
    }

    /// What the first socket with that name carries.
    pub fn find(&self, name: &str) -> Option<Shape>
        ensures { result ≡ rule.declared (map rule.one_of (map socket_of self.now.list.now)) name.now }
    {
        match self.names.first(name) {
            Some(position) => match self.list.get(position) {
                Some(socket) => Some(single(socket.kind)),
                None => None,
            },
            None => None,
        }
    }
}
