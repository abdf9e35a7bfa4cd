ghost use Rattle.std.specs.Prelude.{◌≡◌, None};
ghost use Rattle.gn_meaning.specs.Reads as reads;
ghost use Rattle.gn_meaning.specs.Sites.{zero_at};
ghost use Rattle.gn_origin.specs.declared.read.Site.TheVariants as variant;
ghost use Rattle.gn_origin.specs.Constants.{constant_of, kinds_of};

use crate::walk::Frame;
use gn_kinds::SocketKind;
use gn_tree::{Node, Socket};
use gn_value::{Value, ValueKind};

/// What an input has that nothing is linked to.
#[derive(Clone, Copy)]
pub(crate) enum Constant {
    Value(Value),
    /// The position of each point.
    Position,
    /// The geometry without elements.
    NoGeometry,
}

/// Where a value is, seen from a list of nodes.
#[derive(Clone, Copy)]
pub(crate) enum Site<'s, 't> {
    /// An output of a group node, by its number, with its socket.
    Group {
        frame: Frame<'s, 't>,
        output: usize,
        socket: &'t Socket,
    },
    /// The geometry of the Set Position that has that number in the list.
    Moved {
        number: usize,
        node: &'t Node,
    },
    /// An input of the list, by its number, with its socket.
    Entry {
        number: usize,
        socket: &'t Socket,
    },
    Constant(Constant),
}

/// What an input reads: where the value is, and the kind of the input's socket where it is another.
#[derive(Clone, Copy)]
pub(crate) struct Read<'s, 't> {
    pub(crate) site: Site<'s, 't>,
    pub(crate) conversion: Option<SocketKind>,
}

/// What an input of that kind has by itself.
pub(crate) fn zero(kind: SocketKind) -> Constant
    ensures { constant_of result ≡ zero_at kind }
{
    match kind {
        SocketKind::Truth => Constant::Value(Value::zero(ValueKind::Truth)),
        SocketKind::Int => Constant::Value(Value::zero(ValueKind::Int)),
        SocketKind::Fixed => Constant::Value(Value::zero(ValueKind::Fixed)),
        SocketKind::Vector => Constant::Value(Value::zero(ValueKind::Vector)),
        SocketKind::Geometry => Constant::NoGeometry,
    }
}

/// The number of a kind, in the order of the kinds.
fn kind_number(kind: SocketKind) -> u8
    ensures { result ≡ reads.kind_number kind }
{
    match kind {
        SocketKind::Truth => 0,
        SocketKind::Int => 1,
        SocketKind::Fixed => 2,
        SocketKind::Vector => 3,
        SocketKind::Geometry => 4,
    }
}

/// What a value of one kind is converted to at a socket of another.
pub(crate) fn conversion(from: SocketKind, to: SocketKind) -> Option<SocketKind>
    ensures { kinds_of result ≡ reads.passed from to }
{
    if kind_number(from) == kind_number(to) {
        return None;
    }
    Some(to)
}

/// A value at a site of one kind, read by a socket of another.
pub(crate) fn passed<'s, 't>(site: Site<'s, 't>, from: SocketKind, to: SocketKind) -> Read<'s, 't>
    ensures site { result.site ≡ site.entry }
    ensures through { kinds_of result.conversion ≡ reads.passed from to }
{
    Read {
        site,
        conversion: conversion(from, to),
    }
}

pub(crate) fn plain<'s, 't>(constant: Constant) -> Read<'s, 't>
    ensures site { result.site ≡ variant.Constant constant }
    ensures plain { result.conversion ≡ None }
{
    Read {
        site: Site::Constant(constant),
        conversion: None,
    }
}
