ghost use Rattle.std.specs.Prelude.{◌≡◌};
ghost use Rattle.gn_meaning.specs.Reads as reads;
ghost use Rattle.gn_meaning.specs.Sites as sites;
ghost use Rattle.gn_meaning.specs.Sites.{Way, plain_read};
ghost use Rattle.gn_table.specs.Constants.{name_of};
ghost use Rattle.gn_table.specs.Reads.{kinds_of, read_of, site_of};

use crate::constant::Constant;
use gn_kinds::SocketKind;

/// Where a value is that is read in a list of nodes.
#[derive(Clone, Copy)]
pub enum Site {
    /// An output of a node of the list, both by their numbers.
    Output { node: usize, socket: usize },
    /// An input of the list, by its number.
    Entry { number: usize },
    /// A constant.
    Constant { constant: Constant },
    /// No value is here. A link that leads from nothing reads it, which no tree that keeps the rules
    /// has.
    Nowhere,
}

/// What an input reads.
#[derive(Clone, Copy)]
pub struct Read {
    pub site: Site,
    /// The kind of the input's socket, where that of the value is another.
    pub conversion: Option<SocketKind>,
}

/// The number of a kind, in the order of the kinds.
pub fn kind_number(kind: SocketKind) -> u8
    ensures { result ≡ reads.kind_number kind }
{
    match kind {
        SocketKind::Truth => 0,
        SocketKind::Int => 1,
        SocketKind::Fixed => 2,
        SocketKind::Vector => 3,
        SocketKind::Geometry => 4,
    }
}

/// What a value of one kind is converted to at a socket of another.
fn conversion(from: SocketKind, to: SocketKind) -> Option<SocketKind>
    ensures { kinds_of result ≡ reads.passed from to }
{
    if kind_number(from) == kind_number(to) {
        return None;
    }
    Some(to)
}

/// A value at a site of one kind, read by a socket of another.
pub(crate) fn passed(site: Site, from: SocketKind, to: SocketKind) -> Read
    ensures { (way : Way) → read_of way result ≡ record { from = site_of way site; through = reads.passed from to } }
{
    Read {
        site,
        conversion: conversion(from, to),
    }
}

pub(crate) fn constant(constant: Constant) -> Read
    ensures { (way : Way) → read_of way result ≡ plain_read (sites.at_constant (name_of constant)) }
{
    Read {
        site: Site::Constant { constant },
        conversion: None,
    }
}

/// What a link reads that leads from nothing.
pub(crate) fn nothing() -> Read
    ensures { (way : Way) → read_of way result ≡ plain_read sites.nowhere }
{
    Read {
        site: Site::Nowhere,
        conversion: None,
    }
}
