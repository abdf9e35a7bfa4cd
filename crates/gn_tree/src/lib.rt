//! Trees of nodes as they are written, and the kinds of nodes with their settings.
//!
//! `Tree` holds what a file of a tree spells, and `Kind` a kind of node with the values of its settings.
//! Contracts see a node as the data of `Trees`: texts are lists of bytes, and the nodes of a zone are in
//! its setting. `IsOfForm` says which trees are of their form: what each node has is what the row of
//! its kind lets it have. The table of kinds and places is in `gn_kinds`.
//! The crate stands on it and on `gn_value`.
#![tactic(auto)]

mod kind;
mod node;
mod tree;

pub use gn_kinds::SocketKind;
pub use kind::Kind;
pub use tree::{Group, Node, Setting, Socket, Tree, TreeInput, TreeLink, Zone};
