//! The words in which trees, rows of kinds and the executor speak of nodes.
//!
//! A node has a path, links carry values to it, and what its kind does is one record, `Meanings`: its
//! role, its row, what a switch chooses, what a zone opens, and the sorts of its inputs and outputs.
//! The meaning of trees, the rows of the kinds and the laws of the executor take this one record, so
//! that they speak of the same thing. Paths have one order, by which `is_before` tests and which the
//! `Ord` of `Path` has. The crate stands on `gn_lazy`, whose paths these are.
#![tactic(auto)]

pub mod order;

pub use order::{is_before, paths_are_ordered};
