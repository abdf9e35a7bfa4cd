//! Tests of which nodes are used, of the readers of their outputs, and of the executor's state, each by its
//! public calls.
//!
//! They are in a crate of their own, since a crate with tests is proved once more for them. `Numbers` is
//! the set of nodes that they run: sums, a choice of two cases, lengths of files, and a zone that hands on
//! its item. It promises what `NodeSet` of `gn_nodes` asks. `graphs` makes a graph of these nodes that a
//! state may begin with, and serves its imports. The crate stands on `gn_uses`, `gn_readers`, `gn_nodes`,
//! `gn_exec_core`, `gn_exec_laws`, `gn_lazy`, `gn_node_set`, `gn_shared` and `gn_memory`.
#![tactic(auto)]

pub mod graphs;
#[cfg(test)]
mod machine;
pub mod numbers;
#[cfg(test)]
mod readers;
#[cfg(test)]
mod uses;

pub use numbers::{NumberKind, Numbers};
