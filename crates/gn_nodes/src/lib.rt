//! What the executor asks of a set of nodes, and what it hands to one.
//!
//! `NodeSet` is a trait of the code that runs nodes, with the meanings of its kinds and values for
//! contracts. Each call promises that meaning: role, file, choice, opening, row and conversion; a
//! second value that is the same; one run noted for each run; and no copy noted where nothing is
//! shared. `LawsOf` hands the meanings to the laws of the executor's machine. `handed` gives what a link
//! carries, while the value stays, and `chosen` what a node chooses by its first value. `Answer`, `Done`
//! and `Opened` are what a node gets for its file, what it hands in when it was run, and what a zone adds
//! to the graph. The crate stands on `gn_exec_laws`, on `gn_uses`, whose roles and choices these are, on
//! `gn_lazy`, `gn_node_set`, `gn_shared` and `gn_memory`.
#![tactic(auto)]

mod node_set;
mod values;

pub use gn_uses::{Choice, Role};
pub use node_set::{LawsOf, NodeSet, chosen, handed};
pub use values::{Answer, Done, Opened, Warning, WarningText};
