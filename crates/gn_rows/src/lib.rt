//! What each kind of node gives for its inputs.
//!
//! The crate holds definitions alone: one row a kind, over plain geometry and fields, the limits that
//! rows keep, and all of it together as the one record by which trees and the executor know the kinds.
//! It stands on `gn_plain`, `gn_node_set`, `gn_tree` and `gn_meaning`.
#![tactic(auto)]
