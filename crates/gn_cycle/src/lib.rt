//! Cycles in a directed graph.
//!
//! A graph has for each node the list of the nodes that its edges lead to. `is_on_cycle` promises
//! whether a node leads back to itself. A graph is gone through once when it is made, which ranks
//! its nodes by their strongly connected components, so that no edge leads to a higher rank. A node
//! whose edges all lead to lower ranks lies on no cycle; only for another is there anything to
//! search. The crate stands on `gn_memory` alone.
#![tactic(auto)]

mod components;
mod graph;
mod ranks;
mod search;
mod targets;

pub use graph::Graph;

#[cfg(test)]
mod tests;
