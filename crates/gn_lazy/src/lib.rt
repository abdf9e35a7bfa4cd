//! Graphs of nodes, and the paths that name their nodes.
//!
//! A graph takes one node after the other, and a node's links lead to nodes that stand before it, so
//! that what a link leads to never leads back. A path says where a node came from: through which
//! groups, and through which turns of which zones. Paths are ordered by their steps from the left.
//! Nothing is computed here: a graph is what an executor goes by. The crate stands on `gn_memory`,
//! `smallvec`, `itoa` and `thiserror`.
#![tactic(auto)]

pub mod graph;
pub mod path;

pub use graph::{Graph, GraphFault, GraphNode, Link, Origin};
pub use path::{Path, PathStep};

#[cfg(test)]
mod tests;
