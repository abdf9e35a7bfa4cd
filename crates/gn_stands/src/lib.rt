//! When a graph stands for a tree, and what the two then have in common.
//!
//! A graph stands for a tree where its nodes are those of the tree with groups unfolded and the bodies of
//! zones left out, and its links carry what their inputs read, with a conversion at each socket of
//! another kind on the way. `standing_agrees` says that each solution of the equations of such a graph
//! gives what the tree means: the values, the demanded nodes, and the warnings in path order. One
//! such graph is found as a list, with nodes by rank (`found_graphs_stand`, `ranks_order_back`), and what
//! a zone opens is found by its kind and path alone (`found_zones_open`). The crate holds definitions and
//! laws alone. It stands on the meaning of trees in `gn_meaning` and on the graphs of `gn_exec_laws`.
#![tactic(auto)]

pub mod laws;

pub use laws::TreeMeanings;

#[cfg(test)]
mod tests;
