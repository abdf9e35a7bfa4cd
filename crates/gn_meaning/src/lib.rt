//! What a tree means: the value at each of its sites, and which nodes have to run for it.
//!
//! The crate holds definitions and laws alone. They say nothing of graphs, of an order of work or of
//! workers: a value is found along the links, groups stand for their nodes, a zone turns its body, and
//! the demand is the least set that a few rules close. What a node of a kind does is handed in, as one
//! record of rows. The laws say that a site has one value and one origin, and that in a tree that keeps
//! the rules each site that is there has them. Names are looked up as the rules of trees look them up,
//! so the crate stands on `gn_rules`, and on `gn_node_set` for the words that it shares with rows and
//! with the executor.
#![tactic(auto)]

pub mod laws;

pub use laws::KindRows;

#[cfg(test)]
mod tests;
