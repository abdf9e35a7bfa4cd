//! The machine of the executor, and its laws over every order of events.
//!
//! Workers take nodes of a graph, run them and hand in what they give, and zones add the nodes of
//! their turns as they are opened. The machine says what each event leaves and which may come next,
//! with no word of marks, counters or threads. The laws hold for every list of events that may come:
//! what is set is right, only what is demanded is run, and nothing is run twice. They are stated for
//! every set of nodes whose meanings keep a few rules. The crate holds definitions and laws alone,
//! over the words of `gn_node_set`, and stands on it and on `gn_lazy`.
#![tactic(auto)]

pub mod laws;
pub mod node_set;

pub use laws::NodeMeanings;
pub use node_set::{MeaningsOf, NodeSet};

#[cfg(test)]
mod tests;
