//! Tests of the kinds of nodes, of the tables of lists and of the graphs of trees, each by its public calls.
//!
//! They are in a crate of their own, since a crate with tests is proved once more for them. The crate promises
//! nothing of its own.
#![tactic(auto)]

#[cfg(test)]
mod kinds;
#[cfg(test)]
mod laws;
#[cfg(test)]
mod lower;
#[cfg(test)]
mod order;
#[cfg(test)]
mod tables;
