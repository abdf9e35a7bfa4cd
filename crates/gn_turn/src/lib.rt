//! A lock under which workers take turns at one state, and know of its journal what they saw.
//!
//! A `Turn` has a state that is good for its job and that keeps a journal of events. A worker has a
//! `Pass`, takes the state with it, and gives the state back with one event more or none. Each state
//! that is taken is good for the job, and its journal begins with the events that the pass knew.
//! A pass is split for a further worker and joined at the end. The last pass closes the turn, and
//! then the journal has exactly as many events as the joined passes gave back.
//!
//! Nothing is promised of waiting: a call that takes `Wait` keeps its promises if it returns.
//!
//! The crate stands on `atomic_table`, which has the single steps on words and the slot. What holds
//! between any two steps is the rule of `specs/Rule.antt`.
#![tactic(auto)]

mod guarded;
mod pass;
mod plays;
mod rule;
#[cfg(test)]
mod tests;
mod turn;
mod view;

pub use guarded::Guarded;
pub use pass::{NoTurn, Pass, Turn};
pub use view::View;
