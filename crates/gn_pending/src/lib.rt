//! What is left to do among the nodes of a graph, by flags: whether all of some nodes are flagged, and
//! which of the flagged ones comes first in the order of paths.
//!
//! `are_flagged` says whether the flags of all these numbers are set. `first_flagged` gives, of these
//! numbers, the flagged node whose path is before those of the others, and none exactly where no node
//! with one of the numbers is flagged. `empty_slots` makes places with nothing in them. The executor's
//! state keeps which nodes are finished and which imports wait in such flags. The crate stands on the
//! order of paths in `gn_node_set`, on the graphs of `gn_lazy`, and on `gn_memory`.
#![tactic(auto)]

mod first;
mod flags;

pub use first::first_flagged;
pub use flags::{are_flagged, empty_slots};
