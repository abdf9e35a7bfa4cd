//! What steps that read their arguments elsewhere make of the arguments' values.
//!
//! `sums` gives each element of a place the exact sum over its group, up to it, before it or of all,
//! saturated once. `bring` gives values on one place of a mesh as values on another. Both take and
//! give whole registers. The crate stands on `gn_interp` for the interpolation, and what is promised is
//! the meaning of these steps in `gn_plain`.
#![tactic(auto)]

mod between;
mod groups;
mod kinds;
mod totals;

pub use between::bring;
pub use kinds::sums;
