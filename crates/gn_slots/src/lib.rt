//! The values of steps of fields at some elements.
//!
//! `run_roots` runs a plan: each of its instructions finds registers with the values of its step's
//! operands in slots, and leaves a register with the step's values in another slot. It promises a
//! register for each root, which has the root's value at each of the elements (`AllGive`). The values
//! of a step that reads elsewhere are looked up among those that the caller has made, each over a
//! whole place (`Whole`). The crate stands on `gn_schedule` for plans, on `gn_kernel` for operations
//! and on `gn_fill` for all else that steps make of registers.
#![tactic(auto)]

mod execute;
mod lookup;
mod run;
mod whole;

pub use run::run_roots;
pub use whole::Whole;
