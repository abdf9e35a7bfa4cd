//! Which steps of fields are run for some roots, in which order, where each leaves its values, and on
//! which places steps are read.
//!
//! `plan_of` gives instructions, each of which finds the values of its step's operands in slots and
//! leaves its own in another slot. No step is planned but those that the roots need. A slot is taken
//! again once the last step that reads it has run. `asked_places` promises that what a step reads is
//! asked for on each place that the step is asked for on, also where the step reads it elsewhere. The
//! crate stands on `gn_field` for the steps.
#![tactic(auto)]

mod asked;
mod places;
mod plan;
mod readers;

pub use asked::asked_places;
pub use places::Places;
pub use plan::{Instruction, Plan, plan_of};
