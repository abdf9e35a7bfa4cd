//! The values over whole places of what fields read elsewhere.
//!
//! `wholes_in` promises the values of the steps that read elsewhere, where some roots are read in a
//! context: each is what the step's field is at all elements of a place (`AreWhole` of `gn_slots`), no
//! step has two on one place (`AreOnce`), and all that plans of the roots look up is there
//! (`CoversRoots`). `bring_here` promises the values of a register, which are on a place of a context's
//! component, as values on the context's own place, and that nothing past the end of the first is read
//! (`IsBrought`).
//!
//! Values are computed step by step, so those of a step's arguments are there before its own. The crate
//! stands on `gn_schedule` for the places that steps are read on, on `gn_slots`, which runs plans of
//! arguments, and on `gn_elsewhere` for what steps make of the arguments' values.
#![tactic(auto)]

mod collect;
mod here;
mod steps;
mod values;

pub use collect::wholes_in;
pub use here::bring_here;
