//! Tapes: several fields as one list of instructions.
//!
//! `build` merges fields into a `Tape`, which contracts see as the list of these fields. It promises
//! that a tape has exactly as many instructions as its fields have different subtrees, and that
//! `TooMany` comes exactly where these are more than 4,096, with their number.
//!
//! `Tape::ready` makes a tape ready to be run in a context, with the values of what its fields read
//! elsewhere, each made once. `Ready::run` promises a register for each field, which has the field's value
//! at each of the elements (`AllGive`). `at` gives the value of one field at one element.
//!
//! A tape keeps a plan, which says in which order its steps are run and in which slot each leaves its
//! values. The crate stands on `gn_field` for the steps, on `gn_schedule` for plans, on `gn_slots`,
//! which runs them, on `gn_wholes` for what fields read elsewhere, and on `gn_plain`, whose expressions
//! say what fields are.
#![tactic(auto)]

mod element;
mod ready;
mod tape;

pub use element::at;
pub use ready::Ready;
pub use tape::{Tape, TapeFault, build};
