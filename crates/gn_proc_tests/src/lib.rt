//! Tests of fields and of their tapes, each by its public calls.
//!
//! What is returned is compared with numbers that were counted by hand. The crate stands on `gn_proc`, and on `gn_field` for the fields.
#![tactic(auto)]

#[cfg(test)]
mod field;
#[cfg(test)]
mod fields;
#[cfg(test)]
mod tapes;
