//! The form of a tree in JSON, and the first pointer where a value is not of it.
//!
//! `Form` says what a value must be, by the table of kinds: which keys an object has, what is
//! under each, and which values are atoms. `first_misfit` promises the first pointer at which what
//! is there is not of its form, or that there is none, and `are_links` whether an array is one of
//! links. The crate stands on `serde_json`'s values, on the table in `gn_kinds`, the pointers of
//! `gn_pointers` and the atoms of `gn_atom`.
#![tactic(auto)]

mod fit;
mod form;
mod key;
mod walk;

pub use fit::are_links;
pub use walk::first_misfit;
