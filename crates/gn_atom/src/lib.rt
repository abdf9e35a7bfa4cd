//! The atoms of a tree in JSON: values that are looked at as a whole, since no part of them has a form
//! of its own.
//!
//! An `Atom` says what such a value must be: an id, a name, a word, a place, a constant. `is_atom`
//! promises whether a value is one, `is_id` whether a text is an id, and `constant_as` and
//! `constant_in` the constant that a value is. The crate stands on `serde_json`'s values, on the names
//! and texts of `gn_kinds`, and on the decimal texts of `gn_decimal`.
#![tactic(auto)]

mod atom;
mod constant;
mod text;

pub use atom::{Atom, is_atom};
pub use constant::{constant_as, constant_in};
pub use text::is_id;
