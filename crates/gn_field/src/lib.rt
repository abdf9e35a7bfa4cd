//! Fields: what has a value at each element, made of constants, inputs, operations and samples.
//!
//! Contracts see a `Field` as a finite expression of `gn_plain`. The crate promises that a field made of
//! others is that expression of theirs, that it has at most 4,096 different subtrees, and that `TooMany`
//! comes exactly where there would be more, with their number; and what `varies`, `distinct`, `kind` and
//! `together` say of expressions.
//!
//! A field keeps each of its different subtrees once, as a list of steps that name earlier ones, so a
//! field that is doubled many times is small. Where steps of several fields meet in one list, those that
//! are the same are found and kept once. The crate stands on `gn_plain`, whose expressions it makes, on
//! `gn_value`, and on `gn_lazy` for the paths of nodes.
#![tactic(auto)]

mod context;
mod field;
mod input;
mod merge;
mod step;

pub use context::Context;
pub use field::{Field, FieldFault, Gathered};
pub use input::{Input, Part, Step};
pub use step::{FieldStep, Source};
