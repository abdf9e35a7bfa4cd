//! Interpolation: the values of a column on one place of a mesh as values on another.
//!
//! An element takes from those elements of the other place that hang together with it. Numbers and
//! vectors become the mean of what an element takes, rounded down, and a truth holds where one or
//! all of them hold. The crate lists once who takes from whom, by one walk over the edges or the
//! corners, and adds each value where it is taken; `numbers` has lists of values as lists of whole
//! numbers, and back. It stands on `gn_attr` for the columns and on `gn_value` for the numbers; what
//! is promised is the interpolation of `gn_plain`.
#![tactic(auto)]

mod gather;
mod interpolation;
mod means;
pub mod numbers;
mod takings;

pub use interpolation::{adapt, count_on};
