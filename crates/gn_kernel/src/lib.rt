//! What the operations on values do, at one element and at many.
//!
//! `one` gives the row of an operation at the values of its arguments. `many` does the same at each
//! position of whole registers, in one typed loop per operation. The crate stands on `gn_value`,
//! whose specs define the rows, and on the loops over registers of `gn_registers`.
#![tactic(auto)]

mod element;
mod numbers;
mod operations;
mod random;
mod selection;
mod whole;

pub use element::one;
pub use whole::many;
