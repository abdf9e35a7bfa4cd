//! The registers that an operation reads, and typed loops over their positions.
//!
//! A type whose values are those of one kind is `OfKind`, and `Number` if it can be compared. `Arguments` are
//! the registers that an operation names; `list` lends the values of one of them as a slice of its type. `each` to
//! `each_five` promise that each position of a register holds what a function gives of the arguments
//! there. The crate stands on `gn_value`, whose specs say what a register holds.
#![tactic(auto)]

mod arguments;
mod loops;
mod of_kind;

pub use arguments::Arguments;
pub use loops::{each, each_five, each_four, each_three, each_two, set_all};
pub use of_kind::{Number, OfKind};
