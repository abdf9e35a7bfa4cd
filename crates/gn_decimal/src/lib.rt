//! Decimal texts of fixed numbers, both ways.
//!
//! `read` gives the fixed number that is nearest to a decimal number, for a text of any length, and
//! `print` writes the nearest number of at most ten places behind the point. What is printed is read
//! as the same number, for each number there is. Both take no memory, and go over the text once.
//! `write_number` and `write_whole` write behind what is in a buffer, and `split_sign` takes a text's sign off.
//! The crate stands on the fixed numbers of `gn_value`, and on `thiserror`.
#![tactic(auto)]

mod printer;
mod reader;
mod rounding;
mod sign;
mod significand;

pub use printer::{print, write_number, write_whole};
pub use reader::read;
pub use sign::split_sign;
use thiserror::Error;

/// The text is not a decimal number.
#[derive(Clone, Copy, Debug, PartialEq, Eq, Error)]
#[error("not a decimal number")]
pub struct NotANumber;
