//! Masks: sets of element numbers, over which fields are evaluated.
//!
//! Contracts see a `Mask` as the list of its numbers, which rise. It promises that `all`, `from_truths`,
//! `and` and `minus` give exactly the numbers that their definitions name, that `chunks` cuts a list into
//! parts that follow each other, and what `len`, `has`, `nth` and `to_vec` return.
//!
//! A mask is kept as segments that rise, none of which touches the next, so what it takes depends on the
//! number of segments and not on that of elements. Every call goes over the segments once. The crate
//! stands on `gn_memory` alone.
#![tactic(auto)]

mod combine;
mod cut;
mod mask;
mod segment;

pub use mask::Mask;

#[cfg(test)]
mod tests;
