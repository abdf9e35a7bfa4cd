//! A block that several handles share, with a word that counts them.
//!
//! `Counted` is one of several handles on a block. Between any two atomic steps on the block's word
//! that word is the number of its handles, each of them has at least one part, and the parts of all
//! handles and those that came back to the block add up to exactly the limit. A handle that goes or
//! looks and finds 1 has the block to itself, as a `Loose`. A `Name` has no bytes: whoever has a
//! block's name is its only owner. All raw steps on shared arrays are in this crate, proved by hand
//! in twelve small functions; what is above it is safe code.
//!
//! The crate stands on `core` and `std_alloc`, and its proofs on `atomic_table` and `counted_slot`.
#![tactic(auto)]

pub mod block;
pub mod counted;
pub mod name;
pub mod raw_box;

pub use block::{Core, Loose};
pub use counted::Counted;
pub use name::Name;
pub use raw_box::RawBox;
