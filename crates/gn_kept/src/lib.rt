//! Files that a run has asked for, each kept under its name, so that a shelf is asked once for a name.
//!
//! A file that was given whole, was absent or was too long is kept, and later calls give that answer
//! again without the shelf. The bytes of a file are in a shared array: each call gets a handle on the
//! same block, or a copy if the kept handle has no part left to give. A fault and want of memory are
//! not kept. The crate stands on `gn_io` for shelves, on `gn_shared` for the arrays, and on
//! `indexmap` for the look-up of names.
#![tactic(auto)]

pub mod kept;
mod tests;

pub use kept::{Bytes, Got, Kept};
