//! Pointers in a value that is made of arrays and objects, and the first pointer where something is wrong.
//!
//! A pointer is the list of steps to it from the top. Definitions that name a first pointer share the order
//! of pointers and the law by which it is put together from those of the parts. `pointer_string` writes a
//! pointer as the JSON Pointer to it. The crate stands on `gn_memory` and on `itoa`.
#![tactic(auto)]

mod step;

pub use step::{Step, pointer_string};

#[cfg(test)]
mod tests;
