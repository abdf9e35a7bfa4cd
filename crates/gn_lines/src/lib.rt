//! The lines of a text, and the words of each line.
//!
//! The lowest of the crates that read OBJ: `gn_elements` takes from it the words of each line, and
//! it knows nothing of vertices or faces.
//!
//! A `#` at a line's start or after a blank begins a comment, and a line that ends with `\` goes on
//! in the next one. `Lines` returns the words of one line after the other, and goes over the bytes
//! once; it takes no memory. The crate stands on nothing but `std`.
#![tactic(auto)]

mod reader;

pub use reader::Lines;

#[cfg(test)]
mod tests;
