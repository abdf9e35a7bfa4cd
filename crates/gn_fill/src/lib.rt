//! Registers, and how they are filled with values of any kind.
//!
//! A register is filled with one value, with what a context has at some elements, with what a source
//! gives for the values of another register, or with values of another register that are picked by
//! number or by index; `put` puts values at some elements. Each call promises the value at every
//! position, and keeps the kind and the length of the register. The crate stands on `gn_registers` for
//! the types of values, on `gn_field` for contexts and sources, and on `gn_mask` for what is said of
//! sets of elements.
#![tactic(auto)]

mod copy;
mod filled;
mod inputs;
mod picked;
mod placed;

pub use copy::{copied, kind_of, len_of, zeros};
pub use filled::{fill, value_at};
pub use inputs::{read, sample};
pub use picked::{pick, pick_at};
pub use placed::put;
