//! The numbers and vectors of the evaluator, and what their operations give.
//!
//! A fixed number is a raw `i64` that stands for itself divided by 2^32. Every operation is total:
//! its result is the exact one, rounded down where it must be rounded, and then brought into the
//! range of the type. The crate stands on the root of `gn_root`.
#![tactic(auto)]

pub mod conversion;
pub mod fixed;
pub mod mixing;
pub mod op;
pub mod sums;
pub mod value;
pub mod vector;
pub mod whole;

pub use conversion::convert;
pub use fixed::Fx;
pub use gn_root::isqrt;
pub use mixing::mix64;
pub use value::{Place, Value, ValueKind};
pub use vector::V3;
