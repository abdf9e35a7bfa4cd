//! The square root of a whole number, rounded down.
//!
//! `isqrt` promises the greatest number whose square is at most its argument, for every argument of
//! 128 bits. The machine's own root of the nearest float is a first guess, which Newton's step brings closer where a float
//! has too few digits; from there the root is counted down and up to, by one at most. What is promised doesn't
//! rest on the guess. The crate stands on nothing but `std`.
#![tactic(auto)]

mod root;

pub use root::isqrt;
