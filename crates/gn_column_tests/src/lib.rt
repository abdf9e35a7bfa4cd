//! Tests of columns, of interpolation, of sums over groups, of geometry with columns and of lines and
//! cuboids, each by its public calls.
//!
//! They are in a crate of their own, since a crate with tests is proved once more for them. The crate promises
//! nothing of its own.
#![tactic(auto)]

#[cfg(test)]
mod attr;
#[cfg(test)]
mod cloud;
#[cfg(test)]
mod elsewhere;
#[cfg(test)]
mod geometry;
#[cfg(test)]
mod interp;
#[cfg(test)]
mod prim;
