//! Tests of files, shared arrays and operations, each by its public calls.
//!
//! They are in a crate of their own, since a crate with tests is proved once more for them. The crate promises
//! nothing of its own.
#![tactic(auto)]

#[cfg(test)]
mod arrays;
#[cfg(test)]
mod io;
#[cfg(test)]
mod kernel;
#[cfg(test)]
mod meter;
#[cfg(test)]
mod world;
