//! Tests of decimals, meshes and OBJ texts, each by its public calls.
//!
//! They are in a crate of their own, since a crate with tests is proved once more for them. The crate promises
//! nothing of its own.
#![tactic(auto)]

#[cfg(test)]
mod decimal;
#[cfg(test)]
mod elements;
#[cfg(test)]
mod geom;
#[cfg(test)]
mod obj;
