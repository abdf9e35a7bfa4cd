//! The different edges of a mesh, in the order in which they are first met.
//!
//! `gn_elements` takes it to number the edges of a text that is read, and `gn_geom` to see that the
//! edges of a mesh differ and to list those around faces.
//!
//! Contracts see `Edges` as the list of its edges, each with its lesser vertex first. `add` puts an
//! edge behind the others unless it is one of them, and returns its number. The crate stands on the
//! definitions of `gn_plain`.
//!
//! An edge is found without a hash, since files choose the numbers of vertices and could choose
//! some whose hashes collide. Each vertex has a list of the edges whose lesser vertex it is. It is
//! short in an ordinary mesh, and a search looks at its first eight alone: where a vertex has more,
//! the others are in one ordered map for all vertices, in which a search costs the logarithm of
//! their number, whatever they are.
#![tactic(auto)]

mod edges;
mod pair;
mod place;

pub use edges::Edges;
pub use pair::edge_between;

#[cfg(test)]
mod tests;
