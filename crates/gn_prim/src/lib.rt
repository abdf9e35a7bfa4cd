//! Meshes that are made of numbers: a line of vertices, and a cuboid.
//!
//! Each call returns a new mesh without columns, of which nothing else has a handle, with just the shape that
//! `gn_shapes` defines for its arguments. The lists of a mesh are made in one pass, with their sizes known
//! beforehand, and no edge is looked up. The crate stands on `gn_shapes` for what the shapes are and on
//! `gn_geometry` for meshes.
#![tactic(auto)]

mod cuboids;
mod lines;

pub use cuboids::cuboid;
pub use lines::line;
