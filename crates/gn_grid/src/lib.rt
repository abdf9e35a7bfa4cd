//! Grids of vertices in a plane, as meshes.
//!
//! The call returns a new mesh without columns, of which nothing else has a handle, with just the shape that `gn_shapes` defines for its
//! arguments. The lists of the mesh are made in one pass, with their sizes known beforehand; the coordinates of a side are computed once,
//! and no edge is looked up. The crate stands on `gn_shapes` for what a grid is and on `gn_geometry` for meshes.
#![tactic(auto)]

mod grids;

pub use grids::grid;
