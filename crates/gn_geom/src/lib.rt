//! Geometry as the program keeps it: meshes in shared arrays.
//!
//! `gn_obj` makes a mesh of what `gn_elements` reads from a text, and writes one; this crate knows
//! nothing of texts.
//!
//! A mesh is made from lists that are checked once, and what they must be like then holds of it
//! for good. Contracts see its arrays, each with its items and with the parts of the right to share
//! that the handle has; `plain_of` forgets the handles and returns the mesh of `gn_plain`. The crate
//! stands on `gn_value`, `gn_plain` and `gn_shared`, and finds equal edges by `gn_edges`.
#![tactic(auto)]

mod checks;
pub mod edges;
pub mod geometry;
pub mod mesh;

pub use edges::edges_of;
pub use geometry::Geometry;
pub use gn_value::op::Topology;
pub use mesh::{Mesh, PartsFault};
