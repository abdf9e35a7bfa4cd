//! Geometry as the program keeps it: meshes and clouds of points in shared arrays, and instances of
//! geometries, with columns.
//!
//! A column of a mesh or a cloud has a value for each element of its place, and keeps this from
//! `set_column` on. Positions are written in place where the handle on them is the only one of its
//! block, and else a copy is made and noted: `own_points` makes the handle the only one, and
//! `sole_points` then lends the positions. A second mesh or cloud shares each array whose handle has
//! a part to give. Contracts see the arrays and the columns with their handles; `plain_mesh` and
//! `plain_cloud` forget these and return what `gn_plain` defines. The crate stands on `gn_attr` for
//! columns and on `gn_geom`, whose definitions say which lists are those of a mesh.
#![tactic(auto)]

mod arrays;
pub mod cloud;
pub mod geometry;
pub mod lend;
pub mod mesh;
mod twins;

pub use cloud::Cloud;
pub use geometry::{Geometry, Instances, Transform};
pub use gn_value::op::Topology;
pub use mesh::Mesh;
