//! The corners of a mesh in which some faces are turned over.
//!
//! `flipped` returns the vertex and the edge of each corner, and which corner comes where: in a face that
//! is turned over the first corner stays, the others come in the opposite order, and the edge of each
//! corner leads to the vertex of the next. It promises that the lists are those of a mesh again, and that
//! its faces are just those that `gn_geometry_rows` defines. Vertices, edges and the number of corners of
//! each face stay as they are. The crate stands on `gn_picks` for what is picked in an order.
#![tactic(auto)]

mod corners;
mod order;

pub use corners::{CornerLists, flipped};
