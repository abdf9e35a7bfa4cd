//! The nearest of many points: a tree of boxes round points, which is made once and asked often.
//!
//! Contracts see a `BoxTree` as the list of its points. It promises that `nearest` gives the index of a point
//! such that none is nearer and none before it is as near, by exact squared distances, and `None` exactly
//! for no points.
//!
//! The points are kept in one array, halved again and again at the middle of the widest axis, and the boxes
//! round the parts in another. A search goes into the nearer half first, leaves out each part whose box is
//! too far away, and takes no memory. The crate stands on `gn_memory` and `gn_value` alone.
#![tactic(auto)]

mod bounds;
mod candidate;
mod grow;
mod search;
mod tree;

pub use tree::BoxTree;

#[cfg(test)]
mod tests;
