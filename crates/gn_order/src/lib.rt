//! The order in which the nodes of a list are in a graph: each behind all nodes that it links to.
//!
//! The rank of a node is the length of the longest walk from it along links. `by_rank` gives all nodes
//! by rank, and those of one rank by number, in time that is linear in nodes and links; it promises the
//! list of that name in the definitions of `gn_stands`, and with it that no node links to one behind it.
//! Nodes are numbers here, as in `gn_cycle`: the crate knows no names and no trees.
#![tactic(auto)]

mod heights;
mod order;

pub use order::by_rank;
