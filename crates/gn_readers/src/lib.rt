//! Which links of a graph lead to the outputs of each node.
//!
//! A `Place` is where a link's value goes: an input of a node, or a root. A `Reader` of a node is a link
//! that leads to one of its outputs, by the output and the link's place. `readers_of` gives, for each node,
//! just its readers, each once. The executor's state hands a node's outputs on by them. The crate stands
//! on the graphs of `gn_lazy`, on the words of `gn_node_set`, and on `gn_memory`.
#![tactic(auto)]

mod place;
mod readers;

pub use place::{Place, Reader, link_at};
pub use readers::readers_of;
