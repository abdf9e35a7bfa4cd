//! Graphs that are made of trees: how they are made, and what they say of the tree.
//!
//! `lower` makes the graph of a tree that keeps the rules. A graph has its constants beside it, each of which is
//! a value, what an element has by itself, or the empty geometry. `Lowers` says when a graph with its constants is
//! the one that is found for a tree (`task_within` of `gn_stands`, by name as in `gn_found`), with as many outputs of
//! each node as the rules find; such a graph stands for the tree over any values, its nodes have different paths, and
//! its links lead back (`lowered_graphs_stand`). A tree is unfolded list by list over the tables of `gn_table`, with
//! a stack of the lists on the way (`Stands` in `specs/Unfolding.antt`). The crate stands on the graphs of `gn_lazy`, on
//! the kinds of `gn_node_kind`, which contracts see as they are written (`written_as`), on the trees of
//! `gn_check`, and on the definitions of `gn_found`.
#![tactic(auto)]

mod carried;
pub mod laws;
mod lowered;
mod make;
mod unfold;
mod visit;

pub use gn_table::Constant;
pub use lowered::Lowered;
pub use make::lower;
