//! Which nodes of a graph are used, and which of them are ready to be run.
//!
//! Nodes, their inputs and their outputs are numbers here. A caller adds nodes, names the outputs that
//! are wanted from the start, and reports what becomes known: a value of an input, the choice of a
//! switch, where the outputs of an opened zone come from, an answer of an import. `Uses` promises that
//! an output is wanted exactly where it is in the least set that holds the roots, what a used node
//! reads by then, and where a wanted output of an opened zone comes from; that a node is used exactly
//! where one of its outputs is wanted; and that a node is ready exactly where it is used, was not taken,
//! and all is there that it reads. Each output is marked once, each input passed once, and only adding
//! a node or a root takes memory. The crate stands on `gn_memory`, and on the words of `gn_node_set`.
#![tactic(auto)]

mod nodes;
mod numbers;
mod outputs;
mod progress;
mod rows;
mod uses;

pub use nodes::{Choice, Role};
pub use outputs::Out;
pub use uses::Uses;
