//! The state of the executor between events.
//!
//! `ExecState` is the state as contracts see it: the graph and the values that it began with, the events
//! since, and the outputs that were handed in. `new` begins one, `take` hands out a node that is ready with
//! the values that its run gets, `finish` takes what a run gave and hands it on to the nodes that read it,
//! `serve` hands an import that waits its answer, and `refuse` ends what a worker takes. `waiting` gives the
//! import that is to be answered next; `busy`, `finished` and `refused` say how far it is, and `node` gives a
//! node's path and kind. A finish is of a node that is no zone, and its warnings are not kept. The crate
//! stands on the set of nodes of `gn_nodes`, on the machine of `gn_exec_laws`, on `gn_uses`, which knows the
//! nodes by their numbers, on the flags of `gn_pending`, on `gn_readers` and `gn_delivery`, which hand outputs
//! on, on `gn_lazy`, `gn_node_set`, `gn_shared` and `gn_memory`.
#![tactic(auto)]

pub mod jobs;
mod start;
pub mod state;

pub use gn_nodes::{
    Answer, Choice, Done, LawsOf, NodeSet, Opened, Role, Warning, WarningText, chosen, handed,
};
pub use jobs::{Job, NotFinished, Taken};
pub use state::ExecState;
