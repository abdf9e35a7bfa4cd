//! What is done with the outputs of a node once it is finished, planned and then carried out.
//!
//! `plan_of` makes, of a node's readers and its outputs, a plan: for each reader the value that its link
//! carries, as a second or as the output itself, and what each switch chooses that gets its condition. It
//! can be refused, and then nothing was changed. What carries the plan out can't: `deliver` puts the values
//! into their slots, `choose_all` lets the switches choose, and `fill_all` notes which inputs have values.
//! An output goes itself to the last reader whose link converts nothing, so that a value which only one
//! link reads is not made twice. The crate stands on the set of nodes of `gn_nodes`, the readers of
//! `gn_readers`, the numbers of `gn_uses`, the graphs of `gn_lazy`, on `gn_node_set`, `gn_exec_laws`,
//! `gn_shared` and `gn_memory`.
#![tactic(auto)]

mod marks;
mod plan;
mod slots;

pub use marks::{choose_all, fill_all};
pub use plan::{Chosen, Plan, Second, plan_of};
pub use slots::deliver;
