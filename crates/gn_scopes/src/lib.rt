//! What is looked up in a tree: settings, sockets, groups, and the nodes of a list by their ids.
//!
//! A `Scope` is a list of nodes as the rules of `gn_rules` look at it (`scope_of`). It promises what the
//! output carries that a link leads from (`source`), which inputs a node has (`inputs_of`), whether a group
//! is above (`is_above`), and whether a node leads back to itself (`is_on_cycle`). `Groups` and
//! `Sockets` keep the groups of a tree, and the sockets of a group or a zone, by their names. Names are
//! looked up in a map that is made for each list: no link and no key costs a walk over a list. The crate
//! stands on the definitions of `gn_rules`, on the trees of `gn_tree`, on the look-ups of `gn_names`, the
//! search of `gn_cycle` and the measures of `gn_measure`.
#![tactic(auto)]

mod edges;
mod groups;
mod scope;
mod setting;
mod sockets;

pub use edges::edges_of;
pub use groups::{Groups, Side};
pub use scope::{Entries, Inputs, Scope};
pub use setting::{chosen, group_in, group_set, is_zone, zone_set};
pub use sockets::{Sockets, input_rows, input_shape, output_rows, output_shape, single};
