//! Lists of nodes by numbers: what each node is and what it reads, with all names looked up.
//!
//! `tables_of` makes a table of a tree's own list and one of each group's (`AreTables`). A table has for each
//! node what it is, a node that is run or one that stands for those of a group (`IsPart`), and what its inputs
//! read (`node_reads` of `gn_meaning`, seen from any way to the list); the order of the nodes by rank
//! (`by_rank` of `gn_stands`); and what the list gives out. Whatever unfolds groups goes by tables, so that a
//! name costs one look-up in each list, and not one for each use of the list. The crate stands on the
//! meaning of trees in `gn_meaning`, on the look-ups of `gn_scopes` and on the order of `gn_order`.
#![tactic(auto)]

mod constant;
mod inputs;
mod outputs;
mod read;
mod sockets;
mod table;

pub use constant::Constant;
pub use read::{Read, Site, kind_number};
pub use table::{Part, Row, Table, Tables, tables_of};
