//! The fields at the outputs of nodes whose inputs and outputs are fields.
//!
//! `outputs` makes them, for a kind of node with its settings and the fields at its inputs. It promises the
//! fields that the kind's row in `gn_field_rows` gives for these inputs. A field that would have more than
//! 4,096 different subtrees is refused, with their number, and every other refusal is want of memory.
//! `gives_fields` tells which kinds these are. A kind is one line of the table in `outputs`, and one short
//! function where its operation reads only some of the inputs or where it gives several fields. The crate
//! stands on `gn_field`, whose fields it makes, on `gn_field_rows` for what they are, and on `gn_tree` and
//! `gn_node_kind` for the kinds.
#![tactic(auto)]

mod arguments;
mod node;
mod operate;
mod read;

pub use node::{gives_fields, outputs};
