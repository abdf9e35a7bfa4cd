//! The table of kinds: which settings, inputs and outputs each kind of node has.
//!
//! A kind is a row, and all that reads, checks or runs trees goes by the rows. `sections` promises that
//! the code's table is the one that the definitions spell, and `find_row` that a kind is found by its
//! name exactly where it has a row. The kinds of sockets are here too, with their names and those
//! of places. The crate stands on the values of `gn_value` alone.
#![tactic(auto)]

mod common;
mod find;
mod name;
mod row;
mod table;

pub use find::{find_row, socket_kinds};
pub use name::{find_kind, find_place, kind_name, place_name};
pub use row::{DefaultValue, InputRow, OutputRow, Row, SettingForm, SocketKind};
pub use table::sections;
