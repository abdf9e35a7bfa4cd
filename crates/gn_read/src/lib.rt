//! Reading a well-formed tree from its JSON text.
//!
//! `read_tree` promises for every text which of four things it is: a tree that keeps the rules F1 to
//! F7, and which tree; no JSON; or a JSON value with the least rule that it breaks and the first pointer
//! where it does. F1 is the form that `gn_json` reads by, and F2 to F7 are those of `gn_check`. The
//! crate stands on these two.
#![tactic(auto)]

mod fault;
mod reading;

pub use fault::TreeFault;
pub use reading::read_tree;
