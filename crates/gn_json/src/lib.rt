//! Reading a tree from its JSON text.
//!
//! `read` promises which text is a tree and which tree it is: `Text` where the bytes are no JSON,
//! `Form` with the first pointer where the value is not of a tree's form, and else the tree that the
//! value is, of which nothing is made up and which is of its form. Each value of the form is proved to
//! be such a tree, so there is no other answer but want of memory. `gn_form` looks at the form first, and
//! the tree is made after it, with the constants that `gn_atom` reads. The crate stands on these two, on
//! `gn_tree` and on `serde_json`, which reads the text.
#![tactic(auto)]

mod fault;
mod node;
mod part;
mod setting;
mod tree;

pub use fault::JsonFault;
pub use tree::read;
