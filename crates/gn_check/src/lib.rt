//! The check of a tree by the rules F2 to F7.
//!
//! `check` takes a tree that is of its form and promises the least rule that it breaks with the first
//! pointer where it does, or a `GoodTree`, which is of its form and keeps all of them. It goes through
//! the tree once with all rules, and again rule by rule only where one is broken. It stands on the rules
//! of `gn_rules`, on the trees of `gn_tree`, and on the scopes of `gn_scopes`, in which each list of nodes
//! has its names looked up.
#![tactic(auto)]

mod broken;
mod checked;
mod fault;
mod good;
mod walk;

pub use checked::check;
pub use fault::CheckFault;
pub use good::GoodTree;
