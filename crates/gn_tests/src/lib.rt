//! Tests of the commands over files in memory, by both calls that run words.
//!
//! What they show goes through all crates below: the status, the bytes written, the line on the sink of
//! messages, the files asked for and the node runs. The crate promises nothing of its own. It stands on
//! `gn_app`, and on `gn_io` and `gn_shared` for the outside that a call is handed.
#![tactic(auto)]

#[cfg(test)]
mod tests;
