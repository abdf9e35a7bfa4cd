//! What the graph that is found for a tree has besides standing for it.
//!
//! Its nodes have different paths (`found_paths_differ`), and where the tree keeps the rules, each link leads
//! to a node that stands before, through any number of groups (`found_graphs_lead_back`). So what makes
//! a graph may add its nodes in that order. Such a graph is found for each tree that
//! keeps the rules (`found_graphs_exist`), with its constants by name, and values are filled in afterwards
//! (`found_graphs_are_filled_in`). In a tree that is of its form each repeat has a body, so that what is run
//! alone is no zone (`repeats_have_bodies`). The crate holds definitions and laws alone. It stands on the
//! graphs of trees in `gn_stands` and on the meaning of trees in `gn_meaning`.
#![tactic(auto)]

pub mod laws;
