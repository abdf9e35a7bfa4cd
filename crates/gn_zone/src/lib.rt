//! What a zone opens: the nodes of all its turns, and where its outputs come from.
//!
//! `Opens` says when nodes, constants and links are what is found for a zone of a kind at a path that turns some
//! number of times (`opened_within` of `gn_stands`, by name as in `gn_found`), and lead to nothing outside. Laws:
//! what is found for a zone by name is found over any values too, with these filled in
//! (`found_zones_are_filled_in`), so what was opened is with these values what is found for the zone
//! (`opened_zones_are_found`), and it has a link for each item of the zone (`each_output_is_opened`). The crate
//! promises no call yet. It stands on the graphs of `gn_lower` and on what zones open in `gn_stands` and `gn_nodes`.
#![tactic(auto)]

pub mod laws;

use gn_lower::Constant;
use gn_nodes::Opened;
use gn_tree::Kind;

/// What a zone of a tree opens.
pub type OpenedZone = Opened<Kind, Constant>;
