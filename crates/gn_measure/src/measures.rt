ghost use Rattle.std.specs.Prelude.{◌≡◌, IfOk, map, nat_lt};
ghost use Rattle.gn_tree.specs.Seen.{group_of, tree_of};
ghost use Rattle.gn_rules.specs.Measures as rule;
ghost use Rattle.gn_rules.specs.Rules.{node_count};
ghost use Rattle.gn_measure.specs.Measures.{AreOf};

use crate::groups::{all_counts, all_heights, names_of};
use crate::measure::{Known, counts, height};
use gn_memory::Memory;
use gn_names::Names;
use gn_tree::{Group, Node, Tree};
use std::alloc::Global;

/// The groups of a tree, with their names, and how high and how many their nodes are.
#[derive(Drop)]
pub struct Measures<'a> {
    pub groups: &'a [Group],
    pub names: Names<'a>,
    heights: Vec<u64>,
    counts: Vec<u64>,
    ghost measured: { AreOf (map group_of groups.now) names heights.items counts.items },
}

impl<'a> Measures<'a> {
    /// The measures of these groups.
    pub fn new(alloc: Global, groups: &'a [Group]) -> Result<Measures<'a>, Memory>
        ensures { IfOk result (λ measures. measures.groups.now ≡ groups.now) }
    {
        let names = Names::new(alloc, names_of(alloc, groups)?)?;
        let heights = all_heights(alloc, &names, groups)?;
        let counts = all_counts(alloc, &names, groups)?;
        Ok(Measures {
            groups,
            names,
            heights,
            counts,
        })
    }

    /// Whether the node is higher than the limit, where the first `above` groups are there to be used.
    pub fn is_higher(&self, above: usize, node: &Node, limit: u32) -> bool
        ensures { result ≡ nat_lt limit (rule.height (rule.known_above rule.heights (map group_of self.now.groups.now) above) node.now) }
    {
        let known = Known {
            names: &self.names,
            numbers: self.heights.as_slice(),
            above,
        };
        (limit as u64) < height(&known, node)
    }

    /// Whether the tree, which has these groups, has more nodes than the limit.
    pub fn has_more_nodes(&self, tree: &Tree, limit: u32) -> bool
        requires { map group_of self.now.groups.now ≡ (tree_of tree.now).groups }
        ensures { result ≡ nat_lt limit (node_count (tree_of tree.now)) }
    {
        let known = Known {
            names: &self.names,
            numbers: self.counts.as_slice(),
            above: self.groups.len(),
        };
        (limit as u64) < counts(&known, &tree.nodes)
    }
}
