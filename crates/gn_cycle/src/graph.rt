ghost use Rattle.std.specs.Prelude.{◌≡◌, List, IfOk, Decides, map};
ghost use Rattle.gn_cycle.specs.Graph.{Leads, lists};

use crate::components::components;
use crate::ranks::{leads_down, none_rises};
use crate::search::leads_back;
use gn_memory::Memory;
use std::alloc::Global;
use std::marker::Model;

/// A directed graph, with a rank for each node such that no edge leads to a higher one.
#[derive(Drop)]
pub struct Graph {
    targets: Vec<Vec<usize>>,
    ranks: Vec<usize>,
}

impl Model for Graph {
    ghost use Rattle.std.specs.Prelude.{List, ℕ};
    ghost use Rattle.gn_cycle.specs.Graph.{lists};
    ghost use Rattle.gn_cycle.specs.Ranks.{NoneRises};

    ghost Value = { List (List ℕ) };

    ghost view = { λ g. lists g.targets.items };

    ghost invariant = { λ g. NoneRises (lists g.targets.items) g.ranks.items };
}

impl Graph {
    /// The graph in which each node has these targets. A target past the end is a node without
    /// targets.
    pub fn new(alloc: Global, targets: Vec<Vec<usize>>) -> Result<Graph, Memory>
        ensures { IfOk result (λ graph. graph ≡ lists targets.items) }
    {
        let ranks = components(alloc, &targets)?;
        if none_rises(&targets, &ranks) {
            return Ok(Graph { targets, ranks });
        }
        let ranks = Vec::new(alloc);
        Ok(Graph { targets, ranks })
    }

    /// Whether the node leads back to itself.
    pub fn is_on_cycle(&self, alloc: Global, node: usize) -> Result<bool, Memory>
        ensures { IfOk result (λ found. Decides found (Leads self.now node node)) }
    {
        if leads_down(&self.targets, &self.ranks, node) {
            return Ok(false);
        }
        leads_back(alloc, &self.targets, node)
    }
}
