ghost use Rattle.std.specs.Prelude.{◌≡◌, ◌++◌, ◌∷◌, [], None, IfOk};

use crate::carried::{Carried, Source, narrow};
use crate::visit::{Made, Visit};
use gn_lazy::{GraphNode, Link, Path, PathStep};
use gn_memory::Memory;
use gn_node_kind::{copy_groups, kind_of};
use gn_table::{Constant, Part, Read, Row, Table, Tables};
use gn_tree::{Group, Kind, Node, Tree};
use std::alloc::Global;
use std::mem;
use std::sync::Arc;

/// A tree that is unfolded, list by list.
#[derive(Drop)]
pub(crate) struct Unfolding<'s, 't> {
    alloc: Global,
    /// The tree, with its lists by numbers.
    tree: &'t Tree,
    tables: &'s Tables<'t>,
    /// The groups of the tree, which the kinds of zones keep.
    groups: Arc<Vec<Group>>,
    /// The list that is unfolded.
    visit: Visit<'s, 't>,
    /// The lists around it, the innermost last, and the group nodes in them that lead to it.
    outer: Vec<Visit<'s, 't>>,
    way: Vec<PathStep>,
    /// The nodes of the graph so far, and its constants.
    pub(crate) nodes: Vec<GraphNode<Kind>>,
    pub(crate) constants: Vec<Constant>,
}

/// A copy of a way that goes on to a node.
fn path_to(alloc: Global, way: &[PathStep], node: u32) -> Result<Path, Memory>
    ensures { IfOk result (λ path. path.steps.items ≡ way.now ++ record { node = node; turn = None } ∷ []) }
{
    let mut steps = Vec::with_capacity(alloc, way.len() + 1)?;
    steps.extend_from_slice(way)?;
    steps.push(PathStep { node, turn: None })?;
    Ok(Path { steps })
}

impl<'s, 't> Unfolding<'s, 't> {
    ghost use Rattle.std.specs.Prelude.{◌≡◌, ◌≢◌, ◌≤◌, true, Some, All, IfOk, OnOk, codes, length, map, slice_get};
    ghost use Rattle.std.specs.Arc.{arc_value};
    ghost use Rattle.gn_tree.specs.Form.{IsOfForm, node_fits};
    ghost use Rattle.gn_tree.specs.Nodes.{kind_in as kind_of_node};
    ghost use Rattle.gn_tree.specs.Seen.{group_of, tree_of};
    ghost use Rattle.gn_rules.specs.Scopes.{Scope};
    ghost use Rattle.gn_rules.specs.Rules.{KeepsRules};
    ghost use Rattle.gn_node_kind.specs.Seen.{written_as};
    ghost use Rattle.gn_meaning.specs.Bodies.{kind_in};
    ghost use Rattle.gn_table.specs.Tables.{AreTables};
    ghost use Rattle.gn_table.specs.declared.table.Part.TheVariants as part;
    ghost use Rattle.gn_lower.specs.Carried.{IsRead};
    ghost use Rattle.gn_lower.specs.Events.{Links};
    ghost use Rattle.gn_lower.specs.Unfolding.{ComesNext, Goes, IsDone, IsFound, Stands, Steps};

    /// The tree's own list, of which no node is unfolded yet.
    pub(crate) fn new(
        alloc: Global,
        tree: &'t Tree,
        tables: &'s Tables<'t>,
    ) -> Result<Unfolding<'s, 't>, Memory>
        requires rules { KeepsRules (tree_of tree.now) × IsOfForm (tree_of tree.now) }
        requires tables { AreTables (tree_of tree.now) tables.now }
        ensures { IfOk result (λ u. (u.tree ≡ tree.entry) × Stands u) }
    {
        let groups = Arc::new(alloc, copy_groups(alloc, &tree.groups)?)?;
        let mut entries = Vec::with_capacity(alloc, 1)?;
        entries.push(Carried::plain(alloc, Source::Input))?;
        let visit = Visit::new(alloc, &tables.tree, entries)?;
        Ok(Unfolding {
            alloc,
            tree,
            tables,
            groups,
            visit,
            outer: Vec::new(alloc),
            way: Vec::new(alloc),
            nodes: Vec::new(alloc),
            constants: Vec::new(alloc),
        })
    }

    /// The links that carry what is read, whose constants are new ones.
    fn links(&mut self, reads: &[Read]) -> Result<Vec<Link>, Memory>
        requires { All (IsRead self.old.nodes.items self.old.visit) reads.now }
        ensures { IfOk result (λ links. Links self.old reads.now links.items self.new) }
    {
        let mut links = Vec::with_capacity(self.alloc, reads.len())?;
        for read in reads {
            let carried = self.visit.carried(self.alloc, *read)?;
            links.push(carried.link(&mut self.constants)?)?;
        }
        Ok(links)
    }

    /// The typed kind of a node that is run.
    fn kind(&self, node: &Node) -> Result<Kind, Memory>
        requires fits { node_fits node.now ≡ true }
        requires run { kind_of_node node.now ≢ codes "group" }
        ensures { IfOk result (λ kind. (s : Scope) → map group_of (arc_value self.now.groups).items ≡ s.groups → written_as kind ≡ kind_in s node.now) }
    {
        let Some(kind) = kind_of(self.alloc, node, &self.groups)? else {
            unreachable!();
        };
        Ok(kind)
    }

    /// A node that is run becomes one of the graph.
    fn add(&mut self, number: usize, row: &'s Row<'t>, outputs: usize) -> Result<(), Memory>
        requires stands { Stands self.old }
        requires next { ComesNext self.old number row.now × (row.now.part ≡ part.Run outputs) }
        ensures { OnOk result (Goes self.old self.new) }
    {
        let path = path_to(self.alloc, &self.way, narrow(number)?)?;
        let kind = self.kind(row.node)?;
        let inputs = self.links(&row.reads)?;
        let made = Made::Node {
            number: self.nodes.len() as u64,
        };
        let outputs = narrow(outputs)?;
        self.nodes.push(GraphNode {
            path,
            kind,
            inputs,
            outputs,
        })?;
        self.visit.make(number, made);
        Ok(())
    }

    /// Goes into a group node, to the group with that number.
    fn enter(&mut self, number: usize, row: &'s Row<'t>, group: usize) -> Result<(), Memory>
        requires stands { Stands self.old }
        requires next { ComesNext self.old number row.now × (row.now.part ≡ part.Group group) }
        ensures { OnOk result (Goes self.old self.new) }
    {
        let entries = self.visit.all_carried(self.alloc, &row.reads)?;
        let tables = self.tables;
        let visit = Visit::new(self.alloc, &tables.groups[group], entries)?;
        self.way.push(PathStep {
            node: narrow(number)?,
            turn: None,
        })?;
        self.outer.push(mem::replace(&mut self.visit, visit))?;
        Ok(())
    }

    /// Goes out of a group node, where its list is done; says whether it is in one.
    fn leave(&mut self) -> Result<bool, Memory>
        requires stands { Stands self.old }
        requires done { length self.old.visit.table.now.order.items ≤ self.old.visit.next }
        ensures { IfOk result (Steps self.old self.new) }
    {
        let (Some(outer), Some(step)) = (self.outer.pop(), self.way.pop()) else {
            return Ok(false);
        };
        let table = self.visit.table;
        let outputs = self.visit.all_carried(self.alloc, &table.given)?;
        self.visit = outer;
        self.visit.make(step.node as usize, Made::Group { outputs });
        Ok(true)
    }

    /// Unfolds the node with that number, which comes next.
    fn unfold(&mut self, number: usize) -> Result<(), Memory>
        requires stands { Stands self.old }
        requires next { slice_get self.old.visit.table.now.order.items self.old.visit.next ≡ Some number }
        ensures { OnOk result (Goes self.old self.new) }
    {
        let table = self.visit.table;
        let row = &table.rows[number];
        match row.part {
            Part::Run { outputs } => self.add(number, row, outputs),
            Part::Group { number: group } => self.enter(number, row, group),
        }
    }

    /// Goes on by a node, or out of a group; says whether there was anything left to do.
    fn step(&mut self) -> Result<bool, Memory>
        requires { Stands self.old }
        ensures { IfOk result (Steps self.old self.new) }
    {
        let table = self.visit.table;
        if self.visit.next < table.order.len() {
            self.unfold(table.order[self.visit.next])?;
            return Ok(true);
        }
        self.leave()
    }

    /// Unfolds all that is left.
    pub(crate) fn finish(&mut self) -> Result<(), Memory>
        requires { Stands self.old }
        ensures { OnOk result ((self.new.tree ≡ self.old.tree) × Stands self.new × IsDone self.new) }
    {
        'steps: while self.step()? {}
        Ok(())
    }

    /// The links that carry what the tree gives out.
    pub(crate) fn roots(&mut self) -> Result<Vec<Link>, Memory>
        requires { Stands self.old × IsDone self.old }
        ensures { IfOk result (λ roots. (self.new.tree ≡ self.old.tree) × IsFound self.new roots.items) }
    {
        let table = self.visit.table;
        self.links(&table.given)
    }
}
