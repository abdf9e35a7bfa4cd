use crate::ranks::number_of;
use crate::targets::targets_of;
use gn_memory::Memory;
use std::alloc::Global;

/// A node on the way, with the number under which it was met and the position of its next edge.
#[derive(Clone, Copy)]
struct Visit {
    node: usize,
    number: usize,
    next: usize,
}

/// Tarjan's search for strongly connected components, as far as it has come. Nothing is promised of
/// what it finds: `Graph::new` looks for itself whether an edge leads to a higher number.
#[derive(Drop)]
struct ComponentSearch {
    /// How many nodes were met.
    met: usize,
    /// For each node that was met, the least number of a node to which it is known to lead; else 0.
    lowest: Vec<usize>,
    /// The nodes that were met and are in no component yet.
    open: Vec<usize>,
    /// The nodes from the first one to that where the search is.
    way: Vec<Visit>,
    /// How many components there are.
    count: usize,
    /// For each node the number of its component, once it is in one; else 0.
    components: Vec<usize>,
}

/// Gives a node a number, if it is there.
fn set_number(numbers: &mut Vec<usize>, node: usize, number: usize) {
    if node < numbers.len() {
        numbers[node] = number;
    }
}

impl ComponentSearch {
    fn new(alloc: Global, nodes: usize) -> Result<ComponentSearch, Memory> {
        let lowest = vec![in alloc; 0; nodes]?;
        let components = vec![in alloc; 0; nodes]?;
        Ok(ComponentSearch {
            met: 0,
            lowest,
            open: Vec::new(alloc),
            way: Vec::new(alloc),
            count: 0,
            components,
        })
    }

    /// Puts a node that was not met before at the end of the way.
    fn meet(&mut self, node: usize) -> Result<(), Memory> {
        self.met = self.met.saturating_add(1);
        set_number(&mut self.lowest, node, self.met);
        self.open.push(node)?;
        self.way.push(Visit {
            node,
            number: self.met,
            next: 0,
        })?;
        Ok(())
    }

    /// Notes that a node leads to the one that was met under that number.
    fn lower(&mut self, node: usize, number: usize) {
        let lowest = number.min(number_of(&self.lowest, node));
        set_number(&mut self.lowest, node, lowest);
    }

    /// Goes along an edge to a target that is not met yet, or notes how far back it leads. A target
    /// that is in a component already leads to no node on the way.
    fn go_along(&mut self, node: usize, target: usize) -> Result<(), Memory> {
        if self.lowest.len() <= target {
            return Ok(());
        }
        let lowest = self.lowest[target];
        if lowest == 0 {
            return self.meet(target);
        }
        if number_of(&self.components, target) == 0 {
            self.lower(node, lowest);
        }
        Ok(())
    }

    /// Makes a component of this node and of those that were met after it and are in none yet.
    fn close(&mut self, node: usize) {
        self.count = self.count.saturating_add(1);
        for _ in 0..self.open.len() {
            let Some(member) = self.open.pop() else {
                return;
            };
            set_number(&mut self.components, member, self.count);
            if member == node {
                return;
            }
        }
    }

    /// Leaves a node all of whose edges were gone along. If it leads to no node that was met
    /// earlier, it is the first one of its component.
    fn end(&mut self, visit: Visit) {
        let lowest = number_of(&self.lowest, visit.node);
        if lowest == visit.number {
            self.close(visit.node);
        }
        if let Some(before) = self.way.last() {
            let node = before.node;
            self.lower(node, lowest);
        }
    }

    /// Goes along the next edge of the last node on the way, or leaves it.
    fn step(&mut self, targets: &[Vec<usize>], visit: Visit) -> Result<(), Memory> {
        match targets_of(targets, visit.node).get(visit.next) {
            Some(target) => {
                self.way.push(Visit {
                    node: visit.node,
                    number: visit.number,
                    next: visit.next.saturating_add(1),
                })?;
                self.go_along(visit.node, *target)
            }
            None => {
                self.end(visit);
                Ok(())
            }
        }
    }

    /// Goes from a node to all that it leads to, unless it was met before.
    fn search_from(
        &mut self,
        targets: &[Vec<usize>],
        node: usize,
        steps: usize,
    ) -> Result<(), Memory> {
        if number_of(&self.lowest, node) != 0 {
            return Ok(());
        }
        self.meet(node)?;
        for _ in 0..steps {
            let Some(visit) = self.way.pop() else {
                return Ok(());
            };
            self.step(targets, visit)?;
        }
        Ok(())
    }
}

/// How many steps it takes at most to go along each edge and to end each node.
fn most_steps(targets: &[Vec<usize>]) -> usize {
    let mut steps: usize = 1;
    for list in targets {
        steps = steps.saturating_add(list.len().saturating_add(1));
    }
    steps
}

/// For each node the number of its strongly connected component, from 1, in the order in which they
/// end, so that an edge to another component leads to a lower number.
pub(crate) fn components(alloc: Global, targets: &[Vec<usize>]) -> Result<Vec<usize>, Memory> {
    let mut search = ComponentSearch::new(alloc, targets.len())?;
    let steps = most_steps(targets);
    for node in 0..targets.len() {
        search.search_from(targets, node, steps)?;
    }
    let ComponentSearch { components, .. } = search;
    Ok(components)
}
