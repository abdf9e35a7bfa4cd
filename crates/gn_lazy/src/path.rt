ghost use Rattle.std.specs.Prelude.{◌≡◌, ◌++◌, length, map, IfOk};
ghost use Rattle.gn_lazy.specs.Paths.{path_text, step_text, stroke};

use gn_memory::Memory;
use itoa::Buffer;
use std::alloc::Global;

/// One step of a path: a node by its position in the list of nodes that it is in and, where the step
/// leads into a zone, the turn of the zone.
#[derive(Clone, Copy, Debug, PartialEq, Eq, PartialOrd, Ord, Hash)]
pub struct PathStep {
    /// The node's position, from 0.
    pub node: u32,
    /// The turn's number, from 0.
    pub turn: Option<u32>,
}

/// The way to a node: the group nodes and the turns of zones that it is in, from the outside, and at
/// last the node itself.
///
/// Paths are ordered by their steps from the left, a path before those that go on from it.
#[derive(Debug, PartialEq, Eq, PartialOrd, Ord, Hash, Drop)]
pub struct Path {
    /// The steps, from the outside.
    pub steps: Vec<PathStep>,
}

impl Path {
    /// The path as a text: the ids of its steps joined by `/`, and behind a zone's id `#` and the
    /// number of the turn, as in `r#3/add`.
    ///
    /// Condition: `ids` has the id of each step's node.
    pub fn text(&self, alloc: Global, ids: &[&str]) -> Result<Vec<u8>, Memory>
        requires { length ids.now ≡ length self.now.steps.items }
        ensures { IfOk result (λ text. text.items ≡ path_text (map (λ id. id.now) ids.now) self.now.steps.items) }
    {
        let mut text = Vec::new(alloc);
        for (at, step) in self.steps.iter().enumerate() {
            write_step(&mut text, at, ids[at], *step)?;
        }
        Ok(text)
    }
}

// Puts the step with this number behind a text: a stroke behind the steps before it, the id, and the
// turn behind a `#`.
fn write_step(text: &mut Vec<u8>, at: usize, id: &str, step: PathStep) -> Result<(), Memory>
    ensures { IfOk result (λ _. text.new.items ≡ text.old.items ++ stroke at ++ step_text id.now step) }
{
    if at != 0 {
        text.push(b'/')?;
    }
    text.extend_from_slice(id.as_bytes())?;
    let Some(turn) = step.turn else {
        return Ok(());
    };
    let mut buffer = Buffer::new();
    text.push(b'#')?;
    text.extend_from_slice(buffer.format(turn).as_bytes())?;
    Ok(())
}
