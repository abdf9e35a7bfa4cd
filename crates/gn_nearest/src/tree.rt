ghost use Rattle.std.specs.Prelude.{◌≡◌, ◌<◌, ◌^◌, [], length, map, IfOk, MatchOption};
ghost use Rattle.std.specs.List.{range_with_len};
ghost use Rattle.gn_nearest.specs.Nearest.{IsNearest};
ghost use Rattle.gn_nearest.specs.Boxes.{entry_at};

use crate::candidate::Entry;
use crate::grow::{Part, grow};
use crate::search::nearest;
use gn_memory::Memory;
use gn_value::V3;
use std::alloc::Global;
use std::marker::Model;

/// Points in a tree of boxes.
#[derive(Drop)]
pub struct BoxTree {
    entries: Vec<Entry>,
    parts: Vec<Part>,
}

impl Model for BoxTree {
    ghost use Rattle.std.specs.Prelude.{List};
    ghost use Rattle.gn_value.specs.declared.vector.V3.{V3};

    ghost Value = { List V3 };

    ghost use Rattle.gn_nearest.specs.Boxes.{IsTree, points_of};

    ghost view = { λ tree. points_of tree.entries.items };

    ghost invariant = { λ tree. IsTree tree.entries.items tree.parts.items };
}

/// Points with their indices.
fn listed(alloc: Global, points: &[V3]) -> Result<Vec<Entry>, Memory>
    requires { length points.now < 2 ^ 32 }
    ensures { IfOk result (λ entries. entries.items ≡ map (entry_at points.now) (range_with_len 0 (length points.now))) }
{
    let mut entries = Vec::new(alloc);
    entries.reserve(points.len())?;
    for (index, point) in points.iter().enumerate() {
        entries.push(Entry {
            point: *point,
            index: index as u32,
        })?;
    }
    Ok(entries)
}

impl BoxTree {
    /// The tree of a list of points.
    pub fn new(alloc: Global, points: &[V3]) -> Result<BoxTree, Memory>
        requires { length points.now < 2 ^ 32 }
        ensures { IfOk result (λ tree. tree ≡ points.now) }
    {
        let mut entries = Vec::new(alloc);
        let mut parts = Vec::new(alloc);
        if points.is_empty() {
            return Ok(BoxTree { entries, parts });
        }
        entries.reserve(points.len())?;
        let mut list = listed(alloc, points)?;
        grow(&mut list, &mut entries, &mut parts)?;
        Ok(BoxTree { entries, parts })
    }

    /// The index of the nearest point, the least of those that are as near, or `None` for no points.
    pub fn nearest(&self, point: V3) -> Option<u32>
        ensures { MatchOption result (self.now ≡ []) (λ index. IsNearest self.now point index) }
    {
        if self.entries.is_empty() {
            return None;
        }
        Some(nearest(&self.entries, &self.parts, point))
    }
}
