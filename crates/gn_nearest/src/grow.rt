ghost use Rattle.std.specs.Prelude.{◌≡◌, ◌+◌, ◌<◌, ◌≤◌, ◌^◌, length, IfOk, OnOk};
ghost use Rattle.gn_nearest.specs.Boxes.{AreHalves, IsGrown, IsWhole};

use crate::bounds::{Axis, Bounds};
use crate::candidate::Entry;
use gn_memory::Memory;

/// How many entries a part has that is not halved, at most.
const LEAF: usize = 8;

/// The entries from one position up to another, with the box round them.
#[derive(Clone, Copy)]
pub(crate) struct Part {
    pub(crate) bounds: Bounds,
    pub(crate) from: u32,
    pub(crate) to: u32,
    pub(crate) halves: Option<Halves>,
}

/// The numbers of two parts, between which one entry lies.
#[derive(Clone, Copy)]
pub(crate) struct Halves {
    pub(crate) front: u32,
    pub(crate) back: u32,
}

/// Puts entries behind those that are placed, and their parts behind others, the whole last.
#[cycle(grow)]
pub(crate) fn grow(
    entries: &mut [Entry],
    placed: &mut Vec<Entry>,
    parts: &mut Vec<Part>,
) -> Result<(), Memory>
    requires some { 0 < length entries.old }
    requires room { length placed.old.items + length entries.old < 2 ^ 32 }
    requires few { length parts.old.items + length entries.old < 2 ^ 32 }
    ensures grown { OnOk result (IsGrown placed.old.items entries.old placed.new.items parts.old.items parts.new.items) }
    ensures more { OnOk result (length parts.old.items < length parts.new.items) }
    ensures count { OnOk result (length parts.new.items ≤ length parts.old.items + length entries.old) }
    ensures whole { OnOk result (IsWhole (length placed.old.items) (length placed.new.items) parts.new.items) }
{
    let bounds = Bounds::round(entries);
    let from = placed.len() as u32;
    let to = from + entries.len() as u32;
    if entries.len() <= LEAF {
        placed.extend_from_slice(entries)?;
        parts.push(Part {
            bounds,
            from,
            to,
            halves: None,
        })?;
        return Ok(());
    }
    let halves = Some(grow_halves(entries, bounds.widest(), placed, parts)?);
    parts.push(Part {
        bounds,
        from,
        to,
        halves,
    })?;
    Ok(())
}

/// Halves entries along an axis, and puts both halves and the entry between them behind those that are placed.
#[cycle(grow)]
fn grow_halves(
    entries: &mut [Entry],
    axis: Axis,
    placed: &mut Vec<Entry>,
    parts: &mut Vec<Part>,
) -> Result<Halves, Memory>
    requires some { 2 < length entries.old }
    requires room { length placed.old.items + length entries.old < 2 ^ 32 }
    requires few { length parts.old.items + length entries.old < 2 ^ 32 }
    ensures grown { OnOk result (IsGrown placed.old.items entries.old placed.new.items parts.old.items parts.new.items) }
    ensures count { OnOk result (length parts.new.items < length parts.old.items + length entries.old) }
    ensures halves { IfOk result (λ halves. AreHalves parts.new.items (length parts.new.items) (length placed.old.items) (length placed.new.items) halves) }
{
    let half = entries.len() / 2;
    let (front, middle, back) = entries.select_nth_unstable_by_key(half, |entry| axis.key(entry));
    grow(front, placed, parts)?;
    let number = parts.len() as u32 - 1;
    placed.push(*middle)?;
    grow(back, placed, parts)?;
    Ok(Halves {
        front: number,
        back: parts.len() as u32 - 1,
    })
}
