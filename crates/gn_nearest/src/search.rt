ghost use Rattle.std.specs.Prelude.{◌≡◌, ◌<◌, ◌≤◌, length};
ghost use Rattle.gn_nearest.specs.Boxes.{AreBoxes, AreListed, IsFirst, IsOf, IsTree, part_at, points_of, rank};
ghost use Rattle.gn_nearest.specs.Nearest.{IsNearest};

use crate::candidate::{Candidate, Entry};
use crate::grow::Part;
use gn_value::V3;

/// The first candidate among one and the entries of a part.
fn scan(entries: &[Entry], part: Part, to: V3, best: Candidate) -> Candidate
    requires rises { part.from ≤ part.to }
    requires within { part.to ≤ length entries.now }
    requires listed { AreListed entries.now }
    requires best { IsOf (points_of entries.now) to best }
    ensures of { IsOf (points_of entries.now) to result }
    ensures kept { rank result ≤ rank best }
    ensures first { IsFirst entries.now part to result }
{
    let mut best = best;
    for position in part.from..part.to {
        best = best.first(Candidate::of(entries[position as usize], to));
    }
    best
}

/// The first candidate among one and the entries of a part, none of which comes before `bound`.
fn descend(
    entries: &[Entry],
    parts: &[Part],
    number: u32,
    to: V3,
    bound: Candidate,
    best: Candidate,
) -> Candidate
    requires number { number < length parts.now }
    requires boxes { AreBoxes entries.now 0 parts.now }
    requires listed { AreListed entries.now }
    requires bound { IsFirst entries.now (part_at parts.now number) to bound }
    requires best { IsOf (points_of entries.now) to best }
    ensures of { IsOf (points_of entries.now) to result }
    ensures kept { rank result ≤ rank best }
    ensures first { IsFirst entries.now (part_at parts.now number) to result }
{
    if !bound.is_before(best) {
        return best;
    }
    let part = parts[number as usize];
    let Some(halves) = part.halves else {
        return scan(entries, part, to, best);
    };
    let front = parts[halves.front as usize];
    let back = parts[halves.back as usize];
    let best = best.first(Candidate::of(entries[front.to as usize], to));
    let front = front.bounds.nearest(to);
    let back = back.bounds.nearest(to);
    if back.is_before(front) {
        let best = descend(entries, parts, halves.back, to, back, best);
        descend(entries, parts, halves.front, to, front, best)
    } else {
        let best = descend(entries, parts, halves.front, to, front, best);
        descend(entries, parts, halves.back, to, back, best)
    }
}

/// The index of the nearest of some points.
pub(crate) fn nearest(entries: &[Entry], parts: &[Part], to: V3) -> u32
    requires tree { IsTree entries.now parts.now }
    requires some { 0 < length entries.now }
    ensures { IsNearest (points_of entries.now) to result }
{
    let root = parts.len() - 1;
    let bound = parts[root].bounds.nearest(to);
    let best = Candidate::of(entries[0], to);
    descend(entries, parts, root as u32, to, bound, best).index
}
