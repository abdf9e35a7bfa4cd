ghost use Rattle.std.specs.Prelude.{◌≡◌, ◌≤◌, ◌^◌, nat_lt, if◌then◌else◌};
ghost use Rattle.gn_value.specs.Arithmetic.{square};
ghost use Rattle.gn_nearest.specs.Nearest.{distance};
ghost use Rattle.gn_nearest.specs.Boxes.{candidate, rank};

use gn_value::V3;

/// A point with its index in the list that a tree is made of.
#[derive(Clone, Copy)]
pub(crate) struct Entry {
    pub(crate) point: V3,
    pub(crate) index: u32,
}

/// A squared distance and the index of a point that may be there.
#[derive(Clone, Copy)]
pub(crate) struct Candidate {
    pub(crate) distance: u128,
    pub(crate) index: u32,
}

/// The square of a raw number.
fn square(raw: i64) -> u128
    ensures value { result ≡ square raw }
    ensures bound { result ≤ 2 ^ 126 }
{
    let size = raw.unsigned_abs() as u128;
    size * size
}

/// The squared distance of a point from another.
#[tactic(auto, unfolding(crate::specs::Nearest::distance))]
pub(crate) fn distance(point: V3, to: V3) -> u128
    ensures { result ≡ distance point to }
{
    let way = point.sub(to);
    square(way.x.0) + square(way.y.0) + square(way.z.0)
}

impl Candidate {
    /// An entry as it is seen from a point.
    pub(crate) fn of(entry: Entry, to: V3) -> Candidate
        ensures { result ≡ candidate to entry }
    {
        Candidate {
            distance: distance(entry.point, to),
            index: entry.index,
        }
    }

    /// Whether this one is nearer, or as near with a lesser index.
    pub(crate) fn is_before(self, other: Candidate) -> bool
        ensures { result ≡ nat_lt (rank self) (rank other) }
    {
        self.distance < other.distance
            || self.distance == other.distance && self.index < other.index
    }

    /// The one of two that comes before the other, this one where neither does.
    pub(crate) fn first(self, other: Candidate) -> Candidate
        ensures { result ≡ (if nat_lt (rank other) (rank self) then other else self) }
    {
        if other.is_before(self) { other } else { self }
    }
}
