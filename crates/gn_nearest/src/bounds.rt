ghost use Rattle.std.specs.Prelude.{◌≡◌, ◌<◌, ℕ, length};
ghost use Rattle.std.specs.Int.{int_max, int_min};
ghost use Rattle.std.specs.List.{All};
ghost use Rattle.gn_value.specs.Values.{by_component};
ghost use Rattle.gn_nearest.specs.Nearest.{distance};
ghost use Rattle.gn_nearest.specs.Boxes.{IsInside, bound};

use crate::candidate::{Candidate, Entry, distance};
use gn_value::V3;

/// A box round points, and the least of their indices.
#[derive(Clone, Copy)]
pub(crate) struct Bounds {
    pub(crate) low: V3,
    pub(crate) high: V3,
    pub(crate) least: u32,
}

impl Bounds {
    /// The box that has one point alone.
    fn of(entry: Entry) -> Bounds
        ensures { IsInside result entry }
    {
        Bounds {
            low: entry.point,
            high: entry.point,
            least: entry.index,
        }
    }

    /// The box made large enough for a point.
    fn with(self, entry: Entry) -> Bounds
        ensures here { IsInside result entry }
        ensures before { (e : _) → IsInside self e → IsInside result e }
    {
        Bounds {
            low: self.low.min(entry.point),
            high: self.high.max(entry.point),
            least: self.least.min(entry.index),
        }
    }

    /// The box round some entries.
    pub(crate) fn round(entries: &[Entry]) -> Bounds
        requires { 0 < length entries.now }
        ensures { All (IsInside result) entries.now }
    {
        let mut bounds = Bounds::of(entries[0]);
        for entry in entries {
            bounds = bounds.with(*entry);
        }
        bounds
    }

    /// What no point in the box comes before, as it is seen from a point.
    pub(crate) fn nearest(self, to: V3) -> Candidate
        ensures { result ≡ bound to self }
    {
        Candidate {
            distance: distance(to.max(self.low).min(self.high), to),
            index: self.least,
        }
    }

    /// The axis along which the box is widest.
    pub(crate) fn widest(self) -> Axis {
        let x = self.low.x.0.abs_diff(self.high.x.0);
        let y = self.low.y.0.abs_diff(self.high.y.0);
        let z = self.low.z.0.abs_diff(self.high.z.0);
        if x >= y && x >= z {
            Axis::X
        } else if y >= z {
            Axis::Y
        } else {
            Axis::Z
        }
    }
}

/// An axis of space.
#[derive(Clone, Copy)]
pub(crate) enum Axis {
    X,
    Y,
    Z,
}

impl Axis {
    /// The raw number of a point along the axis, and the index.
    pub(crate) fn key(self, entry: &Entry) -> (i64, u32) {
        match self {
            Axis::X => (entry.point.x.0, entry.index),
            Axis::Y => (entry.point.y.0, entry.index),
            Axis::Z => (entry.point.z.0, entry.index),
        }
    }
}
