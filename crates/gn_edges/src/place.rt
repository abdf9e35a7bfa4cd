ghost use Rattle.std.specs.Prelude.{◌≡◌, ◌≤◌, ℕ, length, slice_index};
ghost use Rattle.gn_edges.specs.Kept.{walk};

/// How many edges of a list are looked at.
const LISTED: u32 = 8;

/// Where a search along the list of a vertex ends.
#[derive(Clone, Copy)]
pub(crate) enum Place {
    /// At the edge of this number.
    At(u32),
    /// At the end of the list.
    Nowhere,
    /// At the last edge that is looked at.
    Beyond,
}

/// Looks for an edge along a list. A link is 0 at the end of a list, and otherwise one more than
/// the number of an edge.
#[inline(always)]
pub(crate) fn find_listed(pairs: &[(u32, u32)], next: &[u32], first: u32, edge: (u32, u32)) -> Place
    requires paired { length next.now ≡ length pairs.now }
    requires links { (k : ℕ) → slice_index next.now k ≤ length pairs.now }
    requires link { first ≤ length pairs.now }
    ensures { result ≡ walk pairs.now next.now edge 8 first }
{
    let mut link = first;
    let mut left = LISTED;
    while left > 0 {
        if link == 0 {
            return Place::Nowhere;
        }
        let number = link - 1;
        if edge == pairs[number as usize] {
            return Place::At(number);
        }
        link = next[number as usize];
        left -= 1;
    }
    Place::Beyond
}
