ghost use Rattle.std.specs.Prelude.{◌≡◌, ℕ, ◌+◌, ◌<◌, ◌≤◌, ◌^◌, ◌&&◌, not, length, IfOk};
ghost use Rattle.gn_mask.specs.Numbers.{numbers_of};
ghost use Rattle.gn_mask.specs.Segments.{elements, covers, Rises};

use crate::segment::{Segment, append, start_of};
use gn_memory::Memory;
use std::alloc::Global;

/// The segments of the numbers at which truths are true.
pub(crate) fn segments_of(alloc: Global, truths: &[bool]) -> Result<Vec<Segment>, Memory>
    requires { length truths.now < 2 ^ 32 }
    ensures rises { IfOk result (λ segments. Rises 0 (2 ^ 32) segments.items) }
    ensures elements { IfOk result (λ segments. elements segments.items ≡ numbers_of truths.now) }
{
    let mut segments = Vec::new(alloc);
    // From this number on all truths are true that were looked at.
    let mut from: u32 = 0;
    for (number, truth) in truths.iter().enumerate() {
        if *truth {
            continue;
        }
        append(&mut segments, from, number as u32)?;
        from = number as u32 + 1;
    }
    append(&mut segments, from, truths.len() as u32)?;
    Ok(segments)
}

/// The numbers that are in both.
pub(crate) fn common(alloc: Global, a: &[Segment], b: &[Segment]) -> Result<Vec<Segment>, Memory>
    requires a { Rises 0 (2 ^ 32) a.now }
    requires b { Rises 0 (2 ^ 32) b.now }
    ensures rises { IfOk result (λ both. Rises 0 (2 ^ 32) both.items) }
    ensures covers { IfOk result (λ both. (n : ℕ) → covers both.items n ≡ (covers a.now n && covers b.now n)) }
{
    let mut both = Vec::new(alloc);
    let mut a_left = a;
    let mut b_left = b;
    while let [x, after_x @ ..] = a_left {
        let [y, after_y @ ..] = b_left else {
            return Ok(both);
        };
        append(&mut both, x.start.max(y.start), x.end.min(y.end))?;
        if x.end < y.end {
            a_left = after_x;
        } else {
            b_left = after_y;
        }
    }
    Ok(both)
}

/// The numbers of the first that the second hasn't.
pub(crate) fn difference(
    alloc: Global,
    a: &[Segment],
    b: &[Segment],
) -> Result<Vec<Segment>, Memory>
    requires a { Rises 0 (2 ^ 32) a.now }
    requires b { Rises 0 (2 ^ 32) b.now }
    ensures rises { IfOk result (λ rest. Rises 0 (2 ^ 32) rest.items) }
    ensures covers { IfOk result (λ rest. (n : ℕ) → covers rest.items n ≡ (covers a.now n && not (covers b.now n))) }
{
    let mut rest = Vec::new(alloc);
    let mut a_left = a;
    let mut b_left = b;
    // Below this number nothing is left.
    let mut from: u32 = 0;
    while let [x, after_x @ ..] = a_left {
        append(&mut rest, from.max(x.start), x.end.min(start_of(b_left)))?;
        match b_left {
            [y, after_y @ ..] if y.end < x.end => {
                from = from.max(y.end);
                b_left = after_y;
            }
            _ => a_left = after_x,
        }
    }
    Ok(rest)
}
