ghost use Rattle.std.specs.Prelude.{◌≡◌, ◌^◌, take, drop, IfOk, OnOk};
ghost use Rattle.gn_mask.specs.Segments.{elements, rest, start_of, IsAt, Rises};

use crate::segment::{Segment, append};
use gn_memory::Memory;
use std::alloc::Global;

/// How far segments are cut: up to a number, in the segment at an index.
#[derive(Clone, Copy)]
pub(crate) struct Cursor {
    pub(crate) index: usize,
    pub(crate) from: u32,
}

/// Where the segment at an index starts, or the last number of 32 bits behind the last segment.
fn start_at(segments: &[Segment], index: usize) -> u32
    ensures { result ≡ start_of (drop index segments.now) }
{
    match segments.get(index) {
        Some(segment) => segment.start,
        None => u32::MAX,
    }
}

/// Cuts the next part off, of this many elements, or of all that are left where they are fewer.
pub(crate) fn take_part(
    alloc: Global,
    segments: &[Segment],
    at: &mut Cursor,
    size: u32,
) -> Result<Vec<Segment>, Memory>
    requires rises { Rises 0 (2 ^ 32) segments.now }
    requires at { IsAt segments.now at.old.index at.old.from }
    ensures at { OnOk result (IsAt segments.now at.new.index at.new.from) }
    ensures rises { IfOk result (λ part. Rises 0 (2 ^ 32) part.items) }
    ensures elements { IfOk result (λ part. elements part.items ≡ take size (rest segments.now at.old.index at.old.from)) }
    ensures rest { OnOk result (rest segments.now at.new.index at.new.from ≡ drop size (rest segments.now at.old.index at.old.from)) }
{
    let mut part = Vec::new(alloc);
    let mut left = size;
    let mut from = at.from;
    let mut index = at.index;
    while index < segments.len() {
        let end = segments[index].end;
        let width = end - from;
        if left < width {
            append(&mut part, from, from + left)?;
            from += left;
            *at = Cursor { index, from };
            return Ok(part);
        }
        append(&mut part, from, end)?;
        left -= width;
        index += 1;
        from = start_at(segments, index);
    }
    *at = Cursor { index, from };
    Ok(part)
}
