ghost use Rattle.std.specs.Prelude.{◌≡◌, ◌<◌, ◌^◌, ◌-◌, ◌++◌, length, map, IfOk, OnOk};
ghost use Rattle.std.specs.List.{All, slice_get};
ghost use Rattle.std.specs.List.Sorted.{IsStrictlyIncreasing};
ghost use Rattle.gn_mask.specs.Numbers.{numbers, numbers_of, is_among, both, without, IsCut};
ghost use Rattle.gn_mask.specs.Segments.{elements, Rises};

use crate::combine::{common, difference, segments_of};
use crate::cut::{Cursor, take_part};
use crate::segment::{Segment, append, covers, start_of};
use gn_memory::Memory;
use std::alloc::Global;
use std::marker::Model;

/// A set of element numbers below 2^32 - 1.
#[derive(Drop)]
pub struct Mask {
    segments: Vec<Segment>,
}

impl Model for Mask {
    ghost use Rattle.std.specs.Prelude.{ℕ, List, ◌^◌};

    ghost Value = { List ℕ };

    ghost use Rattle.gn_mask.specs.Segments.{elements, Rises};

    ghost view = { λ mask. elements mask.segments.items };

    ghost invariant = { λ mask. Rises 0 (2 ^ 32) mask.segments.items };
}

/// How many numbers segments have.
fn count(segments: &[Segment]) -> u32
    requires { Rises 0 (2 ^ 32) segments.now }
    ensures { result ≡ length (elements segments.now) }
{
    let mut count = 0;
    for segment in segments {
        count += segment.end - segment.start;
    }
    count
}

/// The number at a position among those of segments.
fn find(segments: &[Segment], position: u32) -> Option<u32>
    requires { Rises 0 (2 ^ 32) segments.now }
    ensures { result ≡ slice_get (elements segments.now) position }
{
    let mut left = position;
    for segment in segments {
        let width = segment.end - segment.start;
        if left < width {
            return Some(segment.start + left);
        }
        left -= width;
    }
    None
}

/// Puts the numbers of a segment behind others.
fn put(list: &mut Vec<u32>, segment: &Segment) -> Result<(), Memory>
    ensures { OnOk result (list.new.items ≡ list.old.items ++ numbers segment.now.start segment.now.end) }
{
    for number in segment.start..segment.end {
        list.push(number)?;
    }
    Ok(())
}

/// The numbers of segments.
fn listed(alloc: Global, segments: &[Segment]) -> Result<Vec<u32>, Memory>
    requires { Rises 0 (2 ^ 32) segments.now }
    ensures { IfOk result (λ numbers. numbers.items ≡ elements segments.now) }
{
    let mut numbers = Vec::new(alloc);
    numbers.reserve(count(segments) as usize)?;
    for segment in segments {
        put(&mut numbers, segment)?;
    }
    Ok(numbers)
}

/// Cuts segments into parts of a size, of which the last may be smaller.
fn cut(alloc: Global, segments: &[Segment], size: u32) -> Result<Vec<Mask>, Memory>
    requires rises { Rises 0 (2 ^ 32) segments.now }
    requires size { 0 < size }
    ensures { IfOk result (λ parts. IsCut size (elements segments.now) parts.items) }
{
    let mut parts = Vec::new(alloc);
    let mut left = count(segments);
    let mut at = Cursor {
        index: 0,
        from: start_of(segments),
    };
    while left > 0 {
        let segments = take_part(alloc, segments, &mut at, size)?;
        parts.push(Mask { segments })?;
        left = left.saturating_sub(size);
    }
    Ok(parts)
}

impl Mask {
    /// The numbers from 0 up to a count, which is left out.
    pub fn all(alloc: Global, count: u32) -> Result<Mask, Memory>
        ensures { IfOk result (λ mask. mask ≡ numbers 0 count) }
    {
        let mut segments = Vec::new(alloc);
        append(&mut segments, 0, count)?;
        Ok(Mask { segments })
    }

    /// The numbers of the elements whose truth is true.
    pub fn from_truths(alloc: Global, truths: &[bool]) -> Result<Mask, Memory>
        requires { length truths.now < 2 ^ 32 }
        ensures { IfOk result (λ mask. mask ≡ numbers_of truths.now) }
    {
        let segments = segments_of(alloc, truths)?;
        Ok(Mask { segments })
    }

    /// The numbers that are in both masks.
    pub fn and(&self, alloc: Global, other: &Mask) -> Result<Mask, Memory>
        ensures { IfOk result (λ mask. mask ≡ both self.now other.now) }
    {
        let segments = common(alloc, &self.segments, &other.segments)?;
        Ok(Mask { segments })
    }

    /// The numbers of this mask that the other hasn't.
    pub fn minus(&self, alloc: Global, other: &Mask) -> Result<Mask, Memory>
        ensures { IfOk result (λ mask. mask ≡ without self.now other.now) }
    {
        let segments = difference(alloc, &self.segments, &other.segments)?;
        Ok(Mask { segments })
    }

    /// Parts that follow each other, each of `size` numbers but the last, which may have fewer.
    pub fn chunks(&self, alloc: Global, size: u32) -> Result<Vec<Mask>, Memory>
        requires { 0 < size }
        ensures { IfOk result (λ parts. IsCut size self.now parts.items) }
    {
        cut(alloc, &self.segments, size)
    }

    /// All numbers, as a list.
    pub fn to_vec(&self, alloc: Global) -> Result<Vec<u32>, Memory>
        ensures { IfOk result (λ numbers. numbers.items ≡ self.now) }
    {
        listed(alloc, &self.segments)
    }

    /// The number of numbers. They rise, and are below 2^32 - 1.
    pub fn len(&self) -> u32
        ensures length { result ≡ length self.now }
        ensures rising { IsStrictlyIncreasing self.now }
        ensures below { All (λ n. n < 2 ^ 32 - 1) self.now }
    {
        count(&self.segments)
    }

    /// Whether an element's number is in the mask.
    pub fn has(&self, element: u32) -> bool
        ensures { result ≡ is_among self.now element }
    {
        covers(&self.segments, element)
    }

    /// The number at a position of the list, counted from 0, or `None` past the end.
    pub fn nth(&self, position: u32) -> Option<u32>
        ensures { result ≡ slice_get self.now position }
    {
        find(&self.segments, position)
    }
}
