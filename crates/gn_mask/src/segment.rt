ghost use Rattle.std.specs.Prelude.{◌≡◌, ◌+◌, ◌≤◌, ◌++◌, max, OnOk};
ghost use Rattle.gn_mask.specs.Numbers.{numbers};
ghost use Rattle.gn_mask.specs.Segments.{covers, elements, start_of, Rises};

use gn_memory::Memory;

/// The numbers from `start` up to `end`, which is left out.
#[derive(Clone, Copy)]
pub(crate) struct Segment {
    pub(crate) start: u32,
    pub(crate) end: u32,
}

/// Where the first segment starts, or the last number of 32 bits for no segments.
pub(crate) fn start_of(segments: &[Segment]) -> u32
    ensures { result ≡ start_of segments.now }
{
    match segments {
        [first, ..] => first.start,
        [] => u32::MAX,
    }
}

/// Whether a number is in one of the segments.
pub(crate) fn covers(segments: &[Segment], number: u32) -> bool
    ensures { result ≡ covers segments.now number }
{
    segments
        .iter()
        .any(|segment| segment.start <= number && number < segment.end)
}

/// Takes off the last segment if it ends at a number, and returns where it starts. Otherwise returns
/// the number.
fn reopen(segments: &mut Vec<Segment>, end: u32) -> u32
    requires { Rises 0 (end + 1) segments.old.items }
    ensures rises { Rises 0 result segments.new.items }
    ensures start { result ≤ end }
    ensures elements { elements segments.new.items ++ numbers result end ≡ elements segments.old.items }
{
    let Some(last) = segments.last() else {
        return end;
    };
    if last.end != end {
        return end;
    }
    let start = last.start;
    segments.pop();
    start
}

/// Puts the numbers from one up to another behind those of segments. Want of memory may take the last
/// segment away.
pub(crate) fn append(segments: &mut Vec<Segment>, start: u32, end: u32) -> Result<(), Memory>
    requires { Rises 0 (start + 1) segments.old.items }
    ensures rises { OnOk result (Rises 0 (max start end + 1) segments.new.items) }
    ensures elements { OnOk result (elements segments.new.items ≡ elements segments.old.items ++ numbers start end) }
{
    if end <= start {
        return Ok(());
    }
    let start = reopen(segments, start);
    segments.push(Segment { start, end })?;
    Ok(())
}
