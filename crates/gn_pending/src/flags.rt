ghost use Rattle.std.specs.Prelude.{◌≡◌, ◌≤◌, false, length, replicate, IfOk, None, Decides, slice_index_or};
ghost use Rattle.gn_pending.specs.Flags.{AreFlagged};

use gn_memory::Memory;
use std::alloc::Global;

/// The flag of a number; past the last flag it isn't set.
pub(crate) fn flag_at(flags: &[bool], number: usize) -> bool
    ensures { result ≡ slice_index_or flags.now number false }
{
    flags.get(number).copied().unwrap_or(false)
}

/// Whether the flags of all these numbers are set. A number past the flags has none that is set.
pub fn are_flagged(flags: &[bool], numbers: &[usize]) -> bool
    ensures { Decides result (AreFlagged flags.now numbers.now) }
{
    for number in numbers {
        if !flag_at(flags, *number) {
            return false;
        }
    }
    true
}

/// This number of places with nothing in them.
pub fn empty_slots<T: Drop>(alloc: Global, count: usize) -> Result<Vec<Option<T>>, Memory>
    ensures { IfOk result (λ slots. slots.items ≡ replicate count None) }
{
    let mut slots = Vec::with_capacity(alloc, count)?;
    for _at in 0..count {
        slots.push(None)?;
    }
    Ok(slots)
}
