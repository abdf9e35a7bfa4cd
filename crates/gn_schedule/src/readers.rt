// Which steps are read, and by which step last.
ghost use Rattle.std.specs.Prelude.{ℕ, List, ◌≡◌, ◌<◌, ◌≤◌, ◌+◌, All, length, max, slice_index, IfOk};
ghost use Rattle.gn_field.specs.Steps.{AreBelow, LeadBack, keys, key_of};
ghost use Rattle.gn_schedule.specs.Plans.{operands, AllReadBy, NotesOnly, Marks, IsReading, AreReaders};

use gn_field::FieldStep;
use gn_memory::Memory;
use std::alloc::Global;

/// The later of two readers.
fn later(reader: u32, other: u32) -> u32
    ensures { result ≡ max reader other }
{
    if reader < other { other } else { reader }
}

/// Notes that a reader reads these steps, unless a later one is noted.
fn mark(readers: &mut Vec<u32>, args: &[u32], reader: u32)
    requires { All (λ a. a < length readers.old.items) args.now }
    ensures { Marks reader args.now readers.old.items readers.new.items }
{
    for arg in args {
        let at = *arg as usize;
        let last = later(readers[at], reader);
        readers[at] = last;
    }
}

/// Notes that a reader reads the operands of a step.
#[tactic(auto, using(gn_field::proofs::Grown::all_below, crate::proofs::Reading::marks_none))]
fn mark_operands<S>(readers: &mut Vec<u32>, step: &FieldStep<S>, reader: u32)
    requires { AreBelow (length readers.old.items) (operands (key_of step.now)) }
    ensures { Marks reader (operands (key_of step.now)) readers.old.items readers.new.items }
{
    match step {
        FieldStep::Apply { args, .. } => mark(readers, args.as_slice(), reader),
        FieldStep::Sampled { arg, .. } => mark(readers, &[*arg], reader),
        FieldStep::Constant { .. } | FieldStep::Input { .. } | FieldStep::Elsewhere { .. } => {}
    }
}

/// Notes what a step reads, if it is read itself.
fn mark_step<S>(readers: &mut Vec<u32>, steps: &[FieldStep<S>], at: usize)
    requires back { LeadBack (keys steps.now) }
    requires within { at < length steps.now }
    requires few { length steps.now ≤ 4096 }
    requires long { length readers.old.items ≡ length steps.now }
    ensures { (roots : List ℕ) → IsReading steps.now roots (at + 1) readers.old.items → IsReading steps.now roots at readers.new.items }
{
    if readers[at] == 0 {
        return;
    }
    mark_operands(readers, &steps[at], at as u32 + 1);
}

/// A zero for each step: no step is noted.
fn none_noted(alloc: Global, count: usize) -> Result<Vec<u32>, Memory>
    ensures len { IfOk result (λ readers. length readers.items ≡ count) }
    ensures none { IfOk result (λ readers. (k : ℕ) → slice_index readers.items k ≡ 0) }
{
    let readers = vec![in alloc; 0u32; count]?;
    Ok(readers)
}

/// Of each step one more than the number of the last step that reads it at the same elements, or 0
/// where none does. The roots are read behind all steps.
pub(crate) fn last_readers<S>(
    alloc: Global,
    steps: &[FieldStep<S>],
    roots: &[u32],
) -> Result<Vec<u32>, Memory>
    requires back { LeadBack (keys steps.now) }
    requires within { AreBelow (length steps.now) roots.now }
    requires few { length steps.now ≤ 4096 }
    ensures readers { IfOk result (λ readers. AreReaders steps.now readers.items) }
    ensures roots { IfOk result (λ readers. AllReadBy (length steps.now + 1) readers.items roots.now) }
    ensures only { IfOk result (λ readers. NotesOnly steps.now roots.now readers.items) }
{
    let count = steps.len();
    let mut readers = none_noted(alloc, count)?;
    mark(&mut readers, roots, count as u32 + 1);
    let mut at = count;
    while at > 0 {
        at -= 1;
        mark_step(&mut readers, steps, at);
    }
    Ok(readers)
}
