// The values of a plan's steps at some elements.
ghost use Rattle.std.specs.Prelude.{◌≡◌, ℕ, List, ◌<◌, ◌+◌, All, Some, length, map, take, slice_get, slice_set, IfOk};
ghost use Rattle.gn_field.specs.Steps.{named, built};
ghost use Rattle.gn_schedule.specs.Plans.{held, Hold, AreInstructions};
ghost use Rattle.gn_slots.specs.Registers.{AllGive, AreCopies, AreCovered, AreSlots, IsReady, IsRun};

use crate::execute::execute;
use crate::whole::Whole;
use gn_field::{Context, FieldStep, Source};
use gn_fill::{copied, zeros};
use gn_memory::Memory;
use gn_schedule::Plan;
use gn_value::ValueKind;
use gn_value::op::Register;
use std::alloc::Global;
use std::mem;

/// Registers of zeros, one of each kind.
fn slots(alloc: Global, kinds: &[ValueKind], count: usize) -> Result<Vec<Register>, Memory>
    ensures { IfOk result (λ registers. AreSlots count kinds.now registers.items) }
{
    let mut registers = Vec::with_capacity(alloc, kinds.len())?;
    for kind in kinds {
        registers.push(zeros(alloc, *kind, count)?)?;
    }
    Ok(registers)
}

/// Puts a register into a slot, and returns the one that was there.
fn exchange(registers: &mut Vec<Register>, slot: usize, register: Register) -> Register
    requires { slot < length registers.old.items }
    ensures out { slice_get registers.old.items slot ≡ Some result }
    ensures put { registers.new.items ≡ slice_set registers.old.items slot register }
{
    mem::replace(&mut registers[slot], register)
}

/// Runs one instruction of a plan behind those before it.
fn run_instruction<S: Source, C: Context>(
    alloc: Global,
    steps: &[FieldStep<S>],
    plan: &Plan,
    at: usize,
    context: &C,
    wholes: &[Whole],
    elements: &[u32],
    registers: &mut Vec<Register>,
)
    requires ready { IsReady S.sources S.taken steps.now (C.meaning context.now) elements.now wholes.now }
    requires instructions { AreInstructions S.sources steps.now plan.now.kinds.items plan.now.instructions.items }
    requires covered { AreCovered (C.meaning context.now) wholes.now steps.now plan.now.instructions.items }
    requires within { at < length plan.now.instructions.items }
    requires so_far { IsRun S.sources (built steps.now) (C.meaning context.now) elements.now plan.now.kinds.items (held (take at plan.now.instructions.items)) registers.old.items }
    ensures { IsRun S.sources (built steps.now) (C.meaning context.now) elements.now plan.now.kinds.items (held (take (at + 1) plan.now.instructions.items)) registers.new.items }
{
    let instruction = &plan.instructions[at];
    let slot = instruction.into as usize;
    let empty = Register::Truth(Vec::new(alloc));
    let mut into = exchange(registers, slot, empty);
    execute(
        steps,
        instruction,
        registers.as_slice(),
        context,
        wholes,
        elements,
        &mut into,
    );
    exchange(registers, slot, into);
}

/// Runs a plan at some elements. Each slot then has the values of the last step that was put there.
fn run_plan<S: Source, C: Context>(
    alloc: Global,
    steps: &[FieldStep<S>],
    plan: &Plan,
    context: &C,
    wholes: &[Whole],
    elements: &[u32],
) -> Result<Vec<Register>, Memory>
    requires ready { IsReady S.sources S.taken steps.now (C.meaning context.now) elements.now wholes.now }
    requires instructions { AreInstructions S.sources steps.now plan.now.kinds.items plan.now.instructions.items }
    requires covered { AreCovered (C.meaning context.now) wholes.now steps.now plan.now.instructions.items }
    ensures { IfOk result (λ registers. IsRun S.sources (built steps.now) (C.meaning context.now) elements.now plan.now.kinds.items (held plan.now.instructions.items) registers.items) }
{
    let mut registers = slots(alloc, &plan.kinds, elements.len())?;
    for at in 0..plan.instructions.len() {
        run_instruction(
            alloc,
            steps,
            plan,
            at,
            context,
            wholes,
            elements,
            &mut registers,
        );
    }
    Ok(registers)
}

/// Registers with the values of those in some slots.
fn copies(alloc: Global, registers: &[Register], slots: &[u32]) -> Result<Vec<Register>, Memory>
    requires { All (λ s. s < length registers.now) slots.now }
    ensures { IfOk result (λ copies. AreCopies registers.now slots.now copies.items) }
{
    let mut copies = Vec::with_capacity(alloc, slots.len())?;
    for slot in slots {
        copies.push(copied(alloc, &registers[*slot as usize])?)?;
    }
    Ok(copies)
}

/// Runs a plan at some elements, and returns a register for each of its roots.
pub fn run_roots<S: Source, C: Context>(
    alloc: Global,
    steps: &[FieldStep<S>],
    plan: &Plan,
    context: &C,
    wholes: &[Whole],
    elements: &[u32],
) -> Result<Vec<Register>, Memory>
    requires ready { IsReady S.sources S.taken steps.now (C.meaning context.now) elements.now wholes.now }
    requires instructions { AreInstructions S.sources steps.now plan.now.kinds.items plan.now.instructions.items }
    requires covered { AreCovered (C.meaning context.now) wholes.now steps.now plan.now.instructions.items }
    requires ends { (roots : List ℕ) × Hold (held plan.now.instructions.items) plan.now.roots.items roots }
    ensures { IfOk result (λ registers. (roots : List ℕ) → Hold (held plan.now.instructions.items) plan.now.roots.items roots → AllGive S.sources (C.meaning context.now) elements.now (map (named (built steps.now)) roots) registers.items) }
{
    let registers = run_plan(alloc, steps, plan, context, wholes, elements)?;
    copies(alloc, &registers, &plan.roots)
}
