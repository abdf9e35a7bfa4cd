// In which order steps are run, and where their values are.
ghost use Rattle.std.specs.Prelude.{ℕ, ◌≡◌, ◌<◌, ◌≤◌, ◌+◌, All, Some, length, map, slice_get, slice_index, IfOk, OnOk, IfSome};
ghost use Rattle.gn_field.specs.Steps.{AreBelow, LeadBack, keys, key_of};
ghost use Rattle.gn_schedule.specs.Plans.{operands, AreReaders, IsPlan, IsFree, IsTaken, IsPlanning};

use crate::readers::last_readers;
use gn_field::{FieldStep, Source};
use gn_memory::Memory;
use gn_value::ValueKind;
use std::alloc::Global;

/// A step to run: the slots of its operands, in order, and the slot that takes its values.
#[derive(Drop)]
pub struct Instruction {
    pub step: u32,
    pub args: Vec<u32>,
    pub into: u32,
}

/// Instructions in order, the kind of each slot, and the slots that hold the roots at last.
#[derive(Drop)]
pub struct Plan {
    pub instructions: Vec<Instruction>,
    pub kinds: Vec<ValueKind>,
    pub roots: Vec<u32>,
}

/// A plan in the making: also the step that each slot holds, and the slot of each step so far.
#[derive(Drop)]
pub(crate) struct Planning {
    instructions: Vec<Instruction>,
    kinds: Vec<ValueKind>,
    holds: Vec<u32>,
    slots: Vec<u32>,
}

/// The slots of some steps.
fn slots_of(alloc: Global, steps: &[u32], slots: &[u32]) -> Result<Vec<u32>, Memory>
    requires { All (λ k. k < length slots.now) steps.now }
    ensures { IfOk result (λ found. found.items ≡ map (λ k. slice_index slots.now k) steps.now) }
{
    let mut found = Vec::with_capacity(alloc, steps.len())?;
    for step in steps {
        found.push(slots[*step as usize])?;
    }
    Ok(found)
}

/// The slots of a step's operands.
#[tactic(auto, using(gn_field::proofs::Grown::all_below))]
fn operand_slots<S>(alloc: Global, step: &FieldStep<S>, slots: &[u32]) -> Result<Vec<u32>, Memory>
    requires { AreBelow (length slots.now) (operands (key_of step.now)) }
    ensures { IfOk result (λ found. found.items ≡ map (λ k. slice_index slots.now k) (operands (key_of step.now))) }
{
    match step {
        FieldStep::Apply { args, .. } => slots_of(alloc, args.as_slice(), slots),
        FieldStep::Sampled { arg, .. } => slots_of(alloc, &[*arg], slots),
        FieldStep::Constant { .. } | FieldStep::Input { .. } | FieldStep::Elsewhere { .. } => {
            Ok(Vec::new(alloc))
        }
    }
}

/// A slot of a kind that is free at a step.
fn free_slot(
    kinds: &[ValueKind],
    holds: &[u32],
    readers: &[u32],
    kind: ValueKind,
    step: u32,
) -> Option<usize>
    requires long { length kinds.now ≡ length holds.now }
    requires held { (s j : ℕ) → slice_get holds.now s ≡ Some j → j < length readers.now }
    ensures { IfSome result (λ slot. IsFree kinds.now holds.now readers.now kind step slot) }
{
    for (slot, held) in holds.iter().enumerate() {
        if kinds[slot] == kind && readers[*held as usize] <= step {
            return Some(slot);
        }
    }
    None
}

/// Takes a slot of a kind for a step: a free one, or one more.
fn take_slot(
    kinds: &mut Vec<ValueKind>,
    holds: &mut Vec<u32>,
    readers: &[u32],
    kind: ValueKind,
    step: u32,
) -> Result<u32, Memory>
    requires long { length kinds.old.items ≡ length holds.old.items }
    requires held { (s j : ℕ) → slice_get holds.old.items s ≡ Some j → j < length readers.now }
    requires few { length holds.old.items ≤ 4096 }
    ensures { IfOk result (λ slot. IsTaken readers.now kind step slot kinds.old.items kinds.new.items holds.old.items holds.new.items) }
{
    if let Some(slot) = free_slot(kinds, holds, readers, kind, step) {
        holds[slot] = step;
        return Ok(slot as u32);
    }
    let slot = kinds.len() as u32;
    kinds.push(kind)?;
    holds.push(step)?;
    Ok(slot)
}

/// Plans a step behind those before it, if one reads it.
fn plan_step<S: Source>(
    alloc: Global,
    steps: &[FieldStep<S>],
    readers: &[u32],
    at: usize,
    planning: &mut Planning,
) -> Result<(), Memory>
    requires back { LeadBack (keys steps.now) }
    requires readers { AreReaders steps.now readers.now }
    requires within { at < length steps.now }
    requires few { length steps.now ≤ 4096 }
    requires so_far { IsPlanning S.sources steps.now readers.now at planning.old }
    ensures { OnOk result (IsPlanning S.sources steps.now readers.now (at + 1) planning.new) }
{
    if readers[at] == 0 {
        planning.slots.push(0)?;
        return Ok(());
    }
    let step = &steps[at];
    let args = operand_slots(alloc, step, &planning.slots)?;
    let into = take_slot(
        &mut planning.kinds,
        &mut planning.holds,
        readers,
        step.kind(),
        at as u32,
    )?;
    planning.slots.push(into)?;
    planning.instructions.push(Instruction {
        step: at as u32,
        args,
        into,
    })?;
    Ok(())
}

/// Plans all steps that are read.
#[tactic(auto, using(crate::proofs::Planning::none_planned))]
fn plan_steps<S: Source>(
    alloc: Global,
    steps: &[FieldStep<S>],
    readers: &[u32],
) -> Result<Planning, Memory>
    requires back { LeadBack (keys steps.now) }
    requires readers { AreReaders steps.now readers.now }
    requires few { length steps.now ≤ 4096 }
    ensures { IfOk result (λ planning. IsPlanning S.sources steps.now readers.now (length steps.now) planning) }
{
    let count = steps.len();
    let mut planning = Planning {
        instructions: Vec::new(alloc),
        kinds: Vec::new(alloc),
        holds: Vec::new(alloc),
        slots: Vec::with_capacity(alloc, count)?,
    };
    for at in 0..count {
        plan_step(alloc, steps, readers, at, &mut planning)?;
    }
    Ok(planning)
}

/// The plan that runs the steps that the roots need.
pub fn plan_of<S: Source>(
    alloc: Global,
    steps: &[FieldStep<S>],
    roots: &[u32],
) -> Result<Plan, Memory>
    requires back { LeadBack (keys steps.now) }
    requires within { AreBelow (length steps.now) roots.now }
    requires few { length steps.now ≤ 4096 }
    ensures { IfOk result (λ plan. IsPlan S.sources steps.now roots.now plan) }
{
    let readers = last_readers(alloc, steps, roots)?;
    let planning = plan_steps(alloc, steps, &readers)?;
    let roots = slots_of(alloc, roots, &planning.slots)?;
    let Planning {
        instructions,
        kinds,
        ..
    } = planning;
    Ok(Plan {
        instructions,
        kinds,
        roots,
    })
}
