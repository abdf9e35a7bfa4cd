// One instruction.
ghost use Rattle.std.specs.Prelude.{◌≡◌, ℕ, ◌<◌, All, length};
ghost use Rattle.gn_value.specs.Registers.{register_kind, register_len};
ghost use Rattle.gn_value.specs.Values.{zero_of};
ghost use Rattle.gn_plain.specs.Contexts.{nowhere, length_of};
ghost use Rattle.gn_plain.specs.Fields.{at as value_in, kind_of_field};
ghost use Rattle.gn_field.specs.Steps.{named, built};
ghost use Rattle.gn_slots.specs.Registers.{Gives, AreWhole, IsThereOn, IsReady, CanExecute};

use crate::lookup::find;
use crate::whole::Whole;
use gn_field::{Context, FieldStep, Source};
use gn_fill::{fill, pick, read, sample};
use gn_kernel::many;
use gn_schedule::Instruction;
use gn_value::op::Register;
use gn_value::{Value, ValueKind};

/// Sets each position to the value of a step that reads elsewhere.
fn read_whole<S: Source, C: Context>(
    steps: &[FieldStep<S>],
    at: u32,
    kind: ValueKind,
    context: &C,
    wholes: &[Whole],
    elements: &[u32],
    into: &mut Register,
)
    requires kind { kind_of_field S.sources (named (built steps.now) at) ≡ kind }
    requires zero { (i : ℕ) → value_in S.sources (named (built steps.now) at) nowhere i ≡ zero_of kind }
    requires within { All (λ n. n < length_of (C.meaning context.now)) elements.now }
    requires whole { AreWhole S.sources (built steps.now) (C.meaning context.now) wholes.now }
    requires there { IsThereOn (C.meaning context.now) wholes.now at }
    requires of_kind { register_kind into.old ≡ kind }
    requires long { register_len into.old ≡ length elements.now }
    ensures { Gives S.sources (C.meaning context.now) elements.now (named (built steps.now) at) into.new }
{
    match context.place() {
        None => fill(Value::zero(kind), into),
        Some(place) => {
            let Some(values) = find(wholes, at, place) else {
                unreachable!();
            };
            pick(values, elements, into)
        }
    }
}

/// Sets each position to the value of an instruction's step at the element there.
pub(crate) fn execute<S: Source, C: Context>(
    steps: &[FieldStep<S>],
    instruction: &Instruction,
    registers: &[Register],
    context: &C,
    wholes: &[Whole],
    elements: &[u32],
    into: &mut Register,
)
    requires ready { IsReady S.sources S.taken steps.now (C.meaning context.now) elements.now wholes.now }
    requires can { CanExecute S.sources steps.now (C.meaning context.now) elements.now wholes.now instruction.now registers.now into.old }
    ensures { Gives S.sources (C.meaning context.now) elements.now (named (built steps.now) instruction.now.step) into.new }
{
    let at = instruction.step;
    match &steps[at as usize] {
        FieldStep::Constant { value } => fill(*value, into),
        FieldStep::Input { input } => read(context, input, elements, into),
        FieldStep::Apply { op, .. } => many(op, registers, &instruction.args, into),
        FieldStep::Sampled { source, .. } => {
            sample(source, &registers[instruction.args[0] as usize], into)
        }
        FieldStep::Elsewhere { step, .. } => {
            read_whole(steps, at, step.kind(), context, wholes, elements, into)
        }
    }
}
