// Several fields as one list of instructions.
ghost use Rattle.std.specs.Prelude.{◌≡◌, ◌≤◌, length, map, IfOk, IfErr, OnOk};
ghost use Rattle.gn_plain.specs.Subtrees.{count_different};
ghost use Rattle.gn_field.specs.Together.{AgreeOnSources};
ghost use Rattle.gn_field.specs.Steps.{named, built};
ghost use Rattle.gn_proc.specs.Tapes.{AreSteps};
ghost use Rattle.gn_proc.specs.Faults.{IsTapeFault};

use crate::ready::{Ready, prepare};
use gn_field::{Context, Field, FieldStep, Gathered, Source};
use gn_memory::Memory;
use gn_schedule::{Plan, plan_of};
use std::alloc::Global;
use std::marker::Model;
use thiserror::Error;

/// Why fields have no tape.
#[derive(Clone, Copy, Debug, PartialEq, Eq, Error)]
pub enum TapeFault {
    /// Together they have more than 4,096 different subtrees.
    #[error("the fields have {distinct} different subtrees")]
    TooMany {
        /// How many.
        distinct: u32,
    },
    /// There was no memory for it.
    #[error("out of memory")]
    Memory,
}

impl From<Memory> for TapeFault {
    ghost use Rattle.std.specs.Prelude.{◌≡◌};
    ghost use Rattle.gn_proc.specs.declared.tape.TapeFault.TheVariants.{Memory};

    ghost from_gives = { λ _ fault. fault ≡ Memory };

    fn from(_: Memory) -> Self {
        TapeFault::Memory
    }
}

/// Several fields as one list of instructions. Contracts see it as the list of the fields.
#[derive(Drop)]
pub struct Tape<S: Source> {
    steps: Vec<FieldStep<S>>,
    roots: Vec<u32>,
    plan: Plan,
}

impl<S: Source> Model for Tape<S> {
    ghost use Rattle.std.specs.Prelude.{List, map};
    ghost use Rattle.std.specs.Coded.{coded_list};
    ghost use Rattle.gn_plain.specs.Fields.{Expr};
    ghost use Rattle.gn_field.specs.Codes.{expr_code};
    ghost use Rattle.gn_field.specs.Steps.{named, built};
    ghost use Rattle.gn_proc.specs.Tapes.{IsTape};

    ghost Value = { List (Expr S) };

    ghost coded = { coded_list (expr_code S.code) };

    ghost view = { λ t. map (named (built t.steps.items)) t.roots.items };

    ghost invariant = { λ t. IsTape S.sources S.taken t.steps.items t.roots.items t.plan };
}

/// The tape of steps that are few enough.
#[tactic(auto, using(crate::proofs::Tapes::is_tape))]
fn tape_of<S: Source>(
    alloc: Global,
    steps: Vec<FieldStep<S>>,
    roots: Vec<u32>,
) -> Result<Tape<S>, Memory>
    requires steps { AreSteps S.sources S.taken steps.items roots.items }
    ensures { IfOk result (λ tape. tape ≡ map (named (built steps.items)) roots.items) }
{
    let plan = plan_of(alloc, &steps, &roots)?;
    Ok(Tape { steps, roots, plan })
}

/// The tape of some fields, any two sampled parts of which have one source if the path of their nodes
/// is one.
///
/// `TooMany` comes exactly where the fields together have more than 4,096 different subtrees.
pub fn build<S: Source>(alloc: Global, fields: &[Field<S>]) -> Result<Tape<S>, TapeFault>
    requires few_fields { length fields.now ≤ 65536 }
    requires one_source { AgreeOnSources fields.now }
    ensures tape { IfOk result (λ tape. tape ≡ fields.now) }
    ensures few { OnOk result (count_different fields.now ≤ 4096) }
    ensures fault { IfErr result (IsTapeFault (count_different fields.now)) }
{
    let Gathered { steps, roots } = Field::merged(alloc, fields)?;
    if steps.len() > 4096 {
        let distinct = steps.len() as u32;
        return Err(TapeFault::TooMany { distinct });
    }
    let tape = tape_of(alloc, steps, roots)?;
    Ok(tape)
}

impl<S: Source> Tape<S> {
    /// How many instructions the tape has: one for each different subtree of its fields.
    pub fn len(&self) -> u32
        ensures { result ≡ count_different self.now }
    {
        self.steps.len() as u32
    }

    /// The tape with what it needs to be run in a context: the values of its steps that read elsewhere,
    /// made once over their whole places.
    pub fn ready<'a, C: Context + Drop>(
        &'a self,
        alloc: Global,
        context: &'a C,
    ) -> Result<Ready<'a, S, C>, Memory>
        ensures { IfOk result (λ ready. ready ≡ (self.now, context.now)) }
    {
        prepare(alloc, &self.steps, &self.roots, &self.plan, context)
    }
}
