// A tape with what it needs to be run in a context.
ghost use Rattle.std.specs.Prelude.{◌≡◌, ◌<◌, All, map, IfOk};
ghost use Rattle.gn_plain.specs.Contexts.{length_of};
ghost use Rattle.gn_field.specs.Steps.{named, built};
ghost use Rattle.gn_slots.specs.Registers.{AllGive};
ghost use Rattle.gn_proc.specs.Tapes.{IsTape};

use gn_field::{Context, FieldStep, Source};
use gn_memory::Memory;
use gn_schedule::Plan;
use gn_slots::{Whole, run_roots};
use gn_value::op::Register;
use gn_wholes::wholes_in;
use std::alloc::Global;
use std::marker::Model;

/// A tape with what it needs to be run in a context: the values of its steps that read elsewhere.
/// Contracts see the list of the fields, and the context.
#[derive(Drop)]
pub struct Ready<'a, S: Source, C: Context> {
    steps: &'a [FieldStep<S>],
    roots: &'a [u32],
    plan: &'a Plan,
    context: &'a C,
    wholes: Vec<Whole>,
}

impl<'a, S: Source, C: Context> Model for Ready<'a, S, C> {
    ghost use Rattle.std.specs.Prelude.{List, map};
    ghost use Rattle.std.specs.Coded.{coded_list, coded×};
    ghost use Rattle.gn_plain.specs.Fields.{Expr};
    ghost use Rattle.gn_field.specs.Codes.{expr_code};
    ghost use Rattle.gn_field.specs.Steps.{named, built};
    ghost use Rattle.gn_proc.specs.Prepared.{IsPrepared};

    ghost Value = { List (Expr S) × C };

    ghost coded = { coded× (coded_list (expr_code S.code)) C.code };

    ghost view = { λ r. (map (named (built r.steps.now)) r.roots.now, r.context.now) };

    ghost invariant = { λ r. IsPrepared S.sources S.taken (C.meaning r.context.now) r.steps.now r.roots.now r.plan.now r.wholes.items };
}

/// Makes a tape ready to be run in a context.
pub(crate) fn prepare<'a, S: Source, C: Context + Drop>(
    alloc: Global,
    steps: &'a [FieldStep<S>],
    roots: &'a [u32],
    plan: &'a Plan,
    context: &'a C,
) -> Result<Ready<'a, S, C>, Memory>
    requires { IsTape S.sources S.taken steps.now roots.now plan.now }
    ensures { IfOk result (λ ready. ready ≡ (map (named (built steps.now)) roots.now, context.now)) }
{
    let wholes = wholes_in(alloc, steps, roots, context)?;
    Ok(Ready {
        steps,
        roots,
        plan,
        context,
        wholes,
    })
}

impl<'a, S: Source, C: Context> Ready<'a, S, C> {
    /// The values of the fields at some elements: a register for each field, with a value for each
    /// element, in order.
    pub fn run(&self, alloc: Global, elements: &[u32]) -> Result<Vec<Register>, Memory>
        requires { All (λ n. n < length_of (C.meaning self.now.1)) elements.now }
        ensures { IfOk result (λ registers. AllGive S.sources (C.meaning self.now.1) elements.now self.now.0 registers.items) }
    {
        run_roots(
            alloc,
            self.steps,
            self.plan,
            self.context,
            &self.wholes,
            elements,
        )
    }

    /// How many elements the context has.
    pub fn len(&self) -> u32
        ensures { result ≡ length_of (C.meaning self.now.1) }
    {
        self.context.len()
    }
}
