// Fields, each kept as the list of its different subtrees.
ghost use Rattle.std.specs.Prelude.{ℕ, true, ◌≡◌, ◌<◌, ◌≤◌, ◌+◌, ◌-◌, slice_index, ◌^◌, length, map, [], ◌∷◌, ◌++◌, IfOk, IfErr, OnOk};
ghost use Rattle.std.specs.List.{All};
ghost use Rattle.gn_value.specs.Operations.{Takes};
ghost use Rattle.gn_plain.specs.Fields.{constant, input as input_of, apply, elsewhere, sampled, varies, kind_of_field};
ghost use Rattle.gn_plain.specs.Subtrees.{count_different};
ghost use Rattle.gn_field.specs.Steps.{plain_input, step_of, exprs_of, keys, built, last_of};
ghost use Rattle.gn_field.specs.Trees.{AgreesOnSources};
ghost use Rattle.gn_field.specs.Kinds.{step_takes, HasKinds};
ghost use Rattle.gn_field.specs.Merged.{IsMerged, IsField, Joins, JoinsLeft, Gathers, IsLeft, AreLeft, filled, IsGathering, Finishes};
ghost use Rattle.gn_field.specs.Faults.{IsFieldFault};
ghost use Rattle.gn_field.specs.Together.{AgreeOnSources, AreTogether};

use crate::input::{Input, Step};
use crate::merge::merge;
use crate::step::{FieldStep, Source, last_kind, read_context};
use gn_lazy::Path;
use gn_memory::Memory;
use gn_value::op::Op;
use gn_value::{Value, ValueKind};
use std::alloc::Global;
use std::marker::Model;
use std::sync::Arc;
use thiserror::Error;

/// A field: what has a value at each element. Contracts see it as an expression.
#[derive(Drop)]
pub struct Field<S: Source> {
    steps: Arc<Vec<FieldStep<S>>>,
}

impl<S: Source> Model for Field<S> {
    ghost use Rattle.std.specs.Arc.{arc_value};
    ghost use Rattle.gn_plain.specs.Fields.{Expr};
    ghost use Rattle.gn_field.specs.Codes.{expr_code};

    ghost Value = { Expr S };

    ghost coded = { expr_code S.code };

    ghost use Rattle.gn_field.specs.Steps.{last_of, built};
    ghost use Rattle.gn_field.specs.Merged.{IsField};

    ghost view = { λ f. last_of (built (arc_value f.steps).items) };

    ghost invariant = { λ f. IsField S.sources S.taken (arc_value f.steps).items };
}

/// Why a field was not made.
#[derive(Clone, Copy, Debug, PartialEq, Eq, Error)]
pub enum FieldFault {
    /// It would have more than 4,096 different subtrees.
    #[error("the field has {distinct} different subtrees")]
    TooMany {
        /// How many.
        distinct: u32,
    },
    /// There was no memory for it.
    #[error("out of memory")]
    Memory,
}

impl From<Memory> for FieldFault {
    ghost use Rattle.std.specs.Prelude.{◌≡◌};
    ghost use Rattle.gn_field.specs.declared.field.FieldFault.TheVariants.{Memory};

    ghost from_gives = { λ _ fault. fault ≡ Memory };

    fn from(_: Memory) -> Self {
        FieldFault::Memory
    }
}

/// The steps of several fields, each once, and the place of each field.
#[derive(Drop)]
pub struct Gathered<S> {
    pub steps: Vec<FieldStep<S>>,
    pub roots: Vec<u32>,
}

/// The steps of a field, and its place.
#[derive(Drop)]
struct Taken<S> {
    steps: Vec<FieldStep<S>>,
    root: u32,
}

/// The last of some places.
fn last_place(places: &[u32]) -> u32
    requires { 0 < length places.now }
    ensures { result ≡ slice_index places.now (length places.now - 1) }
{
    places[places.len() - 1]
}

/// Merges the steps of a field into others, and returns the place of the field.
fn join<S: Source>(
    alloc: Global,
    steps: &mut Vec<FieldStep<S>>,
    field: &Field<S>,
) -> Result<u32, Memory>
    requires merged { IsMerged steps.old.items }
    requires few { length steps.old.items ≤ 2 ^ 29 }
    ensures { IfOk result (λ root. Joins S.sources S.taken steps.old.items field.now root steps.new.items) }
{
    let places = merge(alloc, steps, field.steps.as_slice())?;
    Ok(last_place(&places))
}

/// Gathers the steps of fields.
fn gather<S: Source>(alloc: Global, fields: &[Field<S>]) -> Result<Gathered<S>, Memory>
    requires { length fields.now ≤ 65536 }
    ensures { IfOk result (λ g. Gathers S.sources S.taken fields.now g.steps.items g.roots.items) }
{
    let mut steps = Vec::new(alloc);
    let mut roots = Vec::with_capacity(alloc, fields.len())?;
    for field in fields {
        let root = join(alloc, &mut steps, field)?;
        roots.push(root)?;
    }
    Ok(Gathered { steps, roots })
}

/// The number of a field with the most steps.
fn largest<S: Source>(fields: &[Field<S>]) -> usize
    requires { 0 < length fields.now }
    ensures { result < length fields.now }
{
    let mut largest = 0;
    for (at, field) in fields.iter().enumerate() {
        if fields[largest].distinct() < field.distinct() {
            largest = at;
        }
    }
    largest
}

/// Whether the steps are the same.
fn are_same<S>(steps: &[FieldStep<S>], others: &[FieldStep<S>]) -> bool
    ensures { result ≡ true → keys steps.now ≡ keys others.now }
{
    if steps.len() != others.len() {
        return false;
    }
    for (at, step) in steps.iter().enumerate() {
        if !step.is_same(&others[at]) {
            return false;
        }
    }
    true
}

/// The fields, but for those whose steps are those of a base.
fn without_same<S: Source>(
    alloc: Global,
    base: &Field<S>,
    fields: Vec<Field<S>>,
) -> Result<Vec<Option<Field<S>>>, Memory>
    ensures { IfOk result (λ rest. AreLeft S.sources S.taken base.now fields.items rest.items) }
{
    let mut rest = Vec::with_capacity(alloc, fields.len())?;
    for field in fields {
        rest.push(field.unless_same(base))?;
    }
    Ok(rest)
}

/// As many new steps as a field has.
fn copy_steps<S: Source>(alloc: Global, field: &Field<S>) -> Result<Taken<S>, Memory>
    ensures { IfOk result (λ t. Joins S.sources S.taken [] field.now t.root t.steps.items) }
{
    let mut steps = Vec::new(alloc);
    let root = join(alloc, &mut steps, field)?;
    Ok(Taken { steps, root })
}

/// Steps, and the place of the last.
fn with_last<S>(steps: Vec<FieldStep<S>>) -> Taken<S>
    requires some { 0 < length steps.items }
    requires few { length steps.items ≤ 4096 }
    ensures { (result.steps ≡ steps) × (result.root ≡ length steps.items - 1) }
{
    let root = (steps.len() - 1) as u32;
    Taken { steps, root }
}

/// The steps of a field: its own where no other field has them, and else as many new ones.
fn take_steps<S: Source>(alloc: Global, field: Field<S>) -> Result<Taken<S>, Memory>
    ensures { IfOk result (λ t. Joins S.sources S.taken [] field t.root t.steps.items) }
{
    let Field { steps } = field;
    match Arc::try_unwrap(steps) {
        Ok(steps) => Ok(with_last(steps)),
        Err(steps) => copy_steps(alloc, &Field { steps }),
    }
}

/// Merges the steps of a field into others, unless nothing is left of it because it is their base.
fn join_left<S: Source>(
    alloc: Global,
    steps: &mut Vec<FieldStep<S>>,
    field: &Option<Field<S>>,
    root: u32,
) -> Result<u32, Memory>
    requires merged { IsMerged steps.old.items }
    requires few { length steps.old.items ≤ 2 ^ 29 }
    ensures { IfOk result (λ place. JoinsLeft S.sources S.taken steps.old.items field.now root place steps.new.items) }
{
    match field {
        Some(field) => join(alloc, steps, field),
        None => Ok(root),
    }
}

/// Gathers the steps of the fields that are left behind those of their base.
fn gather_behind<S: Source>(
    alloc: Global,
    base: Field<S>,
    rest: &[Option<Field<S>>],
) -> Result<Gathered<S>, Memory>
    requires few { length rest.now ≤ 65536 }
    ensures { IfOk result (λ g. (root : ℕ) × IsGathering S.sources S.taken base root (filled base rest.now) g.steps.items g.roots.items) }
{
    let taken = take_steps(alloc, base)?;
    let root = taken.root;
    let mut steps = taken.steps;
    let mut roots = Vec::with_capacity(alloc, rest.len())?;
    for field in rest {
        let place = join_left(alloc, &mut steps, field, root)?;
        roots.push(place)?;
    }
    Ok(Gathered { steps, roots })
}

/// Gathers the steps of fields behind those of a field with the most, which are not copied unless
/// another field has them.
fn gather_owned<S: Source>(alloc: Global, fields: Vec<Field<S>>) -> Result<Gathered<S>, Memory>
    requires { length fields.items ≤ 65536 }
    ensures { IfOk result (λ g. Gathers S.sources S.taken fields.items g.steps.items g.roots.items) }
{
    if fields.is_empty() {
        return gather(alloc, &fields);
    }
    let at = largest(&fields);
    let base = fields[at].second()?;
    let rest = without_same(alloc, &base, fields)?;
    gather_behind(alloc, base, &rest)
}

/// The field of these steps with one behind them.
fn field_of<S: Source>(
    alloc: Global,
    steps: Vec<FieldStep<S>>,
    step: FieldStep<S>,
) -> Result<Field<S>, Memory>
    requires { IsField S.sources S.taken (steps.items ++ step ∷ []) }
    ensures { IfOk result (λ f. f ≡ last_of (built (steps.items ++ step ∷ []))) }
{
    let mut steps = steps;
    steps.push(step)?;
    let steps = Arc::new(alloc, steps)?;
    Ok(Field { steps })
}

/// The field that a step makes of others, behind their steps.
fn finish<S: Source>(
    alloc: Global,
    steps: Vec<FieldStep<S>>,
    step: FieldStep<S>,
) -> Result<Field<S>, FieldFault>
    requires makes { Finishes S.sources S.taken steps.items step }
    requires short { length steps.items ≤ 2 ^ 29 }
    ensures field { IfOk result (λ f. f ≡ last_of (built (steps.items ++ step ∷ []))) }
    ensures few { OnOk result (length steps.items + 1 ≤ 4096) }
    ensures fault { IfErr result (IsFieldFault (length steps.items + 1)) }
{
    let distinct = steps.len() as u32 + 1;
    if distinct > 4096 {
        return Err(FieldFault::TooMany { distinct });
    }
    let field = field_of(alloc, steps, step)?;
    Ok(field)
}

impl<S: Source> Field<S> {
    /// The field that has this value everywhere.
    pub fn constant(alloc: Global, value: Value) -> Result<Field<S>, Memory>
        ensures { IfOk result (λ f. f ≡ constant value) }
    {
        field_of(alloc, Vec::new(alloc), FieldStep::Constant { value })
    }

    /// The field that reads this of each element.
    pub fn input(alloc: Global, input: Input) -> Result<Field<S>, Memory>
        ensures { IfOk result (λ f. f ≡ input_of (plain_input input)) }
    {
        field_of(alloc, Vec::new(alloc), FieldStep::Input { input })
    }

    /// An operation on the values of fields, which have the kinds that it takes.
    ///
    /// `TooMany` comes exactly where the field would have more than 4,096 different subtrees.
    pub fn apply(alloc: Global, op: Op, args: Vec<Field<S>>) -> Result<Field<S>, FieldFault>
        requires takes { Takes op (map (kind_of_field S.sources) args.items) }
        requires few_args { length args.items ≤ 65536 }
        requires one_source { AgreesOnSources (apply op (exprs_of args.items)) }
        ensures field { IfOk result (λ f. f ≡ apply op (exprs_of args.items)) }
        ensures few { OnOk result (count_different (apply op (exprs_of args.items) ∷ []) ≤ 4096) }
        ensures fault { IfErr result (IsFieldFault (count_different (apply op (exprs_of args.items) ∷ []))) }
    {
        let Gathered { steps, roots } = gather_owned(alloc, args)?;
        finish(alloc, steps, FieldStep::Apply { op, args: roots })
    }

    /// A step that reads the values of fields elsewhere. They have the kinds that it takes.
    ///
    /// `TooMany` comes exactly where the field would have more than 4,096 different subtrees.
    pub fn elsewhere(alloc: Global, step: Step, args: Vec<Field<S>>) -> Result<Field<S>, FieldFault>
        requires takes { map (kind_of_field S.sources) args.items ≡ step_takes (step_of step) }
        requires one_source { AgreesOnSources (elsewhere (step_of step) (exprs_of args.items)) }
        ensures field { IfOk result (λ f. f ≡ elsewhere (step_of step) (exprs_of args.items)) }
        ensures few { OnOk result (count_different (elsewhere (step_of step) (exprs_of args.items) ∷ []) ≤ 4096) }
        ensures fault { IfErr result (IsFieldFault (count_different (elsewhere (step_of step) (exprs_of args.items) ∷ []))) }
    {
        let Gathered { steps, roots } = gather_owned(alloc, args)?;
        finish(alloc, steps, FieldStep::Elsewhere { step, args: roots })
    }

    /// What a source, which the node at the path `tag` made, gives for the values of a field. They
    /// have the kind that it takes.
    ///
    /// `TooMany` comes exactly where the field would have more than 4,096 different subtrees.
    pub fn sampled(
        alloc: Global,
        tag: Path,
        source: S,
        arg: Field<S>,
    ) -> Result<Field<S>, FieldFault>
        requires takes { kind_of_field S.sources arg ≡ S.taken source }
        requires one_source { AgreesOnSources (sampled tag.steps.items source arg) }
        ensures field { IfOk result (λ f. f ≡ sampled tag.steps.items source arg) }
        ensures few { OnOk result (count_different (sampled tag.steps.items source arg ∷ []) ≤ 4096) }
        ensures fault { IfErr result (IsFieldFault (count_different (sampled tag.steps.items source arg ∷ []))) }
    {
        let Taken { steps, root } = take_steps(alloc, arg)?;
        finish(
            alloc,
            steps,
            FieldStep::Sampled {
                tag,
                source,
                arg: root,
            },
        )
    }

    /// The field, unless its steps are those of a base.
    fn unless_same(self, base: &Field<S>) -> Option<Field<S>>
        ensures { IsLeft S.sources S.taken base.now self result }
    {
        if are_same(self.steps.as_slice(), base.steps.as_slice()) {
            return None;
        }
        Some(self)
    }

    /// The same field once more.
    pub fn second(&self) -> Result<Field<S>, Memory>
        ensures { IfOk result (λ f. f ≡ self.now) }
    {
        let steps = self.steps.clone()?;
        Ok(Field { steps })
    }

    /// Whether the field reads its context.
    pub fn varies(&self) -> bool
        ensures { result ≡ varies self.now }
    {
        read_context(self.steps.as_slice())
    }

    /// How many different subtrees the field has.
    pub fn distinct(&self) -> u32
        ensures { result ≡ count_different (self.now ∷ []) }
    {
        self.steps.as_slice().len() as u32
    }

    /// The kind of the field's values.
    pub fn kind(&self) -> ValueKind
        ensures { result ≡ kind_of_field S.sources self.now }
    {
        last_kind(self.steps.as_slice())
    }

    /// How many different subtrees all these fields have.
    pub fn together(alloc: Global, fields: &[Field<S>]) -> Result<u32, Memory>
        requires { length fields.now ≤ 65536 }
        ensures { IfOk result (λ n. n ≡ count_different fields.now) }
    {
        let Gathered { steps, .. } = gather(alloc, fields)?;
        Ok(steps.len() as u32)
    }

    /// The different subtrees of all these fields, each once: each names earlier ones by their places,
    /// and arguments have the kinds that are taken. Beside them is the place of each field.
    pub fn merged(alloc: Global, fields: &[Field<S>]) -> Result<Gathered<S>, Memory>
        requires few { length fields.now ≤ 65536 }
        requires one_source { AgreeOnSources fields.now }
        ensures { IfOk result (λ g. AreTogether S.sources S.taken fields.now g.steps.items g.roots.items) }
    {
        gather(alloc, fields)
    }

    /// The field's different subtrees: each names earlier ones by their places, and the last is the
    /// field. No two are the same, there are at most 4,096, and arguments have the kinds that are taken.
    pub fn steps(&self) -> &[FieldStep<S>]
        ensures field { last_of (built result.now) ≡ self.now }
        ensures count { length result.now ≡ count_different (self.now ∷ []) }
        ensures merged { IsMerged result.now }
        ensures kinds { HasKinds S.sources S.taken self.now }
        ensures few { length result.now ≤ 4096 }
        ensures each { All (HasKinds S.sources S.taken) (built result.now) }
    {
        self.steps.as_slice()
    }
}
