// The steps of a field.
ghost use Rattle.std.specs.Prelude.{◌≡◌, ◌<◌, length, IfOk};
ghost use Rattle.std.specs.List.{list_any};
ghost use Rattle.std.specs.Bool.{Decides};
ghost use Rattle.gn_value.specs.Values.{kind_of};
ghost use Rattle.gn_value.specs.declared.value.ValueKind.{ValueKind};
ghost use Rattle.gn_plain.specs.Fields.{Sources, kind_of_field};
ghost use Rattle.gn_field.specs.Steps.{key_of, kind_at, reads, last_of, built};

use crate::input::{Input, Step};
use gn_lazy::Path;
use gn_memory::Memory;
use gn_value::op::Op;
use gn_value::{Value, ValueKind};

/// Where sampled values come from.
pub trait Source: Sized + Send + Sync + Drop {
    ghost sources: { Sources Self };

    ghost taken: { Self → ValueKind };

    /// The kind of the arguments.
    fn takes(&self) -> ValueKind
        ensures { result ≡ taken self.now };

    /// The kind of the values.
    fn kind(&self) -> ValueKind
        ensures { result ≡ sources.kind self.now };

    /// The value for an argument of the kind that the source takes.
    fn give(&self, arg: Value) -> Value
        requires { kind_of arg ≡ taken self.now }
        ensures value { result ≡ sources.value self.now arg }
        ensures kind { kind_of result ≡ sources.kind self.now };

    /// The same source once more.
    fn second(&self) -> Result<Self, Memory>
        ensures { IfOk result (λ s. s ≡ self.now) };
}

/// A step of a field. It names earlier steps by their places in the list of steps.
#[derive(Drop)]
pub enum FieldStep<S> {
    /// One value everywhere.
    Constant { value: Value },
    /// What is read of the element.
    Input { input: Input },
    /// An operation on values.
    Apply { op: Op, args: Vec<u32> },
    /// A step that reads its arguments elsewhere.
    Elsewhere { step: Step, args: Vec<u32> },
    /// What the source gives that the node at a path made.
    Sampled { tag: Path, source: S, arg: u32 },
}

impl<S: Source> FieldStep<S> {
    /// The kind of the values.
    pub fn kind(&self) -> ValueKind
        ensures { result ≡ kind_at S.sources self.now }
    {
        match self {
            FieldStep::Constant { value } => value.kind(),
            FieldStep::Input { input } => input.kind(),
            FieldStep::Apply { op, .. } => op.gives(),
            FieldStep::Elsewhere { step, .. } => step.kind(),
            FieldStep::Sampled { source, .. } => source.kind(),
        }
    }
}

impl<S> FieldStep<S> {
    /// Whether the step reads its context.
    fn reads(&self) -> bool
        ensures { result ≡ reads self.now }
    {
        matches!(self, FieldStep::Input { .. } | FieldStep::Elsewhere { .. })
    }

    /// Whether both make the same of the same steps.
    pub(crate) fn is_same(&self, other: &FieldStep<S>) -> bool
        ensures { Decides result (key_of self.now ≡ key_of other.now) }
    {
        match self {
            FieldStep::Constant { value: v } => match other {
                FieldStep::Constant { value: w } => *v == *w,
                _ => false,
            },
            FieldStep::Input { input: x } => match other {
                FieldStep::Input { input: y } => x.is_same(y),
                _ => false,
            },
            FieldStep::Apply { op: f, args: xs } => match other {
                FieldStep::Apply { op: g, args: ys } => *f == *g && xs.as_slice() == ys.as_slice(),
                _ => false,
            },
            FieldStep::Elsewhere { step: f, args: xs } => match other {
                FieldStep::Elsewhere { step: g, args: ys } => {
                    f.is_same(*g) && xs.as_slice() == ys.as_slice()
                }
                _ => false,
            },
            FieldStep::Sampled { tag: p, arg: x, .. } => match other {
                FieldStep::Sampled { tag: q, arg: y, .. } => *p == *q && *x == *y,
                _ => false,
            },
        }
    }
}

/// The kind of the last of some steps.
pub(crate) fn last_kind<S: Source>(steps: &[FieldStep<S>]) -> ValueKind
    requires { 0 < length steps.now }
    ensures { result ≡ kind_of_field S.sources (last_of (built steps.now)) }
{
    steps[steps.len() - 1].kind()
}

/// Whether one of the steps reads its context.
pub(crate) fn read_context<S>(steps: &[FieldStep<S>]) -> bool
    ensures { result ≡ list_any reads steps.now }
{
    steps.iter().any(|step| step.reads())
}
