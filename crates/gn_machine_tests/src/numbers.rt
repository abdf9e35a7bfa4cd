ghost use Rattle.std.specs.Prelude.{◌≡◌, ◌<◌, ◌+◌, ◌-◌, ◌^◌, [], ◌∷◌, All, IfOk, true, map, option_map, slice_index_or};
ghost use Rattle.gn_nodes.specs.Values.{answer_of, done_of};
ghost use Rattle.gn_nodes.specs.Calls.{NoCopy};
ghost use Rattle.gn_machine_tests.specs.Numbers.{rows, length_of as length_meant, number_of as number_meant};

use gn_lazy::{Link, Origin, Path};
use gn_memory::Memory;
use gn_nodes::{Answer, Choice, Done, NodeSet, Opened, Role};
use gn_shared::Meter;
use smallvec::SmallVec;
use std::alloc::Global;
use std::thread::Threads;

/// What a node does with numbers.
#[derive(Clone, Copy, Debug, PartialEq, Eq)]
pub enum NumberKind {
    /// Adds its two inputs. A sum stops at the largest number of 64 bits.
    Add,
    /// Hands on its first case behind a condition of 0, and else the second.
    Choose,
    /// Gives the length of its file, or 0 for a file that is absent.
    Measure,
    /// A zone, whose first input says how often it turns. Its turns do nothing, so it gives its item.
    Repeat,
}

/// A set of nodes over numbers of 64 bits. A conversion to a kind adds the kind's number.
pub struct Numbers;

impl NodeSet for Numbers {
    type Kind = NumberKind;

    type Value = u64;

    ghost use Rattle.std.specs.Prelude.{ℕ, true, false, refl};
    ghost use Rattle.gn_machine_tests.specs.declared.numbers.NumberKind.{NumberKind};
    ghost use Rattle.gn_machine_tests.specs.Numbers.{numbers, numbers_are_lawful, not_shared};

    ghost Kinds = { NumberKind };

    ghost Values = { ℕ };

    ghost Sorts = { Unit {0} };

    ghost Sources = { ⊥ };

    ghost meanings = { numbers };

    ghost lawful = { numbers_are_lawful };

    ghost kind_of = { λ kind. kind };

    ghost content = { λ value. value };

    ghost shareable = { λ sort. false };

    ghost references = { λ kind. false };

    ghost sole = { λ value. true };

    ghost shared_stay = { λ sort kind can. not_shared can };

    ghost others_are_sole = { λ value other. refl };

    fn role(&self, kind: &NumberKind) -> Role {
        match kind {
            NumberKind::Add => Role::Plain,
            NumberKind::Choose => Role::Switch,
            NumberKind::Measure => Role::File,
            NumberKind::Repeat => Role::Zone,
        }
    }

    fn file<'a>(&self, _kind: &'a NumberKind) -> &'a str {
        ""
    }

    fn second<L>(&self, value: &mut u64, _meter: &mut Meter<L>) -> Result<u64, Memory> {
        Ok(*value)
    }

    fn choose(&self, _kind: &NumberKind, condition: &u64) -> Result<Choice, Memory> {
        if *condition == 0 {
            return Ok(Choice::One { case: 0 });
        }
        Ok(Choice::One { case: 1 })
    }

    fn kind(&self, kind: &NumberKind) -> Result<NumberKind, Memory> {
        Ok(*kind)
    }

    fn through(&self, value: u64, kinds: &[u8]) -> Result<u64, Memory> {
        let mut number = value;
        for kind in kinds {
            number = number.saturating_add(u64::from(*kind));
        }
        Ok(number)
    }

    fn open(
        &self,
        path: &Path,
        _kind: &NumberKind,
        _base: u64,
        _count: &u64,
    ) -> Result<Opened<NumberKind, u64>, Memory> {
        let alloc = *path.steps.allocator();
        let mut outputs = Vec::with_capacity(alloc, 1)?;
        outputs.push(Link {
            origin: Origin::Constant { slot: 0 },
            through: SmallVec::new(alloc),
        })?;
        Ok(Opened {
            nodes: Vec::new(alloc),
            constants: Vec::new(alloc),
            outputs,
        })
    }

    fn run<R: Threads + Sync, L>(
        &self,
        _rt: &R,
        path: &Path,
        kind: &NumberKind,
        inputs: Vec<u64>,
        answer: Option<Answer>,
        meter: &mut Meter<L>,
    ) -> Result<Done<u64>, Memory>
        requires runs { meter.old.runs < 2 ^ 63 - 1 }
        ensures row { IfOk result (λ done. done_of (λ value. value) done ≡ rows.row path.now.steps.items kind.now (map (λ value. value) inputs.items) (option_map answer_of answer)) }
        ensures runs { meter.new.runs ≡ meter.old.runs + 1 }
        ensures copies { NoCopy meter.old meter.new }
        ensures sole { IfOk result (λ done. All (λ output. true ≡ true) done.outputs.items) }
    {
        meter.note_run();
        done_by(*inputs.allocator(), *kind, &inputs, &answer)
    }
}

/// An input, or 0 past the last one.
fn input_at(inputs: &[u64], number: usize) -> u64
    ensures { result ≡ slice_index_or inputs.now number 0 }
{
    inputs.get(number).copied().unwrap_or(0)
}

/// How many bytes an answer has.
fn length_of(answer: &Option<Answer>) -> u64
    ensures { result ≡ length_meant (option_map answer_of answer.now) }
{
    match answer {
        Some(Answer::Whole(bytes)) => bytes.items().len() as u64,
        _ => 0,
    }
}

/// The output of a node.
fn number_of(kind: NumberKind, inputs: &[u64], answer: &Option<Answer>) -> u64
    ensures { result ≡ number_meant kind inputs.now (option_map answer_of answer.now) }
{
    match kind {
        NumberKind::Add => input_at(inputs, 0).saturating_add(input_at(inputs, 1)),
        NumberKind::Choose => input_at(inputs, 1),
        NumberKind::Measure => length_of(answer),
        NumberKind::Repeat => input_at(inputs, 0),
    }
}

/// What a run of a node gives.
pub(crate) fn done_by(
    alloc: Global,
    kind: NumberKind,
    inputs: &[u64],
    answer: &Option<Answer>,
) -> Result<Done<u64>, Memory>
    ensures { IfOk result (λ done. done_of (λ value. value) done ≡ record { outputs = number_meant kind inputs.now (option_map answer_of answer.now) ∷ []; warnings = [] }) }
{
    let mut outputs = Vec::with_capacity(alloc, 1)?;
    outputs.push(number_of(kind, inputs, answer))?;
    Ok(Done {
        outputs,
        warnings: Vec::new(alloc),
    })
}
