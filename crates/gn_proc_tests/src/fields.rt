// Fields to test with.
ghost use Rattle.std.specs.Prelude.{◌≡◌, None, IfOk, [], ◌∷◌};
ghost use Rattle.gn_value.specs.declared.value.ValueKind.TheVariants.{Int};
ghost use Rattle.gn_plain.specs.Fields.{kind_of_field};
ghost use Rattle.gn_field.specs.Trees.{HasSources};

use gn_field::{Field, FieldFault, Input, Source};
use gn_memory::Memory;
use gn_value::op::{IntegerMathOp, Op};
use gn_value::{Value, ValueKind};
use std::alloc::Global;

/// A list of two fields.
pub(crate) fn pair<S: Source>(
    alloc: Global,
    a: Field<S>,
    b: Field<S>,
) -> Result<Vec<Field<S>>, Memory>
    ensures { IfOk result (λ v. v.items ≡ a ∷ b ∷ []) }
{
    let mut pair = Vec::new(alloc);
    pair.push(a)?;
    pair.push(b)?;
    Ok(pair)
}

/// The sum of two fields of integers without sampled parts.
#[tactic(auto, unfolding(gn_value::specs::Operations::Takes, gn_value::specs::Operations::gives))]
pub(crate) fn sum<S: Source>(
    alloc: Global,
    a: Field<S>,
    b: Field<S>,
) -> Result<Field<S>, FieldFault>
    requires a { kind_of_field S.sources a ≡ Int }
    requires b { kind_of_field S.sources b ≡ Int }
    requires plain_a { HasSources (λ _. None) a }
    requires plain_b { HasSources (λ _. None) b }
    ensures kind { IfOk result (λ f. kind_of_field S.sources f ≡ Int) }
    ensures plain { IfOk result (λ f. HasSources (λ _. None) f) }
{
    let args = pair(alloc, a, b)?;
    let op = Op::IntegerMath {
        op: IntegerMathOp::Add,
    };
    Field::apply(alloc, op, args)
}

/// The index and as many ones.
pub(crate) fn chain<S: Source>(alloc: Global, ones: u32) -> Result<Field<S>, FieldFault>
    ensures { IfOk result (λ f. HasSources (λ _. None) f) }
{
    let mut field = Field::input(alloc, Input::Index)?;
    for _ in 0..ones {
        let one = Field::constant(alloc, Value::Int(1))?;
        field = sum(alloc, field, one)?;
    }
    Ok(field)
}

/// Gives each integer back.
#[derive(Drop)]
pub(crate) struct Same;

impl Source for Same {
    ghost use Rattle.gn_value.specs.declared.value.ValueKind.TheVariants.{Int};

    ghost sources = { record { kind = λ s. Int; value = λ s v. v } };

    ghost taken = { λ s. Int };

    fn takes(&self) -> ValueKind {
        ValueKind::Int
    }

    fn kind(&self) -> ValueKind {
        ValueKind::Int
    }

    fn give(&self, arg: Value) -> Value {
        arg
    }

    fn second(&self) -> Result<Self, Memory> {
        Ok(Same)
    }
}
