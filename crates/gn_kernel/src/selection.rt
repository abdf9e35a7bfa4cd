//! The choice among whole registers, one case after the other.
ghost use Rattle.std.specs.Prelude.{◌≡◌, ◌<◌, ◌+◌, ℕ, All, Some, length, map, slice_get, slice_index_or};
ghost use Rattle.gn_value.specs.Registers.{register_kind, register_len};
ghost use Rattle.gn_value.specs.Operations.{Takes};
ghost use Rattle.gn_value.specs.Rows.{choice_of, row};
ghost use Rattle.gn_value.specs.declared.op.Op.TheVariants.{Select};
ghost use Rattle.gn_registers.specs.Arguments.{argument, arguments};
ghost use Rattle.gn_kernel.specs.Choices.{picked};

use crate::element::choice_of;
use gn_registers::{Arguments, OfKind, set_all};
use gn_value::op::Register;
use gn_value::{Fx, V3, Value};

/// The value where a choice is a case, and else what is there.
#[tactic(auto, unfolding(crate::specs::Choices::picked))]
fn picked<T: Copy>(case: u32, choice: i32, value: T, old: T) -> T
    ensures { result ≡ picked case choice value old }
{
    if choice as i64 == case as i64 {
        value
    } else {
        old
    }
}

/// Sets each position whose choice is a case to the argument of that case.
fn pick_by<C: OfKind, T: OfKind>(case: u32, args: &Arguments, into: &mut [T])
    requires long { All (λ register. register_len register ≡ length into.old) args.now }
    requires choices { slice_get (map register_kind args.now) 0 ≡ Some C.KIND }
    requires values { slice_get (map register_kind args.now) (case + 1) ≡ Some T.KIND }
    ensures { (k : ℕ) → k < length into.old → slice_index_or into.new k T.zero
        ≡ picked case (choice_of (argument k args.now 0)) (T.in_value (argument k args.now (case + 1))) (slice_index_or into.old k T.zero) }
{
    let choices: &[C] = args.list(0, into.len());
    let values: &[T] = args.list(case as usize + 1, into.len());
    for k in 0..into.len() {
        into[k] = picked(case, choice_of(choices[k].value()), values[k], into[k]);
    }
}

/// Sets each position whose choice is a case to the argument of that case.
fn pick<T: OfKind>(case: u32, args: &Arguments, into: &mut [T])
    requires long { All (λ register. register_len register ≡ length into.old) args.now }
    requires kind { slice_get (map register_kind args.now) (case + 1) ≡ Some T.KIND }
    ensures { (k : ℕ) → k < length into.old → slice_index_or into.new k T.zero
        ≡ picked case (choice_of (argument k args.now 0)) (T.in_value (argument k args.now (case + 1))) (slice_index_or into.old k T.zero) }
{
    match args.get(0) {
        Register::Truth(_) => pick_by::<bool, T>(case, args, into),
        Register::Int(_) => pick_by::<i32, T>(case, args, into),
        Register::Fixed(_) => pick_by::<Fx, T>(case, args, into),
        Register::Vector(_) => pick_by::<V3, T>(case, args, into),
    }
}

/// Sets each position to the value that the choice there names.
#[tactic(auto, unfolding(gn_value::specs::Rows::row))]
pub fn select<T: OfKind>(cases: u32, args: &Arguments, into: &mut [T])
    requires long { All (λ register. register_len register ≡ length into.old) args.now }
    requires kinds { Takes (Select T.KIND cases) (map register_kind args.now) }
    ensures { (k : ℕ) → k < length into.old →
        T.as_value (slice_index_or into.new k T.zero) ≡ row (Select T.KIND cases) (arguments k args.now) }
{
    set_all(T::of(Value::zero(T::KIND)), into);
    for case in 0..cases {
        pick(case, args, into);
    }
}
