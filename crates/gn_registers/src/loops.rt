//! One typed loop for each number of arguments.
ghost use Rattle.std.specs.Prelude.{◌≡◌, ◌<◌, ℕ, All, [], ◌∷◌, length, map, slice_index_or};
ghost use Rattle.gn_value.specs.Registers.{register_kind, register_len};
ghost use Rattle.gn_registers.specs.Arguments.{argument};

use crate::arguments::Arguments;
use crate::of_kind::OfKind;

/// Sets each position to what `f` gives of the argument there.
pub fn each<A: OfKind, R: OfKind, F: Fn(A) -> R>(args: &Arguments, into: &mut [R], f: F)
    requires callable { F.IsAlwaysCallable f }
    requires long { All (λ register. register_len register ≡ length into.old) args.now }
    requires kinds { map register_kind args.now ≡ A.KIND ∷ [] }
    ensures { (k : ℕ) → k < length into.old →
        F.post f (A.in_value (argument k args.now 0)) (slice_index_or into.new k R.zero) }
{
    let a: &[A] = args.list(0, into.len());
    for k in 0..into.len() {
        into[k] = f(a[k]);
    }
}

/// Sets each position to what `f` gives of the two arguments there.
pub fn each_two<A: OfKind, B: OfKind, R: OfKind, F: Fn(A, B) -> R>(
    args: &Arguments,
    into: &mut [R],
    f: F,
)
    requires callable { F.IsAlwaysCallable f }
    requires long { All (λ register. register_len register ≡ length into.old) args.now }
    requires kinds { map register_kind args.now ≡ A.KIND ∷ B.KIND ∷ [] }
    ensures { (k : ℕ) → k < length into.old →
        F.post f (A.in_value (argument k args.now 0)) (B.in_value (argument k args.now 1)) (slice_index_or into.new k R.zero) }
{
    let a: &[A] = args.list(0, into.len());
    let b: &[B] = args.list(1, into.len());
    for k in 0..into.len() {
        into[k] = f(a[k], b[k]);
    }
}

/// Sets each position to what `f` gives of the three arguments there.
pub fn each_three<A: OfKind, B: OfKind, C: OfKind, R: OfKind, F: Fn(A, B, C) -> R>(
    args: &Arguments,
    into: &mut [R],
    f: F,
)
    requires callable { F.IsAlwaysCallable f }
    requires long { All (λ register. register_len register ≡ length into.old) args.now }
    requires kinds { map register_kind args.now ≡ A.KIND ∷ B.KIND ∷ C.KIND ∷ [] }
    ensures { (k : ℕ) → k < length into.old →
        F.post f (A.in_value (argument k args.now 0)) (B.in_value (argument k args.now 1)) (C.in_value (argument k args.now 2)) (slice_index_or into.new k R.zero) }
{
    let a: &[A] = args.list(0, into.len());
    let b: &[B] = args.list(1, into.len());
    let c: &[C] = args.list(2, into.len());
    for k in 0..into.len() {
        into[k] = f(a[k], b[k], c[k]);
    }
}

/// Sets each position to what `f` gives of the four arguments there.
pub fn each_four<A: OfKind, B: OfKind, C: OfKind, D: OfKind, R: OfKind, F: Fn(A, B, C, D) -> R>(
    args: &Arguments,
    into: &mut [R],
    f: F,
)
    requires callable { F.IsAlwaysCallable f }
    requires long { All (λ register. register_len register ≡ length into.old) args.now }
    requires kinds { map register_kind args.now ≡ A.KIND ∷ B.KIND ∷ C.KIND ∷ D.KIND ∷ [] }
    ensures { (k : ℕ) → k < length into.old →
        F.post f (A.in_value (argument k args.now 0)) (B.in_value (argument k args.now 1)) (C.in_value (argument k args.now 2)) (D.in_value (argument k args.now 3)) (slice_index_or into.new k R.zero) }
{
    let a: &[A] = args.list(0, into.len());
    let b: &[B] = args.list(1, into.len());
    let c: &[C] = args.list(2, into.len());
    let d: &[D] = args.list(3, into.len());
    for k in 0..into.len() {
        into[k] = f(a[k], b[k], c[k], d[k]);
    }
}

/// Sets each position to what `f` gives of the five arguments there, which have one kind.
pub fn each_five<A: OfKind, R: OfKind, F: Fn(A, A, A, A, A) -> R>(
    args: &Arguments,
    into: &mut [R],
    f: F,
)
    requires callable { F.IsAlwaysCallable f }
    requires long { All (λ register. register_len register ≡ length into.old) args.now }
    requires kinds { map register_kind args.now ≡ A.KIND ∷ A.KIND ∷ A.KIND ∷ A.KIND ∷ A.KIND ∷ [] }
    ensures { (k : ℕ) → k < length into.old →
        F.post f (A.in_value (argument k args.now 0)) (A.in_value (argument k args.now 1)) (A.in_value (argument k args.now 2)) (A.in_value (argument k args.now 3)) (A.in_value (argument k args.now 4)) (slice_index_or into.new k R.zero) }
{
    let a: &[A] = args.list(0, into.len());
    let b: &[A] = args.list(1, into.len());
    let c: &[A] = args.list(2, into.len());
    let d: &[A] = args.list(3, into.len());
    let e: &[A] = args.list(4, into.len());
    for k in 0..into.len() {
        into[k] = f(a[k], b[k], c[k], d[k], e[k]);
    }
}

/// Sets each position to one value.
pub fn set_all<R: Copy>(value: R, into: &mut [R])
    ensures { (k : ℕ) (r : R) → k < length into.old → slice_index_or into.new k r ≡ value }
{
    for k in 0..into.len() {
        into[k] = value;
    }
}
