ghost use Rattle.std.specs.Prelude.{◌≡◌, ◌<◌};
ghost use Rattle.gn_value.specs.Arithmetic.{folded, mixed};

/// The number with its bits from `by` upward folded onto those below by exclusive or.
#[tactic(auto, unfolding(crate::specs::Arithmetic::folded))]
fn fold_down(z: u64, by: u32) -> u64
    requires { by < 64 }
    ensures { result ≡ folded by z }
{
    z ^ (z >> by)
}

/// The number with its bits mixed, as a hash: two folds with a product modulo 2^64 after each,
/// and a last fold.
#[tactic(auto, unfolding(crate::specs::Arithmetic::mixed))]
pub fn mix64(z: u64) -> u64
    ensures { result ≡ mixed z }
{
    let first = fold_down(z, 30).wrapping_mul(0xBF58476D1CE4E5B9);
    let second = fold_down(first, 27).wrapping_mul(0x94D049BB133111EB);
    fold_down(second, 31)
}
