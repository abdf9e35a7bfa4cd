ghost use Rattle.std.specs.Prelude.{◌≡◌, ◌<◌, ◌≤◌, ◌*◌};
ghost use Rattle.gn_root.specs.Roots.{IsRoot, root};

use std::num::{nearest_u64_to_f64, saturating_f64_to_u64};

/// Below this number a guess is off by one at most.
const EXACT: u64 = 1 << 52;

/// 2^64.
const HIGH: f64 = 18_446_744_073_709_551_616.0;

/// A float near the number.
#[inline(always)]
fn float_near(n: u128) -> f64 {
    nearest_u64_to_f64((n >> 64) as u64) * HIGH + nearest_u64_to_f64((n % (1 << 64)) as u64)
}

/// The greatest number up to another one whose square is at most `n`.
#[inline(always)]
fn lowered(n: u128, from: u64) -> u64
    ensures { result * result ≤ n }
{
    let mut root = from;
    while root as u128 * root as u128 > n {
        root -= 1;
    }
    root
}

/// The root, from a number that is not above it.
#[inline(always)]
fn raised(n: u128, from: u64) -> u64
    requires { from * from ≤ n }
    ensures { IsRoot n result }
{
    let mut root = from;
    while root < u64::MAX && (root + 1) as u128 * (root + 1) as u128 <= n {
        root += 1;
    }
    root
}

/// Newton's step: the mean of a number and of the quotient by it.
fn closer(n: u128, guess: u64) -> u64
    requires { 0 < guess }
{
    let mean = (n / guess as u128).midpoint(guess as u128);
    mean.min(u64::MAX as u128) as u64
}

/// The square root of `n`, rounded down.
#[tactic(auto, using(crate::proofs::Unique::root_unique))]
pub fn isqrt(n: u128) -> u64
    ensures root { IsRoot n result }
    ensures value { result ≡ root n }
{
    let guess = saturating_f64_to_u64(float_near(n).sqrt());
    let near = if guess < EXACT {
        guess
    } else {
        closer(n, guess)
    };
    raised(n, lowered(n, near))
}
