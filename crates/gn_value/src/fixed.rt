ghost use Rattle.std.specs.Prelude.{◌≡◌, ◌^◌, ◌≤◌, ◌<◌, ◌+ℤ◌, ◌*ℤ◌, ◌<ℤ◌, pos, negsuc, int_div, unsigned_abs};
ghost use Rattle.std.specs.Int.{int_div_euclid, int_max, int_min, int_rem_euclid};
ghost use Rattle.gn_value.specs.Arithmetic.{ceil_of, difference_of, exact_product, floor_of, magnitude_of, modulo_of, one, product_of, quotient_of, raw_truth, root_of, sat, sum_of};
ghost use Rattle.gn_value.specs.Values.{fx};

use crate::whole::{divide_down, fraction_of, modulo_i64, saturate_i64, scale_down};
use gn_root::isqrt;

/// A fixed number: the raw number divided by 2^32.
#[derive(Clone, Copy, Debug, PartialEq, Eq, PartialOrd, Ord, Hash)]
pub struct Fx(pub i64);

impl Fx {
    /// The number 0.
    pub const ZERO: Fx = Fx(0);

    /// The number 1.
    pub const ONE: Fx = Fx(1 << 32);

    /// The sum, brought into the range of the type.
    pub fn add(self, b: Fx) -> Fx
        ensures { result ≡ fx (sum_of self.0 b.0) }
    {
        Fx(self.0.saturating_add(b.0))
    }

    /// The difference, brought into the range of the type.
    pub fn sub(self, b: Fx) -> Fx
        ensures { result ≡ fx (difference_of self.0 b.0) }
    {
        Fx(self.0.saturating_sub(b.0))
    }

    /// The product as a raw number, rounded down and without bounds.
    #[tactic(auto, unfolding(crate::specs::Arithmetic::exact_product))]
    pub fn exact_product(self, b: Fx) -> i128
        ensures value { result ≡ exact_product self.0 b.0 }
        ensures bound { unsigned_abs result ≤ 2 ^ 94 }
    {
        scale_down(self.0 as i128 * b.0 as i128)
    }

    /// The product, rounded down and then brought into the range of the type.
    pub fn mul(self, b: Fx) -> Fx
        ensures { result ≡ fx (product_of self.0 b.0) }
    {
        Fx(saturate_i64(self.exact_product(b)))
    }

    /// The quotient, rounded down and then brought into the range of the type; 0 where `b` is 0.
    pub fn div(self, b: Fx) -> Fx
        ensures { result ≡ fx (quotient_of self.0 b.0) }
    {
        if b.0 > 0 {
            return Fx(quotient(self.0, b.0 as u64));
        }
        match (self.0.checked_neg(), b.0.checked_neg()) {
            (Some(a), Some(b)) if b > 0 => Fx(quotient(a, b as u64)),
            _ => Fx(saturate_i64(divide_down(self.0 as i128 * (1 << 32), b.0 as i128))),
        }
    }

    /// What the quotient rounded down leaves: it has the sign of `b`, and is 0 where `b` is 0.
    pub fn modulo(self, b: Fx) -> Fx
        ensures { result ≡ fx (modulo_of self.0 b.0) }
    {
        Fx(modulo_i64(self.0, b.0))
    }

    /// The lesser of the two.
    pub fn min(self, b: Fx) -> Fx
        ensures { result ≡ fx (int_min self.0 b.0) }
    {
        Fx(self.0.min(b.0))
    }

    /// The greater of the two.
    pub fn max(self, b: Fx) -> Fx
        ensures { result ≡ fx (int_max self.0 b.0) }
    {
        Fx(self.0.max(b.0))
    }

    /// The absolute value, brought into the range of the type.
    pub fn abs(self) -> Fx
        ensures { result ≡ fx (magnitude_of self.0) }
    {
        Fx(self.0.saturating_abs())
    }

    /// The square root, rounded down; 0 for a negative number.
    pub fn sqrt(self) -> Fx
        ensures { result ≡ fx (root_of self.0) }
    {
        if self.0 < 0 {
            return Fx(0);
        }
        Fx(isqrt(self.0 as u128 * (1 << 32)) as i64)
    }

    /// The whole number at or below this one.
    pub fn floor(self) -> Fx
        ensures { result ≡ fx (floor_of self.0) }
    {
        Fx((self.0 >> 32) * (1 << 32))
    }

    /// The whole number at or above this one, brought into the range of the type.
    pub fn ceil(self) -> Fx
        ensures { result ≡ fx (ceil_of self.0) }
    {
        Fx(saturate_i64(-scale_down(-(self.0 as i128)) * (1 << 32)))
    }

    /// The number without its fraction, which always fits: rounded towards zero.
    pub fn truncate(self) -> i32
        ensures { result ≡ int_div self.0 one }
    {
        (self.0 / (1 << 32)) as i32
    }

    /// 1 for true and 0 for false.
    pub fn from_truth(truth: bool) -> Fx
        ensures { result ≡ fx (raw_truth truth) }
    {
        if truth { Fx::ONE } else { Fx::ZERO }
    }

    /// The fixed number that an integer is.
    pub fn from_integer(integer: i32) -> Fx
        ensures { result ≡ fx (integer *ℤ one) }
    {
        Fx(integer as i64 * (1 << 32))
    }
}

/// The quotient of two raw numbers as a raw number, rounded down and then brought into range.
fn quotient(a: i64, b: u64) -> i64
    requires { 0 < b }
    ensures { result ≡ quotient_of a (pos b) }
{
    let (whole, rest) = whole_and_rest(a, b);
    with_fraction(whole, fraction_of(rest, b))
}

/// The quotient of two whole numbers rounded down, and what it leaves, by one division.
fn whole_and_rest(a: i64, b: u64) -> (i64, u64)
    requires { 0 < b }
    ensures whole { result.0 ≡ int_div_euclid a (pos b) }
    ensures rest { pos result.1 ≡ int_rem_euclid a (pos b) }
    ensures below { result.1 < b }
{
    if a < 0 {
        let m = below_minus_one(a);
        return (minus_one_less(m / b), b - 1 - m % b);
    }
    ((a as u64 / b) as i64, a as u64 % b)
}

/// How far a negative number is below -1.
fn below_minus_one(a: i64) -> u64
    requires { a <ℤ pos 0 }
    ensures value { a ≡ negsuc result }
    ensures bound { result < 2 ^ 63 }
{
    -(a + 1) as u64
}

/// The number that is so far below -1.
fn minus_one_less(m: u64) -> i64
    requires { m < 2 ^ 63 }
    ensures { result ≡ negsuc m }
{
    -(m as i64) - 1
}

/// A whole number and a fraction, as a raw number brought into range.
fn with_fraction(whole: i64, fraction: u64) -> i64
    requires { fraction < 2 ^ 32 }
    ensures { result ≡ sat (whole *ℤ one +ℤ pos fraction) }
{
    if whole > i32::MAX as i64 {
        i64::MAX
    } else if whole < i32::MIN as i64 {
        i64::MIN
    } else {
        whole * (1 << 32) + fraction as i64
    }
}
