ghost use Rattle.std.specs.Prelude.{◌≡◌, ℕ, ◌+◌, ◌-◌, ◌*◌, ◌/◌, ◌^◌, ◌<◌, ◌≤◌, min};
ghost use Rattle.gn_decimal.specs.Decimal.{nearest, raw_of, units};
ghost use Rattle.gn_decimal.specs.Kept.{Keeps, dropped_of};

use crate::significand::Significand;

/// The raw number of 1.
pub const RAW_ONE: u64 = 4_294_967_296;

/// A number of that many wholes or more is out of the range of a fixed number.
const WHOLES_OUT_OF_RANGE: u64 = 2_147_483_648;

const BILLION: u64 = 1_000_000_000;

/// Units of 10^-18 in a whole.
const UNITS_IN_ONE: u128 = 1_000_000_000_000_000_000;

/// A number of that many units or more, which are 2^31 wholes, is out of the range of a fixed number.
const OUT_OF_RANGE: u128 = 2_147_483_648_000_000_000_000_000_000;

/// The greatest absolute value of a raw number, 2^63.
const GREATEST: u64 = 9_223_372_036_854_775_808;

/// The powers of ten up to 10^9, in their order.
static POWERS: [u64; 10] = [
    1,
    10,
    100,
    1_000,
    10_000,
    100_000,
    1_000_000,
    10_000_000,
    100_000_000,
    1_000_000_000,
];

/// A power of ten that has at most nine zeros.
#[inline(always)]
fn power_of_ten(exponent: usize) -> u64
    requires { exponent < 10 }
    ensures { result ≡ 10 ^ exponent }
{
    POWERS[exponent]
}

/// The whole number nearest to the fraction, and the even one of two that are equally near.
#[inline(always)]
#[tactic(auto, using(std::proofs::lemmas::Bool::Decides::nat_tests), unfolding(crate::specs::Decimal::nearest))]
pub fn nearest(dividend: u64, divisor: u64) -> u64
    requires { (0 < divisor) × (divisor < 2 ^ 62) }
    ensures { result ≡ nearest dividend divisor }
{
    let quotient = dividend / divisor;
    let remainder = dividend % divisor;
    quotient + u64::from(2 * remainder + quotient % 2 > divisor)
}

/// The raw number nearest to a number of units.
#[tactic(auto, using(std::proofs::lemmas::Bool::Decides::nat_tests), unfolding(crate::specs::Decimal::nearest, crate::specs::Decimal::raw_of))]
fn raw_of_units(units: u128) -> u64
    requires { units < OUT_OF_RANGE }
    ensures { result ≡ raw_of units }
{
    let scaled = units * u128::from(RAW_ONE);
    let quotient = scaled / UNITS_IN_ONE;
    let remainder = scaled - quotient * UNITS_IN_ONE;
    (quotient + u128::from(2 * remainder + quotient % 2 > UNITS_IN_ONE)) as u64
}

/// The number without its last digits.
#[tactic(auto, using(crate::proofs::Units::pow_ten_pos, crate::proofs::Units::pow_ten_fits, crate::proofs::Units::quotient_none))]
fn without_last(digits: u128, count: usize) -> u128
    ensures { result ≡ digits / 10 ^ count }
{
    if count < 39 {
        digits / 10u128.pow(count as u32)
    } else {
        0
    }
}

/// The number with zeros behind it, or `OUT_OF_RANGE` where it is more.
#[tactic(auto, using(crate::proofs::Units::pow_ten_fits, crate::proofs::Units::product_large))]
fn with_zeros(digits: u128, count: usize) -> u128
    ensures { result ≡ min (digits * 10 ^ count) OUT_OF_RANGE }
{
    if digits == 0 {
        0
    } else if count < 39 {
        digits
            .saturating_mul(10u128.pow(count as u32))
            .min(OUT_OF_RANGE)
    } else {
        OUT_OF_RANGE
    }
}

/// The units of `digits * 10^up / 10^down`, or `OUT_OF_RANGE` where there are more.
#[tactic(auto, using(crate::proofs::Units::units_of_quotient, crate::proofs::Units::units_of_product))]
fn capped_units(digits: u128, up: usize, down: usize) -> u128
    requires { up + 18 < 2 ^ 64 }
    ensures { result ≡ min (units digits up down) OUT_OF_RANGE }
{
    let up = up + 18;
    if up < down {
        without_last(digits, down - up).min(OUT_OF_RANGE)
    } else {
        with_zeros(digits, up - down)
    }
}

/// The raw number nearest to `digits * 10^up / 10^down`, or 2^63 where it is more.
#[tactic(auto, using(crate::proofs::Units::raw_of_in_range, crate::proofs::Units::raw_of_out_of_range))]
fn long_magnitude(digits: u128, up: usize, down: usize) -> u64
    requires { up + 18 < 2 ^ 64 }
    ensures { result ≡ min (raw_of (units digits up down)) GREATEST }
{
    let units = capped_units(digits, up, down);
    if units == OUT_OF_RANGE {
        GREATEST
    } else {
        raw_of_units(units)
    }
}

/// The raw number nearest to `whole + part / 10^places`, or 2^63 where it is more, at nine places or fewer.
#[inline(always)]
pub fn short_magnitude(whole: u64, part: u64, places: usize) -> u64
    requires few { places < 10 }
    requires part { part < 10 ^ places }
    ensures { result ≡ min (raw_of (units (whole * 10 ^ places + part) 0 places)) GREATEST }
{
    if whole >= WHOLES_OUT_OF_RANGE {
        return GREATEST;
    }
    let billionths = part * power_of_ten(9 - places);
    whole * RAW_ONE + nearest(billionths * RAW_ONE, BILLION)
}

/// The same of digits of which the last `places` are behind the point.
fn split_magnitude(digits: u64, places: usize) -> u64
    requires { places < 10 }
    ensures { result ≡ min (raw_of (units digits 0 places)) GREATEST }
{
    let power = power_of_ten(places);
    short_magnitude(digits / power, digits % power, places)
}

/// The same at ten to eighteen places, where the number is in range.
#[tactic(auto, using(crate::proofs::Units::units_of_places, crate::proofs::Units::units_in_range, crate::proofs::Units::raw_of_in_range))]
fn medium_magnitude(digits: u64, places: usize) -> u64
    requires { (9 < places) × (places < 19) }
    ensures { result ≡ min (raw_of (units digits 0 places)) GREATEST }
{
    raw_of_units(u128::from(digits) * u128::from(power_of_ten(18 - places)))
}

/// The raw number nearest to `n * 10^up / 10^down`, or 2^63 where it is more, for the number n that the digits write.
#[inline(always)]
#[tactic(auto, using(crate::proofs::Units::raw_of_kept, crate::proofs::Units::units_shared))]
pub fn magnitude(digits: Significand, up: usize, down: usize) -> u64
    requires { up + dropped_of digits + 18 < 2 ^ 64 }
    ensures { (n : ℕ) → Keeps digits n → result ≡ min (raw_of (units n up down)) GREATEST }
{
    match digits {
        Significand::Short(number) if up <= down && down - up < 10 => {
            split_magnitude(number, down - up)
        }
        Significand::Short(number) if up <= down && down - up < 19 => {
            medium_magnitude(number, down - up)
        }
        Significand::Short(number) => long_magnitude(u128::from(number), up, down),
        Significand::Long { leading, dropped } => long_magnitude(leading, up + dropped, down),
    }
}
