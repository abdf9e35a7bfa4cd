ghost use Rattle.std.specs.Prelude.{◌≡◌, ℕ, ◌+◌, ◌*◌, ◌/◌, ◌%◌, ◌^◌, ◌<◌, ◌≤◌, ◌++◌, length, set, take, drop, IsTrue, Some, ◌∷◌, [], if◌then◌else◌};
ghost use Rattle.std.specs.List.{list_all};
ghost use Rattle.std.specs.Fmt.{decimal};
ghost use Rattle.std.specs.Int.{is_negative};
ghost use Rattle.gn_decimal.specs.Decimal.{dec, is_number_byte, fraction_digits, minus_for, nearest, num, point_and_digits};
ghost use Rattle.gn_decimal.specs.Padded.{padded};

use crate::rounding::{RAW_ONE, nearest};
use gn_value::Fx;

/// A part of 2^-32 is `FIVES / TWOS` ten-billionths: both 10^10 and 2^32 divided by 2^10.
const FIVES: u64 = 9_765_625;

const TWOS: u64 = 4_194_304;

/// The two digits of each number below 100.
static PAIRS: [u8; 200] =
    *b"00010203040506070809101112131415161718192021222324252627282930313233343536373839404142434445464748495051525354555657585960616263646566676869707172737475767778798081828384858687888990919293949596979899";

/// A fraction of ten places without the zeros at its end.
struct Fraction {
    digits: u64,
    places: usize,
}

/// How many digits the number has.
#[inline(always)]
#[tactic(auto, using(crate::proofs::Padding::length_decimal_is))]
fn digit_count(number: u64) -> usize
    requires { number < 10 ^ 10 }
    ensures value { result ≡ length (decimal number) }
    ensures within { (0 < result) × (result ≤ 10) }
{
    let mut count = 1;
    let mut power = 10;
    while number >= power {
        count += 1;
        power *= 10;
    }
    count
}

/// Writes the two digits of a number below 100.
#[inline(always)]
#[tactic(auto, using(crate::proofs::Padding::pair_at))]
fn write_pair(number: u64, into: &mut [u8], at: usize)
    requires { (number < 100) × (at + 2 ≤ length into.old) }
    ensures { into.new ≡ set (set into.old (at + 1) (48 + number % 10)) at (48 + number / 10) }
{
    let from = number as usize * 2;
    into[at + 1] = PAIRS[from + 1];
    into[at] = PAIRS[from];
}

/// Writes the last `count` digits of the number, with zeros before them where it has fewer.
#[inline(always)]
fn write_digits(number: u64, count: usize, into: &mut [u8], at: usize)
    requires { at + count ≤ length into.old }
    ensures { into.new ≡ take at into.old ++ (padded count number ++ drop (at + count) into.old) }
{
    let mut left = number;
    let mut place = count;
    while place > 1 {
        place -= 2;
        write_pair(left % 100, into, at + place);
        left /= 100;
    }
    if place > 0 {
        into[at] = b'0' + (left % 10) as u8;
    }
}

/// Writes the digits of a whole number behind the first `at` bytes, and gives where they end.
///
/// What is in `into` behind them is not said. The call takes no memory.
#[inline(always)]
#[tactic(auto, using(crate::proofs::Padding::padded_decimal))]
pub fn write_whole(number: u64, into: &mut [u8], at: usize) -> usize
    requires small { number < 10 ^ 10 }
    requires room { at + 10 ≤ length into.old }
    ensures text { take result into.new ≡ take at into.old ++ decimal number }
    ensures within { (at < result) × (result ≤ at + 10) }
{
    let count = digit_count(number);
    write_digits(number, count, into, at);
    at + count
}

/// Leaves out the zeros at the end of a fraction of ten places.
#[inline(always)]
#[tactic(auto, using(crate::proofs::Padding::fraction_digits_padded, crate::proofs::Padding::without_zero))]
fn without_zeros(fraction: u64) -> Fraction
    requires { (0 < fraction) × (fraction < 10 ^ 10) }
    ensures digits { padded result.places result.digits ≡ fraction_digits 10 fraction }
    ensures within { result.places ≤ 10 }
{
    let mut digits = fraction;
    let mut places = 10;
    while digits % 10 == 0 {
        digits /= 10;
        places -= 1;
    }
    Fraction { digits, places }
}

/// Writes a point and the fraction of ten places behind the first `at` bytes, if it is not 0, and gives where it ends.
#[inline(always)]
fn write_fraction(fraction: u64, into: &mut [u8], at: usize) -> usize
    requires small { fraction < 10 ^ 10 }
    requires room { at + 11 ≤ length into.old }
    ensures text { take result into.new ≡ take at into.old ++ point_and_digits fraction }
    ensures within { (at ≤ result) × (result ≤ at + 11) }
{
    if fraction == 0 {
        return at;
    }
    into[at] = b'.';
    let Fraction { digits, places } = without_zeros(fraction);
    write_digits(digits, places, into, at + 1);
    at + 1 + places
}

/// Writes a minus behind the first `at` bytes for a number below zero, and gives where it ends.
#[inline(always)]
#[tactic(auto, using(crate::proofs::Padding::write_one))]
fn write_sign(is_negative: bool, into: &mut [u8], at: usize) -> usize
    requires { at < length into.old }
    ensures text { take result into.new ≡ take at into.old ++ (if is_negative then 45 ∷ [] else []) }
    ensures within { (at ≤ result) × (result ≤ at + 1) }
{
    if !is_negative {
        return at;
    }
    into[at] = b'-';
    at + 1
}

/// Writes the text of the number, as `print` does, behind the first `at` bytes, and gives where it ends.
///
/// What is in `into` behind the text is not said. The call takes no memory.
#[inline(always)]
#[tactic(auto, using(crate::proofs::Padding::ten_billionths_below))]
pub fn write_number(value: Fx, into: &mut [u8], at: usize) -> usize
    requires room { at + 24 ≤ length into.old }
    ensures text { take result into.new ≡ take at into.old ++ dec value.0 }
    ensures within { (at < result) × (result ≤ at + 22) }
{
    let magnitude = value.0.unsigned_abs();
    let start = write_sign(value.0 < 0, into, at);
    let point = write_whole(magnitude / RAW_ONE, into, start);
    let ten_billionths = nearest(magnitude % RAW_ONE * FIVES, TWOS);
    write_fraction(ten_billionths, into, point)
}

/// Writes the text of the number at the front of `into`, and gives its length.
///
/// The text is the multiple of 10^-10 nearest to the number, and of two equally near ones the even
/// one: a minus if it is below zero, its whole part without leading zeros, and where a fraction is
/// left a point and its digits without trailing zeros. `read` gives the number back from it. What
/// is in `into` behind the text is not said. The call takes no memory.
pub fn print(value: Fx, into: &mut [u8; 24]) -> usize
    ensures text { take result into.new ≡ dec value.0 }
    ensures reads_back { num (take result into.new) ≡ Some value.0 }
    ensures bytes { IsTrue (list_all is_number_byte (take result into.new)) }
    ensures within { (0 < result) × (result ≤ 22) }
{
    write_number(value, into, 0)
}
