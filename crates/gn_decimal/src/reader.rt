ghost use Rattle.std.specs.Prelude.{◌≡◌, ℕ, ◌+◌, ◌*◌, ◌^◌, ◌<◌, ◌≤◌, ◌∷◌, length, min, OnErr, IfOk, None, Some, option_map, IfSome};
ghost use Rattle.std.specs.Str.Parse.{digits_value, digits_value_after};
ghost use Rattle.gn_decimal.specs.Decimal.{after_digits, after_fraction, digits_of, exponent_of, fraction_of, has_magnitude, small_number, magnitude_of, num, parts_of, signed_exponent};
ghost use Rattle.gn_decimal.specs.Kept.{Keeps, dropped_of};

use crate::NotANumber;
use crate::rounding::{magnitude, short_magnitude};
use crate::sign::split_sign;
use crate::significand::Significand;
use gn_value::Fx;

/// How long a text is at most whose digits fit 64 bits in any case.
const SHORT: usize = 18;

/// How many places behind the point are rounded in 64 bits.
const PLACES: usize = 9;

/// The digits that were read so far, how many were read last, and the text behind them.
#[derive(Drop)]
struct Digits<'a> {
    significand: Significand,
    count: usize,
    rest: &'a [u8],
}

/// Puts the digits at the front of the text behind those of `start`.
#[inline(always)]
#[tactic(auto, using(crate::proofs::Digits::all_digits_more, crate::proofs::Digits::value_after_more))]
fn take_digits<'a>(start: Significand, text: &'a [u8]) -> Digits<'a>
    requires { dropped_of start + length text.now < 2 ^ 64 }
    ensures rest { result.rest.now ≡ after_digits text.now }
    ensures keeps { (n : ℕ) → Keeps start n →
        Keeps result.significand (digits_value_after 10 n (digits_of text.now)) }
    ensures count { result.count ≡ length (digits_of text.now) }
    ensures drops_no_more { dropped_of result.significand + length result.rest.now
        ≤ dropped_of start + length text.now }
{
    let mut significand = start;
    for (i, byte) in text.iter().enumerate() {
        if !byte.is_ascii_digit() {
            return Digits {
                significand,
                count: i,
                rest: &text[i..],
            };
        }
        significand = significand.push(*byte - b'0');
    }
    Digits {
        significand,
        count: text.len(),
        rest: &text[text.len()..],
    }
}

/// The same of the digits behind a point, if the text goes on with one.
#[inline(always)]
fn take_fraction<'a>(start: Significand, text: &'a [u8]) -> Digits<'a>
    requires { dropped_of start + length text.now < 2 ^ 64 }
    ensures rest { result.rest.now ≡ after_fraction text.now }
    ensures count { result.count ≡ length (fraction_of text.now) }
    ensures keeps { (n : ℕ) → Keeps start n →
        Keeps result.significand (digits_value_after 10 n (fraction_of text.now)) }
    ensures drops_no_more { dropped_of result.significand ≤ dropped_of start + length text.now }
{
    match text {
        [b'.', fraction @ ..] => take_digits(start, fraction),
        _ => Digits {
            significand: start,
            count: 0,
            rest: text,
        },
    }
}

/// The value of a text that is at least one digit and nothing else, if it is at most 99.
#[tactic(auto, using(crate::proofs::Exponents::small_number_none, crate::proofs::Exponents::small_number_no_digit, crate::proofs::Exponents::small_number_too_large, crate::proofs::Exponents::small_number_is))]
fn read_small_number(digits: &[u8]) -> Option<u32>
    ensures value { result ≡ small_number digits.now }
    ensures small { IfSome result (λ value. value ≤ 99) }
{
    if digits.is_empty() {
        return None;
    }
    let mut value = 0;
    for byte in digits {
        if !byte.is_ascii_digit() {
            return None;
        }
        value = value * 10 + u32::from(*byte - b'0');
        if value > 99 {
            return None;
        }
    }
    Some(value)
}

#[tactic(auto, unfolding(crate::specs::Decimal::signed_exponent))]
fn read_signed_exponent(text: &[u8]) -> Option<i32>
    ensures { result ≡ signed_exponent text.now }
{
    let (is_negative, digits) = split_sign(text);
    let value = read_small_number(digits)? as i32;
    Some(if is_negative { -value } else { value })
}

/// The exponent that follows the digits: 0 where nothing does.
#[inline(always)]
#[tactic(auto, unfolding(crate::specs::Decimal::exponent_of))]
fn read_exponent(text: &[u8]) -> Option<i32>
    ensures { result ≡ exponent_of text.now }
{
    match text {
        [] => Some(0),
        [b'e' | b'E', exponent @ ..] => read_signed_exponent(exponent),
        _ => None,
    }
}

/// The number that the digits at the front of a short text write, and how many there are.
#[inline(always)]
#[tactic(auto, using(crate::proofs::Digits::all_digits_more, crate::proofs::Digits::value_more, crate::proofs::Digits::short_value))]
fn leading_digits(text: &[u8]) -> (u64, usize)
    requires { length text.now ≤ 18 }
    ensures value { result.0 ≡ digits_value 10 (digits_of text.now) }
    ensures count { result.1 ≡ length (digits_of text.now) }
    ensures below { result.0 < 10 ^ result.1 }
{
    let mut number = 0;
    for (i, byte) in text.iter().enumerate() {
        if !byte.is_ascii_digit() {
            return (number, i);
        }
        number = number * 10 + u64::from(*byte - b'0');
    }
    (number, text.len())
}

/// What follows the point that the text begins with.
#[inline(always)]
fn behind_point(text: &[u8]) -> Option<&[u8]>
    ensures { IfSome result (λ fraction. text.now ≡ 46 ∷ fraction.now) }
{
    match text {
        [b'.', fraction @ ..] => Some(fraction),
        _ => None,
    }
}

/// The absolute raw number of a text as most numbers are written: a short one of digits, and perhaps
/// a point and then one to nine places. Other texts are read by `read_magnitude`.
#[inline(always)]
fn read_short(text: &[u8]) -> Option<u64>
    ensures { IfSome result (has_magnitude text.now) }
{
    if text.len() > SHORT {
        return None;
    }
    let (whole, count) = leading_digits(text);
    if count == 0 {
        return None;
    }
    if count == text.len() {
        return Some(short_magnitude(whole, 0, 0));
    }
    let fraction = behind_point(&text[count..])?;
    let (part, places) = leading_digits(fraction);
    if places != fraction.len() || places > PLACES || places == 0 {
        return None;
    }
    Some(short_magnitude(whole, part, places))
}

/// The absolute raw number of a text without a sign, or 2^63 where it is more.
#[cold]
#[inline(never)]
#[tactic(auto, using(crate::proofs::Reading::magnitude_of_parts), unfolding(crate::specs::Decimal::parts_of))]
fn read_magnitude(text: &[u8]) -> Option<u64>
    ensures { result ≡ option_map (λ p. min (magnitude_of p) (2 ^ 63)) (parts_of text.now) }
{
    let whole = take_digits(Significand::Short(0), text);
    let fraction = take_fraction(whole.significand, whole.rest);
    if whole.count + fraction.count == 0 {
        return None;
    }
    let exponent = read_exponent(fraction.rest)?;
    let tens = exponent.unsigned_abs() as usize;
    Some(if exponent < 0 {
        magnitude(fraction.significand, 0, fraction.count + tens)
    } else {
        magnitude(fraction.significand, tens, fraction.count)
    })
}

/// The fixed number nearest to the decimal number that the text is.
///
/// A number is perhaps a sign, digits with at most one point before, among or behind them and at
/// least one digit, and then perhaps `e` or `E`, perhaps a sign, and at least one digit: an exponent
/// of ten from -99 to 99. Its absolute value is cut off behind the eighteenth place, brought to the
/// nearest multiple of 2^-32, of two equally near ones to that with an even raw number, and then
/// into the range of the type. The text may have any length; the call takes no memory.
#[tactic(auto, unfolding(crate::specs::Decimal::num))]
pub fn read(text: &[u8]) -> Result<Fx, NotANumber>
    ensures number { IfOk result (λ value. num text.now ≡ Some value.0) }
    ensures no_number { OnErr result (num text.now ≡ None) }
{
    let (is_negative, unsigned) = split_sign(text);
    let magnitude = match read_short(unsigned) {
        Some(magnitude) => magnitude,
        None => read_magnitude(unsigned).ok_or(NotANumber)?,
    };
    Ok(Fx(if is_negative {
        0i64.saturating_sub_unsigned(magnitude)
    } else {
        0i64.saturating_add_unsigned(magnitude)
    }))
}
