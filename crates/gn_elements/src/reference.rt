ghost use Rattle.std.specs.Prelude.{◌≡◌, ◌<◌, ◌+◌, ◌-◌, ◌*◌, ◌^◌, min};
ghost use Rattle.gn_elements.specs.Digits.{number_capped, behind_digits};
ghost use Rattle.gn_elements.specs.References.{is_end_or_slash};
ghost use Rattle.gn_elements.specs.Steps.{IsReference};

use gn_decimal::split_sign;

/// What a reference names.
#[derive(Clone, Copy)]
pub(crate) enum Reference {
    /// The vertex of that number, from 0.
    Vertex(u32),
    /// No vertex, though it is of the form of a reference.
    Missing,
    /// It is not of that form.
    Malformed,
}

/// Below this number there is room for one more digit in 32 bits.
const ROOM: u32 = 429_496_729;

/// The number with one more digit behind it, or the greatest of its type where it is more.
#[inline(always)]
fn with_digit(number: u32, digit: u32) -> u32
    requires { digit < 10 }
    ensures { result ≡ min (number * 10 + digit) (2 ^ 32 - 1) }
{
    if number < ROOM {
        return number * 10 + digit;
    }
    number.saturating_mul(10).saturating_add(digit)
}

/// The number that the digits at the front write, or the greatest of its type where it is more, and
/// the text behind them.
#[inline(always)]
fn leading_number(text: &[u8]) -> (u32, &[u8])
    ensures number { result.0 ≡ number_capped 0 text.now }
    ensures behind { result.1.now ≡ behind_digits text.now }
{
    let mut number: u32 = 0;
    for (i, byte) in text.iter().enumerate() {
        if !byte.is_ascii_digit() {
            return (number, &text[i..]);
        }
        number = with_digit(number, u32::from(*byte - b'0'));
    }
    (number, &text[text.len()..])
}

#[inline(always)]
fn is_end_or_slash(text: &[u8]) -> bool
    ensures { result ≡ is_end_or_slash text.now }
{
    text.is_empty() || text.first() == Some(&b'/')
}

/// Resolves an OBJ reference; `count` vertices were read so far.
#[inline(always)]
#[tactic(auto, using(crate::proofs::Digits::capped_value, crate::proofs::Digits::behind_value))]
pub(crate) fn read_reference(word: &[u8], count: u32) -> Reference
    requires { count < 2 ^ 32 - 1 }
    ensures { IsReference count word.now result }
{
    let (is_negative, unsigned) = split_sign(word);
    let (number, behind) = leading_number(unsigned);
    if number == 0 || !is_end_or_slash(behind) {
        return Reference::Malformed;
    }
    if number > count {
        return Reference::Missing;
    }
    Reference::Vertex(if is_negative {
        count - number
    } else {
        number - 1
    })
}
