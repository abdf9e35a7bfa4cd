//! Operations on whole numbers that the other modules share.
ghost use Rattle.std.specs.Prelude.{◌≡◌, ◌^◌, ◌≤◌, ◌<◌, ◌*◌, ◌/◌, pos, unsigned_abs};
ghost use Rattle.gn_value.specs.Arithmetic.{floor_div, mean_of, modulo_of, one, sat, sat_int, square};

/// The number brought into the range of a raw number.
pub fn saturate_i64(exact: i128) -> i64
    ensures { result ≡ sat exact }
{
    if exact > i64::MAX as i128 {
        i64::MAX
    } else if exact < i64::MIN as i128 {
        i64::MIN
    } else {
        exact as i64
    }
}

/// The number brought into the range of an integer.
pub fn saturate_i32(exact: i128) -> i32
    ensures { result ≡ sat_int exact }
{
    if exact > i32::MAX as i128 {
        i32::MAX
    } else if exact < i32::MIN as i128 {
        i32::MIN
    } else {
        exact as i32
    }
}

/// The quotient rounded down; 0 where the divisor is 0.
pub fn divide_down(a: i128, b: i128) -> i128
    requires a_has_negation { unsigned_abs a ≤ 2 ^ 126 }
    requires b_has_negation { unsigned_abs b ≤ 2 ^ 126 }
    ensures { result ≡ floor_div a b }
{
    if b > 0 {
        a.div_euclid(b)
    } else if b < 0 {
        (-a).div_euclid(-b)
    } else {
        0
    }
}

/// The fraction that a rest is of its divisor, as a raw number rounded down: in 64 bits where the
/// divisor is at most 2^48 or the rest below 2^32.
#[tactic(auto, using(crate::proofs::Division::below_scale))]
pub fn fraction_of(rest: u64, divisor: u64) -> u64
    requires { rest < divisor }
    ensures value { result ≡ rest * 2 ^ 32 / divisor }
    ensures below_one { result < 2 ^ 32 }
{
    if rest < 1 << 32 {
        rest * (1 << 32) / divisor
    } else if divisor <= 1 << 48 {
        fraction_in_halves(rest, divisor)
    } else {
        (rest as u128 * (1 << 32) / divisor as u128) as u64
    }
}

/// The same fraction, 16 bits at a time.
fn fraction_in_halves(rest: u64, divisor: u64) -> u64
    requires rest_of { rest < divisor }
    requires short { divisor ≤ 2 ^ 48 }
    ensures { result ≡ rest * 2 ^ 32 / divisor }
{
    let scaled = rest * (1 << 16);
    let left = scaled % divisor;
    scaled / divisor * (1 << 16) + left * (1 << 16) / divisor
}

/// The exact sum divided by the count, rounded down; 0 for no values.
pub fn mean(sum: i128, count: u64) -> i128
    ensures { result ≡ mean_of sum count }
{
    if count > 0 {
        sum.div_euclid(count as i128)
    } else {
        0
    }
}

/// The number divided by 2^32, rounded down.
pub fn scale_down(exact: i128) -> i128
    ensures { result ≡ floor_div exact one }
{
    exact >> 32
}

/// The square of a raw number, without bounds.
pub fn square(a: i64) -> u128
    ensures value { result ≡ square a }
    ensures bound { result ≤ 2 ^ 126 }
{
    a.unsigned_abs() as u128 * a.unsigned_abs() as u128
}

/// What the quotient rounded down leaves: it has the sign of `b`, and is 0 where `b` is 0.
#[tactic(auto, using(crate::proofs::Modulo::modulo_above_zero))]
pub fn modulo_i64(a: i64, b: i64) -> i64
    ensures { result ≡ modulo_of a b }
{
    if b > 0 {
        a.rem_euclid(b)
    } else if b < 0 {
        -(-(a as i128)).rem_euclid(-(b as i128)) as i64
    } else {
        0
    }
}

/// The same for integers.
#[tactic(auto, using(crate::proofs::Modulo::modulo_above_zero))]
pub fn modulo_i32(a: i32, b: i32) -> i32
    ensures { result ≡ modulo_of a b }
{
    if b > 0 {
        a.rem_euclid(b)
    } else if b < 0 {
        -(-(a as i64)).rem_euclid(-(b as i64)) as i32
    } else {
        0
    }
}
