ghost use Rattle.std.specs.Prelude.{◌≡◌, length};
ghost use Rattle.gn_value.specs.Arithmetic.{mean_of, sat, sat_int, total_by};
ghost use Rattle.gn_value.specs.Values.{fx, raw};

use crate::fixed::Fx;
use crate::whole::{mean, saturate_i32, saturate_i64};

/// The exact sum of raw numbers.
pub fn exact_sum(values: &[Fx]) -> i128
    ensures { result ≡ total_by raw values.now }
{
    let mut sum = 0;
    for value in values {
        sum += value.0 as i128;
    }
    sum
}

/// The exact sum of integers.
pub fn exact_integer_sum(values: &[i32]) -> i128
    ensures { result ≡ total_by (λ n. n) values.now }
{
    let mut sum = 0;
    for value in values {
        sum += *value as i128;
    }
    sum
}

/// The sum: added exactly, and brought into range once.
pub fn sum(values: &[Fx]) -> Fx
    ensures { result ≡ fx (sat (total_by raw values.now)) }
{
    Fx(saturate_i64(exact_sum(values)))
}

/// The mean: the exact sum divided by the count, rounded down once; 0 for no values.
pub fn mean_of_fixed(values: &[Fx]) -> Fx
    ensures { result ≡ fx (sat (mean_of (total_by raw values.now) (length values.now))) }
{
    Fx(saturate_i64(mean(exact_sum(values), values.len() as u64)))
}

/// The sum of integers: added exactly, and brought into range once.
pub fn integer_sum(values: &[i32]) -> i32
    ensures { result ≡ sat_int (total_by (λ n. n) values.now) }
{
    saturate_i32(exact_integer_sum(values))
}

/// The mean of integers: the exact sum divided by the count, rounded down once; 0 for no values.
pub fn mean_of_integers(values: &[i32]) -> i32
    ensures { result ≡ sat_int (mean_of (total_by (λ n. n) values.now) (length values.now)) }
{
    saturate_i32(mean(exact_integer_sum(values), values.len() as u64))
}
