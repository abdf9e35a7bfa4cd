ghost use Rattle.std.specs.Prelude.{◌≡◌, option_map};
ghost use Rattle.serde_json.specs.View.{view, items_view};
ghost use Rattle.gn_atom.specs.Constant as spec;

use gn_value::{Fx, V3, ValueKind};
use serde_json::Value;

fn truth_in(value: &Value) -> Option<gn_value::Value>
    ensures { result ≡ spec.truth_in (view value.now) }
{
    Some(gn_value::Value::Truth(value.as_bool()?))
}

/// Returns the integer that the value is: a whole number of 32 bits.
fn int_in(value: &Value) -> Option<gn_value::Value>
    ensures { result ≡ spec.int_in (view value.now) }
{
    let number = value.as_i64()?;
    if -2_147_483_648 <= number && number <= 2_147_483_647 {
        return Some(gn_value::Value::Int(number as i32));
    }
    None
}

/// Returns the number that a text spells.
fn number_in(value: &Value) -> Option<Fx>
    ensures { option_map (λ x. x.0) result ≡ spec.number_in (view value.now) }
{
    let text = value.as_str()?;
    match gn_decimal::read(text.as_bytes()) {
        Ok(number) => Some(number),
        Err(_) => None,
    }
}

fn fixed_in(value: &Value) -> Option<gn_value::Value>
    ensures { result ≡ spec.fixed_in (view value.now) }
{
    Some(gn_value::Value::Fixed(number_in(value)?))
}

/// Returns the vector of an array of three numbers.
fn three_numbers(items: &[Value]) -> Option<gn_value::Value>
    ensures { result ≡ spec.three_numbers (items_view items.now) }
{
    match items {
        [x, y, z] => Some(gn_value::Value::Vector(V3 {
            x: number_in(x)?,
            y: number_in(y)?,
            z: number_in(z)?,
        })),
        _ => None,
    }
}

fn vector_in(value: &Value) -> Option<gn_value::Value>
    ensures { result ≡ spec.vector_in (view value.now) }
{
    three_numbers(value.as_array()?)
}

/// Returns the constant of a kind that the value is, and `None` for any other value.
pub fn constant_as(kind: ValueKind, value: &Value) -> Option<gn_value::Value>
    ensures { result ≡ spec.constant_as kind (view value.now) }
{
    match kind {
        ValueKind::Truth => truth_in(value),
        ValueKind::Int => int_in(value),
        ValueKind::Fixed => fixed_in(value),
        ValueKind::Vector => vector_in(value),
    }
}

/// Returns the constant that the value is: a truth, a whole number of 32 bits, the text of a number, or
/// an array of three such texts; `None` for any other value.
pub fn constant_in(value: &Value) -> Option<gn_value::Value>
    ensures { result ≡ spec.constant_in (view value.now) }
{
    match value {
        Value::Null => None,
        Value::Bool(_) => truth_in(value),
        Value::Number(_) => int_in(value),
        Value::String(_) => fixed_in(value),
        Value::Array(items) => three_numbers(items),
        Value::Object(_) => None,
    }
}
