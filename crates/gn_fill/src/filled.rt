// One value at each position, and the value at one.
ghost use Rattle.std.specs.Prelude.{◌≡◌, ℕ, ◌<◌, length, slice_index_or};
ghost use Rattle.gn_value.specs.Registers.{register_kind, register_len, register_value};
ghost use Rattle.gn_value.specs.Values.{kind_of};

use gn_registers::{OfKind, set_all};
use gn_value::op::Register;
use gn_value::{Fx, V3, Value};

/// The value at a position.
pub fn value_at(register: &Register, at: usize) -> Value
    requires { at < register_len register.now }
    ensures value { result ≡ register_value at register.now }
    ensures kind { kind_of result ≡ register_kind register.now }
{
    match register {
        Register::Truth(values) => Value::Truth(values[at]),
        Register::Int(values) => Value::Int(values[at]),
        Register::Fixed(values) => Value::Fixed(values[at]),
        Register::Vector(values) => Value::Vector(values[at]),
    }
}

/// Sets each position to one value.
fn fill_as<T: OfKind>(value: Value, into: &mut [T])
    requires { T.KIND ≡ kind_of value }
    ensures { (k : ℕ) (d : T) → k < length into.old → T.as_value (slice_index_or into.new k d) ≡ value }
{
    set_all(T::of(value), into)
}

/// Sets each position to one value.
pub fn fill(value: Value, into: &mut Register)
    requires { register_kind into.old ≡ kind_of value }
    ensures kind { register_kind into.new ≡ register_kind into.old }
    ensures len { register_len into.new ≡ register_len into.old }
    ensures values { (k : ℕ) → k < register_len into.old → register_value k into.new ≡ value }
{
    match into {
        Register::Truth(values) => fill_as(value, values.as_mut_slice()),
        Register::Int(values) => fill_as(value, values.as_mut_slice()),
        Register::Fixed(values) => fill_as(value, values.as_mut_slice()),
        Register::Vector(values) => fill_as(value, values.as_mut_slice()),
    }
}
