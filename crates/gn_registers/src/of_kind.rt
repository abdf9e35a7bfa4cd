//! The types whose values are in registers.
ghost use Rattle.std.specs.Prelude.{◌≡◌, ◌<◌, ℕ, ℤ, false, length, pos, slice_index_or};
ghost use Rattle.gn_value.specs.Registers.{register_kind, register_len, register_value};
ghost use Rattle.gn_value.specs.Rows.{fixed_in, int_in, truth_in, vector_in};
ghost use Rattle.gn_value.specs.Values.{fx, kind_of, raw, v3};
ghost use Rattle.gn_value.specs.declared.value.Value.{Value};
ghost use Rattle.gn_value.specs.declared.value.Value.TheVariants as value;
ghost use Rattle.gn_value.specs.declared.value.ValueKind.{ValueKind};
ghost use Rattle.gn_value.specs.declared.value.ValueKind.TheVariants as k;
ghost use Rattle.gn_registers.specs.Kinds.{fixed_same, int_same, truth_same, vector_same};

use gn_value::op::Register;
use gn_value::{Fx, V3, Value, ValueKind};

/// A type whose values are those of one kind.
pub trait OfKind: Copy {
    ghost KIND: { ValueKind };

    /// The kind.
    const KIND: ValueKind;

    // the value that one of the type is
    ghost as_value: { Self → Value };

    // what a value of the kind holds; the zero where it is of another
    ghost in_value: { Value → Self };

    // false, 0, or 0 in each component
    ghost zero: { Self };

    /// The value that this is.
    fn value(self) -> Value
        ensures { result ≡ as_value self };

    /// What a value of the kind holds; the zero where it is of another kind.
    fn of(value: Value) -> Self
        ensures { result ≡ in_value value };

    /// The values of a register of the kind; none where it is of another kind.
    fn list(register: &Register) -> &[Self]
        ensures len { register_kind register.now ≡ KIND → length result.now ≡ register_len register.now }
        ensures values { register_kind register.now ≡ KIND → (k : ℕ) (v : Self) → k < length result.now →
            slice_index_or result.now k v ≡ in_value (register_value k register.now) };

    // a value of the kind is what it holds, as a value
    ghost same: { (v : Value) → kind_of v ≡ KIND → as_value (in_value v) ≡ v };
}

impl OfKind for bool {
    ghost KIND = { k.Truth };

    const KIND: ValueKind = ValueKind::Truth;

    ghost as_value = { value.Truth };

    ghost in_value = { truth_in };

    ghost zero = { false };

    ghost same = { truth_same };

    fn value(self) -> Value {
        Value::Truth(self)
    }

    fn of(value: Value) -> bool {
        match value {
            Value::Truth(truth) => truth,
            _ => false,
        }
    }

    fn list(register: &Register) -> &[bool] {
        match register {
            Register::Truth(values) => values.as_slice(),
            _ => &[],
        }
    }
}

impl OfKind for i32 {
    ghost KIND = { k.Int };

    const KIND: ValueKind = ValueKind::Int;

    ghost as_value = { value.Int };

    ghost in_value = { int_in };

    ghost zero = { pos 0 };

    ghost same = { int_same };

    fn value(self) -> Value {
        Value::Int(self)
    }

    fn of(value: Value) -> i32 {
        match value {
            Value::Int(integer) => integer,
            _ => 0,
        }
    }

    fn list(register: &Register) -> &[i32] {
        match register {
            Register::Int(values) => values.as_slice(),
            _ => &[],
        }
    }
}

impl OfKind for Fx {
    ghost KIND = { k.Fixed };

    const KIND: ValueKind = ValueKind::Fixed;

    ghost as_value = { value.Fixed };

    ghost in_value = { λ v. fx (fixed_in v) };

    ghost zero = { fx (pos 0) };

    ghost same = { fixed_same };

    fn value(self) -> Value {
        Value::Fixed(self)
    }

    fn of(value: Value) -> Fx {
        match value {
            Value::Fixed(fixed) => fixed,
            _ => Fx::ZERO,
        }
    }

    fn list(register: &Register) -> &[Fx] {
        match register {
            Register::Fixed(values) => values.as_slice(),
            _ => &[],
        }
    }
}

impl OfKind for V3 {
    ghost KIND = { k.Vector };

    const KIND: ValueKind = ValueKind::Vector;

    ghost as_value = { value.Vector };

    ghost in_value = { vector_in };

    ghost zero = { v3 (pos 0) (pos 0) (pos 0) };

    ghost same = { vector_same };

    fn value(self) -> Value {
        Value::Vector(self)
    }

    fn of(value: Value) -> V3 {
        match value {
            Value::Vector(vector) => vector,
            _ => V3::ZERO,
        }
    }

    fn list(register: &Register) -> &[V3] {
        match register {
            Register::Vector(values) => values.as_slice(),
            _ => &[],
        }
    }
}

/// A type of numbers that can be compared.
pub trait Number: OfKind {
    // the number; that of a fixed number is its raw number
    ghost number: { Self → ℤ };

    /// The number; that of a fixed number is its raw number.
    fn number(self) -> i64
        ensures { result ≡ number self };
}

impl Number for i32 {
    ghost number = { λ n. n };

    fn number(self) -> i64 {
        self as i64
    }
}

impl Number for Fx {
    ghost number = { raw };

    fn number(self) -> i64 {
        self.0
    }
}
