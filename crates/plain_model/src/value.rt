//! Values.

ghost use Rattle.std.specs.Prelude.{◌≡◌};
ghost use Rattle.trace_types.specs.Values as values;
ghost use Rattle.plain_model.specs.Plain.{meaning};

/// A value of a trace. An object is named by its birth, the number of the line that made it. `Bwp` is Chez
/// Scheme's broken weak pointer. A fixnum is from -2^60 to 2^60 - 1.
#[derive(Clone, Copy, Debug, PartialEq, Eq)]
pub enum Value {
    Fixnum(i64),
    Nil,
    True,
    False,
    Bwp,
    Object(u32),
}

impl Value {
    /// Whether the two are one value.
    pub fn same_value(self, other: Value) -> bool
        ensures { result ≡ values.same_value (meaning self) (meaning other) }
    {
        match (self, other) {
            (Value::Fixnum(m), Value::Fixnum(n)) => m == n,
            (Value::Nil, Value::Nil) => true,
            (Value::True, Value::True) => true,
            (Value::False, Value::False) => true,
            (Value::Bwp, Value::Bwp) => true,
            (Value::Object(x), Value::Object(y)) => x == y,
            _ => false,
        }
    }

    /// Whether the value is a number from 0 to 255.
    pub fn is_byte(self) -> bool
        ensures { result ≡ values.is_byte (meaning self) }
    {
        match self {
            Value::Fixnum(number) => 0 <= number && number < 256,
            _ => false,
        }
    }
}
