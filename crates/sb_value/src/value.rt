//! Values.

ghost use Rattle.std.specs.Prelude.{◌≡◌};
ghost use Rattle.sb_value.specs.Values as says;

use sb_log::{Bytes, Handle, Text};
use std::alloc::AllocError;

/// A value of a batch.
#[derive(Debug, Drop, PartialEq, Eq)]
pub enum Value {
    Null,
    Number(i64),
    Text(Text),
    Bytes(Bytes),
    Identifier(Handle),
}

impl Clone for Value {
    ghost is_clone = { λ value copy. copy ≡ value };

    fn clone(&self) -> Result<Value, AllocError> {
        match self {
            Value::Null => Ok(Value::Null),
            Value::Number(number) => Ok(Value::Number(*number)),
            Value::Text(text) => Ok(Value::Text(text.clone()?)),
            Value::Bytes(bytes) => Ok(Value::Bytes(bytes.clone()?)),
            Value::Identifier(handle) => Ok(Value::Identifier(*handle)),
        }
    }
}

impl Value {
    pub fn is_null(&self) -> bool
        ensures { result ≡ says.is_null self.now }
    {
        matches!(self, Value::Null)
    }
}
