//! Values.
ghost use Rattle.std.specs.Prelude.{◌≡◌, IfOk};

use f77_uses::firsts::Firsts;
use hyb_base::bytes::Bytes;
use hyb_base::no_memory::NoMemory;
use std::alloc::Global;

/// A value.
#[derive(Drop)]
pub enum Value {
    /// A number of 64 bits.
    Integer(i64),
    /// True or false.
    Truth(bool),
    /// Characters.
    Chars(Bytes),
}

/// A copy of a value.
pub fn copy_value(alloc: Global, value: &Value) -> Result<Value, NoMemory>
    ensures { IfOk result (λ copy. copy ≡ value.now) }
{
    match value {
        Value::Integer(number) => Ok(Value::Integer(*number)),
        Value::Truth(holds) => Ok(Value::Truth(*holds)),
        Value::Chars(text) => Ok(Value::Chars(text.copy(alloc)?)),
    }
}

/// The values of names. A name is found in constant time.
pub type Values = Firsts<Value>;
