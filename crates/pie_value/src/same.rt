//! Equality of values and of stamps.
ghost use Rattle.std.specs.Prelude.{◌≡◌, ◌↔◌, IsTrue};

use crate::{Stamp, Value};

impl Value {
    /// Whether the values are equal.
    #[cycle(same)]
    pub fn same(&self, other: &Value) -> bool
        ensures { IsTrue result ↔ (self.now ≡ other.now) }
    {
        match (self, other) {
            (Value::Unit, Value::Unit) => true,
            (Value::Bool(a), Value::Bool(b)) => *a == *b,
            (Value::Int(a), Value::Int(b)) => *a == *b,
            (Value::Text(a), Value::Text(b)) => same_bytes(
                a.as_str().as_bytes(),
                b.as_str().as_bytes(),
            ),
            (Value::Path(a), Value::Path(b)) => same_bytes(
                a.as_str().as_bytes(),
                b.as_str().as_bytes(),
            ),
            (Value::List(a), Value::List(b)) => same_values(a.as_slice(), b.as_slice()),
            (Value::Tuple(a), Value::Tuple(b)) => same_values(a.as_slice(), b.as_slice()),
            (Value::Null, Value::Null) => true,
            (Value::Bytes(a), Value::Bytes(b)) => same_bytes(a.as_slice(), b.as_slice()),
            _ => false,
        }
    }
}

#[cycle(same)]
fn same_values(a: &[Value], b: &[Value]) -> bool
    ensures { IsTrue result ↔ (a.now ≡ b.now) }
{
    if a.len() != b.len() {
        return false;
    }
    for i in 0..a.len() {
        if !a[i].same(&b[i]) {
            return false;
        }
    }
    true
}

fn same_bytes(a: &[u8], b: &[u8]) -> bool
    ensures { IsTrue result ↔ (a.now ≡ b.now) }
{
    a == b
}

impl Stamp {
    /// Whether the stamps are equal.
    pub fn same(&self, other: &Stamp) -> bool
        ensures { IsTrue result ↔ (self.now ≡ other.now) }
    {
        match (self, other) {
            (Stamp::Absent, Stamp::Absent) => true,
            (Stamp::Present, Stamp::Present) => true,
            (Stamp::Hash(a), Stamp::Hash(b)) => same_bytes(a.as_slice(), b.as_slice()),
            (Stamp::Mark(a), Stamp::Mark(b)) => *a == *b,
            (Stamp::Whole(a), Stamp::Whole(b)) => a.same(b),
            (Stamp::Done, Stamp::Done) => true,
            _ => false,
        }
    }
}
