// Equality of trees.
ghost use Rattle.std.specs.Prelude.{◌≡◌, ◌↔◌, IsTrue, bytes_eq};
ghost use Rattle.arm_value.specs.Json.{row, pairs};
ghost use Rattle.arm_value.specs.View.{json};
ghost use Rattle.arm_value.specs.Same.{is_same, is_same_row, is_same_pairs};

use crate::text::Text;
use crate::value::{Fields, Items, Value};

impl Text {
    /// Whether the texts are equal, exactly.
    pub fn same(&self, other: &Text) -> bool
        ensures test { result ≡ bytes_eq self.now other.now }
        ensures equal { IsTrue result ↔ (self.now ≡ other.now) }
    {
        other.equals(self.as_str())
    }
}

impl Value {
    /// Whether the values are equal as trees. Names and texts compare exactly.
    pub fn same(&self, other: &Value) -> bool
        ensures test { result ≡ is_same (json self.now) (json other.now) }
        ensures equal { IsTrue result ↔ (json self.now ≡ json other.now) }
    {
        are_same(self, other)
    }
}

impl Items {
    /// Whether the items are equal as trees, one by one.
    pub fn same(&self, other: &Items) -> bool
        ensures test { result ≡ is_same_row (row self.now) (row other.now) }
        ensures equal { IsTrue result ↔ (self.now ≡ other.now) }
    {
        items_are_same(self, other)
    }
}

impl Fields {
    /// Whether the members are equal, name by name and tree by tree.
    pub fn same(&self, other: &Fields) -> bool
        ensures test { result ≡ is_same_pairs (pairs self.now) (pairs other.now) }
        ensures equal { IsTrue result ↔ (self.now ≡ other.now) }
    {
        members_are_same(self, other)
    }
}

#[cycle(same)]
fn are_same(one: &Value, other: &Value) -> bool
    ensures { result ≡ is_same (json one.now) (json other.now) }
{
    match one {
        Value::Null => match other {
            Value::Null => true,
            _ => false,
        },
        Value::Bool(a) => match other {
            Value::Bool(b) => *a == *b,
            _ => false,
        },
        Value::Int(a) => match other {
            Value::Int(b) => *a == *b,
            _ => false,
        },
        Value::Text(a) => match other {
            Value::Text(b) => a.same(b),
            _ => false,
        },
        Value::Array(a) => match other {
            Value::Array(b) => items_are_same(a, b),
            _ => false,
        },
        Value::Object(a) => match other {
            Value::Object(b) => members_are_same(a, b),
            _ => false,
        },
    }
}

#[cycle(same)]
fn items_are_same(one: &Items, other: &Items) -> bool
    ensures { result ≡ is_same_row (row one.now) (row other.now) }
{
    let a = one.as_slice();
    let b = other.as_slice();
    if a.len() != b.len() {
        return false;
    }
    for i in 0..a.len() {
        if !are_same(&a[i], &b[i]) {
            return false;
        }
    }
    true
}

#[cycle(same)]
fn members_are_same(one: &Fields, other: &Fields) -> bool
    ensures { result ≡ is_same_pairs (pairs one.now) (pairs other.now) }
{
    let a = one.as_slice();
    let b = other.as_slice();
    if a.len() != b.len() {
        return false;
    }
    for i in 0..a.len() {
        if !a[i].name.same(&b[i].name) || !are_same(&a[i].value, &b[i].value) {
            return false;
        }
    }
    true
}
