ghost use Rattle.std.specs.Prelude.{◌≡◌, IsTrue, ◌↔◌};

use crate::value::{Members, Value, Values};

#[cycle(same)]
pub(crate) fn same_value(a: &Value, b: &Value) -> bool
    ensures { IsTrue result ↔ (a.now ≡ b.now) }
{
    match (a, b) {
        (Value::Null, Value::Null) => true,
        (Value::Bool(a), Value::Bool(b)) => *a == *b,
        (Value::Int(a), Value::Int(b)) => *a == *b,
        (Value::Text(a), Value::Text(b)) => a.same(b),
        (Value::List(a), Value::List(b)) => same_list(a, b),
        (Value::Obj(a), Value::Obj(b)) => same_object(a, b),
        _ => false,
    }
}

#[cycle(same)]
fn same_list(a: &Values, b: &Values) -> bool
    ensures { IsTrue result ↔ (a.now ≡ b.now) }
{
    let (a, b) = (a.as_slice(), b.as_slice());
    if a.len() != b.len() {
        return false;
    }
    for i in 0..a.len() {
        if !same_value(&a[i], &b[i]) {
            return false;
        }
    }
    true
}

#[cycle(same)]
fn same_object(a: &Members, b: &Members) -> bool
    ensures { IsTrue result ↔ (a.now ≡ b.now) }
{
    let (a, b) = (a.as_slice(), b.as_slice());
    if a.len() != b.len() {
        return false;
    }
    for i in 0..a.len() {
        let (name, value) = &a[i];
        let (other_name, other_value) = &b[i];
        if !name.same(other_name) || !same_value(value, other_value) {
            return false;
        }
    }
    true
}
