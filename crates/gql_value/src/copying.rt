ghost use Rattle.std.specs.Prelude.{◌≡◌, IfOk};

use crate::value::{Members, Value, Values};
use std::alloc::Global;
use text_types::{Items, Memory, Named};

#[cycle(copy)]
pub(crate) fn copy_value(alloc: Global, value: &Value) -> Result<Value, Memory>
    ensures { IfOk result (λ v. v ≡ value.now) }
{
    match value {
        Value::Null => Ok(Value::Null),
        Value::Bool(truth) => Ok(Value::Bool(*truth)),
        Value::Int(number) => Ok(Value::Int(*number)),
        Value::Text(text) => Ok(Value::Text(text.copy()?)),
        Value::List(items) => Ok(Value::List(copy_list(alloc, items)?)),
        Value::Obj(members) => Ok(Value::Obj(copy_object(alloc, members)?)),
    }
}

#[cycle(copy)]
fn copy_list(alloc: Global, items: &Values) -> Result<Values, Memory>
    ensures { IfOk result (λ copies. copies ≡ items.now) }
{
    let mut copies = Items::new(alloc);
    for item in items.as_slice() {
        copies.push(copy_value(alloc, item)?)?;
    }
    Ok(copies)
}

#[cycle(copy)]
fn copy_object(alloc: Global, members: &Members) -> Result<Members, Memory>
    ensures { IfOk result (λ copies. copies ≡ members.now) }
{
    let mut copies = Named::new(alloc);
    for (name, value) in members.as_slice() {
        copies.push(name.copy()?, copy_value(alloc, value)?)?;
    }
    Ok(copies)
}
