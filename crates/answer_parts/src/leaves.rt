ghost use Rattle.std.specs.Prelude.{◌≡◌, IfOk, false};
ghost use Rattle.std.specs.Option.{option_map_or};
ghost use Rattle.gql_value.specs.declared.value.Value.{out-Value};
ghost use Rattle.schema_model.specs.Tables.{entry};
ghost use Rattle.execution_model.specs.Scalars as scalars;
ghost use Rattle.answer_model.specs.Fits as spec;

use gql_value::Value;
use itoa::Buffer;
use schema_defaults::{takes_any, takes_boolean, takes_integer, takes_string};
use schema_model::{Schema, TypeForm};
use std::alloc::Global;
use text_types::{Memory, Text};

/// What a value that isn't null becomes at a scalar or an enum of this name.
pub(crate) fn leaf_value(
    alloc: Global,
    schema: &Schema,
    name: &Text,
    value: &Value,
) -> Result<Option<Value>, Memory>
    ensures { IfOk result (λ leaf. leaf ≡ spec.leaf_value schema.now name.now value.now (out-Value value.now)) }
{
    match value {
        Value::Null => Ok(None),
        Value::Bool(_) => itself_if(alloc, takes_boolean(schema, name), value),
        Value::Int(number) => whole_number_if(alloc, takes_whole(schema, name), *number, name),
        Value::Text(_) => itself_if(alloc, takes_text(schema, name), value),
        Value::List(_) => itself_if(alloc, takes_any(schema, name), value),
        Value::Obj(_) => itself_if(alloc, takes_any(schema, name), value),
    }
}

fn itself_if(alloc: Global, takes: bool, value: &Value) -> Result<Option<Value>, Memory>
    ensures { IfOk result (λ leaf. leaf ≡ spec.itself_if takes value.now) }
{
    if takes {
        Ok(Some(value.copy(alloc)?))
    } else {
        Ok(None)
    }
}

fn whole_number_if(
    alloc: Global,
    takes: bool,
    number: i64,
    name: &Text,
) -> Result<Option<Value>, Memory>
    ensures { IfOk result (λ leaf. leaf ≡ spec.itself_if takes (scalars.whole_number number name.now)) }
{
    if takes {
        Ok(Some(whole_number(alloc, number, name)?))
    } else {
        Ok(None)
    }
}

/// A whole number, which becomes its decimal text at an ID.
fn whole_number(alloc: Global, number: i64, name: &Text) -> Result<Value, Memory>
    ensures { IfOk result (λ value. value ≡ scalars.whole_number number name.now) }
{
    if name.as_str() == "ID" {
        Ok(Value::Text(Text::from_str(alloc, Buffer::new().format(number))?))
    } else {
        Ok(Value::Int(number))
    }
}

/// A whole number of an answer may have any size, and 0 fits wherever one does.
fn takes_whole(schema: &Schema, name: &Text) -> bool
    ensures { result ≡ spec.takes_whole schema.now name.now }
{
    takes_integer(schema, 0, name)
}

fn takes_text(schema: &Schema, name: &Text) -> bool
    ensures { result ≡ spec.takes_text schema.now name.now }
{
    takes_string(schema, name) || names_enum(schema, name)
}

fn names_enum(schema: &Schema, name: &Text) -> bool
    ensures { result ≡ spec.names_enum schema.now name.now }
{
    match schema.types.get(name) {
        Some(found) => is_enum(&found.form),
        None => false,
    }
}

fn is_enum(form: &TypeForm) -> bool
    ensures { result ≡ spec.is_enum form.now }
{
    matches!(form, TypeForm::Enum(_))
}
