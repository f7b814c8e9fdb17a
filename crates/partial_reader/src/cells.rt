ghost use Rattle.std.specs.Prelude.{◌≡◌, IfOk};
ghost use Rattle.std.specs.Option.{option_copied, option_map};
ghost use Rattle.std.specs.Result.{result_ok};
ghost use Rattle.gql_value.specs.declared.value.Value.{out-Value};
ghost use Rattle.answer_parts.specs.Types.{option_type};
ghost use Rattle.execution_model.specs.Values.{list_value, null_value};
ghost use Rattle.answer_model.specs.Fits.{fitted};
ghost use Rattle.answer_model.specs.Reading as spec;
ghost use Rattle.partial_reader.specs.Walks.{with_value};

use answer_parts::{ObjectType, fitted, type_told};
use cache_model::Cell;
use gql_model::TypeRef;
use gql_value::{Value, Values};
use schema_model::{Schema, TypeId};
use schema_rules::is_non_null;
use std::alloc::Global;
use text_types::Memory;

/// The value of a field of leaf type: of a leaf that fits. Any other cell counts as none.
pub(crate) fn leaf_value(
    alloc: Global,
    schema: &Schema,
    field_type: &TypeRef,
    cell: Option<&Cell>,
) -> Result<Option<Value>, Memory>
    ensures { IfOk result (λ value. spec.found_if value ≡ spec.leaf_found schema.now field_type.now (option_copied cell.entry)) }
{
    match cell {
        Some(Cell::Leaf(value)) => fitting(alloc, schema, field_type, value),
        _ => Ok(None),
    }
}

fn fitting(
    alloc: Global,
    schema: &Schema,
    field_type: &TypeRef,
    value: &Value,
) -> Result<Option<Value>, Memory>
    ensures { IfOk result (λ found. found ≡ result_ok (fitted schema.now field_type.now value.now)) }
{
    match fitted(alloc, schema, field_type, value)? {
        Ok(value) => Ok(Some(value)),
        Err(_) => Ok(None),
    }
}

/// Null as a leaf, which a nullable type takes.
pub(crate) fn null_leaf(field_type: &TypeRef, value: &Value) -> Option<Value>
    ensures { result ≡ spec.null_leaf field_type.now (out-Value value.now) }
{
    match value {
        Value::Null => null_if_nullable(field_type),
        _ => None,
    }
}

fn null_if_nullable(field_type: &TypeRef) -> Option<Value>
    ensures { result ≡ spec.null_leaf field_type.now (out-Value null_value) }
{
    if is_non_null(field_type) {
        None
    } else {
        Some(Value::Null)
    }
}

/// The object type that the cell of a `__typename` tells.
pub(crate) fn type_in_cell<'a>(
    schema: &Schema,
    parent: TypeId,
    cell: Option<&'a Cell>,
) -> Option<ObjectType<'a>>
    ensures { option_type result ≡ spec.type_in_cell schema.now parent (option_copied cell.entry) }
{
    match cell {
        Some(Cell::Leaf(value)) => type_told(schema, parent, value),
        _ => None,
    }
}

/// One value more, where each so far is there.
pub(crate) fn with_value(
    values: Option<Values>,
    value: Option<Value>,
) -> Result<Option<Values>, Memory>
    ensures { IfOk result (λ more. more ≡ with_value values value) }
{
    match (values, value) {
        (Some(mut values), Some(value)) => {
            values.push(value)?;
            Ok(Some(values))
        }
        _ => Ok(None),
    }
}

/// A list of these values, where each is there.
pub(crate) fn listed(values: Option<Values>) -> Option<Value>
    ensures { result ≡ option_map list_value values }
{
    match values {
        Some(values) => Some(Value::List(values)),
        None => None,
    }
}
