ghost use Rattle.std.specs.Prelude.{◌≡◌, ◌∷◌, IfOk};
ghost use Rattle.std.specs.List.{enumerate_from};
ghost use Rattle.std.specs.Option.{ok_or};
ghost use Rattle.std.specs.Result.{result_map_both};
ghost use Rattle.execution_model.specs.Values.{list_value};
ghost use Rattle.gql_value.specs.declared.value.Value.{out-Value};
ghost use Rattle.answer_model.specs.Fits as spec;
ghost use Rattle.answer_model.specs.Paths.{each};

use crate::leaves::leaf_value;
use gql_model::TypeRef;
use gql_value::Value;
use schema_model::Schema;
use std::alloc::Global;
use text_types::{Items, Memory, Text};

/// The indexes of items that lead to a place in lists, from the outermost list on.
pub type Places = Items<u64>;

/// What a value becomes, or the indexes that lead to the first item that doesn't fit; none where the
/// value itself doesn't.
pub type Fitted = Result<Value, Places>;

/// What a value of an answer becomes at a leaf type with its wrappers (GraphQL October 2021, 3.5, 3.9, 3.11
/// and 3.12, Result Coercion).
#[cycle(fits)]
pub fn fitted(
    alloc: Global,
    schema: &Schema,
    wanted: &TypeRef,
    value: &Value,
) -> Result<Fitted, Memory>
    ensures { IfOk result (λ fit. fit ≡ spec.fitted schema.now wanted.now value.now) }
{
    match wanted {
        TypeRef::Named { named, non_null } => named_fit(alloc, schema, named, *non_null, value),
        TypeRef::List { of, non_null } => list_fit(alloc, schema, of.get(), *non_null, value),
    }
}

fn named_fit(
    alloc: Global,
    schema: &Schema,
    name: &Text,
    required: bool,
    value: &Value,
) -> Result<Fitted, Memory>
    ensures { IfOk result (λ fit. fit ≡ spec.named_fit schema.now name.now required value.now (out-Value value.now)) }
{
    match value {
        Value::Null => Ok(fitted_null(alloc, required)),
        _ => Ok(leaf_value(alloc, schema, name, value)?.ok_or(Places::new(alloc))),
    }
}

/// Null, which a nullable type takes.
fn fitted_null(alloc: Global, required: bool) -> Fitted
    ensures { result ≡ spec.fitted_null required }
{
    if required {
        Err(Places::new(alloc))
    } else {
        Ok(Value::Null)
    }
}

#[cycle(fits)]
fn list_fit(
    alloc: Global,
    schema: &Schema,
    item: &TypeRef,
    required: bool,
    value: &Value,
) -> Result<Fitted, Memory>
    ensures { IfOk result (λ fit. fit ≡ spec.list_fit (spec.fitted schema.now item.now) required (out-Value value.now)) }
{
    match value {
        Value::Null => Ok(fitted_null(alloc, required)),
        Value::List(items) => items_fit(alloc, schema, item, items.as_slice()),
        _ => Ok(Err(Places::new(alloc))),
    }
}

#[cycle(fits)]
fn items_fit(
    alloc: Global,
    schema: &Schema,
    wanted: &TypeRef,
    items: &[Value],
) -> Result<Fitted, Memory>
    ensures { IfOk result (λ fit. fit ≡ result_map_both list_value (λ places. places) (each (spec.item_fit (spec.fitted schema.now wanted.now)) (enumerate_from 0 items.now))) }
{
    let mut values = Items::new(alloc);
    'items: for (at, item) in items.iter().enumerate() {
        match fitted(alloc, schema, wanted, item)? {
            Ok(value) => values.push(value)?,
            Err(places) => return Ok(Err(inside(at as u64, places)?)),
        }
    }
    Ok(Ok(Value::List(values)))
}

/// Places told from one list further out, in which the item has this index.
fn inside(at: u64, places: Places) -> Result<Places, Memory>
    ensures { IfOk result (λ all. all ≡ at ∷ places) }
{
    let mut all = places.into_vec();
    all.insert(0, at)?;
    Ok(Items::from_vec(all))
}
