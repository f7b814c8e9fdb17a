//! What the body of a response writes.

ghost use Rattle.std.specs.Prelude.{◌≡◌, [], ◌∷◌, ◌++◌, IfOk, IsErrOf, None, OnOk, option_map};
ghost use Rattle.serde_json.specs.View.{view};
ghost use Rattle.gate_machine.specs.Keys.{query_root};
ghost use Rattle.gate_machine.specs.Answers as spec;
ghost use Rattle.gate_machine.specs.Answers.{body_written, field_writing, members_written, write, writings_of};
ghost use Rattle.exchange_line.specs.Written.{Appends, typed_object_written};

use crate::object_key::key_of_object;
use gate_machine::{Cell, EntityKey, Owner, Write};
use gql_value::Value;
use plain_queries::{Selection, SelectionSet};
use serde_json::Value as Json;
use std::alloc::Global;
use text_types::{Items, Memory, Text};

/// Why an answer isn't written.
#[derive(Drop)]
enum Refusal {
    Memory,
    /// It is not of the form that was asked.
    Misfit,
}

impl From<Memory> for Refusal {
    ghost use Rattle.std.specs.Prelude.{◌≡◌};
    ghost use Rattle.exchange_line.specs.declared.answer.Refusal.TheVariants.{Memory};

    ghost from_gives = { λ _ refusal. refusal ≡ Memory };

    fn from(_: Memory) -> Refusal {
        Refusal::Memory
    }
}

/// The writes of a response's body, where it is of the form that was asked.
pub(crate) fn write_body(
    alloc: Global,
    query: &SelectionSet,
    body: &Json,
) -> Result<Option<Items<Write>>, Memory>
    ensures { IfOk result (λ writes. writes ≡ body_written query.now (view body.now)) }
{
    if body.get("errors").is_some() {
        return Ok(None);
    }
    match body.get("data") {
        Some(answer) if answer.is_object() => write_query(alloc, query, answer),
        _ => Ok(None),
    }
}

fn write_query(
    alloc: Global,
    query: &SelectionSet,
    answer: &Json,
) -> Result<Option<Items<Write>>, Memory>
    ensures { IfOk result (λ writes.
        writes ≡ members_written query_root (writings_of query.now) (view answer.now)) }
{
    let root = EntityKey {
        owner: Owner::Root,
        places: Items::new(alloc),
    };
    let mut writes = Items::new(alloc);
    match write_members(alloc, &root, query, answer, &mut writes) {
        Ok(()) => Ok(Some(writes)),
        Err(Refusal::Misfit) => Ok(None),
        Err(Refusal::Memory) => Err(Memory),
    }
}

/// Appends the writes of an object's fields, in the order asked.
#[cycle(answer)]
fn write_members(
    alloc: Global,
    entity: &EntityKey,
    fields: &SelectionSet,
    answer: &Json,
    out: &mut Items<Write>,
) -> Result<(), Refusal>
    ensures written { OnOk result (Appends out.old out.new
        (members_written entity.now (writings_of fields.now) (view answer.now))) }
    ensures misfit { IsErrOf result Refusal.Misfit
        → members_written entity.now (writings_of fields.now) (view answer.now) ≡ None }
{
    for (field, selection) in fields.as_slice() {
        let Some(value) = answer.get(field.as_str()) else {
            return Err(Refusal::Misfit);
        };
        write_field(alloc, entity, field, selection, value, out)?;
    }
    Ok(())
}

/// Appends what the value of a field writes.
#[cycle(answer)]
fn write_field(
    alloc: Global,
    entity: &EntityKey,
    field: &Text,
    selection: &Selection,
    value: &Json,
    out: &mut Items<Write>,
) -> Result<(), Refusal>
    ensures written { OnOk result (Appends out.old out.new
        (field_writing selection.now entity.now field.now (view value.now))) }
    ensures misfit { IsErrOf result Refusal.Misfit
        → field_writing selection.now entity.now field.now (view value.now) ≡ None }
{
    match selection {
        Selection::Leaf => write_leaf(alloc, entity, field, value, out),
        Selection::Set(_) if value.is_null() => {
            push_write(alloc, entity, field, Cell::Leaf(Value::Null), out)?;
            Ok(())
        }
        Selection::Set(fields) => write_object(alloc, entity, field, fields, value, out),
    }
}

fn write_leaf(
    alloc: Global,
    entity: &EntityKey,
    field: &Text,
    value: &Json,
    out: &mut Items<Write>,
) -> Result<(), Refusal>
    ensures written { OnOk result (Appends out.old out.new (option_map
        (λ leaf. write entity.now field.now (Cell.Leaf leaf) ∷ []) (spec.leaf_of (view value.now)))) }
    ensures misfit { IsErrOf result Refusal.Misfit → spec.leaf_of (view value.now) ≡ None }
{
    let Some(leaf) = leaf_of(alloc, value)? else {
        return Err(Refusal::Misfit);
    };
    push_write(alloc, entity, field, Cell::Leaf(leaf), out)?;
    Ok(())
}

/// Appends a link to an object, and then the writes of its fields.
#[cycle(answer)]
fn write_object(
    alloc: Global,
    entity: &EntityKey,
    field: &Text,
    fields: &SelectionSet,
    answer: &Json,
    out: &mut Items<Write>,
) -> Result<(), Refusal>
    ensures written { OnOk result (Appends out.old out.new
        (typed_object_written (writings_of fields.now) entity.now field.now (view answer.now))) }
    ensures misfit { IsErrOf result Refusal.Misfit
        → typed_object_written (writings_of fields.now) entity.now field.now (view answer.now) ≡ None }
{
    let Some(key) = key_of_object(alloc, entity, field, fields, answer)? else {
        return Err(Refusal::Misfit);
    };
    push_write(alloc, entity, field, Cell::Link(key.copy(alloc)?), out)?;
    write_members(alloc, &key, fields, answer, out)
}

fn push_write(
    alloc: Global,
    entity: &EntityKey,
    field: &Text,
    cell: Cell,
    out: &mut Items<Write>,
) -> Result<(), Memory>
    ensures { OnOk result (out.new ≡ out.old ++ write entity.now field.now cell ∷ []) }
{
    out.push(Write {
        entity: entity.copy(alloc)?,
        field: field.copy()?,
        cell,
    })
}

/// The value of a leaf, where it is one.
fn leaf_of(alloc: Global, answer: &Json) -> Result<Option<Value>, Memory>
    ensures { IfOk result (λ leaf. leaf ≡ spec.leaf_of (view answer.now)) }
{
    match answer {
        Json::Null => Ok(Some(Value::Null)),
        Json::Bool(truth) => Ok(Some(Value::Bool(*truth))),
        Json::Number(number) => Ok(number.as_i64().map(Value::Int)),
        Json::String(text) => Ok(Some(Value::Text(Text::from_str(alloc, text.as_str())?))),
        Json::Array(_) | Json::Object(_) => Ok(None),
    }
}
