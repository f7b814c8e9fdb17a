//! What a query reads in the present results.

ghost use Rattle.std.specs.Prelude.{◌≡◌, IfOk, option_map};
ghost use Rattle.gate_machine.specs.Cells.{flattened};
ghost use Rattle.gate_machine.specs.Readings.{field_reading, leaf_read, members_read, object_read, object_value, query_reading, readings_of};

use crate::history::find_cell;
use gate_machine::{Cell, EntityKey, Owner, Write};
use gql_value::{Members, Value};
use plain_queries::{Selection, SelectionSet};
use std::alloc::Global;
use text_types::{Items, Memory, Named, Text};

/// The answer to a query, where each field asked has a fitting cell.
pub(crate) fn read_query(
    alloc: Global,
    history: &[Items<Write>],
    query: &SelectionSet,
) -> Result<Option<Value>, Memory>
    ensures { IfOk result (λ answer. answer ≡ query_reading (flattened history.now) query.now) }
{
    let root = EntityKey {
        owner: Owner::Root,
        places: Items::new(alloc),
    };
    read_object(alloc, history, &root, query)
}

/// The object of these fields, where each has a value.
#[cycle(read)]
fn read_object(
    alloc: Global,
    history: &[Items<Write>],
    entity: &EntityKey,
    fields: &SelectionSet,
) -> Result<Option<Value>, Memory>
    ensures { IfOk result (λ object.
        object ≡ option_map object_value (members_read (flattened history.now) entity.now (readings_of fields.now))) }
{
    Ok(read_members(alloc, history, entity, fields)?.map(Value::Obj))
}

/// The members of an object, in the order asked. It ends at the first field without a value.
#[cycle(read)]
fn read_members(
    alloc: Global,
    history: &[Items<Write>],
    entity: &EntityKey,
    fields: &SelectionSet,
) -> Result<Option<Members>, Memory>
    ensures { IfOk result (λ members.
        members ≡ members_read (flattened history.now) entity.now (readings_of fields.now)) }
{
    let mut members = Named::new(alloc);
    for (field, selection) in fields.as_slice() {
        match read_field(alloc, history, entity, field, selection)? {
            Some(value) => members.push(field.copy()?, value)?,
            None => return Ok(None),
        }
    }
    Ok(Some(members))
}

/// The value of a field with this selection.
#[cycle(read)]
fn read_field(
    alloc: Global,
    history: &[Items<Write>],
    entity: &EntityKey,
    field: &Text,
    selection: &Selection,
) -> Result<Option<Value>, Memory>
    ensures { IfOk result (λ value.
        value ≡ field_reading selection.now (flattened history.now) entity.now field.now) }
{
    let Some(cell) = find_cell(history, entity, field) else {
        return Ok(None);
    };
    match selection {
        Selection::Leaf => read_leaf(alloc, cell),
        Selection::Set(fields) => read_linked(alloc, history, cell, fields),
    }
}

/// The value of a cell that is asked for as it is. A link is none.
fn read_leaf(alloc: Global, cell: &Cell) -> Result<Option<Value>, Memory>
    ensures { IfOk result (λ value. value ≡ leaf_read cell.now) }
{
    match cell {
        Cell::Leaf(value) => Ok(Some(value.copy(alloc)?)),
        Cell::Link(_) => Ok(None),
    }
}

/// The value of a cell of which these fields are asked: a null, or the object behind a link.
#[cycle(read)]
fn read_linked(
    alloc: Global,
    history: &[Items<Write>],
    cell: &Cell,
    fields: &SelectionSet,
) -> Result<Option<Value>, Memory>
    ensures { IfOk result (λ value.
        value ≡ object_read (flattened history.now) (readings_of fields.now) cell.now) }
{
    match cell {
        Cell::Leaf(Value::Null) => Ok(Some(Value::Null)),
        Cell::Leaf(_) => Ok(None),
        Cell::Link(entity) => read_object(alloc, history, entity, fields),
    }
}
