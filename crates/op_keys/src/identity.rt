//! What makes a request the same as another.

ghost use Rattle.std.specs.Prelude.{◌≡◌, IfOk};
ghost use Rattle.gql_value.specs.declared.value.Value.TheVariants as value;
ghost use Rattle.op_keys.specs.Identities as spec;

use gql_model::{Document, Operation};
use gql_printing::print_document;
use gql_value::{Members, Value, sorted_text};
use schema_model::Table;
use std::alloc::Global;
use text_types::{Memory, Text};

/// The canonical text of the client's document, the name of the chosen operation or an empty text, and
/// the text of the coerced variables in the order of their names.
#[derive(Debug, Drop)]
pub struct Identity {
    pub document: Text,
    pub operation: Text,
    pub variables: Text,
}

/// The identity of an operation of a document with its coerced variables.
pub fn canonical(
    alloc: Global,
    document: &Document,
    operation: &Operation,
    variables: &Table<Value>,
) -> Result<Identity, Memory>
    ensures { IfOk result (λ identity. identity ≡ spec.identity_of document.now operation.now variables.now) }
{
    let values = object_of(alloc, variables)?;
    Ok(Identity {
        document: print_document(alloc, document)?,
        operation: name_or_empty(alloc, operation)?,
        variables: sorted_text(alloc, &values)?,
    })
}

fn name_or_empty(alloc: Global, operation: &Operation) -> Result<Text, Memory>
    ensures { IfOk result (λ text. text ≡ spec.name_or_empty operation.now) }
{
    match &operation.name {
        Some(name) => name.text.copy(),
        None => Ok(Text::new(alloc)),
    }
}

fn object_of(alloc: Global, variables: &Table<Value>) -> Result<Value, Memory>
    ensures { IfOk result (λ object. object ≡ value.Obj variables.now) }
{
    Ok(Value::Obj(members_of(alloc, variables)?))
}

fn members_of(alloc: Global, variables: &Table<Value>) -> Result<Members, Memory>
    ensures { IfOk result (λ members. members ≡ variables.now) }
{
    let mut members = Members::new(alloc);
    for (name, value) in variables.as_slice() {
        members.push(name.copy()?, value.copy(alloc)?)?;
    }
    Ok(members)
}
