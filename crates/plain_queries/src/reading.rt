ghost use Rattle.std.specs.Prelude.{◌≡◌, IfOk, bytes_eq, not, option_map};
ghost use Rattle.std.specs.List.{list_all};
ghost use Rattle.gql_model.specs.declared.selection.Field.{out-Field};
ghost use Rattle.plain_queries.specs.Plain as spec;

use crate::selection::{Selection, SelectionSet};
use gql_model::{Definition, Document, Field, Operation, OperationKind};
use std::alloc::Global;
use text_types::{Memory, Named, Text};

/// The fields of a document, where it is one plain query.
pub fn plain_query(alloc: Global, document: &Document) -> Result<Option<SelectionSet>, Memory>
    ensures { IfOk result (λ fields. fields ≡ spec.plain_query_of document.now) }
{
    match document.definitions.as_slice() {
        [definition] => plain_definition(alloc, definition),
        _ => Ok(None),
    }
}

fn plain_definition(alloc: Global, definition: &Definition) -> Result<Option<SelectionSet>, Memory>
    ensures { IfOk result (λ fields. fields ≡ spec.plain_definition definition.now) }
{
    match definition {
        Definition::Operation(operation) if is_plain(operation) => {
            plain_set(alloc, &operation.selection_set)
        }
        _ => Ok(None),
    }
}

fn is_plain(operation: &Operation) -> bool
    ensures { result ≡ spec.is_plain operation.now }
{
    matches!(operation.kind, OperationKind::Query)
        && operation.name.is_none()
        && operation.variables.is_empty()
        && operation.directives.is_empty()
}

/// The fields of a selection set, where each is plain and no name stands twice.
#[cycle(plain)]
fn plain_set(alloc: Global, set: &gql_model::SelectionSet) -> Result<Option<SelectionSet>, Memory>
    ensures { IfOk result (λ fields. fields ≡ spec.plain_set set.now) }
{
    let mut fields = Named::new(alloc);
    'selections: for selection in set.selections.as_slice() {
        match with_field(fields, plain_selection(alloc, selection)?)? {
            None => return Ok(None),
            Some(more) => fields = more,
        }
    }
    Ok(Some(fields))
}

/// A field by its name, and what is selected of it.
type PlainField = (Text, Selection);

#[cycle(plain)]
fn plain_selection(
    alloc: Global,
    selection: &gql_model::Selection,
) -> Result<Option<PlainField>, Memory>
    ensures { IfOk result (λ field. field ≡ spec.plain_of selection.now) }
{
    match selection {
        gql_model::Selection::Field(field) => plain_field(alloc, field),
        _ => Ok(None),
    }
}

#[cycle(plain)]
fn plain_field(alloc: Global, field: &Field) -> Result<Option<PlainField>, Memory>
    ensures { IfOk result (λ plain. plain ≡ spec.plain_field field.now) }
{
    if !has_plain_head(field) {
        return Ok(None);
    }
    let selection = match &field.selection_set {
        None => Some(Selection::Leaf),
        Some(set) => plain_set(alloc, set)?.map(Selection::Set),
    };
    match selection {
        None => Ok(None),
        Some(selection) => Ok(Some((field.name.text.copy()?, selection))),
    }
}

/// These fields and one more, where it is plain and none of them has its name.
#[tactic(auto, using(crate::proofs::Names::lacks_all))]
fn with_field(
    mut fields: SelectionSet,
    field: Option<PlainField>,
) -> Result<Option<SelectionSet>, Memory>
    ensures { IfOk result (λ more. more ≡ spec.with_field fields field) }
{
    let Some((name, selection)) = field else {
        return Ok(None);
    };
    if !lacks(&fields, &name) {
        return Ok(None);
    }
    fields.push(name, selection)?;
    Ok(Some(fields))
}

fn has_plain_head(field: &Field) -> bool
    ensures { result ≡ spec.head_is_plain (out-Field field.now).alias (out-Field field.now).name.text (out-Field field.now).arguments (out-Field field.now).directives }
{
    field.alias.is_none()
        && field.arguments.is_empty()
        && field.directives.is_empty()
        && !field.name.text.as_str().starts_with("__")
}

fn lacks(fields: &SelectionSet, name: &Text) -> bool
    ensures { result ≡ spec.lacks fields.now name.now }
{
    fields
        .as_slice()
        .iter()
        .all(|(other, _)| other.as_bytes() != name.as_bytes())
}
