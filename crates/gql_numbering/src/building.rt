ghost use Rattle.std.specs.Prelude.{◌≡◌, IfOk, OnOk};
ghost use Rattle.gql_numbering.specs.Numbered as spec;

use crate::mark::{Home, Spot};
use crate::numbering::Numbering;
use gql_model::{Definition, Document, Field, Selection, SelectionSet};
use std::alloc::Global;
use text_types::{Items, Memory};

/// The numbering of a document, in one pass.
pub fn number_document(alloc: Global, document: &Document) -> Result<Numbering, Memory>
    ensures { IfOk result (λ numbering. numbering ≡ spec.numbered document.now) }
{
    let mut numbering = Numbering::empty(alloc);
    'definitions: for (at, definition) in document.definitions.as_slice().iter().enumerate() {
        number_definition(alloc, definition, at as u64, &mut numbering)?;
    }
    Ok(numbering)
}

fn number_definition(
    alloc: Global,
    definition: &Definition,
    at: u64,
    numbering: &mut Numbering,
) -> Result<(), Memory>
    ensures { OnOk result (numbering.new ≡ spec.numbered_definition definition.now at numbering.old) }
{
    numbering.push_definition()?;
    match definition {
        Definition::Operation(operation) => {
            number_set(
                alloc,
                &operation.selection_set,
                Home::Definition(at),
                numbering,
            )
        }
        Definition::Fragment(fragment) => {
            number_set(
                alloc,
                &fragment.selection_set,
                Home::Definition(at),
                numbering,
            )
        }
        Definition::TypeSystem(_) => Ok(()),
    }
}

#[cycle(number)]
fn number_set(
    alloc: Global,
    set: &SelectionSet,
    home: Home,
    numbering: &mut Numbering,
) -> Result<(), Memory>
    ensures { OnOk result (numbering.new ≡ spec.numbered_set set.now home numbering.old) }
{
    let number = numbering.open(alloc, home)?;
    let mut marks = Items::new(alloc);
    'selections: for (at, selection) in set.selections.as_slice().iter().enumerate() {
        marks.push(numbering.mark())?;
        let spot = Spot {
            set: number,
            at: at as u64,
        };
        number_selection(alloc, selection, spot, numbering)?;
    }
    numbering.close(number, marks);
    Ok(())
}

#[cycle(number)]
fn number_selection(
    alloc: Global,
    selection: &Selection,
    spot: Spot,
    numbering: &mut Numbering,
) -> Result<(), Memory>
    ensures { OnOk result (numbering.new ≡ spec.numbered_selection selection.now spot numbering.old) }
{
    match selection {
        Selection::Field(field) => number_field(alloc, field, spot, numbering),
        Selection::Spread(_) => Ok(()),
        Selection::Inline(fragment) => {
            number_set(
                alloc,
                &fragment.selection_set,
                Home::Selection(spot),
                numbering,
            )
        }
    }
}

#[cycle(number)]
fn number_field(
    alloc: Global,
    field: &Field,
    spot: Spot,
    numbering: &mut Numbering,
) -> Result<(), Memory>
    ensures { OnOk result (numbering.new ≡ spec.numbered_field field.now spot numbering.old) }
{
    numbering.push_field(spot)?;
    match &field.selection_set {
        None => Ok(()),
        Some(set) => number_set(alloc, set, Home::Selection(spot), numbering),
    }
}
