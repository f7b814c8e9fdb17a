ghost use Rattle.std.specs.Prelude.{◌≡◌, Ok, Err, IfOk, IfErr, OnOk, IsOk, false};
ghost use Rattle.std.specs.Option.{option_or};
ghost use Rattle.schema_text.specs.Depth.{nests_too_deep};
ghost use Rattle.schema_text.specs.Texts.{executable_line, first_executable, forms_in, all_forms, flaw_at, forms_of_document, forms_of, IsTextError};
ghost use Rattle.gql_documents.specs.Documents.{document_of};
ghost use Rattle.gql_tokens.specs.Nesting.{nesting_of};

use crate::depth::{deep_line, nests_too_deep};
use crate::error::{Flaw, TextError};
use crate::extensions::extends_at;
use gql_documents::parse_document;
use gql_model::{Definition, TypeSystemForm};
use gql_tokens::{Place, SyntaxError};
use std::alloc::Global;
use text_types::{Items, Memory};

/// The type system definitions that a text holds, or its flaw.
pub fn type_definitions(alloc: Global, text: &[u8]) -> Result<Vec<TypeSystemForm>, TextError>
    ensures ok { IfOk result (λ forms. forms_of text.now ≡ Ok forms.items) }
    ensures err { IfErr result (IsTextError (forms_of text.now)) }
{
    if nests_too_deep(text) {
        let line = deep_line(text);
        return Err(TextError::Flawed(Flaw::NotASchema { line }));
    }
    definitions_within(alloc, text)
}

/// The same of a text that doesn't nest too deep.
fn definitions_within(alloc: Global, text: &[u8]) -> Result<Vec<TypeSystemForm>, TextError>
    requires { nests_too_deep text.now ≡ false }
    ensures ok { IfOk result (λ forms. forms_of_document text.now (document_of text.now) ≡ Ok forms.items) }
    ensures err { IfErr result (IsTextError (forms_of_document text.now (document_of text.now))) }
{
    match parse_document(alloc, text) {
        Ok(document) => all_forms(alloc, document.definitions),
        Err(SyntaxError::Syntax { row, column }) => {
            let flaw = flaw_at(alloc, text, Place { row, column })?;
            Err(TextError::Flawed(flaw))
        }
        Err(SyntaxError::Memory) => Err(TextError::Memory),
    }
}

fn flaw_at(alloc: Global, text: &[u8], place: Place) -> Result<Flaw, Memory>
    ensures { IfOk result (λ flaw. flaw ≡ flaw_at text.now place) }
{
    let line = place.row;
    if extends_at(alloc, text, place)? {
        Ok(Flaw::Extends { line })
    } else {
        Ok(Flaw::NotASchema { line })
    }
}

/// All definitions, unless one is executable.
fn all_forms(
    alloc: Global,
    definitions: Items<Definition>,
) -> Result<Vec<TypeSystemForm>, TextError>
    ensures ok { IfOk result (λ forms. all_forms definitions (first_executable definitions) ≡ Ok forms.items) }
    ensures err { IfErr result (IsTextError (all_forms definitions (first_executable definitions))) }
{
    match first_executable(definitions.as_slice()) {
        Some(line) => Err(TextError::Flawed(Flaw::NotASchema { line })),
        None => Ok(forms_in(alloc, definitions)?),
    }
}

fn first_executable(definitions: &[Definition]) -> Option<u64>
    ensures { result ≡ first_executable definitions.now }
{
    definitions.iter().fold(None, |first, definition| {
        or_else(first, executable_line(definition))
    })
}

fn or_else(first: Option<u64>, second: Option<u64>) -> Option<u64>
    ensures { result ≡ option_or first second }
{
    first.or(second)
}

fn executable_line(definition: &Definition) -> Option<u64>
    ensures { result ≡ executable_line definition.now }
{
    match definition {
        Definition::Operation(operation) => Some(operation.place.row),
        Definition::Fragment(fragment) => Some(fragment.place.row),
        Definition::TypeSystem(_) => None,
    }
}

fn forms_in(alloc: Global, definitions: Items<Definition>) -> Result<Vec<TypeSystemForm>, Memory>
    ensures { IfOk result (λ forms. forms.items ≡ forms_in definitions) }
{
    let mut forms = Vec::new(alloc);
    'definitions: for definition in definitions.into_vec() {
        if let Definition::TypeSystem(definition) = definition {
            forms.push(definition.form)?;
        }
    }
    Ok(forms)
}
