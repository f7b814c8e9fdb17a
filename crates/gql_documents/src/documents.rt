//! Documents: the parser's entry.

ghost use Rattle.std.specs.Prelude.{◌≡◌, ◌<◌, ◌≤◌, length, OnOk};
ghost use Rattle.gql_tokens.specs.Nesting.{nesting_of};
ghost use Rattle.gql_documents.specs.Parsing.{Reads};
ghost use Rattle.gql_documents.specs.Documents as spec;
ghost use Rattle.gql_documents.specs.Documents.{Answers, DocumentsAreRead, Reading, document_of};
ghost use Rattle.gql_tokens.specs.declared.error.SyntaxError.TheVariants.{Syntax};

use crate::cursor::Cursor;
use crate::error::ParseError;
use crate::executables::{fragment, operation};
use crate::type_systems::type_system;
use gql_model::{Definition, Document};
use gql_tokens::{Place, SyntaxError};
use std::alloc::Global;
use text_types::Items;

// Definition = Operation | Fragment | TypeSystem
#[tactic(auto, unfolding(crate::specs::Documents::definition, crate::specs::Parsing::either, crate::specs::Parsing::via))]
fn definition(alloc: Global, tokens: &mut Cursor<'_>) -> Result<Definition, ParseError>
    ensures reads { Reads (spec.definition tokens.old) result tokens.new }
    ensures shorter { OnOk result (length tokens.new < length tokens.old) }
{
    if tokens.at_word(b"fragment") {
        return Ok(Definition::Fragment(fragment(alloc, tokens)?));
    }
    if tokens.at_operation() {
        return Ok(Definition::Operation(operation(alloc, tokens)?));
    }
    Ok(Definition::TypeSystem(type_system(alloc, tokens)?))
}

// Definition*
fn definitions(alloc: Global, tokens: &mut Cursor<'_>) -> Result<Items<Definition>, ParseError>
    ensures reads { Reads (spec.definitions tokens.old) result tokens.new }
    ensures shorter { OnOk result (length tokens.new ≤ length tokens.old) }
{
    let mut all = Items::new(alloc);
    'turn: while tokens.at_definition() {
        let next = definition(alloc, tokens)?;
        all.push(next)?;
    }
    Ok(all)
}

/// The document that a text is, or where the text is at fault: at the first token behind the longest
/// beginning of a document, where a lexical fault and the end of the text count as tokens.
pub fn parse_document(alloc: Global, text: &[u8]) -> Result<Document, SyntaxError>
    requires { nesting_of text.now ≤ 64 }
    ensures answers { Answers text.now result }
    ensures reads { Reading (document_of text.now) result }
{
    read_document(alloc, text)
}

#[tactic(auto, unfolding(crate::specs::Documents::document_of))]
fn read_document(alloc: Global, text: &[u8]) -> Result<Document, SyntaxError>
    ensures reads { Reading (document_of text.now) result }
{
    let mut tokens = Cursor::new(text);
    match definitions(alloc, &mut tokens) {
        Ok(definitions) => {
            if tokens.at_end() && !definitions.is_empty() {
                Ok(Document { definitions })
            } else {
                Err(fault_at(tokens.place()))
            }
        }
        Err(ParseError::Memory) => Err(SyntaxError::Memory),
        Err(ParseError::Syntax) => Err(fault_at(tokens.place())),
    }
}

fn fault_at(place: Place) -> SyntaxError
    ensures { result ≡ Syntax place.row place.column }
{
    SyntaxError::Syntax {
        row: place.row,
        column: place.column,
    }
}

/// Each text whose tokens derive a document is read as this document.
pub fn documents_are_read()
    ensures { DocumentsAreRead }
{}
