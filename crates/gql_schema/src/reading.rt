//! Reading a schema from its text.

ghost use Rattle.std.specs.Prelude.{◌≡◌, Ok, Err, IfOk, IfErr};
ghost use Rattle.gql_schema.specs.Texts.{text_refusal, schema_of_forms, schema_in, IsSchemaError};

use crate::error::{Refusal, SchemaError};
use crate::verdict::judged;
use gql_model::TypeSystemForm;
use schema_model::Schema;
use schema_text::{Flaw, TextError, type_definitions};
use std::alloc::Global;

/// The schema that a text gives, or the least code that is broken and its least line.
pub fn read_schema(alloc: Global, text: &[u8]) -> Result<Schema, SchemaError>
    ensures schema { IfOk result (λ schema. schema_in text.now ≡ Ok schema) }
    ensures refused { IfErr result (IsSchemaError (schema_in text.now)) }
{
    match type_definitions(alloc, text) {
        Ok(forms) => schema_of_forms(alloc, forms),
        Err(TextError::Flawed(flaw)) => Err(text_refusal(flaw).into_error()),
        Err(TextError::Memory) => Err(SchemaError::Memory),
    }
}

fn schema_of_forms(alloc: Global, forms: Vec<TypeSystemForm>) -> Result<Schema, SchemaError>
    ensures schema { IfOk result (λ schema. schema_of_forms (Ok forms.items) ≡ Ok schema) }
    ensures refused { IfErr result (IsSchemaError (schema_of_forms (Ok forms.items))) }
{
    judged(alloc, forms)
}

fn text_refusal(flaw: Flaw) -> Refusal
    ensures { result ≡ text_refusal flaw }
{
    match flaw {
        Flaw::NotASchema { line } => Refusal { code: 1, line },
        Flaw::Extends { line } => Refusal { code: 2, line },
    }
}
