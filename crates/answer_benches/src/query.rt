ghost use Rattle.std.specs.Prelude.{IfOk};
ghost use Rattle.checked_operation.specs.Acceptance.{IsWhole};

use crate::stop::Stop;
use crate::types::Types;
use checked_operation::Checked;
use gql_check::check;
use gql_documents::parse_document;
use gql_model::Document;
use gql_tokens::nesting;
use gql_value::Value;
use schema_model::Table;
use std::alloc::Global;
use text_types::{Memory, Text};

/// What a screen of the list of todos asks for, and of one todo more.
const PAGE: &str =
    "query Page($id:ID=\"1\",$n:Boolean!){todos{...T} todo(id:$id){id author{id nick @include(if:$n)}}} fragment T on Todo{id text done author{...U}} fragment U on User{id name}";

/// The values of its variables.
pub(crate) fn variables(alloc: Global) -> Result<Table<Value>, Memory> {
    let id = Value::Text(Text::from_str(alloc, "1")?);
    Table::new(alloc)
        .put(Text::from_str(alloc, "id")?, id)?
        .put(Text::from_str(alloc, "n")?, Value::Bool(true))
}

/// The query under its schema.
pub(crate) fn operation(alloc: Global, types: &Types) -> Result<Checked, Stop>
    ensures { IfOk result (λ checked. IsWhole checked) }
{
    match check(alloc, &types.schema, document(alloc)?, None) {
        Ok(checked) => Ok(checked),
        Err(_) => Err(Stop::Refused),
    }
}

fn document(alloc: Global) -> Result<Document, Stop> {
    let bytes = PAGE.as_bytes();
    if nesting(bytes) > 64 {
        return Err(Stop::Refused);
    }
    match parse_document(alloc, bytes) {
        Ok(document) => Ok(document),
        Err(_) => Err(Stop::Refused),
    }
}
