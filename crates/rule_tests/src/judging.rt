use crate::texts::document;
use check_model::Refusal;
use gql_check::first_refusal;
use schema_model::Schema;
use std::alloc::Global;
use std::test::Fail;
use text_types::Text;

/// What no ground refuses.
pub(crate) const ACCEPTED: u8 = 0;

pub(crate) const UNKNOWN_OPERATION: u8 = 101;

pub(crate) const INTROSPECTION: u8 = 102;

pub(crate) const TOO_LARGE: u8 = 103;

/// The number of the first rule that a document breaks, or one of the other grounds. No name is given where
/// the name is empty.
pub(crate) fn first_rule(
    alloc: Global,
    schema: &Schema,
    text: &str,
    name: &str,
) -> Result<u8, Fail> {
    let document = document(alloc, text)?;
    if name.is_empty() {
        return Ok(number_of(first_refusal(alloc, schema, &document, None)?));
    }
    let name = Text::from_str(alloc, name)?;
    Ok(number_of(first_refusal(alloc, schema, &document, Some(&name))?))
}

fn number_of(refusal: Option<Refusal>) -> u8 {
    match refusal {
        None => ACCEPTED,
        Some(Refusal::UnknownOperation) => UNKNOWN_OPERATION,
        Some(Refusal::Introspection) => INTROSPECTION,
        Some(Refusal::TooLarge) => TOO_LARGE,
        Some(Refusal::Invalid { rule }) => rule,
    }
}
