//! A request from its text to its number, as far as is asked.

use crate::documents::Request;
use crate::stop::Stop;
use gql_check::check;
use gql_documents::parse_document;
use gql_model::Document;
use gql_tokens::nesting;
use op_keys::{Keys, canonical, with_typename};
use std::alloc::Global;

/// The deepest nesting of a document that is parsed.
const DEEPEST: u64 = 64;

/// The last step that is made of a request.
#[derive(Clone, Copy)]
pub(crate) enum Step {
    Parse,
    Check,
    Identity,
}

impl Step {
    pub(crate) fn named(name: &str) -> Result<Step, Stop> {
        match name {
            "parse" => Ok(Step::Parse),
            "check" => Ok(Step::Check),
            "identity" => Ok(Step::Identity),
            _ => Err(Stop::Name),
        }
    }
}

/// Takes a request up to this step.
pub(crate) fn take(
    alloc: Global,
    last: Step,
    request: &Request,
    keys: &mut Keys,
) -> Result<(), Stop> {
    let document = parsed(alloc, request.text.as_bytes())?;
    match last {
        Step::Parse => Ok(()),
        Step::Check => checked(alloc, request, document),
        Step::Identity => numbered(alloc, request, document, keys),
    }
}

fn parsed(alloc: Global, text: &[u8]) -> Result<Document, Stop> {
    if nesting(text) > DEEPEST {
        return Err(Stop::Refused);
    }
    Ok(parse_document(alloc, text)?)
}

fn checked(alloc: Global, request: &Request, document: Document) -> Result<(), Stop> {
    check(alloc, &request.schema, document, None)?;
    Ok(())
}

/// Checks a document, makes the one that is sent for it, and numbers the request.
fn numbered(
    alloc: Global,
    request: &Request,
    document: Document,
    keys: &mut Keys,
) -> Result<(), Stop> {
    let checked = check(alloc, &request.schema, document, None)?;
    with_typename(alloc, &request.schema, &checked.document)?;
    let identity = canonical(
        alloc,
        &checked.document,
        checked.operation(),
        &request.variables,
    )?;
    keys.intern(identity)?;
    Ok(())
}
