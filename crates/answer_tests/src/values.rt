use gql_value::{Fault, Members, Outcome, Value, outcome_of, write_text};
use itoa::Buffer;
use std::alloc::Global;
use std::test::Fail;
use text_types::{Bytes, Text};

/// The answer of a body and its errors, or the path of the first number that isn't whole.
pub(crate) fn answered(alloc: Global, body: &str) -> Result<Result<(Value, Value), Text>, Fail> {
    match outcome_of(alloc, 200, body.as_bytes())? {
        Outcome::Body { answer, errors } => Ok(Ok((answer, errors))),
        Outcome::Bad(Fault::F3 { path }) => Ok(Err(path)),
        Outcome::Bad(_) => Err("another fault")?,
    }
}

/// The answer of a body and its errors.
pub(crate) fn answer_of(alloc: Global, body: &str) -> Result<(Value, Value), Fail> {
    match answered(alloc, body)? {
        Ok(answered) => Ok(answered),
        Err(_) => Err("a number isn't whole")?,
    }
}

/// The members of a value that is an object.
pub(crate) fn members_of(value: &Value) -> Result<&Members, Fail> {
    match value {
        Value::Obj(members) => Ok(members),
        _ => Err("no object")?,
    }
}

/// Puts the text of a value behind another.
pub(crate) fn push_value(alloc: Global, text: &mut Text, value: &Value) -> Result<(), Fail> {
    let mut bytes = Bytes::new(alloc);
    write_text(value, &mut bytes)?;
    push_bytes(text, bytes)
}

fn push_bytes(text: &mut Text, bytes: Bytes) -> Result<(), Fail> {
    match String::from_utf8(bytes.into_vec()) {
        Ok(string) => Ok(text.push_str(string.as_str())?),
        Err(_) => Err("no UTF-8")?,
    }
}

/// Puts a number behind a text.
pub(crate) fn push_number(text: &mut Text, number: u64) -> Result<(), Fail> {
    Ok(text.push_str(Buffer::new().format(number))?)
}
