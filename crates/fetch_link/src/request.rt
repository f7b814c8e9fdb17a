//! The request to the origin.

ghost use Rattle.std.specs.Prelude.{◌≡◌, ◌++◌, IfOk, OnOk, option_map};
ghost use Rattle.http_model.specs.Texts as spec;
ghost use Rattle.http_model.specs.Texts.{name_text, request_head, request_body, request_text_of};

use gql_value::write_quoted;
use std::alloc::Global;
use text_types::{Bytes, Memory, Text};

/// The request that asks an operation of the origin at this port of the loopback. The variables are
/// the text of a JSON object.
pub fn request_text(
    alloc: Global,
    port: u16,
    document: &Text,
    operation: Option<&Text>,
    variables: &Text,
) -> Result<Bytes, Memory>
    ensures { IfOk result (λ text. text ≡ request_text_of port
        (request_body document.now (option_map (λ name. name.now) operation.entry) variables.now)) }
{
    let body = body_text(alloc, document, operation, variables)?;
    let mut text = head_text(alloc, port, body.len())?;
    text.append(body.as_slice())?;
    Ok(text)
}

fn body_text(
    alloc: Global,
    document: &Text,
    operation: Option<&Text>,
    variables: &Text,
) -> Result<Bytes, Memory>
    ensures { IfOk result (λ body. body ≡ request_body document.now (option_map (λ name. name.now) operation.entry) variables.now) }
{
    let mut body = Bytes::new(alloc);
    body.append(b"{\"query\":")?;
    write_quoted(document, &mut body)?;
    body.append(b",\"operationName\":")?;
    append_name(operation, &mut body)?;
    body.append(b",\"variables\":")?;
    body.append(variables.as_bytes())?;
    body.append(b"}")?;
    Ok(body)
}

fn append_name(operation: Option<&Text>, out: &mut Bytes) -> Result<(), Memory>
    ensures { OnOk result (out.new ≡ out.old ++ name_text (option_map (λ name. name.now) operation.entry)) }
{
    match operation {
        None => out.append(b"null"),
        Some(name) => write_quoted(name, out),
    }
}

fn head_text(alloc: Global, port: u16, size: usize) -> Result<Bytes, Memory>
    ensures { IfOk result (λ head. head ≡ request_head port size) }
{
    let head = format!(in alloc;
        "POST /graphql HTTP/1.1\r\nHost: 127.0.0.1:{port}\r\nContent-Type: application/json\r\nAccept: application/json\r\nContent-Length: {size}\r\nConnection: close\r\n\r\n"
    )?;
    Ok(Bytes::from_vec(head.into_bytes()))
}
