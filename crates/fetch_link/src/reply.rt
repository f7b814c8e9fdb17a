//! The reply to a client.

ghost use Rattle.std.specs.Prelude.{◌≡◌, true, IfOk};
ghost use Rattle.http_model.specs.Texts as spec;
ghost use Rattle.http_model.specs.Texts.{is_reply_status, reply_head, reply_text_of};

use std::alloc::Global;
use text_types::{Bytes, Memory};

/// The reply with this status and this body.
pub fn reply_text(alloc: Global, status: u16, body: &[u8]) -> Result<Bytes, Memory>
    requires { is_reply_status status ≡ true }
    ensures { IfOk result (λ text. text ≡ reply_text_of status body.now) }
{
    let mut text = head_text(alloc, status, body.len())?;
    text.append(body)?;
    Ok(text)
}

fn head_text(alloc: Global, status: u16, size: usize) -> Result<Bytes, Memory>
    ensures { IfOk result (λ head. head ≡ reply_head status size) }
{
    let phrase = phrase(status);
    let head = format!(in alloc;
        "HTTP/1.1 {status} {phrase}\r\nContent-Type: application/json\r\nContent-Length: {size}\r\nConnection: close\r\n\r\n"
    )?;
    Ok(Bytes::from_vec(head.into_bytes()))
}

/// The phrase of a status.
fn phrase(status: u16) -> &'static str
    ensures { result.now ≡ spec.phrase status }
{
    match status {
        200 => "OK",
        202 => "Accepted",
        400 => "Bad Request",
        404 => "Not Found",
        405 => "Method Not Allowed",
        413 => "Payload Too Large",
        _ => "Bad Gateway",
    }
}
