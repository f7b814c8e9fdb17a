//! Responses of each form, as long as asked.

use crate::stop::Stop;
use std::alloc::Global;

/// How many fields a long head has beside the length of the body.
const FIELDS: usize = 90;

/// The bytes of each field's name, colon and line end.
const FIELD_FRAME: usize = 19;

/// The bytes of a chunk's data.
const CHUNK: usize = 10;

/// An answer of one text with so many letters.
fn answer(alloc: Global, letters: usize) -> Result<String, Stop> {
    let letters = "a".repeat(alloc, letters)?;
    Ok(format!(in alloc; "{{\"data\":{{\"a\":\"{letters}\"}}}}")?)
}

/// A response whose head states the length of its body.
pub(crate) fn stated(alloc: Global, letters: usize) -> Result<String, Stop> {
    let body = answer(alloc, letters)?;
    let size = body.len();
    Ok(format!(in alloc; "HTTP/1.1 200 OK\r\nContent-Length: {size}\r\n\r\n{body}")?)
}

/// A response in chunks of ten bytes.
pub(crate) fn chunked(alloc: Global, letters: usize) -> Result<String, Stop> {
    let chunks = "a\r\naaaaaaaaaa\r\n".repeat(alloc, letters / CHUNK)?;
    Ok(format!(in alloc;
        "HTTP/1.1 200 OK\r\nTransfer-Encoding: chunked\r\n\r\ne\r\n{{\"data\":{{\"a\":\"\r\n{chunks}3\r\n\"}}}}\r\n0\r\n\r\n"
    )?)
}

/// A response whose body lasts until the close.
pub(crate) fn until_close(alloc: Global, letters: usize) -> Result<String, Stop> {
    let body = answer(alloc, letters)?;
    Ok(format!(in alloc; "HTTP/1.1 200 OK\r\n\r\n{body}")?)
}

/// A response whose head has about so many bytes.
pub(crate) fn with_head(alloc: Global, bytes: usize) -> Result<String, Stop> {
    let letters = "a".repeat(alloc, (bytes / FIELDS).saturating_sub(FIELD_FRAME))?;
    let field = format!(in alloc; "A-Field-Of-Many: {letters}\r\n")?;
    let fields = field.repeat(alloc, FIELDS)?;
    Ok(format!(in alloc; "HTTP/1.1 200 OK\r\n{fields}Content-Length: 13\r\n\r\n{{\"data\":null}}")?)
}
