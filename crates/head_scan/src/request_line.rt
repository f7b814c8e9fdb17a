//! The first line of a request (RFC 9112, 3).

ghost use Rattle.std.specs.Prelude.{◌≡◌, ◌≤◌, ◌++◌, ◌∷◌, [], ℕ, List, true, IfOk, length};
ghost use Rattle.httparse.specs.Grammar.{RequestHead, ReadsRequest};
ghost use Rattle.head_scan.specs.Scans.{IsRequestLine};

use httparse::Status;
use httparse::spans::{EMPTY_HEADER_SPAN, parse_request};
use std::alloc::Global;
use text_types::{Bytes, Memory};

/// The length of the empty lines and of the line behind them, with its end.
pub(crate) fn first_line_len(bytes: &[u8]) -> usize
    ensures { result ≤ length bytes.now }
{
    let mut begun = false;
    for (index, byte) in bytes.iter().enumerate() {
        if begun && *byte == b'\n' {
            return index + 1;
        }
        begun = begun || (*byte != b'\r' && *byte != b'\n');
    }
    bytes.len()
}

/// Whether the bytes are empty lines and a request line. They are, where an empty line behind them
/// makes a head without fields.
pub(crate) fn is_request_line(alloc: Global, line: &[u8]) -> Result<bool, Memory>
    ensures { IfOk result (λ is. is ≡ true → IsRequestLine line.now) }
{
    match line.split_last() {
        Some((last, _)) if *last == b'\n' => begins_head(alloc, line),
        _ => Ok(false),
    }
}

/// Whether the bytes, which end in a line feed, and an empty line are a head without fields.
fn begins_head(alloc: Global, line: &[u8]) -> Result<bool, Memory>
    requires { (front : List ℕ) × (line.now ≡ front ++ 10 ∷ []) }
    ensures { IfOk result (λ is. is ≡ true → IsRequestLine line.now) }
{
    let mut head = Bytes::new(alloc);
    head.append(line)?;
    head.push(b'\n')?;
    Ok(is_bare_head(head.as_slice()))
}

/// Whether the bytes are the head of a request without fields.
fn is_bare_head(bytes: &[u8]) -> bool
    ensures { result ≡ true → (head : RequestHead) × ReadsRequest bytes.now head [] × (head.fields ≡ []) }
{
    let mut headers = [EMPTY_HEADER_SPAN; 1];
    match parse_request(bytes, &mut headers) {
        Ok(Status::Complete(spans)) => spans.headers == 0 && spans.len == bytes.len(),
        _ => false,
    }
}
