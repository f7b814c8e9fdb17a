//! A request, as its bytes come.

ghost use Rattle.std.specs.Prelude.{◌≡◌, ◌≤◌, ◌++◌, [], ℕ, List, IfOk, IsUtf8, length};
ghost use Rattle.httparse.specs.Grammar.{RequestHead};
ghost use Rattle.httparse.specs.Spans.{IsWithin, span_bytes};
ghost use Rattle.http_model.specs.Requests.{IsWholeRequest, request_framing_of};
ghost use Rattle.head_scan.specs.Scans.{ScansRequest};
ghost use Rattle.fetch_link.specs.Received.{ReceivedGives};
ghost use Rattle.fetch_link.specs.RequestHeads.{IsRequestHeadAt};
ghost use Rattle.fetch_link.specs.Hearing.{HearingGives, Hears, IsBegun};

use crate::received::{Pending, Received, begin, receive};
use crate::request_head::{JudgedRequest, judge_request};
use head_scan::RequestScan;
use http_model::Framing;
use httparse::spans::Span;
use std::alloc::Global;
use text_types::{Bytes, Memory, Text};

/// A head that is whole, and what came of its body.
#[derive(Debug, Drop)]
pub(crate) struct Begun {
    pub(crate) method: Text,
    pub(crate) path: Text,
    pub(crate) pending: Pending,
    pub(crate) kept: Bytes,
}

/// The bytes of a head.
#[derive(Debug, Drop)]
pub(crate) struct HeadSoFar {
    pub(crate) bytes: Bytes,
    /// Where they stand, so that only further bytes are looked at until the head has ended.
    pub(crate) scan: RequestScan,
}

/// What is kept of the bytes so far.
#[derive(Debug, Drop)]
pub(crate) enum Heard {
    Head(HeadSoFar),
    Body(Begun),
}

/// What further bytes make of a request.
#[derive(Debug, Drop)]
pub(crate) enum Hearing {
    Wants(Heard),
    Asks {
        method: Text,
        path: Text,
        body: Bytes,
    },
    Refuses(u16),
}

/// Further bytes of a request.
pub(crate) fn hear(alloc: Global, heard: Heard, bytes: &[u8]) -> Result<Hearing, Memory>
    ensures { (seen : List ℕ) → Hears heard seen → IfOk result (λ hearing. HearingGives hearing (seen ++ bytes.now)) }
{
    match heard {
        Heard::Head(head) => more_head(alloc, head, bytes),
        Heard::Body(begun) => more_body(begun, bytes),
    }
}

/// No bytes yet.
pub(crate) fn no_head(alloc: Global) -> HeadSoFar
    ensures bytes { result.bytes ≡ [] }
    ensures scan { ScansRequest result.scan [] }
{
    HeadSoFar {
        bytes: Bytes::new(alloc),
        scan: RequestScan::start(),
    }
}

fn more_head(alloc: Global, mut head: HeadSoFar, bytes: &[u8]) -> Result<Hearing, Memory>
    ensures { ScansRequest head.scan head.bytes → IfOk result (λ hearing. HearingGives hearing (head.bytes ++ bytes.now)) }
{
    head.bytes.append(bytes)?;
    head.scan.take(alloc, head.bytes.as_slice(), bytes)?;
    if head.scan.is_open(head.bytes.len()) {
        return Ok(Hearing::Wants(Heard::Head(head)));
    }
    read_request(alloc, head)
}

fn read_request(alloc: Global, head: HeadSoFar) -> Result<Hearing, Memory>
    ensures { ScansRequest head.scan head.bytes → IfOk result (λ hearing. HearingGives hearing head.bytes) }
{
    match judge_request(head.bytes.as_slice()) {
        JudgedRequest::Unread => Ok(Hearing::Wants(Heard::Head(head))),
        JudgedRequest::Open => Ok(Hearing::Wants(Heard::Head(head))),
        JudgedRequest::Bad => Ok(Hearing::Refuses(400)),
        JudgedRequest::Whole {
            method,
            path,
            framing,
            len,
        } => read_whole(alloc, head.bytes.as_slice(), method, path, framing, len),
    }
}

/// A request whose head is whole.
fn read_whole(
    alloc: Global,
    bytes: &[u8],
    method: Span,
    path: Span,
    framing: Framing,
    len: usize,
) -> Result<Hearing, Memory>
    requires { (head : RequestHead) × IsRequestHeadAt bytes.now method path framing len head }
    ensures { IfOk result (λ hearing. HearingGives hearing bytes.now) }
{
    let method = text_at(alloc, bytes, method)?;
    let path = text_at(alloc, bytes, path)?;
    let (_, came) = bytes.split_at(len);
    let received = begin(alloc, framing, came)?;
    Ok(with_body(method, path, received))
}

fn text_at(alloc: Global, bytes: &[u8], span: Span) -> Result<Text, Memory>
    requires within { IsWithin (length bytes.now) span }
    requires utf8 { IsUtf8 (span_bytes bytes.now span) }
    ensures { IfOk result (λ text. text ≡ span_bytes bytes.now span) }
{
    match std::str::from_utf8(span.of(bytes)) {
        Ok(text) => Text::from_str(alloc, text),
        Err(_) => unreachable!(),
    }
}

/// The head with what came of its body.
fn with_body(method: Text, path: Text, received: Received) -> Hearing
    ensures { (seen : List ℕ) (head : RequestHead) (came : List ℕ) → IsWholeRequest seen head came
        → method ≡ head.method → path ≡ head.target
        → ReceivedGives received (request_framing_of head) came → HearingGives result seen }
{
    match received {
        Received::Wants { pending, kept } => Hearing::Wants(Heard::Body(Begun {
            method,
            path,
            pending,
            kept,
        })),
        Received::Complete(body) => Hearing::Asks { method, path, body },
        Received::Refused(status) => Hearing::Refuses(status),
    }
}

fn more_body(begun: Begun, bytes: &[u8]) -> Result<Hearing, Memory>
    ensures { (seen : List ℕ) → IsBegun seen begun → IfOk result (λ hearing. HearingGives hearing (seen ++ bytes.now)) }
{
    let Begun {
        method,
        path,
        pending,
        kept,
    } = begun;
    let received = receive(pending, kept, bytes)?;
    Ok(with_body(method, path, received))
}
