//! The head of a request (RFC 9112, 2 to 5).

ghost use Rattle.std.specs.Prelude.{◌≡◌};
ghost use Rattle.httparse.specs.Spans.{IsRequestOf, IsRequestWithin};
ghost use Rattle.httparse.specs.Grammar.{HasNoRequest, MayBecomeRequest};
ghost use Rattle.fetch_link.specs.RequestHeads.{IsRead, IsRequestJudgement};

use crate::framing::stated_framing;
use crate::head::ROOM;
use head_scan::{FIELD_LIMIT, HEAD_LIMIT, lines_ended};
use http_model::Framing;
use httparse::Status;
use httparse::spans::{EMPTY_HEADER_SPAN, HeaderSpan, RequestSpans, Span, parse_request};

/// What bytes are as the head of a request.
#[derive(Clone, Copy, Debug)]
pub(crate) enum JudgedRequest {
    /// No line that isn't empty has ended.
    Unread,
    /// It may still become one.
    Open,
    /// It can't go on, or is over its limits.
    Bad,
    /// The first `len` bytes are one.
    Whole {
        method: Span,
        path: Span,
        framing: Framing,
        len: usize,
    },
}

pub(crate) fn judge_request(bytes: &[u8]) -> JudgedRequest
    ensures { IsRequestJudgement bytes.now result }
{
    if bytes.len() <= HEAD_LIMIT && lines_ended(bytes) == 0 {
        return JudgedRequest::Unread;
    }
    judge_read(bytes)
}

fn judge_read(bytes: &[u8]) -> JudgedRequest
    requires { IsRead bytes.now }
    ensures { IsRequestJudgement bytes.now result }
{
    let mut headers = [EMPTY_HEADER_SPAN; ROOM];
    match parse_request(bytes, &mut headers) {
        Ok(Status::Complete(spans)) => whole_request(bytes, &headers, spans),
        Ok(Status::Partial) => open_request(bytes),
        Err(_) => JudgedRequest::Bad,
    }
}

fn whole_request(bytes: &[u8], headers: &[HeaderSpan], spans: RequestSpans) -> JudgedRequest
    requires read { IsRead bytes.now }
    requires within { IsRequestWithin bytes.now headers.now spans }
    requires head { IsRequestOf bytes.now headers.now spans }
    ensures { IsRequestJudgement bytes.now result }
{
    if spans.len > HEAD_LIMIT || spans.headers > FIELD_LIMIT {
        return JudgedRequest::Bad;
    }
    let (fields, _) = headers.split_at(spans.headers);
    JudgedRequest::Whole {
        method: spans.method,
        path: spans.path,
        framing: stated_framing(Framing::Empty, bytes, fields),
        len: spans.len,
    }
}

fn open_request(bytes: &[u8]) -> JudgedRequest
    requires read { IsRead bytes.now }
    requires none { HasNoRequest bytes.now }
    requires may { MayBecomeRequest bytes.now }
    ensures { IsRequestJudgement bytes.now result }
{
    if bytes.len() > HEAD_LIMIT || lines_ended(bytes) > FIELD_LIMIT + 1 {
        JudgedRequest::Bad
    } else {
        JudgedRequest::Open
    }
}
