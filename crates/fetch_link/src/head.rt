//! The head of a response (RFC 9112, 2 to 5).

ghost use Rattle.httparse.specs.Grammar.{HasNoResponse, MayBecomeResponse};
ghost use Rattle.httparse.specs.Spans.{IsResponseOf, IsResponseWithin};
ghost use Rattle.fetch_link.specs.Heads.{IsJudgement};

use crate::framing::response_framing;
use head_scan::{FIELD_LIMIT, HEAD_LIMIT, lines_ended};
use http_model::Framing;
use httparse::Status;
use httparse::spans::{EMPTY_HEADER_SPAN, HeaderSpan, ResponseSpans, parse_response};

/// Room for one field line more, so that a head within the room tells its exact count.
pub(crate) const ROOM: usize = 101;

/// What bytes are as the head of a response.
#[derive(Clone, Copy, Debug)]
pub(crate) enum Judged {
    /// It may still become one.
    Open,
    /// It can't go on, or is over its limits.
    Bad,
    /// The first `len` bytes are one.
    Whole {
        status: u16,
        framing: Framing,
        len: usize,
    },
}

pub(crate) fn judge_response(bytes: &[u8]) -> Judged
    ensures { IsJudgement bytes.now result }
{
    let mut headers = [EMPTY_HEADER_SPAN; ROOM];
    match parse_response(bytes, &mut headers) {
        Ok(Status::Complete(spans)) => whole_head(bytes, &headers, spans),
        Ok(Status::Partial) => open_head(bytes),
        Err(_) => Judged::Bad,
    }
}

/// A head that is whole, where it is within the limits.
fn whole_head(bytes: &[u8], headers: &[HeaderSpan], spans: ResponseSpans) -> Judged
    requires within { IsResponseWithin bytes.now headers.now spans }
    requires head { IsResponseOf bytes.now headers.now spans }
    ensures { IsJudgement bytes.now result }
{
    if spans.len > HEAD_LIMIT || spans.headers > FIELD_LIMIT {
        return Judged::Bad;
    }
    let (fields, _) = headers.split_at(spans.headers);
    Judged::Whole {
        status: spans.code,
        framing: response_framing(spans.code, bytes, fields),
        len: spans.len,
    }
}

/// A head that isn't whole, where no limit is passed.
fn open_head(bytes: &[u8]) -> Judged
    requires none { HasNoResponse bytes.now }
    requires may { MayBecomeResponse bytes.now }
    ensures { IsJudgement bytes.now result }
{
    if bytes.len() > HEAD_LIMIT || lines_ended(bytes) > FIELD_LIMIT + 1 {
        Judged::Bad
    } else {
        Judged::Open
    }
}
