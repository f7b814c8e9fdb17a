//! The response to one fetch.

ghost use Rattle.std.specs.Prelude.{◌≡◌, ◌≤◌, ◌<◌, ◌++◌, [], ℕ, List, false, length, IfOk, IfSome, IfNone};
ghost use Rattle.httparse.specs.Grammar.{ResponseHead, status_code};
ghost use Rattle.http_model.specs.Heads.{IsWholeResponse};
ghost use Rattle.http_model.specs.Message as spec;
ghost use Rattle.http_model.specs.Message.{BehindInterim};
ghost use Rattle.head_scan.specs.Scans.{ScansResponse};
ghost use Rattle.fetch_link.specs.Fetching.{InBody, InHead, IsInterimAt, Stands, StepGives};

use crate::body::{Body, BodyStep, begin_body, take_body};
use crate::head::{Judged, judge_response};
use gql_value::{Fault, Outcome};
use head_scan::ResponseScan;
use std::alloc::Global;
use text_types::{Bytes, Memory};

/// The bytes behind the heads of interim responses.
#[derive(Debug, Drop)]
pub(crate) struct HeadSoFar {
    pub(crate) bytes: Bytes,
    /// Where they stand, so that only further bytes are looked at until the head has ended.
    pub(crate) scan: ResponseScan,
}

/// What is kept of the bytes so far.
#[derive(Debug, Drop)]
pub(crate) enum State {
    Head(HeadSoFar),
    /// The body behind the final head.
    Body(Body),
}

/// What further bytes make of a response.
#[derive(Debug, Drop)]
pub(crate) enum Step {
    Wants(State),
    Done(Outcome),
}

/// Further bytes of a response.
pub(crate) fn advance(alloc: Global, state: State, bytes: &[u8]) -> Result<Step, Memory>
    ensures { (seen : List ℕ) → Stands state seen → IfOk result (λ step. StepGives step (seen ++ bytes.now)) }
{
    match state {
        State::Head(head) => more_head(alloc, head, bytes),
        State::Body(body) => more_body(alloc, body, bytes),
    }
}

fn more_body(alloc: Global, body: Body, bytes: &[u8]) -> Result<Step, Memory>
    ensures { (seen : List ℕ) → InBody seen body → IfOk result (λ step. StepGives step (seen ++ bytes.now)) }
{
    match take_body(alloc, body, bytes)? {
        BodyStep::Wants(body) => Ok(Step::Wants(State::Body(body))),
        BodyStep::Done(outcome) => Ok(Step::Done(outcome)),
    }
}

fn more_head(alloc: Global, mut head: HeadSoFar, bytes: &[u8]) -> Result<Step, Memory>
    ensures { (seen : List ℕ) → InHead seen head → IfOk result (λ step. StepGives step (seen ++ bytes.now)) }
{
    head.bytes.append(bytes)?;
    head.scan.take(bytes);
    if head.scan.is_open(head.bytes.len()) {
        return Ok(Step::Wants(State::Head(head)));
    }
    read_head(alloc, head.bytes.as_slice())
}

/// Reads the head of a response, and what came of its body.
fn read_head(alloc: Global, bytes: &[u8]) -> Result<Step, Memory>
    ensures { (seen : List ℕ) → BehindInterim seen bytes.now → IfOk result (λ step. StepGives step seen) }
{
    read_final(alloc, behind_interim(bytes))
}

/// Reads the head of a final response, and what came of its body.
fn read_final(alloc: Global, bytes: &[u8]) -> Result<Step, Memory>
    requires { (head : ResponseHead) (rest : List ℕ) → IsWholeResponse bytes.now head rest → spec.is_interim (status_code head) ≡ false }
    ensures { (seen : List ℕ) → BehindInterim seen bytes.now → IfOk result (λ step. StepGives step seen) }
{
    match judge_response(bytes) {
        Judged::Open => Ok(Step::Wants(State::Head(head_of(alloc, bytes)?))),
        Judged::Bad => Ok(Step::Done(Outcome::Bad(Fault::F7))),
        Judged::Whole {
            status,
            framing,
            len,
        } => {
            let (_, came) = bytes.split_at(len);
            match begin_body(alloc, status, framing, came)? {
                BodyStep::Wants(body) => Ok(Step::Wants(State::Body(body))),
                BodyStep::Done(outcome) => Ok(Step::Done(outcome)),
            }
        }
    }
}

/// No bytes yet.
pub(crate) fn no_head(alloc: Global) -> HeadSoFar
    ensures bytes { result.bytes ≡ [] }
    ensures scan { ScansResponse result.scan [] }
{
    HeadSoFar {
        bytes: Bytes::new(alloc),
        scan: ResponseScan::start(),
    }
}

fn head_of(alloc: Global, bytes: &[u8]) -> Result<HeadSoFar, Memory>
    ensures bytes { IfOk result (λ head. head.bytes ≡ bytes.now) }
    ensures scan { IfOk result (λ head. ScansResponse head.scan bytes.now) }
{
    let mut head = no_head(alloc);
    head.bytes.append(bytes)?;
    head.scan.take(bytes);
    Ok(head)
}

/// What stands behind the heads of interim responses.
fn behind_interim(bytes: &[u8]) -> &[u8]
    ensures behind { (seen : List ℕ) → BehindInterim seen bytes.now → BehindInterim seen result.now }
    ensures none { (head : ResponseHead) (rest : List ℕ) → IsWholeResponse result.now head rest → spec.is_interim (status_code head) ≡ false }
{
    let mut rest = bytes;
    'heads: while let Some(len) = interim_len(rest) {
        let (_, behind) = rest.split_at(len);
        rest = behind;
    }
    rest
}

/// The length of an interim response's head at the front, if one is whole there.
fn interim_len(bytes: &[u8]) -> Option<usize>
    ensures interim { IfSome result (IsInterimAt bytes.now) }
    ensures within { IfSome result (λ len. (0 < len) × (len ≤ length bytes.now)) }
    ensures none { IfNone result ((head : ResponseHead) (rest : List ℕ) → IsWholeResponse bytes.now head rest → spec.is_interim (status_code head) ≡ false) }
{
    match judge_response(bytes) {
        Judged::Whole { status, len, .. } => if is_interim(status) { Some(len) } else { None },
        _ => None,
    }
}

fn is_interim(status: u16) -> bool
    ensures { result ≡ spec.is_interim status }
{
    100 <= status && status <= 199
}
