//! The body of a response, as its bytes come.

ghost use Rattle.std.specs.Prelude.{◌≡◌, ◌++◌, ◌<◌, ℕ, List, length, IfOk, IfNone};
ghost use Rattle.http_model.specs.Chunks.{chunked, reading};
ghost use Rattle.http_model.specs.Message as spec;
ghost use Rattle.fetch_link.specs.Bodies.{BodyGives, Keeps, progress_of};

use crate::chunks::{BODY_LIMIT, CHUNKS_START, Chunks, read_chunks};
use gql_value::{Fault, Outcome, outcome_of};
use http_model::{ChunkPhase, Framing};
use std::alloc::Global;
use text_types::{Bytes, Memory};

/// How a body that has begun ends.
#[derive(Clone, Copy, Debug)]
pub(crate) enum Rest {
    Exact(u64),
    Chunked(ChunkPhase),
    UntilClose,
}

/// A body that has begun, and the data of it that came.
#[derive(Debug, Drop)]
pub(crate) struct Body {
    pub(crate) status: u16,
    pub(crate) rest: Rest,
    pub(crate) kept: Bytes,
}

/// What further bytes make of a body.
#[derive(Debug, Drop)]
pub(crate) enum BodyStep {
    Wants(Body),
    Done(Outcome),
}

/// A body whose first bytes came.
pub(crate) fn begin_body(
    alloc: Global,
    status: u16,
    framing: Framing,
    came: &[u8],
) -> Result<BodyStep, Memory>
    ensures { IfOk result (λ step. BodyGives step status framing came.now) }
{
    match framing {
        Framing::Empty => Ok(BodyStep::Done(outcome_of(alloc, status, b"")?)),
        Framing::Exact(size) => more_exact(alloc, status, size, Bytes::new(alloc), came),
        Framing::Chunked => more_chunks(alloc, status, CHUNKS_START, Bytes::new(alloc), came),
        Framing::UntilClose => more_until_close(status, Bytes::new(alloc), came),
        Framing::Malformed => Ok(BodyStep::Done(Outcome::Bad(Fault::F7))),
        Framing::TooLong => Ok(BodyStep::Done(Outcome::Bad(Fault::F8))),
    }
}

/// Takes further bytes of a body of this size.
fn take_exact(
    alloc: Global,
    status: u16,
    size: u64,
    kept: &mut Bytes,
    bytes: &[u8],
) -> Result<Option<Outcome>, Memory>
    ensures progress { IfOk result (λ outcome. progress_of outcome ≡ spec.body_progress status (Framing.Exact size) (kept.old ++ bytes.now)) }
    ensures kept { IfOk result (λ outcome. IfNone outcome (kept.new ≡ kept.old ++ bytes.now)) }
    ensures open { IfOk result (λ outcome. IfNone outcome (length (kept.old ++ bytes.now) < size)) }
{
    kept.append(bytes)?;
    match usize::try_from(size) {
        Ok(size) if size <= kept.len() => {
            let (whole, _) = kept.as_slice().split_at(size);
            Ok(Some(outcome_of(alloc, status, whole)?))
        }
        _ => Ok(None),
    }
}

/// Takes further bytes of a body that has begun.
pub(crate) fn take_body(alloc: Global, body: Body, bytes: &[u8]) -> Result<BodyStep, Memory>
    ensures { (code : ℕ) (ends : Framing) (came : List ℕ) → Keeps body code ends came
        → IfOk result (λ step. BodyGives step code ends (came ++ bytes.now)) }
{
    let Body { status, rest, kept } = body;
    match rest {
        Rest::Exact(size) => more_exact(alloc, status, size, kept, bytes),
        Rest::Chunked(phase) => more_chunks(alloc, status, phase, kept, bytes),
        Rest::UntilClose => more_until_close(status, kept, bytes),
    }
}

fn more_exact(
    alloc: Global,
    status: u16,
    size: u64,
    mut kept: Bytes,
    bytes: &[u8],
) -> Result<BodyStep, Memory>
    ensures { IfOk result (λ step. BodyGives step status (Framing.Exact size) (kept ++ bytes.now)) }
{
    match take_exact(alloc, status, size, &mut kept, bytes)? {
        Some(outcome) => Ok(BodyStep::Done(outcome)),
        None => Ok(BodyStep::Wants(Body {
            status,
            rest: Rest::Exact(size),
            kept,
        })),
    }
}

fn more_chunks(
    alloc: Global,
    status: u16,
    phase: ChunkPhase,
    mut kept: Bytes,
    bytes: &[u8],
) -> Result<BodyStep, Memory>
    ensures { (came : List ℕ) → chunked came ≡ reading phase kept
        → IfOk result (λ step. BodyGives step status Framing.Chunked (came ++ bytes.now)) }
{
    match read_chunks(phase, &mut kept, bytes)? {
        Chunks::Reading(phase) => Ok(BodyStep::Wants(Body {
            status,
            rest: Rest::Chunked(phase),
            kept,
        })),
        Chunks::Whole => Ok(BodyStep::Done(outcome_of(alloc, status, kept.as_slice())?)),
        Chunks::Malformed => Ok(BodyStep::Done(Outcome::Bad(Fault::F7))),
        Chunks::TooLong => Ok(BodyStep::Done(Outcome::Bad(Fault::F8))),
    }
}

fn more_until_close(status: u16, mut kept: Bytes, bytes: &[u8]) -> Result<BodyStep, Memory>
    ensures { IfOk result (λ step. BodyGives step status Framing.UntilClose (kept ++ bytes.now)) }
{
    kept.append(bytes)?;
    if kept.len() > BODY_LIMIT {
        return Ok(BodyStep::Done(Outcome::Bad(Fault::F8)));
    }
    Ok(BodyStep::Wants(Body {
        status,
        rest: Rest::UntilClose,
        kept,
    }))
}
