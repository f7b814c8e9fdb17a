//! The body of a request, as its bytes come.

ghost use Rattle.std.specs.Prelude.{◌≡◌, ◌++◌, ℕ, List, IfOk, take};
ghost use Rattle.http_model.specs.Chunks.{chunked, reading};
ghost use Rattle.fetch_link.specs.Received.{KeepsPending, ReceivedGives};

use crate::chunks::{CHUNKS_START, Chunks, read_chunks};
use http_model::{ChunkPhase, Framing};
use std::alloc::Global;
use text_types::{Bytes, Memory};

/// How a body that has begun ends.
#[derive(Clone, Copy, Debug)]
pub(crate) enum Pending {
    Exact(u64),
    Chunked(ChunkPhase),
}

/// What the bytes of a body so far come to.
#[derive(Debug, Drop)]
pub(crate) enum Received {
    Wants { pending: Pending, kept: Bytes },
    Complete(Bytes),
    /// With the status that says why.
    Refused(u16),
}

/// A body whose first bytes came.
pub(crate) fn begin(alloc: Global, framing: Framing, came: &[u8]) -> Result<Received, Memory>
    ensures { IfOk result (λ received. ReceivedGives received framing came.now) }
{
    match framing {
        Framing::Empty | Framing::UntilClose => Ok(Received::Complete(Bytes::new(alloc))),
        Framing::Exact(size) => more_exact(size, Bytes::new(alloc), came),
        Framing::Chunked => more_chunks(CHUNKS_START, Bytes::new(alloc), came),
        Framing::Malformed => Ok(Received::Refused(400)),
        Framing::TooLong => Ok(Received::Refused(413)),
    }
}

/// Further bytes of a body that has begun.
pub(crate) fn receive(pending: Pending, kept: Bytes, bytes: &[u8]) -> Result<Received, Memory>
    ensures { (ends : Framing) (came : List ℕ) → KeepsPending pending kept ends came
        → IfOk result (λ received. ReceivedGives received ends (came ++ bytes.now)) }
{
    match pending {
        Pending::Exact(size) => more_exact(size, kept, bytes),
        Pending::Chunked(phase) => more_chunks(phase, kept, bytes),
    }
}

fn more_exact(size: u64, mut kept: Bytes, bytes: &[u8]) -> Result<Received, Memory>
    ensures { IfOk result (λ received. ReceivedGives received (Framing.Exact size) (kept ++ bytes.now)) }
{
    kept.append(bytes)?;
    match usize::try_from(size) {
        Ok(whole) if whole <= kept.len() => Ok(Received::Complete(cut(kept, whole))),
        _ => Ok(Received::Wants {
            pending: Pending::Exact(size),
            kept,
        }),
    }
}

/// The first bytes, this many.
fn cut(bytes: Bytes, size: usize) -> Bytes
    ensures { result ≡ take size bytes }
{
    let mut bytes = bytes.into_vec();
    bytes.truncate(size);
    Bytes::from_vec(bytes)
}

fn more_chunks(phase: ChunkPhase, mut kept: Bytes, bytes: &[u8]) -> Result<Received, Memory>
    ensures { (came : List ℕ) → chunked came ≡ reading phase kept
        → IfOk result (λ received. ReceivedGives received Framing.Chunked (came ++ bytes.now)) }
{
    match read_chunks(phase, &mut kept, bytes)? {
        Chunks::Reading(phase) => Ok(Received::Wants {
            pending: Pending::Chunked(phase),
            kept,
        }),
        Chunks::Whole => Ok(Received::Complete(kept)),
        Chunks::Malformed => Ok(Received::Refused(400)),
        Chunks::TooLong => Ok(Received::Refused(413)),
    }
}
