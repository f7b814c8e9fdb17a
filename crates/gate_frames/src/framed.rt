//! What a line of input comes to.

ghost use Rattle.std.specs.Prelude.{◌≡◌, Some, IfOk, codes};
ghost use Rattle.serde_json.specs.View.{view};
ghost use Rattle.gql_value.specs.Outcome.{json_of};
ghost use Rattle.gql_value.specs.Members as members;
ghost use Rattle.gate_frames.specs.Dispatches as dispatches;
ghost use Rattle.gate_frames.specs.Frames as spec;

use crate::dispatch::read_dispatch;
use crate::fitting::dispatch_misfit;
use crate::kind::{FrameKind, kind_of};
use crate::member::{member_number, status_of};
use crate::response::read_outcome;
use crate::unread::Unread;
use gql_value::{Fault, Outcome};
use machine_model::{Command, Out, Refusal};
use serde_json::Value as Json;
use std::alloc::Global;
use text_types::{Memory, Text};

/// A line has at most so many bytes.
const LONGEST_LINE: usize = 8_388_608;

/// What a line comes to.
#[derive(Drop)]
pub enum Framed {
    /// A command to run.
    Run(Command),
    /// The client wants no more.
    Quit,
    /// The line changes nothing, and its refusal is told.
    Refused(Out),
}

/// What a line comes to that came by this peer and has this number there.
pub fn commands_of_line(alloc: Global, peer: u64, line: u64, text: &[u8]) -> Result<Framed, Memory>
    ensures { IfOk result (λ framed. framed ≡ spec.line_framed peer line text.now) }
{
    if text.len() > LONGEST_LINE {
        return Ok(refused(peer, line, Refusal::E1));
    }
    read_text(alloc, peer, line, text)
}

fn read_text(alloc: Global, peer: u64, line: u64, text: &[u8]) -> Result<Framed, Memory>
    ensures { IfOk result (λ framed. framed ≡ spec.json_framed peer line (json_of text.now)) }
{
    match Json::from_slice(alloc, text) {
        Ok(frame) => read_frame(alloc, peer, line, &frame),
        Err(error) => if error.is_memory() {
            Err(Memory)
        } else {
            Ok(refused(peer, line, Refusal::E2))
        },
    }
}

fn read_frame(alloc: Global, peer: u64, line: u64, frame: &Json) -> Result<Framed, Memory>
    ensures { IfOk result (λ framed. framed ≡ spec.json_framed peer line (Some (view frame.now))) }
{
    match kind_of(frame) {
        None => misfit(alloc, peer, line, "do"),
        Some(kind) => frame_of_kind(alloc, peer, line, frame, kind),
    }
}

fn frame_of_kind(
    alloc: Global,
    peer: u64,
    line: u64,
    frame: &Json,
    kind: FrameKind,
) -> Result<Framed, Memory>
    ensures { IfOk result (λ framed. framed ≡ spec.kind_framed peer line (view frame.now) kind) }
{
    match kind {
        FrameKind::Dispatch => dispatch(alloc, peer, line, frame),
        FrameKind::Teardown => teardown(alloc, peer, line, frame),
        FrameKind::Response => response(alloc, peer, line, frame),
        FrameKind::Failure => failure(alloc, peer, line, frame),
        FrameKind::Online => Ok(Framed::Run(Command::Online)),
        FrameKind::Layers => Ok(Framed::Run(Command::Layers { peer })),
        FrameKind::Flat => Ok(Framed::Run(Command::Flat { peer })),
        FrameKind::Quit => Ok(Framed::Quit),
    }
}

fn dispatch(alloc: Global, peer: u64, line: u64, frame: &Json) -> Result<Framed, Memory>
    ensures { IfOk result (λ framed. framed ≡ spec.dispatch_framed peer line
        (dispatches.dispatch_misfit (view frame.now)) (dispatches.dispatch_read peer line (view frame.now))) }
{
    match dispatch_misfit(frame) {
        Some(member) => misfit(alloc, peer, line, member),
        None => run_dispatch(alloc, peer, line, frame),
    }
}

fn run_dispatch(alloc: Global, peer: u64, line: u64, frame: &Json) -> Result<Framed, Memory>
    ensures { IfOk result (λ framed. framed ≡ spec.dispatch_run peer line (dispatches.dispatch_read peer line (view frame.now))) }
{
    match read_dispatch(alloc, peer, line, frame) {
        Ok(dispatch) => Ok(Framed::Run(Command::Dispatch(dispatch))),
        Err(Unread::NotWhole { path }) => Ok(refused(peer, line, Refusal::E11 { path })),
        Err(Unread::Memory) => Err(Memory),
    }
}

fn teardown(alloc: Global, peer: u64, line: u64, frame: &Json) -> Result<Framed, Memory>
    ensures { IfOk result (λ framed. framed ≡ spec.teardown_framed peer line
        (members.number_in (codes "id") (view frame.now))) }
{
    match member_number(frame, "id") {
        None => misfit(alloc, peer, line, "id"),
        Some(id) => Ok(Framed::Run(Command::Teardown { peer, id, line })),
    }
}

fn failure(alloc: Global, peer: u64, line: u64, frame: &Json) -> Result<Framed, Memory>
    ensures { IfOk result (λ framed. framed ≡ spec.failure_framed peer line
        (members.number_in (codes "fetch") (view frame.now))) }
{
    match member_number(frame, "fetch") {
        None => misfit(alloc, peer, line, "fetch"),
        Some(fetch) => Ok(responded(peer, fetch, line, Outcome::Bad(Fault::F6))),
    }
}

fn response(alloc: Global, peer: u64, line: u64, frame: &Json) -> Result<Framed, Memory>
    ensures { IfOk result (λ framed. framed ≡ spec.kind_framed peer line (view frame.now) FrameKind.Response) }
{
    let Some(fetch) = member_number(frame, "fetch") else {
        return misfit(alloc, peer, line, "fetch");
    };
    let Some(status) = status_of(frame.get("status")) else {
        return misfit(alloc, peer, line, "status");
    };
    match read_outcome(alloc, status, frame.get("body"), frame.get("text"))? {
        None => misfit(alloc, peer, line, "body"),
        Some(outcome) => Ok(responded(peer, fetch, line, outcome)),
    }
}

fn responded(peer: u64, fetch: u64, line: u64, outcome: Outcome) -> Framed
    ensures { result ≡ spec.outcome_framed peer line fetch (Some outcome) }
{
    Framed::Run(Command::Respond {
        peer,
        fetch,
        line,
        outcome,
    })
}

/// A line that changes nothing.
fn refused(peer: u64, line: u64, refusal: Refusal) -> Framed
    ensures { result ≡ spec.refused peer line refusal }
{
    Framed::Refused(Out::Refused {
        peer,
        line,
        refusal,
    })
}

/// A member is missing or of the wrong form.
fn misfit(alloc: Global, peer: u64, line: u64, member: &str) -> Result<Framed, Memory>
    ensures { IfOk result (λ framed. framed ≡ spec.misfit peer line member.now) }
{
    let member = Text::from_str(alloc, member)?;
    Ok(refused(peer, line, Refusal::E3 { member }))
}
