//! What a response comes to where the connection is closed.

ghost use Rattle.std.specs.Prelude.{◌≡◌, ℕ, List, IfOk};
ghost use Rattle.gql_value.specs.Outcome.{meaning_of};
ghost use Rattle.http_model.specs.Message as spec;
ghost use Rattle.http_model.specs.Message.{Closed};
ghost use Rattle.fetch_link.specs.Bodies.{Keeps};
ghost use Rattle.fetch_link.specs.Fetching.{InBody, Stands};

use crate::body::{Body, Rest};
use crate::fetch::State;
use gql_value::{Fault, Outcome, outcome_of};
use http_model::Framing;
use std::alloc::Global;
use text_types::Memory;

pub(crate) fn closed(alloc: Global, state: &State) -> Result<Outcome, Memory>
    ensures { (seen : List ℕ) → Stands state.now seen → IfOk result (λ outcome. Closed seen (meaning_of outcome)) }
{
    match state {
        State::Head(_) => Ok(Outcome::Bad(Fault::F6)),
        State::Body(body) => closed_body(alloc, body),
    }
}

fn closed_body(alloc: Global, body: &Body) -> Result<Outcome, Memory>
    ensures { (seen : List ℕ) → InBody seen body.now → IfOk result (λ outcome. Closed seen (meaning_of outcome)) }
{
    Ok(close_body(alloc, body)?)
}

fn close_body(alloc: Global, body: &Body) -> Result<Outcome, Memory>
    ensures { (code : ℕ) (ends : Framing) (came : List ℕ) → Keeps body.now code ends came → IfOk result (λ outcome. meaning_of outcome ≡ spec.closed_body code ends came) }
{
    match body.rest {
        Rest::UntilClose => outcome_of(alloc, body.status, body.kept.as_slice()),
        Rest::Exact(_) | Rest::Chunked(_) => Ok(Outcome::Bad(Fault::F6)),
    }
}
