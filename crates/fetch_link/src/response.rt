use crate::closing::closed;
use crate::fetch::{State, Step, advance, no_head};
use gql_value::Outcome;
use std::alloc::Global;
use std::mem;
use text_types::Memory;

/// What the bytes of a response so far come to.
#[derive(Debug, Drop)]
pub enum Progress {
    /// More bytes, or the close, are to come.
    Wants,
    Done(Outcome),
}

/// The response to one fetch, as its bytes come. What is kept is at most a head within its limits
/// and a body within its limit, beside the bytes of one call.
#[derive(Debug, Drop)]
pub struct Fetch {
    alloc: Global,
    state: State,
}

impl Fetch {
    ghost use Rattle.std.specs.Prelude.{◌++◌, [], ℕ, List, IfOk};
    ghost use Rattle.gql_value.specs.Outcome.{meaning_of};
    ghost use Rattle.http_model.specs.Message.{Closed};
    ghost use Rattle.fetch_link.specs.Answers.{HasTaken, PollGives};

    /// A response of which nothing came.
    pub fn start(alloc: Global) -> Fetch
        ensures { HasTaken result [] }
    {
        Fetch {
            alloc,
            state: State::Head(no_head(alloc)),
        }
    }

    /// Takes further bytes. No earlier call may have answered `Done` or out of memory.
    pub fn poll(&mut self, bytes: &[u8]) -> Result<Progress, Memory>
        ensures { (seen : List ℕ) → HasTaken self.old seen → IfOk result (λ progress. PollGives progress self.new (seen ++ bytes.now)) }
    {
        let alloc = self.alloc;
        let state = mem::replace(&mut self.state, State::Head(no_head(alloc)));
        match advance(alloc, state, bytes)? {
            Step::Wants(state) => {
                self.state = state;
                Ok(Progress::Wants)
            }
            Step::Done(outcome) => Ok(Progress::Done(outcome)),
        }
    }

    /// The connection is closed behind the bytes so far.
    pub fn ended(&mut self) -> Result<Outcome, Memory>
        ensures { (seen : List ℕ) → HasTaken self.old seen → IfOk result (λ outcome. Closed seen (meaning_of outcome)) }
    {
        closed(self.alloc, &self.state)
    }
}
