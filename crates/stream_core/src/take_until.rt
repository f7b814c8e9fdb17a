ghost use Rattle.std.specs.Prelude.{◌≡◌};

use crate::phase::Phase;
use crate::signal::{Signal, Talk};
use crate::stage::Stage;
use std::marker::PhantomData;
use text_types::Memory;

/// Gives the items before the first for which the closure says yes, and then End.
#[derive(Drop)]
pub struct TakeUntil<A, P> {
    p: P,
    phase: Phase,
    items: PhantomData<A>,
}

impl<A: Drop, P: Fn(&A) -> bool> TakeUntil<A, P> {
    /// A stage that has heard nothing yet.
    pub fn new(p: P) -> Self
        ensures kept { result.p ≡ p }
        ensures waits { result.phase ≡ Phase.Waiting }
    {
        TakeUntil {
            p,
            phase: Phase::Waiting,
            items: PhantomData,
        }
    }
}

impl<A: Drop, P: Fn(&A) -> bool> Stage for TakeUntil<A, P> {
    ghost use Rattle.std.specs.Fn.{FnReturnsAt};
    ghost use Rattle.std.specs.Prelude.{OnOk};
    ghost use Rattle.stream_core.specs.Turns.{TurnOnto, Within};
    ghost use Rattle.stream_core.specs.Stages.{GivesUntil};

    type In = A;

    type Out = A;

    ghost ready = { λ s. P.IsAlwaysCallable s.p };

    ghost phase = { λ s. s.phase };

    ghost gives = { λ s. GivesUntil (FnReturnsAt P.Fn s.p) };

    fn push(&mut self, signal: Signal<A>, out: &mut Vec<Signal<A>>) -> Result<(), Memory>
        requires { P.IsAlwaysCallable self.old.p }
        ensures ready { P.IsAlwaysCallable self.new.p }
        ensures same { Within (GivesUntil (FnReturnsAt P.Fn self.old.p)) (GivesUntil (FnReturnsAt P.Fn self.new.p)) }
        ensures turn { OnOk result
            (TurnOnto (GivesUntil (FnReturnsAt P.Fn self.old.p)) self.old.phase signal self.new.phase out.old.items out.new.items) }
    {
        match self.phase.pass(signal) {
            Some(Signal::Push(item)) => {
                if (self.p)(&item) {
                    self.phase = Phase::Over;
                    out.push(Signal::End)?;
                } else {
                    out.push(Signal::Push(item))?;
                }
            }
            Some(Signal::Start) => out.push(Signal::Start)?,
            Some(Signal::End) => out.push(Signal::End)?,
            None => {}
        }
        Ok(())
    }

    fn talk(&mut self, talk: Talk) -> Talk {
        self.phase.talk(talk)
    }
}
