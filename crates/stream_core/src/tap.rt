ghost use Rattle.std.specs.Prelude.{◌≡◌};

use crate::phase::Phase;
use crate::signal::{Signal, Talk};
use crate::stage::Stage;
use std::marker::PhantomData;
use text_types::Memory;

/// Shows the closure each item, and gives the items unchanged.
#[derive(Drop)]
pub struct Tap<A, F> {
    f: F,
    phase: Phase,
    items: PhantomData<A>,
}

impl<A: Drop, F: Fn(&A)> Tap<A, F> {
    /// A stage that has heard nothing yet.
    pub fn new(f: F) -> Self
        ensures kept { result.f ≡ f }
        ensures waits { result.phase ≡ Phase.Waiting }
    {
        Tap {
            f,
            phase: Phase::Waiting,
            items: PhantomData,
        }
    }
}

impl<A: Drop, F: Fn(&A)> Stage for Tap<A, F> {
    ghost use Rattle.std.specs.Fn.{FnReturnsAt};
    ghost use Rattle.std.specs.Prelude.{OnOk};
    ghost use Rattle.stream_core.specs.Turns.{TurnOnto, Within};
    ghost use Rattle.stream_core.specs.Stages.{GivesSeen};

    type In = A;

    type Out = A;

    ghost ready = { λ s. F.IsAlwaysCallable s.f };

    ghost phase = { λ s. s.phase };

    ghost gives = { λ s. GivesSeen (FnReturnsAt F.Fn s.f) };

    fn push(&mut self, signal: Signal<A>, out: &mut Vec<Signal<A>>) -> Result<(), Memory>
        requires { F.IsAlwaysCallable self.old.f }
        ensures ready { F.IsAlwaysCallable self.new.f }
        ensures same { Within (GivesSeen (FnReturnsAt F.Fn self.old.f)) (GivesSeen (FnReturnsAt F.Fn self.new.f)) }
        ensures turn { OnOk result
            (TurnOnto (GivesSeen (FnReturnsAt F.Fn self.old.f)) self.old.phase signal self.new.phase out.old.items out.new.items) }
    {
        match self.phase.pass(signal) {
            Some(Signal::Push(item)) => {
                (self.f)(&item);
                out.push(Signal::Push(item))?;
            }
            Some(Signal::Start) => out.push(Signal::Start)?,
            Some(Signal::End) => out.push(Signal::End)?,
            None => {}
        }
        Ok(())
    }

    fn talk(&mut self, talk: Talk) -> Talk {
        self.phase.talk(talk)
    }
}
