ghost use Rattle.std.specs.Prelude.{◌≡◌};

use crate::phase::Phase;
use crate::signal::{Signal, Talk};
use crate::stage::Stage;
use std::marker::PhantomData;
use text_types::Memory;

/// Gives the closure's answer for each item.
#[derive(Drop)]
pub struct Map<A, B, F> {
    f: F,
    phase: Phase,
    items: PhantomData<(A, B)>,
}

impl<A: Drop, B: Drop, F: Fn(A) -> B> Map<A, B, F> {
    /// A stage that has heard nothing yet.
    pub fn new(f: F) -> Self
        ensures kept { result.f ≡ f }
        ensures waits { result.phase ≡ Phase.Waiting }
    {
        Map {
            f,
            phase: Phase::Waiting,
            items: PhantomData,
        }
    }
}

impl<A: Drop, B: Drop, F: Fn(A) -> B> Stage for Map<A, B, F> {
    ghost use Rattle.std.specs.Prelude.{OnOk};
    ghost use Rattle.stream_core.specs.Turns.{TurnOnto, Within};
    ghost use Rattle.stream_core.specs.Stages.{GivesAnswer};

    type In = A;

    type Out = B;

    ghost ready = { λ s. F.IsAlwaysCallable s.f };

    ghost phase = { λ s. s.phase };

    ghost gives = { λ s. GivesAnswer (F.post s.f) };

    fn push(&mut self, signal: Signal<A>, out: &mut Vec<Signal<B>>) -> Result<(), Memory>
        requires { F.IsAlwaysCallable self.old.f }
        ensures ready { F.IsAlwaysCallable self.new.f }
        ensures same { Within (GivesAnswer (F.post self.old.f)) (GivesAnswer (F.post self.new.f)) }
        ensures turn { OnOk result
            (TurnOnto (GivesAnswer (F.post self.old.f)) self.old.phase signal self.new.phase out.old.items out.new.items) }
    {
        match self.phase.pass(signal) {
            Some(Signal::Push(item)) => out.push(Signal::Push((self.f)(item)))?,
            Some(Signal::Start) => out.push(Signal::Start)?,
            Some(Signal::End) => out.push(Signal::End)?,
            None => {}
        }
        Ok(())
    }

    fn talk(&mut self, talk: Talk) -> Talk {
        self.phase.talk(talk)
    }
}
