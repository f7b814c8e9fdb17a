ghost use Rattle.std.specs.Prelude.{◌≡◌};

use crate::phase::Phase;
use crate::signal::{Signal, Talk};
use crate::stage::Stage;
use std::marker::PhantomData;
use text_types::Memory;

/// Gives the items for which the closure says yes.
#[derive(Drop)]
pub struct Filter<A, F> {
    f: F,
    phase: Phase,
    items: PhantomData<A>,
}

impl<A: Drop, F: Fn(&A) -> bool> Filter<A, F> {
    /// A stage that has heard nothing yet.
    pub fn new(f: F) -> Self
        ensures kept { result.f ≡ f }
        ensures waits { result.phase ≡ Phase.Waiting }
    {
        Filter {
            f,
            phase: Phase::Waiting,
            items: PhantomData,
        }
    }
}

impl<A: Drop, F: Fn(&A) -> bool> Stage for Filter<A, F> {
    ghost use Rattle.std.specs.Fn.{FnReturnsAt};
    ghost use Rattle.std.specs.Prelude.{OnOk};
    ghost use Rattle.stream_core.specs.Turns.{TurnOnto, Within};
    ghost use Rattle.stream_core.specs.Stages.{GivesWhere};

    type In = A;

    type Out = A;

    ghost ready = { λ s. F.IsAlwaysCallable s.f };

    ghost phase = { λ s. s.phase };

    ghost gives = { λ s. GivesWhere (FnReturnsAt F.Fn s.f) };

    fn push(&mut self, signal: Signal<A>, out: &mut Vec<Signal<A>>) -> Result<(), Memory>
        requires { F.IsAlwaysCallable self.old.f }
        ensures ready { F.IsAlwaysCallable self.new.f }
        ensures same { Within (GivesWhere (FnReturnsAt F.Fn self.old.f)) (GivesWhere (FnReturnsAt F.Fn self.new.f)) }
        ensures turn { OnOk result
            (TurnOnto (GivesWhere (FnReturnsAt F.Fn self.old.f)) self.old.phase signal self.new.phase out.old.items out.new.items) }
    {
        match self.phase.pass(signal) {
            Some(Signal::Push(item)) => {
                if (self.f)(&item) {
                    out.push(Signal::Push(item))?;
                }
            }
            Some(Signal::Start) => out.push(Signal::Start)?,
            Some(Signal::End) => out.push(Signal::End)?,
            None => {}
        }
        Ok(())
    }

    fn talk(&mut self, talk: Talk) -> Talk {
        self.phase.talk(talk)
    }
}
