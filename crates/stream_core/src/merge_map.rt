ghost use Rattle.std.specs.Prelude.{◌≡◌, ◌++◌, map, OnOk};

use crate::phase::Phase;
use crate::signal::{Signal, Talk};
use crate::stage::Stage;
use std::marker::PhantomData;
use text_types::Memory;

/// Gives the items of the closure's answers, the answers joined in order.
#[derive(Drop)]
pub struct MergeMap<A, B, F> {
    f: F,
    phase: Phase,
    items: PhantomData<(A, B)>,
}

impl<A: Drop, B: Drop, F: Fn(A) -> Result<Vec<B>, Memory>> MergeMap<A, B, F> {
    /// A stage that has heard nothing yet.
    pub fn new(f: F) -> Self
        ensures kept { result.f ≡ f }
        ensures waits { result.phase ≡ Phase.Waiting }
    {
        MergeMap {
            f,
            phase: Phase::Waiting,
            items: PhantomData,
        }
    }
}

/// Puts each of the items behind `out`.
fn push_each<B: Drop>(items: Vec<B>, out: &mut Vec<Signal<B>>) -> Result<(), Memory>
    ensures { OnOk result (out.new.items ≡ out.old.items ++ map Signal.Push items.items) }
{
    for item in items {
        out.push(Signal::Push(item))?;
    }
    Ok(())
}

impl<A: Drop, B: Drop, F: Fn(A) -> Result<Vec<B>, Memory>> Stage for MergeMap<A, B, F> {
    ghost use Rattle.std.specs.Prelude.{OnOk, Ok};
    ghost use Rattle.stream_core.specs.Turns.{TurnOnto, Within};
    ghost use Rattle.stream_core.specs.Stages.{GivesEach};

    type In = A;

    type Out = B;

    ghost ready = { λ s. F.IsAlwaysCallable s.f };

    ghost phase = { λ s. s.phase };

    ghost gives = { λ s. GivesEach (λ x v. F.post s.f x (Ok v)) (λ v. v.items) };

    fn push(&mut self, signal: Signal<A>, out: &mut Vec<Signal<B>>) -> Result<(), Memory>
        requires { F.IsAlwaysCallable self.old.f }
        ensures ready { F.IsAlwaysCallable self.new.f }
        ensures same { Within (GivesEach (λ x v. F.post self.old.f x (Ok v)) (λ v. v.items)) (GivesEach (λ x v. F.post self.new.f x (Ok v)) (λ v. v.items)) }
        ensures turn { OnOk result
            (TurnOnto (GivesEach (λ x v. F.post self.old.f x (Ok v)) (λ v. v.items)) self.old.phase signal self.new.phase out.old.items out.new.items) }
    {
        match self.phase.pass(signal) {
            Some(Signal::Push(item)) => push_each((self.f)(item)?, out)?,
            Some(Signal::Start) => out.push(Signal::Start)?,
            Some(Signal::End) => out.push(Signal::End)?,
            None => {}
        }
        Ok(())
    }

    fn talk(&mut self, talk: Talk) -> Talk {
        self.phase.talk(talk)
    }
}
