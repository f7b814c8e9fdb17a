ghost use Rattle.std.specs.Prelude.{◌≡◌, ◌<◌, ◌++◌, map, OnOk};
ghost use Rattle.stream_core.specs.Stages.{numbered};

use crate::phase::Phase;
use crate::signal::{Signal, Talk};
use crate::stage::Stage;
use std::marker::PhantomData;
use text_types::Memory;

/// Gives each item as often as it has takers, with the taker's number, counted from 0.
#[derive(Drop)]
pub struct Share<A> {
    takers: u64,
    phase: Phase,
    items: PhantomData<A>,
}

impl<A: Clone> Share<A> {
    /// A stage that has heard nothing yet.
    pub fn new(takers: u64) -> Self
        requires some { 0 < takers }
        requires equal { (x y : A) → A.is_clone x y → x ≡ y }
        ensures kept { result.takers ≡ takers }
        ensures waits { result.phase ≡ Phase.Waiting }
    {
        Share {
            takers,
            phase: Phase::Waiting,
            items: PhantomData,
        }
    }
}

/// Puts the item behind `out` once for each taker.
fn push_numbered<A: Clone>(
    item: &A,
    takers: u64,
    out: &mut Vec<Signal<(u64, A)>>,
) -> Result<(), Memory>
    requires { (x y : A) → A.is_clone x y → x ≡ y }
    ensures { OnOk result (out.new.items ≡ out.old.items ++ map Signal.Push (numbered item.now takers)) }
{
    for number in 0..takers {
        out.push(Signal::Push((number, item.clone()?)))?;
    }
    Ok(())
}

impl<A: Clone> Stage for Share<A> {
    ghost use Rattle.stream_core.specs.Turns.{TurnOnto, Within};
    ghost use Rattle.stream_core.specs.Stages.{GivesNumbered};

    type In = A;

    type Out = (u64, A);

    ghost ready = { λ s. (x y : A) → A.is_clone x y → x ≡ y };

    ghost phase = { λ s. s.phase };

    ghost gives = { λ s. GivesNumbered s.takers };

    fn push(&mut self, signal: Signal<A>, out: &mut Vec<Signal<(u64, A)>>) -> Result<(), Memory>
        requires { (x y : A) → A.is_clone x y → x ≡ y }
        ensures ready { (x y : A) → A.is_clone x y → x ≡ y }
        ensures same { Within (GivesNumbered {A = A} self.old.takers) (GivesNumbered self.new.takers) }
        ensures turn { OnOk result
            (TurnOnto (GivesNumbered self.old.takers) self.old.phase signal self.new.phase out.old.items out.new.items) }
    {
        match self.phase.pass(signal) {
            Some(Signal::Push(item)) => push_numbered(&item, self.takers, out)?,
            Some(Signal::Start) => out.push(Signal::Start)?,
            Some(Signal::End) => out.push(Signal::End)?,
            None => {}
        }
        Ok(())
    }

    fn talk(&mut self, talk: Talk) -> Talk {
        self.phase.talk(talk)
    }
}
