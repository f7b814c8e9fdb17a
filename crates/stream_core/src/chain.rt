ghost use Rattle.std.specs.Prelude.{◌≡◌, OnOk};
ghost use Rattle.stream_core.specs.Turns.{Within};
ghost use Rattle.stream_core.specs.Walks.{PushedOnto};

use crate::signal::{Signal, Talk};
use crate::stage::Stage;
use std::alloc::Global;
use text_types::Memory;

/// Two stages, where the second takes what the first gives.
#[derive(Drop)]
pub struct Chain<A, B> {
    alloc: Global,
    first: A,
    second: B,
}

impl<A: Stage, B: Stage<In = A::Out>> Chain<A, B> {
    /// The composition of two stages.
    pub fn new(alloc: Global, a: A, b: B) -> Self
        ensures first { result.first ≡ a }
        ensures second { result.second ≡ b }
    {
        Chain {
            alloc,
            first: a,
            second: b,
        }
    }
}

/// Pushes each of the signals into the stage, in order.
fn push_all<S: Stage>(
    stage: &mut S,
    signals: Vec<Signal<S::In>>,
    out: &mut Vec<Signal<S::Out>>,
) -> Result<(), Memory>
    requires { S.ready stage.old }
    ensures ready { OnOk result (S.ready stage.new) }
    ensures same { Within (S.gives stage.old) (S.gives stage.new) }
    ensures pushed { OnOk result
        (PushedOnto (S.gives stage.old) (S.phase stage.old) signals.items (S.phase stage.new) out.old.items out.new.items) }
{
    for signal in signals {
        stage.push(signal, out)?;
    }
    Ok(())
}

impl<A: Stage, B: Stage<In = A::Out>> Stage for Chain<A, B> {
    ghost use Rattle.std.specs.Prelude.{◌≡◌, OnOk};
    ghost use Rattle.stream_core.specs.Phases.{Aligned, talked_to, upward};
    ghost use Rattle.stream_core.specs.Turns.{TurnOnto, Within};
    ghost use Rattle.stream_core.specs.Through.{GivesThrough};

    type In = A::In;

    type Out = B::Out;

    ghost ready = { λ s. A.ready s.first × B.ready s.second × Aligned (A.phase s.first) (B.phase s.second) };

    ghost phase = { λ s. B.phase s.second };

    ghost gives = { λ s. GivesThrough (A.gives s.first) (B.gives s.second) };

    fn push(&mut self, signal: Signal<A::In>, out: &mut Vec<Signal<B::Out>>) -> Result<(), Memory>
        requires { A.ready self.old.first × B.ready self.old.second × Aligned (A.phase self.old.first) (B.phase self.old.second) }
        ensures ready { OnOk result (A.ready self.new.first × B.ready self.new.second × Aligned (A.phase self.new.first) (B.phase self.new.second)) }
        ensures same { Within (GivesThrough (A.gives self.old.first) (B.gives self.old.second)) (GivesThrough (A.gives self.new.first) (B.gives self.new.second)) }
        ensures turn { OnOk result
            (TurnOnto (GivesThrough (A.gives self.old.first) (B.gives self.old.second)) (B.phase self.old.second) signal (B.phase self.new.second) out.old.items out.new.items) }
    {
        let mut between = Vec::new(self.alloc);
        self.first.push(signal, &mut between)?;
        push_all(&mut self.second, between, out)?;
        Ok(())
    }

    fn talk(&mut self, talk: Talk) -> Talk
        requires { A.ready self.old.first × B.ready self.old.second × Aligned (A.phase self.old.first) (B.phase self.old.second) }
        ensures ready { A.ready self.new.first × B.ready self.new.second × Aligned (A.phase self.new.first) (B.phase self.new.second) }
        ensures same { Within (GivesThrough (A.gives self.old.first) (B.gives self.old.second)) (GivesThrough (A.gives self.new.first) (B.gives self.new.second)) }
        ensures up { result ≡ upward (B.phase self.old.second) talk }
        ensures after { B.phase self.new.second ≡ talked_to (B.phase self.old.second) talk }
    {
        let talk = self.second.talk(talk);
        self.first.talk(talk)
    }
}
