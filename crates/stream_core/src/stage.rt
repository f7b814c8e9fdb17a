ghost use Rattle.std.specs.Prelude.{◌≡◌, OnOk, List, Bool};
ghost use Rattle.stream_core.specs.declared.phase.Phase.{Phase};
ghost use Rattle.stream_core.specs.Phases.{upward, talked_to};
ghost use Rattle.stream_core.specs.Turns.{TurnOnto, Within};

use crate::signal::{Signal, Talk};
use text_types::Memory;

/// One part of a line.
pub trait Stage {
    type In: Drop;

    type Out: Drop;

    /// It may be pushed into.
    ghost ready: { Self → Type 0 };

    /// Where it stands.
    ghost phase: { Self → Phase };

    /// What it gives for an item that flows, and whether that is its last.
    ghost gives: { Self → Self.In → List Self.Out → Bool → Type 0 };

    /// Takes a signal, and puts what it gives behind `out`. A stage that answered out of memory isn't
    /// pushed into again.
    fn push(
        &mut self,
        signal: Signal<Self::In>,
        out: &mut Vec<Signal<Self::Out>>,
    ) -> Result<(), Memory>
        requires { ready self.old }
        ensures ready { OnOk result (ready self.new) }
        ensures same { Within (gives self.old) (gives self.new) }
        ensures turn { OnOk result
            (TurnOnto (gives self.old) (phase self.old) signal (phase self.new) out.old.items out.new.items) };

    /// Takes what comes up the line, and answers what goes on up. It takes no memory.
    fn talk(&mut self, talk: Talk) -> Talk
        requires { ready self.old }
        ensures ready { ready self.new }
        ensures same { Within (gives self.old) (gives self.new) }
        ensures up { result ≡ upward (phase self.old) talk }
        ensures after { phase self.new ≡ talked_to (phase self.old) talk };
}
