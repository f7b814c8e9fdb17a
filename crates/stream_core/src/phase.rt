ghost use Rattle.std.specs.Prelude.{◌≡◌};
ghost use Rattle.stream_core.specs.Phases.{passed, passes_to, upward, talked_to};

use crate::signal::{Signal, Talk};

/// Where a stage stands: before its Start, behind it, or behind its End or a Close.
#[derive(Clone, Copy, Debug, Drop, PartialEq, Eq)]
pub enum Phase {
    Waiting,
    Flowing,
    Over,
}

impl Phase {
    /// Lets a signal through where it has its turn, and takes note of it.
    pub fn pass<T: Drop>(&mut self, signal: Signal<T>) -> Option<Signal<T>>
        ensures through { result ≡ passed self.old signal }
        ensures after { self.new ≡ passes_to self.old signal }
    {
        match (*self, signal) {
            (Phase::Waiting, Signal::Start) => {
                *self = Phase::Flowing;
                Some(Signal::Start)
            }
            (Phase::Flowing, Signal::Push(item)) => Some(Signal::Push(item)),
            (Phase::Flowing, Signal::End) => {
                *self = Phase::Over;
                Some(Signal::End)
            }
            _ => None,
        }
    }

    /// Takes note of a talk, and answers what goes up.
    pub fn talk(&mut self, talk: Talk) -> Talk
        ensures up { result ≡ upward self.old talk }
        ensures after { self.new ≡ talked_to self.old talk }
    {
        if talk == Talk::Close {
            *self = Phase::Over;
        }
        match *self {
            Phase::Over => Talk::Close,
            _ => Talk::Pull,
        }
    }
}
