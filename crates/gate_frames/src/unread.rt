//! Why a frame can't be read whose members have their forms.

ghost use Rattle.std.specs.Prelude.{◌≡◌};
ghost use Rattle.gate_frames.specs.declared.unread.Unread.TheVariants.{Memory as OutOfMemory};

use text_types::{Memory, Text};

/// Why a frame can't be read whose members have their forms.
#[derive(Debug, Drop)]
pub(crate) enum Unread {
    Memory,
    /// A number in variables isn't whole; the path leads to it from the frame.
    NotWhole { path: Text },
}

impl From<Memory> for Unread {
    ghost from_gives = { λ _ unread. unread ≡ OutOfMemory };

    fn from(_: Memory) -> Unread {
        Unread::Memory
    }
}
