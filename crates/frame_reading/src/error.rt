ghost use Rattle.std.specs.Prelude.{◌≡◌, Err};
ghost use Rattle.machine_model.specs.declared.output.Refusal.TheVariants.{E3 as named};
ghost use Rattle.frame_reading.specs.declared.error.FrameError.TheVariants as error;
ghost use Rattle.frame_reading.specs.Frames.{Frame};
ghost use Rattle.frame_reading.specs.Errors.{IsFrameError};

use machine_model::Refusal;
use std::alloc::Global;
use text_types::{Memory, Text};

/// Why a frame isn't taken.
#[derive(Drop)]
pub enum FrameError {
    /// Memory ran out, and then nothing is known of the frame.
    Memory,
    Refused(Refusal),
}

impl From<Memory> for FrameError {
    ghost from_gives = { λ _ e. e ≡ error.Memory };

    fn from(_: Memory) -> FrameError {
        FrameError::Memory
    }
}

/// The refusal that names a member.
pub(crate) fn bad_member(alloc: Global, name: &str) -> FrameError
    ensures { IsFrameError {X = Frame} (Err (named name.now)) result }
{
    match Text::from_str(alloc, name) {
        Ok(member) => FrameError::Refused(Refusal::E3 { member }),
        Err(_) => FrameError::Memory,
    }
}
