ghost use Rattle.std.specs.Prelude.{◌≡◌};
ghost use Rattle.queue_journal.specs.declared.error.OpenError.TheVariants as open_error;

use gate_outside::Failed;
use std::alloc::AllocError;

/// Why a journal wasn't opened.
#[derive(Clone, Copy, Debug, Drop, PartialEq, Eq)]
pub enum OpenError {
    /// Out of memory.
    Memory,
    /// The file has more than 9 bytes, and is no queue file.
    NotAJournal,
    /// The disk failed.
    Failed,
}

impl From<AllocError> for OpenError {
    ghost from_gives = { λ _ e. e ≡ open_error.Memory };

    fn from(_: AllocError) -> OpenError {
        OpenError::Memory
    }
}

impl From<Failed> for OpenError {
    ghost from_gives = { λ _ e. e ≡ open_error.Failed };

    fn from(_: Failed) -> OpenError {
        OpenError::Failed
    }
}
