use std::alloc::AllocError;
use std::io;
use text_types::Memory;

/// Why a bench stopped.
#[derive(Debug, Drop)]
pub(crate) enum Stop {
    Memory,
    /// The clock, the words or the output failed.
    Outside(io::Error),
    /// No form has this name.
    Name,
    /// The response came to something else than its answer.
    Answer,
}

impl From<Memory> for Stop {
    fn from(_: Memory) -> Stop {
        Stop::Memory
    }
}

impl From<AllocError> for Stop {
    fn from(_: AllocError) -> Stop {
        Stop::Memory
    }
}

impl From<io::Error> for Stop {
    fn from(error: io::Error) -> Stop {
        Stop::Outside(error)
    }
}
