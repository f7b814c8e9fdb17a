use layer_store::StoreError;
use std::alloc::AllocError;
use std::io;
use text_types::Memory;

/// Why a bench stopped.
#[derive(Debug, Drop)]
pub(crate) enum Stop {
    Memory,
    /// No ticket is left.
    Numbers,
    /// The clock, the words or the output failed.
    Outside(io::Error),
    /// No form has this name.
    Name,
    /// The schema or the query was refused.
    Refused,
    /// A call gave another answer than the bench is about.
    Answer,
}

impl From<Memory> for Stop {
    fn from(_: Memory) -> Stop {
        Stop::Memory
    }
}

impl From<AllocError> for Stop {
    fn from(_: AllocError) -> Stop {
        Stop::Memory
    }
}

impl From<io::Error> for Stop {
    fn from(error: io::Error) -> Stop {
        Stop::Outside(error)
    }
}

impl From<StoreError> for Stop {
    fn from(error: StoreError) -> Stop {
        match error {
            StoreError::Memory => Stop::Memory,
            StoreError::Numbers => Stop::Numbers,
        }
    }
}
