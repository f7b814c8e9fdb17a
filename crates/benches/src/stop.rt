use layer_store::StoreError;
use std::alloc::{AllocError, AllocFailed};
use std::io;
use text_types::Memory;

/// Why a bench stopped.
#[derive(Debug, Drop)]
pub(crate) enum Stop {
    Memory,
    /// No ticket is left.
    Numbers,
    /// The clock, the words or the output failed.
    Outside(io::Error),
    /// No bench has this name.
    Name,
    /// A call gave another answer than the bench is about.
    Answer,
}

impl From<Memory> for Stop {
    fn from(_: Memory) -> Stop {
        Stop::Memory
    }
}

impl From<AllocError> for Stop {
    fn from(_: AllocError) -> Stop {
        Stop::Memory
    }
}

impl<T: Drop> From<AllocFailed<T>> for Stop {
    fn from(_: AllocFailed<T>) -> Stop {
        Stop::Memory
    }
}

impl From<io::Error> for Stop {
    fn from(error: io::Error) -> Stop {
        Stop::Outside(error)
    }
}

impl From<StoreError> for Stop {
    fn from(error: StoreError) -> Stop {
        match error {
            StoreError::Memory => Stop::Memory,
            StoreError::Numbers => Stop::Numbers,
        }
    }
}
