use gql_check::CheckError;
use gql_schema::SchemaError;
use gql_tokens::SyntaxError;
use op_keys::KeysError;
use std::alloc::AllocError;
use std::io;
use text_types::Memory;

/// Why a bench stopped.
#[derive(Debug, Drop)]
pub(crate) enum Stop {
    Memory,
    /// The clock, the words or the output failed.
    Outside(io::Error),
    /// No step or document has this name.
    Name,
    /// The schema, the document or its request was refused.
    Refused,
}

impl From<Memory> for Stop {
    fn from(_: Memory) -> Stop {
        Stop::Memory
    }
}

impl From<AllocError> for Stop {
    fn from(_: AllocError) -> Stop {
        Stop::Memory
    }
}

impl From<io::Error> for Stop {
    fn from(error: io::Error) -> Stop {
        Stop::Outside(error)
    }
}

impl From<SchemaError> for Stop {
    fn from(_: SchemaError) -> Stop {
        Stop::Refused
    }
}

impl From<SyntaxError> for Stop {
    fn from(_: SyntaxError) -> Stop {
        Stop::Refused
    }
}

impl From<CheckError> for Stop {
    fn from(_: CheckError) -> Stop {
        Stop::Refused
    }
}

impl From<KeysError> for Stop {
    fn from(_: KeysError) -> Stop {
        Stop::Refused
    }
}
