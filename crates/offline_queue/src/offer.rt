ghost use Rattle.std.specs.Prelude.{◌≡◌};
ghost use Rattle.offline_queue.specs.Offers.{fetch_of};

use crate::keeper::PutError;
use stream_core::{Operation, OperationResult};
use text_types::Text;

/// What goes down to the queue's stage. The ids are the numbers of the fetches.
#[derive(Debug, Drop)]
pub enum Offer {
    /// A mutation, with the texts of its row (document, operation's name and variables) where it is
    /// to be kept when the origin can't be reached.
    Mutation {
        fetch: u64,
        row: Option<(Text, Text, Text)>,
    },
    /// The fetch isn't wanted any more.
    Teardown {
        fetch: u64,
    },
}

impl Operation for Offer {
    ghost use Rattle.offline_queue.specs.Offers.{kind_of};

    ghost kind = { kind_of };
}

/// What comes up from the queue's stage.
#[derive(Debug, Drop)]
pub enum Kept {
    /// The fetch is answered, or the origin couldn't be reached.
    Answer { fetch: u64, unreachable: bool },
    /// The mutation is kept as the row of this number.
    Queued { fetch: u64, row: u64 },
    /// The mutation couldn't be kept.
    NotQueued { fetch: u64, error: PutError },
}

impl OperationResult for Kept {
    ghost use Rattle.offline_queue.specs.Offers.{fetch_of};

    ghost id = { fetch_of };
}

impl Kept {
    /// The number of its fetch.
    pub fn fetch(&self) -> u64
        ensures { result ≡ fetch_of self.now }
    {
        match self {
            Kept::Answer { fetch, .. }
            | Kept::Queued { fetch, .. }
            | Kept::NotQueued { fetch, .. } => *fetch,
        }
    }
}
