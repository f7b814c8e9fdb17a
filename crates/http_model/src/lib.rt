//! What the bytes of an HTTP/1.1 connection are: when a head is whole, how long a body is, what a
//! chunk says, and what a response comes to. It stands on `httparse`'s grammar of heads and on the
//! outcomes of `gql_value`, and holds the words that the layer above is proved against.
//!
//! The layer above has one contract: `Decoded bytes progress` of `specs/Message.antt` says what all
//! bytes so far come to, however they were cut.
#![tactic(auto)]

mod chunk;
mod framing;

pub use chunk::{ChunkPhase, ChunkStep};
pub use framing::{Coding, Framing};
