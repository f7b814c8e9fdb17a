//! HTTP/1.1 messages on both sides of the gateway, byte by byte as they come: the response of the
//! origin to a fetch, and the request of a client. It stands on `httparse` for the heads, on
//! `head_scan` for looking at their bytes once, and on `http_model` for what bytes are.
//!
//! The layer above has one contract: where [`Fetch::poll`], [`Fetch::ended`] and [`Request::poll`]
//! answer, they answer what all bytes so far come to, however they were cut.
#![tactic(auto)]

mod body;
mod chunks;
mod closing;
mod fetch;
mod framing;
mod head;
mod hearing;
mod laws;
mod received;
mod reply;
mod request;
mod request_head;
mod response;
mod serving;

pub use laws::{asked_for_good, asked_once, closed_once, decoded_for_good, decoded_once};
pub use reply::reply_text;
pub use request::request_text;
pub use response::{Fetch, Progress};
pub use serving::{Asked, Request};
