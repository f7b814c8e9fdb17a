//! What a reading of the queue file finds.

use queue_model::Row;
use text_types::Text;

/// A text, and the place behind it.
#[derive(Drop)]
pub struct TextAt {
    pub text: Text,
    pub end: u64,
}

/// The three texts of a row, and the place behind them.
#[derive(Drop)]
pub struct TextsAt {
    pub document: Text,
    pub operation: Text,
    pub variables: Text,
    pub end: u64,
}

/// The first part of a record.
#[derive(Drop)]
pub struct Head {
    pub state: u8,
    pub seq: u64,
}

/// A record, and the place behind it.
#[derive(Drop)]
pub struct RecordAt {
    pub state: u8,
    pub row: Row,
    pub end: u64,
}

/// A chain as far as it was read.
#[derive(Drop)]
pub struct ChainSoFar {
    /// The rows that are held.
    pub rows: Vec<Row>,
    /// The places of their state bytes.
    pub places: Vec<u64>,
    /// The place of the next commit byte.
    pub commit: u64,
    /// The number of the last record, or 0.
    pub greatest: u64,
}
