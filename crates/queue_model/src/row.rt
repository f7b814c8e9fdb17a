ghost use Rattle.std.specs.Prelude.{◌≡◌, IfOk};

use text_types::{Memory, Text};

/// A mutation that waits for the network.
#[derive(Debug, Drop)]
pub struct Row {
    /// Its number, from 1 to 2^63 - 1. A later row has a greater one.
    pub seq: u64,
    /// The client's document in its canonical text.
    pub document: Text,
    /// The operation's name, or empty where it has none.
    pub operation: Text,
    /// The coerced variables as compact JSON text with sorted members.
    pub variables: Text,
}

impl Row {
    /// An equal row.
    pub fn copy(&self) -> Result<Row, Memory>
        ensures { IfOk result (λ row. row ≡ self.now) }
    {
        Ok(Row {
            seq: self.seq,
            document: self.document.copy()?,
            operation: self.operation.copy()?,
            variables: self.variables.copy()?,
        })
    }
}
