//! Queues over a file in memory, and one mutation put into them.
ghost use Rattle.std.specs.Prelude.{◌≤◌, OnOk, IfOk};
ghost use Rattle.queue_model.specs.Queue.{IsHeld};
ghost use Rattle.queue_journal.specs.Journal.{IsSettled};

use gate_outside::{Disk, MemoryDisk};
use offline_queue::{Keeper, PutError};
use queue_journal::{Journal, OpenError, Unopened};
use std::alloc::Global;
use text_types::{Bytes, Memory, Text};

/// The texts of two mutations, of 44 and 45 bytes.
pub const DONE: &str = r#"mutation{setDone(id:"1" done:true){id done}}"#;

pub const NOT_DONE: &str = r#"mutation{setDone(id:"1" done:false){id done}}"#;

/// The file after a put of the first.
pub const ONE_ROW: &[u8] =
    b"GQLGATE1\x01\0\0\0\0\0\0\0\0\x01\0\0\0\x2cmutation{setDone(id:\"1\" done:true){id done}}\0\0\0\0\0\0\0\x02{}\0";

/// The file after a put of both.
pub const TWO_ROWS: &[u8] =
    b"GQLGATE1\x01\0\0\0\0\0\0\0\0\x01\0\0\0\x2cmutation{setDone(id:\"1\" done:true){id done}}\0\0\0\0\0\0\0\x02{}\x01\0\0\0\0\0\0\0\0\x02\0\0\0\x2dmutation{setDone(id:\"1\" done:false){id done}}\0\0\0\0\0\0\0\x02{}\0";

/// A disk with this file, and room for what these tests write.
pub fn disk(alloc: Global, file: &[u8]) -> Result<MemoryDisk, Memory> {
    let mut bytes = Bytes::new(alloc);
    bytes.append(file)?;
    MemoryDisk::new(alloc, bytes, 4096)
}

/// Opens a journal whose rows may reach this limit.
pub fn opened<D: Disk + Drop>(alloc: Global, disk: D, limit: u64) -> Result<Journal<D>, OpenError>
    requires least { 9 ≤ limit }
    requires most { limit ≤ 67108864 }
    ensures { IfOk result (λ journal. IsSettled D.reads D.kept D.may_leave journal) }
{
    match Journal::open(alloc, disk, limit) {
        Ok(journal) => Ok(journal),
        Err(Unopened { disk: _, error }) => Err(error),
    }
}

/// Puts a mutation. With the first text its row takes 68 bytes, with the second 69.
pub fn put_once<K: Keeper>(alloc: Global, keeper: &mut K, document: &str) -> Result<u64, PutError>
    requires { K.intact keeper.old }
    ensures held { IfOk result (λ seq. IsHeld seq (K.queue keeper.new).rows) }
    ensures intact { OnOk result (K.intact keeper.new) }
{
    let document = Text::from_str(alloc, document)?;
    let variables = Text::from_str(alloc, "{}")?;
    keeper.put(&document, &Text::new(alloc), &variables)
}
