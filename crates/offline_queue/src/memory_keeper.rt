ghost use Rattle.std.specs.Prelude.{◌≡◌, ◌≤◌, ◌<◌, ◌+◌, [], length, slice_index, IsTrue, ◌↔◌, IfOk, IfErr, OnOk, OnErr};
ghost use Rattle.queue_model.specs.Queue.{empty_queue, need_of, queued, completed, numbers_of, without, IsHeld, AreRising, RiseBetween, HasNumber, HasRoom};
ghost use Rattle.offline_queue.specs.Keeper.{RefusesPut};

use crate::Rows;
use crate::keeper::{Keeper, PutError};
use crate::search::place_of;
use gate_outside::Failed;
use queue_model::Row;
use std::alloc::Global;
use std::marker::Model;
use text_types::{Memory, Text};

/// The bytes that a queue without rows takes.
const EMPTY_END: u64 = 9;

/// The bytes that a row takes beside its texts.
const ROW_FRAME: u64 = 22;

/// The last number of a row, 2^63 - 1.
const LAST_NUMBER: u64 = 0x7fff_ffff_ffff_ffff;

/// The number and the need of a row that can be put.
#[derive(Clone, Copy, Debug, Drop, PartialEq, Eq)]
pub struct NextRow {
    /// The number that it would have.
    pub seq: u64,
    /// The bytes that it would take.
    pub need: u64,
}

/// A keeper that holds the rows in memory. It counts as a queue file would, and never fails.
#[derive(Debug, Drop)]
pub struct MemoryKeeper {
    rows: Vec<Row>,
    end: u64,
    limit: u64,
    greatest: u64,
}

impl Model for MemoryKeeper {
    ghost use Rattle.queue_model.specs.Queue.{MutationQueue};

    ghost Value = { MutationQueue };

    ghost view = { λ k. record {
      rows = k.rows.items;
      end = k.end;
      limit = k.limit;
      greatest = k.greatest;
    } };

    ghost use Rattle.std.specs.Prelude.{◌≤◌};

    ghost invariant = { λ k. k.limit ≤ 67108864 };
}

impl MemoryKeeper {
    /// A queue without rows, whose end may reach the limit, in bytes.
    pub fn new(alloc: Global, limit: u64) -> MemoryKeeper
        requires low { 9 ≤ limit }
        requires high { limit ≤ 67108864 }
        ensures queue { result ≡ empty_queue limit }
        ensures intact { RiseBetween 0 result.greatest result.rows }
    {
        MemoryKeeper::holding(Vec::new(alloc), EMPTY_END, limit, 0)
    }

    /// The queue of these rows.
    pub fn holding(rows: Vec<Row>, end: u64, limit: u64, greatest: u64) -> MemoryKeeper
        requires { limit ≤ 67108864 }
        ensures { result ≡ record { rows = rows.items; end = end; limit = limit; greatest = greatest } }
    {
        MemoryKeeper {
            rows,
            end,
            limit,
            greatest,
        }
    }

    /// The end of what the rows take, in bytes.
    pub fn end(&self) -> u64
        ensures { result ≡ self.now.end }
    {
        self.end
    }

    /// Whether it has no rows.
    pub fn is_empty(&self) -> bool
        ensures { IsTrue result ↔ self.now.rows ≡ [] }
    {
        self.rows.is_empty()
    }

    /// The number and the need of a row of these texts, or why it can't be put.
    pub fn next_row(
        &self,
        document: &Text,
        operation: &Text,
        variables: &Text,
    ) -> Result<NextRow, PutError>
        ensures number { IfOk result (λ next. (next.seq ≡ self.now.greatest + 1) × HasNumber self.now) }
        ensures room { IfOk result (λ next.
            (next.need ≡ need_of document.now operation.now variables.now) × HasRoom self.now next.need) }
        ensures refused { IfErr result (RefusesPut self.now
            (need_of document.now operation.now variables.now)) }
    {
        if self.greatest >= LAST_NUMBER {
            return Err(PutError::Numbers);
        }
        let need = ROW_FRAME
            .saturating_add(document.len() as u64)
            .saturating_add(operation.len() as u64)
            .saturating_add(variables.len() as u64);
        let left = self.limit.saturating_sub(self.end);
        if left < need {
            return Err(PutError::Full { need, left });
        }
        let seq = self.greatest + 1;
        Ok(NextRow { seq, need })
    }

    /// Adds the next row at the end.
    pub fn add(
        &mut self,
        next: NextRow,
        document: &Text,
        operation: &Text,
        variables: &Text,
    ) -> Result<(), Memory>
        requires number { next.seq ≡ self.old.greatest + 1 }
        requires need { next.need ≡ need_of document.now operation.now variables.now }
        requires room { HasRoom self.old next.need }
        ensures ok { OnOk result (self.new ≡ queued self.old document.now operation.now variables.now) }
        ensures err { OnErr result (self.new ≡ self.old) }
    {
        self.rows.push(Row {
            seq: next.seq,
            document: document.copy()?,
            operation: operation.copy()?,
            variables: variables.copy()?,
        })?;
        self.end += next.need;
        self.greatest = next.seq;
        Ok(())
    }

    /// Takes out the row with this number, and answers its place among the rows.
    pub fn remove(&mut self, seq: u64) -> usize
        requires rising { AreRising self.old.rows }
        requires held { IsHeld seq self.old.rows }
        ensures within { result < length self.old.rows }
        ensures number { slice_index (numbers_of self.old.rows) result ≡ seq }
        ensures queue { self.new ≡ completed self.old seq }
    {
        let place = place_of(&self.rows, seq);
        self.rows.remove(place);
        if self.rows.is_empty() {
            self.end = EMPTY_END;
        }
        place
    }
}

/// Equal rows.
fn copies(alloc: Global, rows: &[Row]) -> Result<Vec<Row>, Memory>
    ensures { IfOk result (λ copies. copies.items ≡ rows.now) }
{
    let mut copies = Vec::with_capacity(alloc, rows.len())?;
    for row in rows {
        copies.push(row.copy()?)?;
    }
    Ok(copies)
}

impl Keeper for MemoryKeeper {
    ghost use Rattle.queue_model.specs.Queue.{RiseBetween};

    ghost queue = { λ k. k };

    ghost intact = { λ k. RiseBetween 0 k.greatest k.rows };

    ghost faults = { λ k. 0 };

    ghost tells = { λ k. ⊥ };

    ghost moment = { λ k. 0 };

    ghost left_since = { λ k t file. ⊥ };

    ghost leaves_held = { λ k intact tells file left. absurd tells };

    fn put(
        &mut self,
        document: &Text,
        operation: &Text,
        variables: &Text,
    ) -> Result<u64, PutError> {
        let next = self.next_row(document, operation, variables)?;
        self.add(next, document, operation, variables)?;
        Ok(next.seq)
    }

    fn done(&mut self, seq: u64) -> Result<(), Failed> {
        self.remove(seq);
        Ok(())
    }

    fn rows(&self) -> Result<Rows, Memory> {
        Ok(Rows::from_vec(copies(*self.rows.allocator(), &self.rows)?))
    }
}
