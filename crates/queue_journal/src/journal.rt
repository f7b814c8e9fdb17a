ghost use Rattle.std.specs.Prelude.{◌≡◌, ◌⊎◌, ℕ, ◌+◌, ◌≤◌, ◌<◌, [], ◌∷◌, List, Some, IfOk, IfErr, length, max, is_some, option_map, take, OnOk, OnErr, ◌++◌};
ghost use Rattle.fault_causes.specs.Causes.{Rose, HasCause};
ghost use Rattle.fault_causes.specs.Crash.{Only, LeavesOnly};
ghost use Rattle.gate_outside.specs.Disk.{IsTorn, written};
ghost use Rattle.queue_model.specs.Queue.{need_of, queued, HasRoom};

use crate::error::OpenError;
use crate::opening::open_queue;
use crate::record::record_bytes;
use crate::steps::{append_record, close_and_cut, cut_synced, write_synced};
use gate_outside::{Disk, Failed};
use offline_queue::{Keeper, MemoryKeeper, NextRow, PutError, Rows};
use std::alloc::Global;
use std::marker::Model;
use text_types::{Memory, Text};

/// A keeper that has each row on the disk before it is acknowledged.
#[derive(Drop)]
pub struct Journal<D: Disk> {
    pub(crate) disk: D,
    pub(crate) queue: MemoryKeeper,
    /// The place in the file of each row's state byte.
    pub(crate) places: Vec<u64>,
}

/// Why a journal wasn't opened, with the disk as the call left it.
pub struct Unopened<D> {
    pub disk: D,
    pub error: OpenError,
}

impl<D: Disk> Model for Journal<D> {
    ghost use Rattle.queue_journal.specs.Journal.{OpenJournal};

    ghost Value = { OpenJournal D };

    ghost view = { λ j. record { disk = j.disk; queue = j.queue; places = j.places.items } };
}

impl<D: Disk> Journal<D> {
    ghost use Rattle.queue_model.specs.QueueFile.{RowsOfFile, QueueOfFile};
    ghost use Rattle.queue_journal.specs.Journal.{IsSettled};
    ghost use Rattle.queue_journal.specs.Opening.{WasOrSame, IsForeign};
    ghost use Rattle.queue_journal.specs.Opened.{disk_after};
    ghost use Rattle.queue_journal.specs.Steps.{WhereTold};

    /// Opens the queue file on the disk, or begins one where the file has at most 9 bytes.
    pub fn open(alloc: Global, disk: D, limit: u64) -> Result<Journal<D>, Unopened<D>>
        requires low { 9 ≤ limit }
        requires high { limit ≤ 67108864 }

        // The journal holds what the file stands for, and so does each file that a crash now may leave.
        ensures queue { WhereTold (D.reads disk) (λ file. IfOk result (λ journal. QueueOfFile file limit journal.queue)) }
        ensures intact { IfOk result (λ journal. IsSettled D.reads D.kept D.may_leave journal) }

        ensures foreign { WhereTold (D.reads disk) (λ file.
            IfErr result (λ refused. refused.error ≡ OpenError.NotAJournal → IsForeign file)) }
        ensures failed { IfErr result (λ refused. refused.error ≡ OpenError.Failed
            → Rose (D.faults disk) (D.faults refused.disk)) }
        ensures later { D.faults disk ≤ D.faults (disk_after result) }

        // A crash in the call leaves a file that was possible before it, or one of the same rows.
        ensures crash { WhereTold (D.reads disk) (λ file. LeavesOnly D.moment D.left_since disk (disk_after result)
            (WasOrSame (D.may_leave disk) file)) }
        ensures untouched { IfErr result (λ refused. refused.error ≡ OpenError.NotAJournal
            → LeavesOnly D.moment D.left_since disk refused.disk (D.may_leave disk)) }
    {
        let mut disk = disk;
        match open_queue(alloc, &mut disk, limit) {
            Ok(found) => Ok(Journal {
                disk,
                queue: found.queue,
                places: found.places,
            }),
            Err(error) => Err(Unopened { disk, error }),
        }
    }

    /// Makes the file as short as one without rows can be. Takes no memory.
    pub fn reset(&mut self) -> Result<(), Failed>
        requires intact { IsSettled D.reads D.kept D.may_leave self.old }
        requires empty { self.old.queue.rows ≡ [] }
        ensures cut { OnOk result (D.reads self.new.disk ≡ option_map (take 9) (D.reads self.old.disk)) }
        ensures queue { self.new.queue ≡ self.old.queue }
        ensures intact { OnOk result (IsSettled D.reads D.kept D.may_leave self.new) }
        ensures crash { (file : List ℕ) → D.reads self.old.disk ≡ Some file
            → LeavesOnly D.moment D.left_since self.old.disk self.new.disk (λ c. RowsOfFile c []) }
        ensures cause { HasCause (D.faults self.old.disk) (D.faults self.new.disk) result }
    {
        cut_synced(&mut self.disk, 9)
    }

    /// The disk as the last call left it. Takes no memory.
    pub fn into_disk(self) -> D
        ensures { result ≡ self.disk }
    {
        self.disk
    }

    /// Holds one more row, whose record goes to the end.
    fn take_in(
        &mut self,
        next: NextRow,
        document: &Text,
        operation: &Text,
        variables: &Text,
    ) -> Result<(), Memory>
        requires number { next.seq ≡ self.old.queue.greatest + 1 }
        requires need { next.need ≡ need_of document.now operation.now variables.now }
        requires room { HasRoom self.old.queue next.need }
        ensures disk { self.new.disk ≡ self.old.disk }
        ensures told { D.reads self.new.disk ≡ D.reads self.old.disk }
        ensures queue { OnOk result (self.new.queue
            ≡ queued self.old.queue document.now operation.now variables.now) }
        ensures places { OnOk result (self.new.places ≡ self.old.places ++ self.old.queue.end ∷ []) }
        ensures err { OnErr result (self.new ≡ self.old) }
    {
        self.places.reserve(1)?;
        let end = self.queue.end();
        self.queue.add(next, document, operation, variables)?;
        self.places.push(end).unwrap();
        Ok(())
    }
}

impl<D: Disk> Keeper for Journal<D> {
    ghost use Rattle.queue_journal.specs.Journal.{IsSettled};
    ghost use Rattle.queue_journal.specs.Told.{leaves_held};

    ghost queue = { λ j. j.queue };

    ghost intact = { λ j. IsSettled D.reads D.kept D.may_leave j };

    ghost faults = { λ j. D.faults j.disk };

    ghost tells = { λ j. (file : List ℕ) × (D.reads j.disk ≡ Some file) };

    ghost moment = { λ j. D.moment j.disk };

    ghost left_since = { λ j t file. D.left_since j.disk t file };

    ghost leaves_held = { λ j intact tells file left. leaves_held D.reads D.kept D.may_leave D.moment D.left_since D.only_now j intact tells file left };

    fn put(
        &mut self,
        document: &Text,
        operation: &Text,
        variables: &Text,
    ) -> Result<u64, PutError> {
        let next = self.queue.next_row(document, operation, variables)?;
        let alloc = *self.places.allocator();
        let record = record_bytes(alloc, next.seq, document, operation, variables)?;
        let end = self.queue.end();
        self.take_in(next, document, operation, variables)?;
        match append_record(&mut self.disk, end, &record) {
            Ok(()) => Ok(next.seq),
            Err(Failed) => Err(PutError::Failed),
        }
    }

    fn done(&mut self, seq: u64) -> Result<(), Failed> {
        let at = self.queue.remove(seq);
        let place = self.places.remove(at);
        write_synced(&mut self.disk, place, &[1])?;
        if self.queue.is_empty() {
            return close_and_cut(&mut self.disk);
        }
        Ok(())
    }

    fn rows(&self) -> Result<Rows, Memory> {
        self.queue.rows()
    }
}
