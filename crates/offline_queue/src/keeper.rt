ghost use Rattle.std.specs.Prelude.{◌≡◌, ℕ, List, IfOk, OnOk};
ghost use Rattle.fault_causes.specs.Causes.{HasCause, HasCauseOf};
ghost use Rattle.fault_causes.specs.Crash.{LeavesOnly};
ghost use Rattle.queue_model.specs.Queue.{MutationQueue, need_of, queued, completed, IsHeld};
ghost use Rattle.queue_model.specs.QueueFile.{RowsOfFile};
ghost use Rattle.offline_queue.specs.Keeper.{AnswersPut, IsRefusal, HasRowsBeforeOrAfter};

use crate::Rows;
use gate_outside::Failed;
use text_types::{Memory, Text};

/// Why a row wasn't put.
#[derive(Clone, Copy, Debug, Drop, PartialEq, Eq)]
pub enum PutError {
    /// Out of memory.
    Memory,
    /// No number below 2^63 is left.
    Numbers,
    /// The row would pass the queue's limit. Both are in bytes.
    Full {
        /// What the row takes, or 2^64 - 1 where it takes more.
        need: u64,
        /// What is left below the limit.
        left: u64,
    },
    /// The keeper's device failed.
    Failed,
}

impl From<Memory> for PutError {
    ghost use Rattle.std.specs.Prelude.{◌≡◌};
    ghost use Rattle.offline_queue.specs.declared.keeper.PutError.TheVariants as put_error;

    ghost from_gives = { λ _ e. e ≡ put_error.Memory };

    fn from(_: Memory) -> PutError {
        PutError::Memory
    }
}

/// Keeps the rows of the queue.
pub trait Keeper {
    /// The queue that it keeps.
    ghost queue: { Self → MutationQueue };

    /// No call of it has answered `Failed`.
    ghost intact: { Self → Type 0 };

    /// How often its device has failed.
    ghost faults: { Self → ℕ };

    /// It tells what a crash might leave.
    ghost tells: { Self → Type 0 };

    /// The moment, as a number that doesn't fall.
    ghost moment: { Self → ℕ };

    /// Where it tells, which files a crash at that moment or later might have left.
    ghost left_since: { Self → ℕ → List ℕ → Type 0 };

    /// Adds a row at the end, and answers its number. Numbers are tried first, then room, then the
    /// device. Memory is asked for before the device is called.
    fn put(&mut self, document: &Text, operation: &Text, variables: &Text) -> Result<u64, PutError>
        requires { intact self.old }
        ensures answer { AnswersPut (queue self.old)
            (need_of document.now operation.now variables.now) result }
        ensures queued { OnOk result (queue self.new
            ≡ queued (queue self.old) document.now operation.now variables.now) }
        ensures intact { OnOk result (intact self.new) }
        ensures refused { IsRefusal result → self.new ≡ self.old }
        ensures tells { tells self.old → tells self.new }
        ensures crash { tells self.old → LeavesOnly moment left_since self.old self.new
            (HasRowsBeforeOrAfter (queue self.old).rows
            (queued (queue self.old) document.now operation.now variables.now).rows) }
        ensures cause { HasCauseOf PutError.Failed (faults self.old) (faults self.new) result };

    /// Takes out the row with this number. Takes no memory.
    fn done(&mut self, seq: u64) -> Result<(), Failed>
        requires intact { intact self.old }
        requires held { IsHeld seq (queue self.old).rows }
        ensures completed { OnOk result (queue self.new ≡ completed (queue self.old) seq) }
        ensures intact { OnOk result (intact self.new) }
        ensures tells { tells self.old → tells self.new }
        ensures crash { tells self.old → LeavesOnly moment left_since self.old self.new
            (HasRowsBeforeOrAfter (queue self.old).rows (completed (queue self.old) seq).rows) }
        ensures cause { HasCause (faults self.old) (faults self.new) result };

    /// The rows that are held, in order.
    fn rows(&self) -> Result<Rows, Memory>
        ensures { IfOk result (λ rows. rows ≡ (queue self.now).rows) };

    /// Between two calls a crash leaves a file of the rows that are held.
    ghost leaves_held: { (keeper : Self) → intact keeper → tells keeper → (file : List ℕ)
        → left_since keeper (moment keeper) file → RowsOfFile file (queue keeper).rows };
}
