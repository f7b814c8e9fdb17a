ghost use Rattle.std.specs.Prelude.{◌≡◌, OnOk, OnErr, IfOk};
ghost use Rattle.std.specs.FinMap as finite;
ghost use Rattle.fault_causes.specs.Causes.{HasCause};
ghost use Rattle.fault_causes.specs.Crash.{LeavesOnly};
ghost use Rattle.queue_model.specs.Queue.{completed, IsHeld};
ghost use Rattle.stream_core.specs.Exchanges.{OperatedOnto, AnsweredOnto, Onto};
ghost use Rattle.offline_queue.specs.Keeper.{HasRowsBeforeOrAfter};
ghost use Rattle.offline_queue.specs.Offers.{IsDown, Operates, kind_of, fetch_of};
ghost use Rattle.offline_queue.specs.Stage.{PutInto, Answers};

use crate::Rows;
use crate::keeper::{Keeper, PutError};
use crate::offer::{Kept, Offer};
use gate_outside::Failed;
use std::alloc::Global;
use stream_core::{Exchange, Flow, Pending};
use text_types::{Memory, Text};

/// The stage of the line that keeps mutations which can't reach the origin.
#[derive(Drop)]
pub struct OfflineStage<K> {
    keeper: K,
    down: Pending<Option<(Text, Text, Text)>>,
}

impl<K: Keeper> OfflineStage<K> {
    /// The stage over a keeper. No fetch is down.
    pub fn new(alloc: Global, keeper: K) -> OfflineStage<K>
        ensures keeper { result.keeper ≡ keeper }
        ensures down { result.down ≡ finite.empty }
    {
        OfflineStage {
            keeper,
            down: Pending::new(alloc),
        }
    }

    /// Takes out the row with this number. Takes no memory.
    pub fn done(&mut self, seq: u64) -> Result<(), Failed>
        requires intact { K.intact self.old.keeper }
        requires held { IsHeld seq (K.queue self.old.keeper).rows }
        ensures completed { OnOk result (K.queue self.new.keeper ≡ completed (K.queue self.old.keeper) seq) }
        ensures intact { OnOk result (K.intact self.new.keeper) }
        ensures tells { K.tells self.old.keeper → K.tells self.new.keeper }
        ensures crash { K.tells self.old.keeper → LeavesOnly K.moment K.left_since self.old.keeper self.new.keeper
            (HasRowsBeforeOrAfter (K.queue self.old.keeper).rows (completed (K.queue self.old.keeper) seq).rows) }
        ensures cause { HasCause (K.faults self.old.keeper) (K.faults self.new.keeper) result }
        ensures down { self.new.down ≡ self.old.down }
    {
        self.keeper.done(seq)
    }

    /// The rows that are held, in order.
    pub fn rows(&self) -> Result<Rows, Memory>
        ensures { IfOk result (λ rows. rows ≡ (K.queue self.now.keeper).rows) }
    {
        self.keeper.rows()
    }

    /// The keeper as the last call left it. Takes no memory.
    pub fn into_keeper(self) -> K
        ensures { result ≡ self.keeper }
    {
        self.keeper
    }
}

/// An equal row.
fn copy_row(row: &Option<(Text, Text, Text)>) -> Result<Option<(Text, Text, Text)>, Memory>
    ensures { IfOk result (λ copy. copy ≡ row.now) }
{
    match row {
        None => Ok(None),
        Some((document, operation, variables)) => Ok(Some((
            document.copy()?,
            operation.copy()?,
            variables.copy()?,
        ))),
    }
}

impl<C: Drop, K: Keeper> Exchange<C> for OfflineStage<K> {
    type Op = Offer;

    type Res = Kept;

    ghost intact = { λ s. K.intact s.keeper };

    ghost awaits = { λ s. IsDown s.down };

    ghost operates = { λ s op t given. (t.keeper ≡ s.keeper) × Operates s.down op t.down given };

    ghost answers = { λ s res t given. Answers (PutInto K.queue K.intact K.faults K.tells K.moment K.left_since) s.keeper s.down res t.keeper t.down given };

    fn operation(&mut self, op: Offer, out: &mut Vec<Flow<Offer, Kept, C>>) -> Result<(), Memory>
        ensures lawful { OnOk result
            (OperatedOnto kind_of (IsDown self.old.down) (IsDown self.new.down) op out.old.items out.new.items) }
        ensures made { OnOk result
            (Onto (λ given. (self.new.keeper ≡ self.old.keeper) × Operates self.old.down op self.new.down given) out.old.items out.new.items) }
        ensures kept { self.new.keeper ≡ self.old.keeper }
    {
        match op {
            Offer::Mutation { fetch, row } => {
                self.down.put(fetch, copy_row(&row)?)?;
                out.push(Flow::Down(Offer::Mutation { fetch, row }))?;
            }
            Offer::Teardown { fetch } => {
                if self.down.take(fetch).is_some() {
                    out.push(Flow::Down(Offer::Teardown { fetch }))?;
                }
            }
        }
        Ok(())
    }

    fn result(&mut self, res: Kept, out: &mut Vec<Flow<Offer, Kept, C>>) -> Result<(), Memory>
        requires { K.intact self.old.keeper }
        ensures lawful { OnOk result
            (AnsweredOnto kind_of fetch_of (IsDown self.old.down) (IsDown self.new.down) out.old.items out.new.items) }
        ensures made { OnOk result
            (Onto (Answers (PutInto K.queue K.intact K.faults K.tells K.moment K.left_since) self.old.keeper self.old.down res self.new.keeper self.new.down) out.old.items out.new.items) }
        ensures kept { OnErr result (self.new.keeper ≡ self.old.keeper) }
        ensures down { OnErr result (self.new.down ≡ self.old.down) }
    {
        let fetch = res.fetch();
        let Some(row) = self.down.get(fetch) else {
            return Ok(());
        };
        out.reserve(1)?;
        let up = match (row, &res) {
            (
                Some(texts),
                Kept::Answer {
                    unreachable: true,
                    ..
                },
            ) => {
                match self.keeper.put(&texts.0, &texts.1, &texts.2) {
                    Ok(row) => Kept::Queued { fetch, row },
                    Err(PutError::Memory) => return Err(Memory),
                    Err(error) => Kept::NotQueued { fetch, error },
                }
            }
            _ => res,
        };
        self.down.take(fetch);
        out.push(Flow::Up(up))?;
        Ok(())
    }
}
