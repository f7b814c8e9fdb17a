ghost use Rattle.std.specs.Prelude.{ℕ, List, OnOk};
ghost use Rattle.stream_core.specs.declared.flow.Flow.{Flow};
ghost use Rattle.stream_core.specs.Exchanges.{OperatedOnto, AnsweredOnto, Onto};

use crate::flow::Flow;
use crate::operation::{Operation, OperationResult};
use text_types::Memory;

/// One part of a line that operations go down and results go up. A command that it makes on the
/// way goes to the queue of commands and nowhere else.
pub trait Exchange<C> {
    type Op: Operation + Drop;

    type Res: OperationResult + Drop;

    /// It isn't broken: nothing that it stands on has failed. Only then it is called.
    ghost intact: { Self → Type 0 };

    /// A result may go up for this id.
    ghost awaits: { Self → ℕ → Type 0 };

    /// What it gives for an operation, and how that leaves it.
    ghost operates: { Self → Self.Op → Self → List (Flow Self.Op Self.Res C) → Type 0 };

    /// What it gives for a result, and how that leaves it.
    ghost answers: { Self → Self.Res → Self → List (Flow Self.Op Self.Res C) → Type 0 };

    /// Takes an operation that goes down, and puts what it makes of it behind `out`. It gives
    /// nothing up, and a mutation goes down once. Out of memory ends its promises.
    fn operation(
        &mut self,
        op: Self::Op,
        out: &mut Vec<Flow<Self::Op, Self::Res, C>>,
    ) -> Result<(), Memory>
        requires { intact self.old }
        ensures lawful { OnOk result
            (OperatedOnto Self.Op.kind (awaits self.old) (awaits self.new) op out.old.items out.new.items) }
        ensures made { OnOk result (Onto (operates self.old op self.new) out.old.items out.new.items) };

    /// Takes a result that goes up, and puts what it makes of it behind `out`. No mutation goes
    /// down, and a result goes up only for an id that may have one. Out of memory ends its promises.
    fn result(
        &mut self,
        res: Self::Res,
        out: &mut Vec<Flow<Self::Op, Self::Res, C>>,
    ) -> Result<(), Memory>
        requires { intact self.old }
        ensures lawful { OnOk result
            (AnsweredOnto Self.Op.kind Self.Res.id (awaits self.old) (awaits self.new) out.old.items out.new.items) }
        ensures made { OnOk result (Onto (answers self.old res self.new) out.old.items out.new.items) };
}

/// An exchange that is never broken.
pub trait Unbroken<C>: Exchange<C> {
    ghost never: { (x : Self) → Self.intact x };
}
