ghost use Rattle.std.specs.Prelude.{◌≡◌, OnOk};
ghost use Rattle.stream_core.specs.Exchanges.{OperatedOnto, AnsweredOnto, PassedDownOnto, PassedUpOnto, Onto};
ghost use Rattle.stream_core.specs.Lines.{Lowers, Raises, OperatesThrough, AnswersThrough};

use crate::exchange::{Exchange, Unbroken};
use crate::flow::Flow;
use text_types::Memory;

/// Two exchanges, where the second stands below the first.
#[derive(Drop)]
pub struct Line<A, B> {
    first: A,
    second: B,
}

impl<A, B> Line<A, B> {
    /// The two in a line, of which neither is ever broken.
    pub fn new(a: A, b: B) -> Self
        ensures first { result.first ≡ a }
        ensures second { result.second ≡ b }
    {
        Line {
            first: a,
            second: b,
        }
    }
}

/// Hands what the part above gave to the part below: its operations go down into it, and the rest
/// goes on as it is.
fn pass_down<C: Drop, X: Unbroken<C>>(
    below: &mut X,
    given: Vec<Flow<X::Op, X::Res, C>>,
    out: &mut Vec<Flow<X::Op, X::Res, C>>,
) -> Result<(), Memory>
    ensures laws { OnOk result (PassedDownOnto X.Op.kind given.items out.old.items out.new.items) }
    ensures made { OnOk result (Onto (Lowers X.operates below.old given.items below.new) out.old.items out.new.items) }
{
    for flow in given {
        match flow {
            Flow::Down(op) => below.operation(op, out)?,
            other => out.push(other)?,
        }
    }
    Ok(())
}

/// Hands what the part below gave to the part above: its results go up into it, and what that
/// sends down goes down through the part below.
fn pass_up<C: Drop, A: Unbroken<C>, B: Unbroken<C, Op = A::Op, Res = A::Res>>(
    above: &mut A,
    below: &mut B,
    given: Vec<Flow<A::Op, A::Res, C>>,
    out: &mut Vec<Flow<A::Op, A::Res, C>>,
) -> Result<(), Memory>
    ensures laws { OnOk result
        (PassedUpOnto A.Op.kind A.Res.id (A.awaits above.old) (A.awaits above.new) given.items out.old.items out.new.items) }
    ensures made { OnOk result
        (Onto (Raises A.answers B.operates above.old below.old given.items above.new below.new) out.old.items out.new.items) }
{
    for flow in given {
        match flow {
            Flow::Up(res) => {
                let mut between = Vec::new(*out.allocator());
                above.result(res, &mut between)?;
                pass_down(below, between, out)?;
            }
            other => out.push(other)?,
        }
    }
    Ok(())
}

impl<C: Drop, A: Unbroken<C>, B: Unbroken<C, Op = A::Op, Res = A::Res>> Exchange<C> for Line<A, B> {
    type Op = A::Op;

    type Res = A::Res;

    ghost intact = { λ _. Unit {0} };

    ghost awaits = { λ l. A.awaits l.first };

    ghost operates = { λ l op m given. OperatesThrough A.operates B.operates l.first l.second op m.first m.second given };

    ghost answers = { λ l res m given. AnswersThrough A.answers B.answers B.operates l.first l.second res m.first m.second given };

    fn operation(&mut self, op: A::Op, out: &mut Vec<Flow<A::Op, A::Res, C>>) -> Result<(), Memory>
        ensures lawful { OnOk result
            (OperatedOnto A.Op.kind (A.awaits self.old.first) (A.awaits self.new.first) op out.old.items out.new.items) }
        ensures made { OnOk result
            (Onto (OperatesThrough A.operates B.operates self.old.first self.old.second op self.new.first self.new.second) out.old.items out.new.items) }
    {
        let mut between = Vec::new(*out.allocator());
        self.first.operation(op, &mut between)?;
        pass_down(&mut self.second, between, out)?;
        Ok(())
    }

    fn result(&mut self, res: A::Res, out: &mut Vec<Flow<A::Op, A::Res, C>>) -> Result<(), Memory>
        ensures lawful { OnOk result
            (AnsweredOnto A.Op.kind A.Res.id (A.awaits self.old.first) (A.awaits self.new.first) out.old.items out.new.items) }
        ensures made { OnOk result
            (Onto (AnswersThrough A.answers B.answers B.operates self.old.first self.old.second res self.new.first self.new.second) out.old.items out.new.items) }
    {
        let mut between = Vec::new(*out.allocator());
        self.second.result(res, &mut between)?;
        pass_up(&mut self.first, &mut self.second, between, out)?;
        Ok(())
    }
}

impl<C: Drop, A: Unbroken<C>, B: Unbroken<C, Op = A::Op, Res = A::Res>> Unbroken<C> for Line<A, B> {
    ghost never = { λ l. tt };
}
