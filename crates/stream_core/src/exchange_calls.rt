ghost use Rattle.std.specs.Prelude.{OnOk};
ghost use Rattle.stream_core.specs.Transcripts.{KeepsSilenceOnto};

use crate::exchange::Unbroken;
use crate::flow::Flow;
use text_types::Memory;

/// A call of an exchange.
#[derive(Drop)]
pub enum ExchangeCall<D, U> {
    Operation(D),
    Result(U),
}

/// Makes the calls in order. This is what an exchange that is never broken comes to: no result goes
/// up for an id behind its teardown until the id is sent again, nothing goes up at an operation,
/// and each mutation goes down once, at its own operation.
pub fn exchange_all<C, X: Unbroken<C>>(
    exchange: &mut X,
    calls: Vec<ExchangeCall<X::Op, X::Res>>,
    out: &mut Vec<Flow<X::Op, X::Res, C>>,
) -> Result<(), Memory>
    ensures { OnOk result
        (KeepsSilenceOnto X.Op.kind X.Res.id calls.items out.old.items out.new.items) }
{
    for call in calls {
        match call {
            ExchangeCall::Operation(op) => exchange.operation(op, out)?,
            ExchangeCall::Result(res) => exchange.result(res, out)?,
        }
    }
    Ok(())
}
