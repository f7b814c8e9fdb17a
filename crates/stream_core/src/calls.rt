ghost use Rattle.std.specs.Prelude.{◌≡◌, OnOk};
ghost use Rattle.stream_core.specs.declared.phase.Phase.TheVariants.{Waiting};
ghost use Rattle.stream_core.specs.Played.{PlayedOnto};

use crate::signal::{Signal, Talk};
use crate::stage::Stage;
use text_types::Memory;

/// A call of a stage.
#[derive(Drop)]
pub enum Call<T> {
    Push(Signal<T>),
    Talk(Talk),
}

/// Makes the calls in order. This is what a stage comes to: Start, its list function of the items
/// that flow, and at most one End.
pub fn play<S: Stage>(
    stage: &mut S,
    calls: Vec<Call<S::In>>,
    out: &mut Vec<Signal<S::Out>>,
) -> Result<(), Memory>
    requires ready { S.ready stage.old }
    requires waits { S.phase stage.old ≡ Waiting }
    ensures ready { OnOk result (S.ready stage.new) }
    ensures played { OnOk result
        (PlayedOnto (S.gives stage.old) calls.items out.old.items out.new.items) }
{
    for call in calls {
        match call {
            Call::Push(signal) => stage.push(signal, out)?,
            Call::Talk(talk) => {
                stage.talk(talk);
            }
        }
    }
    Ok(())
}
