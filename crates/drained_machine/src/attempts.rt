ghost use Rattle.std.specs.Prelude.{◌≡◌, ◌+◌, ◌++◌, ◌∷◌, [], length, map, sum_by, OnOk};
ghost use Rattle.drained_machine.specs.Attempts.{weight, retries, handled};

use entity_keys::Steps;
use std::collections::VecDeque;
use std::sync::ledger::Ledger;
use stream_core::{Weighed, drain_with};
use text_types::Memory;

/// An attempt at something that has a number, and how many are left behind it.
#[derive(Drop)]
pub struct Attempt {
    pub number: u64,
    pub left: u64,
}

impl Weighed for Attempt {
    ghost weight = { λ attempt. attempt.left + 1 };
}

/// Handles the attempts of a queue, first in, first out, until none is left: each is noted, counts
/// as one step and puts the next attempt at its number behind the queue, if any is left.
pub fn handle_all<L: Ledger>(
    queue: &mut VecDeque<Attempt>,
    noted: &mut Vec<u64>,
    steps: &mut Steps<L>,
) -> Result<(), Memory>
    ensures noted { OnOk result (noted.new.items ≡ noted.old.items ++ map (λ a. a.number) (handled queue.old.items)) }
    ensures counted { OnOk result (steps.new ≡ steps.old + length (handled queue.old.items)) }
    ensures exact { OnOk result (steps.new ≡ steps.old + sum_by weight queue.old.items) }
    ensures emptied { OnOk result (queue.new.items ≡ []) }
{
    let mut each = |attempt: Attempt, queue: &mut VecDeque<Attempt>| {
        handle(attempt, queue, noted, steps)
    };
    drain_with(queue, &mut each)
}

fn handle<L: Ledger>(
    attempt: Attempt,
    queue: &mut VecDeque<Attempt>,
    noted: &mut Vec<u64>,
    steps: &mut Steps<L>,
) -> Result<(), Memory>
    ensures noted { OnOk result (noted.new.items ≡ noted.old.items ++ attempt.number ∷ []) }
    ensures counted { OnOk result (steps.new ≡ steps.old + 1) }
    ensures queued { OnOk result (queue.new.items ≡ queue.old.items ++ retries attempt) }
{
    noted.push(attempt.number)?;
    if attempt.left > 0 {
        let left = attempt.left - 1;
        queue.push_back(Attempt { left, ..attempt })?;
    }
    steps.add(1);
    Ok(())
}
