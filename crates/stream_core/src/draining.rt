ghost use Rattle.std.specs.Prelude.{◌+◌, ◌<◌, Ok, sum_by};
ghost use Rattle.stream_core.specs.Drained.{Drained, Runs};

use crate::weighed::Weighed;
use std::collections::VecDeque;

/// Takes the first command until the queue is empty, and calls `f` with it and with the queue that is
/// left. An error of `f` ends it at once, with that error. The contract says the whole run, so that
/// a caller who lends `f` knows what became of all that `f` borrows.
pub fn drain_with<C: Weighed, F: FnMut(C, &mut VecDeque<C>) -> Result<(), E>, E>(
    queue: &mut VecDeque<C>,
    f: &mut F,
) -> Result<(), E>
    requires callable { F.IsAlwaysCallable f.old }
    requires lighter { (s t : _) (c : _) (before after : _) → F.pre s c before → F.step s c before (Ok tt) after t → sum_by C.weight after.now.items < C.weight c + sum_by C.weight before.now.items }
    ensures run { Drained (Runs F.FnMut (λ q. q.items)) f.old queue.old.items result f.new queue.new.items }
    ensures callable { F.IsAlwaysCallable f.new }
{
    while let Some(command) = queue.pop_front() {
        f(command, queue)?;
    }
    Ok(())
}

/// [`drain_with`] with an `f` of its own.
pub fn drain<C: Weighed, F: FnMut(C, &mut VecDeque<C>) -> Result<(), E>, E>(
    queue: &mut VecDeque<C>,
    f: F,
) -> Result<(), E>
    requires callable { F.IsAlwaysCallable f }
    requires lighter { (s t : _) (c : _) (before after : _) → F.pre s c before → F.step s c before (Ok tt) after t → sum_by C.weight after.now.items < C.weight c + sum_by C.weight before.now.items }
    ensures run { (last : _) × Drained (Runs F.FnMut (λ q. q.items)) f queue.old.items result last queue.new.items }
{
    let mut f = f;
    drain_with(queue, &mut f)
}
