ghost use Rattle.machine_model.specs.State.{first_state};
ghost use Rattle.machine_rows.specs.Meanings.{guessing};
ghost use Rattle.machine_rows.specs.Dialogs.{Follow, no_rows};
ghost use Rattle.machine_rows.specs.Mutations as run;
ghost use Rattle.machine_rows.specs.Mutations.{Opens, two_rows, rows_done, second_row, both_sent};

/// Two guessed mutations that can't reach the origin are queued. At the next opening both are sent again, and
/// are answered in the other order: what was sent last counts, and no row is left.
pub fn queued_and_offered_again()
    ensures queued { Follow guessing 1 run.both_queued two_rows (first_state no_rows) }
    ensures offered { Opens guessing two_rows both_sent run.both_answered rows_done }
{}

/// A row is sent again under its own ticket where the origin can be reached again, but not while its fetch is
/// open.
pub fn sent_again_under_its_ticket()
    ensures { Opens guessing two_rows both_sent run.sent_again second_row }
{}
