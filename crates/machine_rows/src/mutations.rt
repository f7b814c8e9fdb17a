ghost use Rattle.machine_rows.specs.Meanings.{guessing, guessing_and_invalidating, invalidating_users};
ghost use Rattle.machine_rows.specs.Dialogs.{Dialog};
ghost use Rattle.machine_rows.specs.Mutations as run;

/// The answer of an older query comes after that of a mutation: what the mutation invalidated doesn't come
/// back, and the query is sent again.
pub fn an_older_answer_brings_nothing_back()
    ensures { Dialog invalidating_users run.an_older_answer_brings_nothing_back }
{}

/// The same with the answers in the order in which their fetches were sent.
pub fn answers_in_order_of_sending()
    ensures { Dialog invalidating_users run.answers_in_order_of_sending }
{}

/// Another query under cache-only stays at a miss, and is told nothing more.
pub fn another_listener_stays_at_a_miss()
    ensures { Dialog invalidating_users run.another_listener_stays_at_a_miss }
{}

/// A guess is told at once, and an answer that is as guessed to its own listener alone.
pub fn a_guess_and_its_answer()
    ensures { Dialog guessing run.a_guess_and_its_answer }
{}

/// An answer that is not as guessed is told to the query too.
pub fn a_guess_and_another_answer()
    ensures { Dialog guessing run.a_guess_and_another_answer }
{}

/// A query that the guess made due is held back while the guess stands, and sent once that is taken back.
pub fn blocked_while_guessed()
    ensures { Dialog guessing_and_invalidating run.blocked_while_guessed }
{}
