ghost use Rattle.std.specs.Prelude.{◌≡◌, ◌+◌, ◌<◌};

use std::marker::Model;
use std::sync::ledger::{Blank, Book, Ledger, Share};

/// How many cells were looked at since its ledger was opened. Contracts see the number. It takes no
/// bytes when the program runs, and nothing lowers it.
#[derive(Drop)]
pub struct Steps<L: Ledger> {
    book: Book<L>,
    share: Share<L>,
}

impl<L: Ledger> Model for Steps<L> {
    ghost use Rattle.std.specs.Prelude.{ℕ, ◌<◌};

    ghost Value = { ℕ };

    ghost view = { λ steps. steps.book.total };

    ghost invariant = { λ steps. 0 < steps.share.parts };
}

impl<L: Ledger> Steps<L> {
    /// No step yet.
    pub fn new(blank: Blank) -> Steps<L>
        requires name { blank.name ≡ L.name }
        requires parts { blank.parts ≡ L.parts }
        requires some { 0 < blank.parts }
        ensures { result ≡ 0 }
    {
        let (book, share) = blank.open();
        Steps { book, share }
    }

    /// So many steps more. Takes no memory.
    pub fn add(&mut self, amount: u64)
        ensures { self.new ≡ self.old + amount }
    {
        self.book.add(&mut self.share, amount);
    }
}
