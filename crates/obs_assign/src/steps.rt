// A count of steps that takes no bytes.
ghost use Rattle.std.specs.Prelude.{◌≡◌, ◌+◌, ◌<◌};
ghost use Rattle.obs_assign.specs.inner.Moves.{turned};

use std::marker::Model;
use std::sync::ledger::{Blank, Book, Ledger, Share};

/// How many steps were taken: only `tick` changes it, and it takes no bytes when the program runs. A step of an
/// assignment is one `augment` or one `pin`.
#[derive(Drop)]
pub struct Steps<L: Ledger> {
    book: Book<L>,
    share: Share<L>,
}

impl<L: Ledger> Model for Steps<L> {
    ghost use Rattle.std.specs.Prelude.{ℕ, ◌<◌};

    ghost Value = { ℕ };

    ghost view = { λ s. s.book.total };

    ghost invariant = { λ s. 0 < s.share.parts };
}

impl<L: Ledger> Steps<L> {
    /// Begins to count, in a ledger of its own.
    pub fn begin(blank: Blank) -> Steps<L>
        requires name { blank.name ≡ L.name }
        requires parts { blank.parts ≡ L.parts }
        requires some { 0 < L.parts }
        ensures none { result ≡ 0 }
    {
        let (book, share) = blank.open::<L>();
        Steps { book, share }
    }

    /// One step more.
    pub fn tick(&mut self)
        ensures one { self.new ≡ self.old + 1 }
    {
        self.book.add(&mut self.share, 1);
    }
}

/// One turn more, with one step. The number of turns stands at the last value rather than begin anew.
pub fn turn<L: Ledger>(turns: u64, steps: &mut Steps<L>) -> u64
    ensures turned { result ≡ turned turns }
    ensures tick { steps.new ≡ steps.old + 1 }
{
    steps.tick();
    turns.saturating_add(1)
}
