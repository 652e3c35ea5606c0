ghost use Rattle.std.specs.Prelude.{◌≡◌, ◌+◌, ◌<◌, nat_le};

use crate::place::Segment;
use std::marker::Model;
use std::sync::ledger::{Blank, Book, Ledger, Share};

/// How many segments were compared with a column. It takes no bytes, and only such a comparison
/// changes it. Contracts see it as that number.
#[derive(Drop)]
pub struct Steps<L: Ledger> {
    book: Book<L>,
    share: Share<L>,
}

impl<L: Ledger> Model for Steps<L> {
    ghost use Rattle.std.specs.Prelude.{ℕ, ◌<◌};

    ghost Value = { ℕ };

    ghost view = { λ steps. steps.book.total };

    ghost invariant = { λ steps. 0 < steps.share.parts };
}

impl<L: Ledger> Steps<L> {
    /// No steps yet, counted in a new ledger.
    pub fn new(blank: Blank) -> Steps<L>
        requires name { blank.name ≡ L.name }
        requires parts { blank.parts ≡ L.parts }
        requires some { 0 < blank.parts }
        ensures { result ≡ 0 }
    {
        let (book, share) = blank.open::<L>();
        Steps { book, share }
    }

    // One step more.
    fn tick(&mut self)
        ensures { self.new ≡ self.old + 1 }
    {
        self.book.add(&mut self.share, 1);
    }
}

// Whether a segment stands at or before a column: a step.
pub(crate) fn is_to<L: Ledger>(segment: Segment, column: u32, steps: &mut Steps<L>) -> bool
    ensures value { result ≡ nat_le segment.column column }
    ensures one { steps.new ≡ steps.old + 1 }
{
    steps.tick();
    segment.column <= column
}
