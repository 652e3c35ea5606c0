ghost use Rattle.std.specs.Prelude.{◌≡◌, ◌≤◌, [], ◌∷◌, length};
ghost use Rattle.std.specs.Option.{MatchOption};
ghost use Rattle.js_build.specs.DeclaratorPieces.{cons_if};
ghost use Rattle.js_build.specs.View.{plain_pieces};

use crate::Piece;
use std::alloc::Global;
use std::marker::Model;
use std::vec::IntoIter;

/// The pieces of a production that are left.
pub(crate) type Pieces = Queue<Piece>;

/// What is left of a list, from its front.
#[derive(Drop)]
pub(crate) struct Queue<T: Drop> {
    left: IntoIter<T, Global>,
}

impl<T: Drop> Model for Queue<T> {
    ghost use Rattle.std.specs.Prelude.{List};
    ghost use Rattle.std.specs.Coded.{coded_list};
    ghost use Rattle.std.specs.Vec.Iter.{into_iter_items};

    ghost Value = { List T };

    ghost coded = { coded_list T.code };

    ghost view = { λ held. into_iter_items held.left };
}

impl<T: Drop> Queue<T> {
    /// The whole list. It takes no memory.
    pub(crate) fn new(items: Vec<T>) -> Queue<T>
        ensures { result ≡ items.items }
    {
        Queue {
            left: items.into_iter(),
        }
    }

    /// The next one.
    pub(crate) fn next(&mut self) -> Option<T>
        ensures next { MatchOption result (self.old ≡ []) (λ item. self.old ≡ item ∷ self.new) }
        ensures shorter { length self.new ≤ length self.old }
    {
        self.left.next()
    }
}

/// The next piece, if there is one.
pub(crate) fn taken(pieces: &mut Pieces) -> Option<Piece>
    ensures next { plain_pieces pieces.old ≡ cons_if result (plain_pieces pieces.new) }
    ensures shorter { length pieces.new ≤ length pieces.old }
{
    match pieces.next() {
        None => None,
        Some(next) => Some(next),
    }
}
