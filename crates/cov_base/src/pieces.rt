ghost use Rattle.std.specs.Prelude.{◌≡◌, ◌++◌, ◌<◌, [], length, OnOk, IfOk};
ghost use Rattle.cov_base.specs.Causes.{HasCause};
ghost use Rattle.cov_base.specs.Sink.{after_more, TakesPrefix};
ghost use Rattle.cov_base.specs.Pieces.{Moves};

use crate::{Failed, Memory, Sink, write_all};
use std::alloc::Global;

/// How many bytes a piece has; the last of a text may have fewer.
const PIECE: usize = 4096;

/// Text on its way to a sink: what is put is held until it is a whole piece, and the sink gets one
/// piece after another.
#[derive(Debug, Drop)]
pub struct Pieces {
    held: Vec<u8>,
}

impl Pieces {
    ghost use Rattle.cov_base.specs.Pieces.{held_of};

    /// Room for a piece. It is all the memory that is taken.
    pub fn new(alloc: Global) -> Result<Pieces, Memory>
        ensures { IfOk result (λ pieces. held_of pieces ≡ []) }
    {
        Ok(Pieces {
            held: Vec::with_capacity(alloc, PIECE)?,
        })
    }

    /// Puts bytes after those that are held. What makes a whole piece goes to the sink.
    pub fn put<S: Sink>(&mut self, sink: &mut S, bytes: &[u8]) -> Result<(), Failed>
        ensures moved { OnOk result (Moves (held_of self.old ++ bytes.now) (held_of self.new) (S.taken sink.old) (S.taken sink.new)) }
        ensures prefix { TakesPrefix (S.taken sink.old) (S.taken sink.new) (held_of self.old ++ bytes.now) }
        ensures cause { HasCause (S.faults sink.old) (S.faults sink.new) result }
    {
        let mut rest = bytes;
        while !rest.is_empty() {
            make_room(&mut self.held, sink)?;
            let count = rest.len().min(PIECE - self.held.len());
            self.held.extend_from_slice(&rest[..count])?;
            rest = &rest[count..];
        }
        Ok(())
    }

    /// Hands on what is held, the last piece, if there is one.
    pub fn finish<S: Sink>(self, sink: &mut S) -> Result<(), Failed>
        ensures all { OnOk result (S.taken sink.new ≡ after_more (S.taken sink.old) (held_of self)) }
        ensures prefix { TakesPrefix (S.taken sink.old) (S.taken sink.new) (held_of self) }
        ensures cause { HasCause (S.faults sink.old) (S.faults sink.new) result }
    {
        write_all(sink, self.held.as_slice())
    }
}

/// Hands on what is held, where that is a whole piece.
fn make_room<S: Sink>(held: &mut Vec<u8>, sink: &mut S) -> Result<(), Failed>
    ensures room { OnOk result (length held.new.items < PIECE) }
    ensures moved { OnOk result (Moves held.old.items held.new.items (S.taken sink.old) (S.taken sink.new)) }
    ensures prefix { TakesPrefix (S.taken sink.old) (S.taken sink.new) held.old.items }
    ensures cause { HasCause (S.faults sink.old) (S.faults sink.new) result }
{
    if held.len() < PIECE {
        return Ok(());
    }
    write_all(sink, held.as_slice())?;
    held.clear();
    Ok(())
}
