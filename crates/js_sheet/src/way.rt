ghost use Rattle.std.specs.Prelude.{◌≡◌, ℕ, true, false, List, Option, OnOk};
ghost use Rattle.cov_base.specs.Sink.{after_more, TakesPrefix};
ghost use Rattle.js_layout.specs.Layout.{marked};
ghost use Rattle.js_sheet.specs.Fault.{HasPrintCause};
ghost use Rattle.js_sheet.specs.Sheets.{origin_of, origin_if};

use crate::fault::PrintFault;
use cov_base::{Pieces, Sink};
use items::Memory;
use js_tree::Pos;

/// Where the text of a sheet goes.
#[derive(Drop)]
pub enum Way {
    /// Into a text, beside its marks: how many bytes stand before each, and what begins there.
    Whole(String, Vec<(usize, Option<Pos>)>),
    /// To a sink, in pieces. Marks aren't kept.
    InPieces(Pieces),
}

impl Way {
    ghost use Rattle.js_terms.specs.declared.place.Pos.{Pos};
    ghost use Rattle.js_sheet.specs.Ways.{is_whole, KeepsMore, KeepsMarks, TakesPart, Keeps};

    /// Writes text.
    pub(crate) fn push<S: Sink>(&mut self, sink: &mut S, text: &str) -> Result<(), PrintFault>
        ensures way { is_whole self.new ≡ is_whole self.old }
        ensures kept { OnOk result (KeepsMore self.old self.new (S.taken sink.old) (S.taken sink.new) text.now) }
        ensures prefix { TakesPart self.old (S.taken sink.old) (S.taken sink.new) text.now }
        ensures cause { HasPrintCause (S.faults sink.old) (S.faults sink.new) result }
    {
        match self {
            Way::Whole(held, _) => Ok(held.push_str(text)?),
            Way::InPieces(pieces) => Ok(pieces.put(sink, text.as_bytes())?),
        }
    }

    /// Keeps the mark of the token that comes next, by what is due and whether the last one was
    /// inserted.
    pub(crate) fn mark(
        &mut self,
        due: Option<Pos>,
        inserted: bool,
        in_source: bool,
    ) -> Result<(), Memory>
        ensures way { is_whole self.new ≡ is_whole self.old }
        ensures kept { OnOk result (KeepsMarks self.old self.new (marked (origin_of due (origin_if in_source)) inserted)) }
    {
        match self {
            Way::InPieces(_) => Ok(()),
            Way::Whole(held, offsets) => match due {
                Some(pos) => Ok(offsets.push((held.len(), Some(pos)))?),
                None => if in_source || inserted {
                    Ok(())
                } else {
                    Ok(offsets.push((held.len(), None))?)
                },
            },
        }
    }

    /// The text that is held whole, and its marks.
    pub(crate) fn into_whole(self) -> (String, Vec<(usize, Option<Pos>)>)
        requires { is_whole self ≡ true }
        ensures { self ≡ Way.Whole result.0 result.1 }
    {
        match self {
            Way::Whole(held, offsets) => (held, offsets),
            Way::InPieces(_) => unreachable!(),
        }
    }

    /// Hands on the last piece of what goes to a sink.
    pub(crate) fn finish<S: Sink>(self, sink: &mut S) -> Result<(), PrintFault>
        requires { is_whole self ≡ false }
        ensures all { OnOk result ((before : Option (List ℕ)) (text : List ℕ) (marks : List (ℕ × Option Pos))
            → Keeps self before (S.taken sink.old) text marks → S.taken sink.new ≡ after_more before text) }
        ensures prefix { (before : Option (List ℕ)) (text : List ℕ) (marks : List (ℕ × Option Pos))
            → Keeps self before (S.taken sink.old) text marks → TakesPrefix before (S.taken sink.new) text }
        ensures cause { HasPrintCause (S.faults sink.old) (S.faults sink.new) result }
    {
        match self {
            Way::InPieces(pieces) => Ok(pieces.finish(sink)?),
            Way::Whole(_, _) => unreachable!(),
        }
    }
}
