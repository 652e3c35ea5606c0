ghost use Rattle.std.specs.Prelude.{◌≡◌, ℕ, true, false, is_some, [], ◌∷◌, None, Option, OnOk, IfOk, List};
ghost use Rattle.std.specs.String.{string_bytes};
ghost use Rattle.cov_base.specs.Sink.{after_more, TakesPrefix};
ghost use Rattle.js_text.specs.Token as token;
ghost use Rattle.js_spelling.specs.Written.{Written};
ghost use Rattle.js_layout.specs.Tokens as tokens;
ghost use Rattle.js_sheet.specs.Sheets as spec;
ghost use Rattle.js_sheet.specs.Fault.{HasPrintCause};

use crate::fault::PrintFault;
use crate::left::{Left, Sort, first_of, left_after, parts};
use crate::way::Way;
use cov_base::{Pieces, Sink};
use items::Memory;
use js_text::Punctuator;
use js_tree::{Loc, Pos};
use std::alloc::{AllocError, Global};

/// The text of the tokens so far, and their marks: how many bytes stand before each, and what
/// begins there in the source. It is held whole, or goes to a sink in pieces, and then its marks
/// aren't kept. After a fault nothing more is written, and it doesn't finish.
///
/// The sink is lent to each step; a sheet that is held whole writes nothing to it.
#[derive(Drop)]
pub struct Sheet {
    alloc: Global,
    way: Way,
    left: Left,
    inserted: bool,
    due: Option<Pos>,
    fault: Option<PrintFault>,
}

impl Sheet {
    ghost use Rattle.js_sheet.specs.Stands.{at, Start, Stands, Turns, Puts};
    ghost use Rattle.js_sheet.specs.Ways.{is_whole};

    /// Nothing is written yet. The text will be held whole.
    pub fn whole(alloc: Global) -> Sheet
        ensures { (taken : Option (List ℕ)) (faults : ℕ) → Stands (record { whole = true; taken = taken; faults = faults }) (at result taken faults) spec.blank }
    {
        Sheet::blank(alloc, Way::Whole(String::new(alloc), Vec::new(alloc)))
    }

    /// Nothing is written yet. The text will go to a sink in pieces. Room for a piece is all the
    /// memory that is taken.
    pub fn in_pieces(alloc: Global) -> Result<Sheet, Memory>
        ensures { IfOk result (λ sheet. (taken : Option (List ℕ)) (faults : ℕ) → Stands (record { whole = false; taken = taken; faults = faults }) (at sheet taken faults) spec.blank) }
    {
        let pieces = Pieces::new(alloc)?;
        Ok(Sheet::blank(alloc, Way::InPieces(pieces)))
    }

    /// Nothing is written yet.
    fn blank(alloc: Global, way: Way) -> Sheet
        ensures { result ≡ record { alloc = alloc; way = way; left = Left.Nothing; inserted = false; due = None; fault = None } }
    {
        Sheet {
            alloc,
            way,
            left: Left::Nothing,
            inserted: false,
            due: None,
            fault: None,
        }
    }

    /// What stands at this place of the source begins with the next token.
    pub fn begin(&mut self, place: Option<Loc>)
        ensures { (taken : Option (List ℕ)) (faults : ℕ) → Turns (at self.old taken faults) (at self.new taken faults) (spec.begin place) }
    {
        if self.due.is_none() {
            if let Some(loc) = place {
                self.due = Some(loc.start);
            }
        }
    }

    /// Writes text, unless there was a fault.
    fn push<S: Sink>(&mut self, sink: &mut S, text: &str)
        ensures way { is_whole self.new.way ≡ is_whole self.old.way }
        ensures turns { Turns (at self.old (S.taken sink.old) (S.faults sink.old)) (at self.new (S.taken sink.new) (S.faults sink.new)) (spec.with_text text.now) }
    {
        if self.fault.is_some() {
            return;
        }
        match self.way.push(sink, text) {
            Ok(()) => {}
            Err(fault) => self.fault = Some(fault),
        }
    }

    /// Writes the line's end or the space that is due before a token that begins with a character.
    fn gap<S: Sink>(&mut self, sink: &mut S, first: Option<char>)
        ensures { Turns (at self.old (S.taken sink.old) (S.faults sink.old)) (at self.new (S.taken sink.new) (S.faults sink.new)) (spec.with_gap first) }
    {
        if self.fault.is_some() {
            return;
        }
        match self.left {
            Left::Nothing => {}
            Left::Line => self.push(sink, "\n"),
            Left::Token(last, number, expression) => if parts(last, number, expression, first) {
                self.push(sink, " ");
            },
        }
    }

    /// Keeps the mark of the token that comes next, of what is in the source or was inserted.
    fn keep(&mut self, in_source: bool)
        ensures { (taken : Option (List ℕ)) (faults : ℕ) → Turns (at self.old taken faults) (at self.new taken faults) (spec.kept in_source) }
    {
        if self.fault.is_some() {
            return;
        }
        let kept = self.way.mark(self.due, self.inserted, in_source);
        self.inserted = self.due.is_none() && !in_source;
        self.due = None;
        if kept.is_err() {
            self.fault = Some(PrintFault::Memory);
        }
    }

    /// Writes a token of this spelling, unless there was a fault.
    fn put<S: Sink>(
        &mut self,
        sink: &mut S,
        sort: Sort,
        spelling: &str,
        place: Option<Loc>,
        ends_line: bool,
    )
        ensures { Turns (at self.old (S.taken sink.old) (S.faults sink.old)) (at self.new (S.taken sink.new) (S.faults sink.new))
            (λ s. spec.put_spelled s sort spelling.now (is_some place) ends_line) }
    {
        self.gap(sink, first_of(spelling));
        self.keep(place.is_some());
        self.push(sink, spelling);
        self.left = left_after(sort, spelling, ends_line);
    }

    /// Writes a word.
    pub fn word<S: Sink>(&mut self, sink: &mut S, place: Option<Loc>, word: &str)
        ensures { Puts (at self.old (S.taken sink.old) (S.faults sink.old)) (at self.new (S.taken sink.new) (S.faults sink.new)) (tokens.word place word.now ∷ []) }
    {
        self.put(sink, Sort::Other, word, place, false);
    }

    /// Writes a number.
    pub fn number<S: Sink>(&mut self, sink: &mut S, place: Option<Loc>, digits: &str)
        ensures { Puts (at self.old (S.taken sink.old) (S.faults sink.old)) (at self.new (S.taken sink.new) (S.faults sink.new)) (tokens.token place (token.Numeral digits.now) ∷ []) }
    {
        self.put(sink, Sort::Number, digits, place, false);
    }

    /// Writes a string, or a part of a template.
    pub fn literal<S: Sink>(&mut self, sink: &mut S, place: Option<Loc>, spelling: &str)
        ensures string { Puts (at self.old (S.taken sink.old) (S.faults sink.old)) (at self.new (S.taken sink.new) (S.faults sink.new)) (tokens.token place (token.StringLiteral spelling.now) ∷ []) }
        ensures whole { Puts (at self.old (S.taken sink.old) (S.faults sink.old)) (at self.new (S.taken sink.new) (S.faults sink.new)) (tokens.token place (token.NoSubstitutionTemplate spelling.now) ∷ []) }
        ensures head { Puts (at self.old (S.taken sink.old) (S.faults sink.old)) (at self.new (S.taken sink.new) (S.faults sink.new)) (tokens.token place (token.TemplateHead spelling.now) ∷ []) }
        ensures middle { Puts (at self.old (S.taken sink.old) (S.faults sink.old)) (at self.new (S.taken sink.new) (S.faults sink.new)) (tokens.token place (token.TemplateMiddle spelling.now) ∷ []) }
        ensures tail { Puts (at self.old (S.taken sink.old) (S.faults sink.old)) (at self.new (S.taken sink.new) (S.faults sink.new)) (tokens.token place (token.TemplateTail spelling.now) ∷ []) }
    {
        self.put(sink, Sort::Other, spelling, place, false);
    }

    /// Writes a regular expression.
    pub fn expression<S: Sink>(&mut self, sink: &mut S, place: Option<Loc>, body: &str, flags: &str)
        ensures { Puts (at self.old (S.taken sink.old) (S.faults sink.old)) (at self.new (S.taken sink.new) (S.faults sink.new)) (tokens.token place (tokens.regular_expression body.now flags.now) ∷ []) }
    {
        match format!(in self.alloc; "/{body}/{flags}") {
            Ok(spelling) => self.put(sink, Sort::Expression, &spelling, place, false),
            Err(_) => self.want(),
        }
    }

    /// Notes that memory is wanting, unless there was a fault before.
    fn want(&mut self)
        ensures { (taken : Option (List ℕ)) (faults : ℕ) (tokens : List Written) → Puts (at self.old taken faults) (at self.new taken faults) tokens }
    {
        if self.fault.is_some() {
            return;
        }
        self.fault = Some(PrintFault::Memory);
    }

    /// Writes a punctuator.
    pub fn mark<S: Sink>(&mut self, sink: &mut S, place: Option<Loc>, punctuator: Punctuator)
        ensures { Puts (at self.old (S.taken sink.old) (S.faults sink.old)) (at self.new (S.taken sink.new) (S.faults sink.new)) (tokens.mark place punctuator ∷ []) }
    {
        self.put(sink, Sort::Other, punctuator.spelling(), place, false);
    }

    /// Writes a punctuator that ends its line.
    pub fn last_mark<S: Sink>(&mut self, sink: &mut S, place: Option<Loc>, punctuator: Punctuator)
        ensures { Puts (at self.old (S.taken sink.old) (S.faults sink.old)) (at self.new (S.taken sink.new) (S.faults sink.new)) (tokens.last_mark place punctuator ∷ []) }
    {
        self.put(sink, Sort::Other, punctuator.spelling(), place, true);
    }

    /// Ends the last line where that is due.
    fn end<S: Sink>(&mut self, sink: &mut S)
        ensures way { is_whole self.new.way ≡ is_whole self.old.way }
        ensures turns { Turns (at self.old (S.taken sink.old) (S.faults sink.old)) (at self.new (S.taken sink.new) (S.faults sink.new)) (λ s. spec.with_text (spec.end_of s.left) s) }
    {
        if self.fault.is_some() {
            return;
        }
        if matches!(self.left, Left::Line) {
            self.push(sink, "\n");
        }
    }

    /// The text and the marks of a sheet that is held whole, the last line ended where it is due. It
    /// fails where memory is wanting or was.
    pub fn finish_whole<S: Sink>(
        self,
        sink: &mut S,
    ) -> Result<(String, Vec<(usize, Option<Pos>)>), Memory>
        requires { is_whole self.way ≡ true }
        ensures { IfOk result (λ parts. (start : Start) (s : spec.Sheet) → Stands start (at self (S.taken sink.old) (S.faults sink.old)) s
            → (string_bytes parts.0 ≡ spec.ended s) × (parts.1.items ≡ s.marks)) }
    {
        let mut sheet = self;
        sheet.end(sink);
        if sheet.fault.is_some() {
            return Err(AllocError);
        }
        Ok(sheet.way.into_whole())
    }

    /// Hands on the last piece of a sheet that goes to a sink, the last line ended where it is due.
    pub fn finish_in_pieces<S: Sink>(self, sink: &mut S) -> Result<(), PrintFault>
        requires { is_whole self.way ≡ false }
        ensures { (start : Start) (s : spec.Sheet) → Stands start (at self (S.taken sink.old) (S.faults sink.old)) s
            → OnOk result (S.taken sink.new ≡ after_more start.taken (spec.ended s))
            × TakesPrefix start.taken (S.taken sink.new) (spec.ended s) × HasPrintCause start.faults (S.faults sink.new) result }
    {
        let mut sheet = self;
        sheet.end(sink);
        match sheet.fault {
            Some(fault) => Err(fault),
            None => sheet.way.finish(sink),
        }
    }
}
