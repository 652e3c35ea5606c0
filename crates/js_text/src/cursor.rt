ghost use Rattle.std.specs.Prelude.{◌≡◌, ℕ, List, [], ◌∷◌, ◌++◌, length, drop, slice_get, IfSome, IfNone};
ghost use Rattle.std.specs.Str.{chars, encode_utf8_all, IsCharBoundary};
ghost use Rattle.js_text.specs.Position as spec;

use js_terms::Pos;
use std::marker::Model;

/// A place in a text that moves forward by one character at a time and knows its position, so that
/// a pass over a whole text is linear. Contracts see it as the place. It takes no memory.
#[derive(Debug, Drop)]
pub struct Cursor<'a> {
    text: &'a str,
    rest: &'a str,
    offset: usize,
    position: Pos,
}

impl<'a> Model for Cursor<'a> {
    ghost use Rattle.js_text.specs.Place.{Place};

    ghost Value = { Place };

    ghost use Rattle.js_text.specs.Cursor.{place_of, IsCursor};

    ghost view = { place_of };

    ghost invariant = { IsCursor };
}

impl<'a> Cursor<'a> {
    /// A cursor before the text's first character.
    pub fn new(text: &'a str) -> Cursor<'a>
        ensures before { result.before ≡ [] }
        ensures after { result.after ≡ chars text.now }
    {
        Cursor {
            text,
            rest: text,
            offset: 0,
            position: Pos { line: 1, column: 0 },
        }
    }

    /// Another cursor at the same place.
    pub fn again(&self) -> Cursor<'a>
        ensures { result ≡ self.now }
    {
        Cursor {
            text: self.text,
            rest: self.rest,
            offset: self.offset,
            position: self.position,
        }
    }

    /// The character that follows, and none exactly at the end.
    pub fn peek(&self) -> Option<char>
        ensures { result ≡ slice_get self.now.after 0 }
    {
        self.rest.chars().next()
    }

    /// Moves over the character that follows and returns it. At the end there is none, and nothing
    /// changes.
    pub fn bump(&mut self) -> Option<char>
        ensures after { IfSome result (λ next. self.old.after ≡ next ∷ self.new.after) }
        ensures before { IfSome result (λ next. self.new.before ≡ self.old.before ++ next ∷ []) }
        ensures end { IfNone result (self.old.after ≡ []) }
        ensures unchanged { IfNone result (self.new ≡ self.old) }
    {
        let mut chars = self.rest.chars();
        let next = chars.next()?;
        self.rest = chars.as_str();
        self.offset += next.len_utf8();
        self.position = position_after(self.position, next, self.rest);
        Some(next)
    }

    /// How many bytes stand before the place.
    pub fn at(&self) -> usize
        ensures { result ≡ length (encode_utf8_all self.now.before) }
    {
        self.offset
    }

    /// The line and the column of the place.
    pub fn position(&self) -> Pos
        ensures { result ≡ spec.position_of self.now }
    {
        self.position
    }

    /// The text that follows.
    pub fn rest(&self) -> &'a str
        ensures characters { chars result.now ≡ self.now.after }
        ensures bytes { result.now ≡ encode_utf8_all self.now.after }
    {
        self.rest
    }

    /// The text from the place at this many bytes, which is this one or before it, up to here.
    pub fn slice_since(&self, start: usize) -> &'a str
        requires { IsCharBoundary (encode_utf8_all self.now.before) start }
        ensures { result.now ≡ drop start (encode_utf8_all self.now.before) }
    {
        &self.text[start..self.offset]
    }
}

/// The position after a character that stood at a position and is followed by the rest.
fn position_after(position: Pos, character: char, rest: &str) -> Pos
    ensures { (before : List ℕ)
        → position ≡ spec.position_of (record { before = before; after = character ∷ chars rest.now })
        → result ≡ spec.position_of (record { before = before ++ character ∷ []; after = chars rest.now }) }
{
    if ends_line(character, rest) {
        Pos {
            line: position.line.saturating_add(1),
            column: 0,
        }
    } else {
        Pos {
            line: position.line,
            column: position.column.saturating_add(character.len_utf16() as u32),
        }
    }
}

/// Whether a line ends with a character that the rest follows. A CR before an LF ends none.
fn ends_line(character: char, rest: &str) -> bool
    ensures { result ≡ spec.ends_line character (chars rest.now) }
{
    match character {
        '\n' | '\u{2028}' | '\u{2029}' => true,
        '\r' => !rest.starts_with('\n'),
        _ => false,
    }
}
