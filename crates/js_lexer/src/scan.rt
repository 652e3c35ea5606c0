ghost use Rattle.std.specs.Prelude.{◌≡◌, ℕ, List, ◌++◌, ◌-◌, ◌≤◌, length, take, drop, encode_utf8_all};
ghost use Rattle.std.specs.Str.{chars};
ghost use Rattle.js_lexer.specs.private.Class.{test_of};
ghost use Rattle.js_text.specs.Lex as spec;

use crate::character::Class;
use js_text::Cursor;

/// Moves over the character that follows. At the end nothing changes.
pub(crate) fn advance(cursor: &mut Cursor<'_>)
    ensures rest { cursor.new.after ≡ drop 1 cursor.old.after }
    ensures text { spec.characters_of cursor.new ≡ spec.characters_of cursor.old }
    ensures onward { length cursor.new.after ≤ length cursor.old.after }
{
    cursor.bump();
}

/// Moves over so many characters, or to the end.
pub(crate) fn advance_by(cursor: &mut Cursor<'_>, count: usize)
    ensures { cursor.new ≡ spec.moved count cursor.old }
{
    for _ in 0..count {
        cursor.bump();
    }
}

/// Moves over the characters of a class.
pub(crate) fn skip(cursor: &mut Cursor<'_>, class: Class)
    ensures rest { cursor.new.after ≡ spec.past (test_of class) cursor.old.after }
    ensures text { spec.characters_of cursor.new ≡ spec.characters_of cursor.old }
    ensures onward { length cursor.new.after ≤ length cursor.old.after }
{
    while let Some(next) = cursor.peek() {
        if !class.holds(next) {
            break;
        }
        advance(cursor);
    }
}

/// The text up to what it ends with.
fn front<'a>(whole: &'a str, rest: &str) -> &'a str
    requires { (before : List ℕ) × (whole.now ≡ before ++ rest.now) }
    ensures { (before : List ℕ) → whole.now ≡ before ++ rest.now → result.now ≡ before }
{
    let end = whole.len() - rest.len();
    &whole[..end]
}

/// The text from one place to a later one.
pub(crate) fn between<'a>(start: &Cursor<'a>, end: &Cursor<'a>) -> &'a str
    requires text { spec.characters_of end.now ≡ spec.characters_of start.now }
    requires onward { length end.now.after ≤ length start.now.after }
    ensures bytes { result.now ≡ encode_utf8_all (take (length start.now.after - length end.now.after) start.now.after) }
    ensures characters { chars result.now ≡ take (length start.now.after - length end.now.after) start.now.after }
{
    front(start.rest(), end.rest())
}
