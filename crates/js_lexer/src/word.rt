ghost use Rattle.std.specs.Prelude.{◌≡◌, ◌<◌, ◌≤◌, length, drop, slice_get, zero, true, false, Some, None, if◌then◌else◌};
ghost use Rattle.std.specs.List.{list_any};
ghost use Rattle.js_lexer.specs.private.Class.{test_of};
ghost use Rattle.js_lexer.specs.Token.{kind_of, KindIs};
ghost use Rattle.js_text.specs.Identifier as spec;
ghost use Rattle.js_text.specs.Lex as lex;

use crate::TokenKind;
use crate::character::{Class, starts_identifier};
use crate::escape::identifier_escape;
use crate::scan::{advance, between, skip};
use js_text::Cursor;

/// Moves over an escape, after its backslash, and says whether it stands for a character of a class.
fn skip_escape(cursor: &mut Cursor<'_>, class: Class) -> bool
    ensures rest { spec.escape_of (test_of class) cursor.old.after ≡ (if result then Some cursor.new.after else None) }
    ensures text { lex.characters_of cursor.new ≡ lex.characters_of cursor.old }
    ensures onward { length cursor.new.after ≤ length cursor.old.after }
{
    match identifier_escape(cursor) {
        Some(code) => match char::from_u32(code) {
            Some(character) => class.holds(character),
            None => false,
        },
        None => false,
    }
}

/// Moves over a backslash and its escape, if they follow and stand for a character of a class, and
/// says whether they do. Where they don't, nothing changes.
fn skip_escaped(cursor: &mut Cursor<'_>, class: Class) -> bool
    ensures rest { spec.escaped_rest (test_of class) cursor.old.after ≡ (if result then Some cursor.new.after else None) }
    ensures text { lex.characters_of cursor.new ≡ lex.characters_of cursor.old }
    ensures onward { length cursor.new.after ≤ length cursor.old.after }
    ensures shorter { result ≡ true → length cursor.new.after < length cursor.old.after }
    ensures unmoved { result ≡ false → cursor.new ≡ cursor.old }
{
    if cursor.peek() != Some('\\') {
        return false;
    }
    let mut end = cursor.again();
    advance(&mut end);
    if skip_escape(&mut end, class) {
        *cursor = end;
        true
    } else {
        false
    }
}

/// Whether an identifier starts there.
pub(crate) fn begins_identifier(cursor: &Cursor<'_>) -> bool
    ensures { result ≡ spec.begins_identifier cursor.now.after }
{
    let mut end = cursor.again();
    cursor.peek().is_some_and(starts_identifier) || skip_escaped(&mut end, Class::First)
}

/// Moves over what an identifier goes on with.
fn skip_rest(cursor: &mut Cursor<'_>)
    ensures rest { cursor.new.after ≡ spec.identifier_rest zero cursor.old.after }
    ensures text { lex.characters_of cursor.new ≡ lex.characters_of cursor.old }
    ensures onward { length cursor.new.after ≤ length cursor.old.after }
{
    loop {
        skip(cursor, Class::Identifier);
        if !skip_escaped(cursor, Class::Identifier) {
            return;
        }
    }
}

/// Moves over the rest of an identifier, after its first character, and says whether there is one: a
/// backslash begins an escape.
fn skip_after(cursor: &mut Cursor<'_>, first: char) -> bool
    ensures rest { spec.after_first first cursor.old.after ≡ (if result then Some cursor.new.after else None) }
    ensures text { lex.characters_of cursor.new ≡ lex.characters_of cursor.old }
    ensures onward { length cursor.new.after ≤ length cursor.old.after }
{
    if first == '\\' && !skip_escape(cursor, Class::First) {
        return false;
    }
    skip_rest(cursor);
    true
}

/// Whether a backslash is in a text.
fn has_backslash(text: &str) -> bool
    ensures { result ≡ list_any spec.is_backslash text.now }
{
    text.as_bytes().iter().any(|byte| *byte == b'\\')
}

/// The word that these bytes spell.
fn word_of(spelling: &str) -> TokenKind<'_>
    ensures { kind_of result ≡ spec.word_of_bytes spelling.now }
{
    if has_backslash(spelling) {
        TokenKind::EscapedWord(spelling)
    } else {
        TokenKind::Word(spelling)
    }
}

/// A word, whose first character follows; none where that is a backslash that begins no escape of
/// a character that starts one.
pub(crate) fn word<'a>(cursor: &mut Cursor<'a>, first: char) -> Option<TokenKind<'a>>
    requires { slice_get cursor.old.after 0 ≡ Some first }
    ensures { KindIs result (lex.token_to spec.word_of_bytes first (drop 1 cursor.old.after) (spec.after_first first (drop 1 cursor.old.after))) cursor.old cursor.new }
{
    let start = cursor.again();
    advance(cursor);
    if !skip_after(cursor, first) {
        return None;
    }
    Some(word_of(between(&start, cursor)))
}
