ghost use Rattle.std.specs.Prelude.{◌≡◌, ◌≤◌, length, drop, slice_get, false, Some, None, if◌then◌else◌};
ghost use Rattle.std.specs.Str.{chars};
ghost use Rattle.js_lexer.specs.Token.{KindIs};
ghost use Rattle.js_text.specs.Lex as lex;
ghost use Rattle.js_text.specs.RegularExpression as spec;

use crate::TokenKind;
use crate::character::{Class, is_line_terminator};
use crate::scan::{advance, between, skip};
use js_text::{Cursor, Goal};

/// Moves over a body, after its `/`, and over the `/` that ends it, and says whether one does.
fn skip_body(cursor: &mut Cursor<'_>) -> bool
    ensures rest { spec.body_rest false false cursor.old.after ≡ (if result then Some cursor.new.after else None) }
    ensures text { lex.characters_of cursor.new ≡ lex.characters_of cursor.old }
    ensures onward { length cursor.new.after ≤ length cursor.old.after }
{
    let mut escaped = false;
    let mut inside = false;
    while let Some(next) = cursor.peek() {
        if is_line_terminator(next) {
            return false;
        }
        advance(cursor);
        if escaped {
            escaped = false;
        } else {
            match next {
                '\\' => escaped = true,
                '[' => inside = true,
                ']' => inside = false,
                '/' if !inside => return true,
                _ => {}
            }
        }
    }
    false
}

/// Whether a character is a flag.
fn is_flag(character: char) -> bool
    ensures { result ≡ spec.is_flag character }
{
    matches!(character, 'd' | 'g' | 'i' | 'm' | 's' | 'u' | 'v' | 'y')
}

/// Whether a character is in a text.
fn has(cursor: &Cursor<'_>, character: char) -> bool
    ensures { result ≡ spec.has character cursor.now.after }
{
    let mut rest = cursor.again();
    while let Some(next) = rest.bump() {
        if next == character {
            return true;
        }
    }
    false
}

/// Whether a flag stands again after a place, or the one that excludes it.
fn clashes(rest: &Cursor<'_>, flag: char) -> bool
    ensures { result ≡ spec.clashes flag rest.now.after }
{
    has(rest, flag) || (flag == 'u' && has(rest, 'v')) || (flag == 'v' && has(rest, 'u'))
}

/// Whether a text is of flags, each once, and not `u` with `v`.
fn are_flags(text: &str) -> bool
    ensures { result ≡ spec.are_flags (chars text.now) }
{
    let mut cursor = Cursor::new(text);
    while let Some(next) = cursor.peek() {
        advance(&mut cursor);
        if !is_flag(next) || clashes(&cursor, next) {
            return false;
        }
    }
    true
}

/// A regular expression, whose first `/` follows; none where its body doesn't end on its line, or
/// its flags are none.
pub(crate) fn regular_expression<'a>(cursor: &mut Cursor<'a>) -> Option<TokenKind<'a>>
    requires { slice_get cursor.old.after 0 ≡ Some 0x2F }
    ensures { KindIs result (lex.slash_token Goal.RegExp (drop 1 cursor.old.after)) cursor.old cursor.new }
{
    let start = cursor.again();
    advance(cursor);
    if !skip_body(cursor) {
        return None;
    }
    let flags = cursor.again();
    skip(cursor, Class::Identifier);
    if !are_flags(between(&flags, cursor)) {
        return None;
    }
    Some(TokenKind::RegularExpression(between(&start, cursor)))
}
