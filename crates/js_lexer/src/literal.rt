ghost use Rattle.std.specs.Prelude.{◌≡◌, ◌≤◌, ◌==◌, ◌&&◌, ◌||◌, length, drop, slice_get, zero, Some, None, if◌then◌else◌};
ghost use Rattle.js_lexer.specs.Escape.{found_at};
ghost use Rattle.js_lexer.specs.Token.{KindIs};
ghost use Rattle.js_text.specs.Character.{begins_with_character};
ghost use Rattle.js_text.specs.Escape.{escape as of_literal};
ghost use Rattle.js_text.specs.Gap.{with_found};
ghost use Rattle.js_text.specs.Lex as lex;
ghost use Rattle.js_text.specs.Token.{StringLiteral};
ghost use Rattle.js_text.specs.Units as spec;

use crate::TokenKind;
use crate::escape::escape;
use crate::scan::{advance, between};
use js_text::Cursor;

/// Whether a string may not go on over a character.
fn ends_line(character: char) -> bool
    ensures { result ≡ ((character == 0x0A) || (character == 0x0D)) }
{
    matches!(character, '\n' | '\r')
}

/// Moves over the rest of an escape, after a backslash, and says whether there is one. After another
/// character nothing changes.
fn skip_escape(cursor: &mut Cursor<'_>, before: char) -> bool
    ensures rest { (if before == 0x5C then with_found (of_literal cursor.old.after) (λ found. Some found.1) None else Some cursor.old.after)
        ≡ (if result then Some cursor.new.after else None) }
    ensures text { lex.characters_of cursor.new ≡ lex.characters_of cursor.old }
    ensures onward { length cursor.new.after ≤ length cursor.old.after }
{
    if before == '\\' {
        escape(cursor).is_some()
    } else {
        true
    }
}

/// Moves over the rest of a string, after its opening quote, and says whether it is closed.
fn skip_string(cursor: &mut Cursor<'_>, quote: char) -> bool
    ensures rest { spec.string_rest quote zero cursor.old.after ≡ (if result then Some cursor.new.after else None) }
    ensures text { lex.characters_of cursor.new ≡ lex.characters_of cursor.old }
    ensures onward { length cursor.new.after ≤ length cursor.old.after }
{
    while let Some(next) = cursor.peek() {
        if next == quote {
            advance(cursor);
            return true;
        }
        if ends_line(next) {
            return false;
        }
        advance(cursor);
        if !skip_escape(cursor, next) {
            return false;
        }
    }
    false
}

/// A string, whose opening quote follows; none where it isn't closed.
pub(crate) fn string<'a>(cursor: &mut Cursor<'a>, quote: char) -> Option<TokenKind<'a>>
    requires { slice_get cursor.old.after 0 ≡ Some quote }
    ensures { KindIs result (lex.token_to StringLiteral quote (drop 1 cursor.old.after) (spec.string_rest quote zero (drop 1 cursor.old.after))) cursor.old cursor.new }
{
    let start = cursor.again();
    advance(cursor);
    if !skip_string(cursor, quote) {
        return None;
    }
    Some(TokenKind::StringLiteral(between(&start, cursor)))
}

/// Whether a `${` begins with a character and goes on at a place.
fn opens_substitution(cursor: &Cursor<'_>, before: char) -> bool
    ensures { result ≡ ((before == 0x24) && begins_with_character 0x7B cursor.now.after) }
{
    before == '$' && cursor.peek() == Some('{')
}

/// Moves over a part of a template, after the backquote or `}` before it, and says whether it ends by
/// the closing backquote, or else by `${`; none where it doesn't end.
fn skip_template(cursor: &mut Cursor<'_>) -> Option<bool>
    ensures rest { spec.template_rest zero cursor.old.after ≡ found_at result cursor.new }
    ensures text { lex.characters_of cursor.new ≡ lex.characters_of cursor.old }
    ensures onward { length cursor.new.after ≤ length cursor.old.after }
{
    while let Some(next) = cursor.peek() {
        advance(cursor);
        if next == '`' {
            return Some(true);
        }
        if opens_substitution(cursor, next) {
            advance(cursor);
            return Some(false);
        }
        if !skip_escape(cursor, next) {
            return None;
        }
    }
    None
}

/// A template up to its end or its first `${`; its backquote follows.
pub(crate) fn template<'a>(cursor: &mut Cursor<'a>) -> Option<TokenKind<'a>>
    requires { slice_get cursor.old.after 0 ≡ Some 0x60 }
    ensures { KindIs result (lex.token_by lex.template_kind 0x60 (drop 1 cursor.old.after) (spec.template_rest zero (drop 1 cursor.old.after))) cursor.old cursor.new }
{
    let start = cursor.again();
    advance(cursor);
    let last = skip_template(cursor)?;
    let spelling = between(&start, cursor);
    if last {
        Some(TokenKind::NoSubstitutionTemplate(spelling))
    } else {
        Some(TokenKind::TemplateHead(spelling))
    }
}

/// A template from the `}` that closes a `${`, which follows, up to its end or its next `${`.
fn continued_from<'a>(cursor: &mut Cursor<'a>) -> Option<TokenKind<'a>>
    requires { slice_get cursor.old.after 0 ≡ Some 0x7D }
    ensures { KindIs result (lex.token_by lex.continued_kind 0x7D (drop 1 cursor.old.after) (spec.template_rest zero (drop 1 cursor.old.after))) cursor.old cursor.new }
{
    let start = cursor.again();
    advance(cursor);
    let last = skip_template(cursor)?;
    let spelling = between(&start, cursor);
    if last {
        Some(TokenKind::TemplateTail(spelling))
    } else {
        Some(TokenKind::TemplateMiddle(spelling))
    }
}

/// The same, where a `}` follows.
pub(crate) fn continued<'a>(cursor: &mut Cursor<'a>) -> Option<TokenKind<'a>>
    ensures { KindIs result (lex.continued_token cursor.old.after) cursor.old cursor.new }
{
    match cursor.peek() {
        Some('}') => continued_from(cursor),
        _ => None,
    }
}
