ghost use Rattle.std.specs.Prelude.{◌≡◌};
ghost use Rattle.js_text.specs.Character.{continues_identifier};
ghost use Rattle.std.specs.Str.{chars};
ghost use Rattle.js_sheet.specs.Meeting as spec;
ghost use Rattle.js_sheet.specs.Sheets as sheets;

use js_text::Cursor;
use unicode_ident::is_xid_continue;

/// What stands left of the next token, as far as the space before that depends on it.
#[derive(Clone, Copy)]
pub enum Left {
    /// Nothing.
    Nothing,
    /// A token that ends its line.
    Line,
    /// A token that ends with this character, and whether it is a number and a regular expression.
    Token(Option<char>, bool, bool),
}

/// What a token is, as far as the spaces beside it depend on it.
#[derive(Clone, Copy)]
pub enum Sort {
    /// A number.
    Number,
    /// A regular expression.
    Expression,
    /// Another token.
    Other,
}

/// Whether an identifier goes on with a character.
#[tactic(auto, unfolding(js_text::specs::Character::continues_identifier))]
fn continues(character: Option<char>) -> bool
    ensures { result ≡ spec.continues character }
{
    match character {
        Some(c) => is_xid_continue(c) || matches!(c, '$' | '\u{200C}' | '\u{200D}'),
        None => false,
    }
}

/// Whether a character is there, and is this one.
fn is(wanted: char, character: Option<char>) -> bool
    ensures { result ≡ spec.is wanted character }
{
    match character {
        Some(c) => c == wanted,
        None => false,
    }
}

/// Whether a space stands between what ends with one character and what begins with another.
pub(crate) fn parts(last: Option<char>, number: bool, expression: bool, first: Option<char>) -> bool
    ensures { result ≡ spec.parts last number expression first }
{
    (continues(last) && continues(first))
        || ((number || expression) && continues(first))
        || (number && is('.', first))
        || (is('+', last) && is('+', first))
        || (is('-', last) && is('-', first))
        || (is('/', last) && is('/', first))
        || (is('<', last) && is('!', first))
}

/// The first character of a text, if it has one.
pub(crate) fn first_of(text: &str) -> Option<char>
    ensures { result ≡ spec.first_of (chars text.now) }
{
    text.chars().next()
}

/// The last character of a text, if it has one.
#[tactic(auto, using(crate::proofs::Lasts::last_or_none))]
fn last_of(text: &str) -> Option<char>
    ensures { result ≡ spec.last_of (chars text.now) }
{
    let mut cursor = Cursor::new(text);
    let mut last = None;
    while let Some(character) = cursor.bump() {
        last = Some(character);
    }
    last
}

/// What stands left of the next token after one of this spelling.
pub(crate) fn left_after(sort: Sort, spelling: &str, ends_line: bool) -> Left
    ensures { result ≡ sheets.left_after sort spelling.now ends_line }
{
    if ends_line {
        return Left::Line;
    }
    Left::Token(
        last_of(spelling),
        matches!(sort, Sort::Number),
        matches!(sort, Sort::Expression),
    )
}
