ghost use Rattle.std.specs.Prelude.{◌≡◌, ◌≤◌, length, drop, slice_get, false, Some, None, if◌then◌else◌};
ghost use Rattle.std.specs.Option.{option_map};
ghost use Rattle.js_lexer.specs.Escape.{found_at};
ghost use Rattle.js_lexer.specs.Number.{at_separator, base_at, code_of};
ghost use Rattle.js_lexer.specs.Token.{KindIs};
ghost use Rattle.js_text.specs.Lex as lex;
ghost use Rattle.js_text.specs.Number as spec;

use crate::TokenKind;
use crate::character::is_digit;
use crate::scan::{advance, between};
use crate::word::begins_identifier;
use js_text::Cursor;

/// The base of a number's digits.
#[derive(Clone, Copy)]
enum Base {
    /// 2.
    Binary,
    /// 8.
    Octal,
    /// 10.
    Decimal,
    /// 16.
    Hexadecimal,
}

impl Base {
    /// Its number.
    fn code(self) -> u32
        ensures { result ≡ code_of self }
    {
        match self {
            Base::Binary => 2,
            Base::Octal => 8,
            Base::Decimal => 10,
            Base::Hexadecimal => 16,
        }
    }
}

/// Whether a digit of a base follows.
fn at_digit(cursor: &Cursor<'_>, base: Base) -> bool
    ensures { result ≡ spec.begins_with_digit_of (code_of base) cursor.now.after }
{
    match cursor.peek() {
        Some(next) => next.is_digit(base.code()),
        None => false,
    }
}

/// Whether a `_` follows, and a digit after it.
fn at_separator(cursor: &Cursor<'_>, base: Base) -> bool
    ensures { result ≡ at_separator (code_of base) cursor.now.after }
{
    if cursor.peek() != Some('_') {
        return false;
    }
    let mut next = cursor.again();
    advance(&mut next);
    at_digit(&next, base)
}

/// Moves over the digits that go on after one, with a `_` between two of them.
fn skip_digits(cursor: &mut Cursor<'_>, base: Base)
    ensures rest { cursor.new.after ≡ spec.more_digits (code_of base) cursor.old.after }
    ensures text { lex.characters_of cursor.new ≡ lex.characters_of cursor.old }
    ensures onward { length cursor.new.after ≤ length cursor.old.after }
{
    while at_digit(cursor, base) || at_separator(cursor, base) {
        advance(cursor);
    }
}

/// Moves over the digits that follow, if there are any.
fn skip_fraction_digits(cursor: &mut Cursor<'_>)
    ensures rest { cursor.new.after ≡ spec.digits_rest 10 cursor.old.after }
    ensures text { lex.characters_of cursor.new ≡ lex.characters_of cursor.old }
    ensures onward { length cursor.new.after ≤ length cursor.old.after }
{
    if at_digit(cursor, Base::Decimal) {
        skip_digits(cursor, Base::Decimal);
    }
}

/// Moves over a fraction, if one follows.
fn skip_fraction(cursor: &mut Cursor<'_>)
    ensures rest { cursor.new.after ≡ spec.fraction_rest cursor.old.after }
    ensures text { lex.characters_of cursor.new ≡ lex.characters_of cursor.old }
    ensures onward { length cursor.new.after ≤ length cursor.old.after }
{
    if cursor.peek() == Some('.') {
        advance(cursor);
        skip_fraction_digits(cursor);
    }
}

/// Moves over a sign, if one follows.
fn skip_sign(cursor: &mut Cursor<'_>)
    ensures rest { cursor.new.after ≡ spec.after_sign cursor.old.after }
    ensures text { lex.characters_of cursor.new ≡ lex.characters_of cursor.old }
    ensures onward { length cursor.new.after ≤ length cursor.old.after }
{
    if matches!(cursor.peek(), Some('+' | '-')) {
        advance(cursor);
    }
}

/// Moves over an exponent, if one follows.
fn skip_exponent(cursor: &mut Cursor<'_>)
    ensures rest { cursor.new.after ≡ spec.exponent_rest cursor.old.after }
    ensures text { lex.characters_of cursor.new ≡ lex.characters_of cursor.old }
    ensures onward { length cursor.new.after ≤ length cursor.old.after }
{
    if !matches!(cursor.peek(), Some('e' | 'E')) {
        return;
    }
    let mut end = cursor.again();
    advance(&mut end);
    skip_sign(&mut end);
    if at_digit(&end, Base::Decimal) {
        skip_digits(&mut end, Base::Decimal);
        *cursor = end;
    }
}

/// The base that the character after a `0` says, if it says one.
fn base_of(next: Option<char>) -> Option<Base>
    ensures { option_map code_of result ≡ base_at next }
{
    match next {
        Some('x' | 'X') => Some(Base::Hexadecimal),
        Some('o' | 'O') => Some(Base::Octal),
        Some('b' | 'B') => Some(Base::Binary),
        _ => None,
    }
}

/// Moves over the rest of a number with a base, after its `0`, and says whether there is one. Where
/// there is none, nothing changes.
fn skip_based(cursor: &mut Cursor<'_>) -> bool
    ensures rest { spec.based_rest cursor.old.after ≡ (if result then Some cursor.new.after else None) }
    ensures text { lex.characters_of cursor.new ≡ lex.characters_of cursor.old }
    ensures onward { length cursor.new.after ≤ length cursor.old.after }
    ensures unmoved { result ≡ false → cursor.new ≡ cursor.old }
{
    let Some(base) = base_of(cursor.peek()) else {
        return false;
    };
    let mut end = cursor.again();
    advance(&mut end);
    if at_digit(&end, base) {
        skip_digits(&mut end, base);
        *cursor = end;
        true
    } else {
        false
    }
}

/// Whether a number may end there.
fn ends(cursor: &Cursor<'_>) -> bool
    ensures { result ≡ spec.ends_number cursor.now.after }
{
    !(begins_identifier(cursor) || cursor.peek().is_some_and(is_digit))
}

/// Moves over the rest of a number without fraction and exponent, after its digits, and says whether
/// it is a BigInt; none where it may not end there.
fn end_whole(cursor: &mut Cursor<'_>, decimal: bool) -> Option<bool>
    ensures rest { (if decimal then spec.decimal_number cursor.old.after else spec.whole_number cursor.old.after cursor.old.after) ≡ found_at result cursor.new }
    ensures text { lex.characters_of cursor.new ≡ lex.characters_of cursor.old }
    ensures onward { length cursor.new.after ≤ length cursor.old.after }
{
    let big = cursor.peek() == Some('n');
    if big {
        advance(cursor);
    } else if decimal {
        skip_fraction(cursor);
        skip_exponent(cursor);
    }
    ends(cursor).then_some(big)
}

/// Moves over the rest of a number, after its first character, and says whether it is a BigInt; none
/// where it may not end there.
fn skip_number(cursor: &mut Cursor<'_>, first: char) -> Option<bool>
    ensures rest { spec.number_rest first cursor.old.after ≡ found_at result cursor.new }
    ensures text { lex.characters_of cursor.new ≡ lex.characters_of cursor.old }
    ensures onward { length cursor.new.after ≤ length cursor.old.after }
{
    match first {
        '.' => {
            skip_fraction_digits(cursor);
            skip_exponent(cursor);
            ends(cursor).then_some(false)
        }
        '0' => {
            let based = skip_based(cursor);
            end_whole(cursor, !based)
        }
        _ => {
            skip_digits(cursor, Base::Decimal);
            end_whole(cursor, true)
        }
    }
}

/// A number, whose first character follows; none where it doesn't end as one.
pub(crate) fn number<'a>(cursor: &mut Cursor<'a>, first: char) -> Option<TokenKind<'a>>
    requires { slice_get cursor.old.after 0 ≡ Some first }
    ensures { KindIs result (lex.token_by lex.number_kind first (drop 1 cursor.old.after) (spec.number_rest first (drop 1 cursor.old.after))) cursor.old cursor.new }
{
    let start = cursor.again();
    advance(cursor);
    let big = skip_number(cursor, first)?;
    let spelling = between(&start, cursor);
    if big {
        Some(TokenKind::BigInt(spelling))
    } else {
        Some(TokenKind::Numeral(spelling))
    }
}
