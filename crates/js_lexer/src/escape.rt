ghost use Rattle.std.specs.Prelude.{◌≡◌, ◌<◌, ◌≤◌, ◌+◌, ◌*◌, ◌&&◌, nat_le, length, drop, IfSome, Some, None, if◌then◌else◌};
ghost use Rattle.std.specs.Char as char;
ghost use Rattle.js_lexer.specs.Escape.{found_at, meaning, says_at};
ghost use Rattle.js_text.specs.Escape as spec;
ghost use Rattle.js_text.specs.Lex.{characters_of};
ghost use Rattle.js_text.specs.Place.{Place};

use crate::character::{is_digit, is_line_terminator};
use crate::scan::advance;
use js_text::Cursor;

/// What an escape stands for.
#[derive(Clone, Copy)]
pub(crate) enum Escaped {
    /// Nothing: a line goes on after it.
    Nothing,
    /// A code point, or a unit that is half of a pair.
    Code(u32),
}

/// Moves over a hexadecimal digit and says its number, if one follows.
fn hex_digit(cursor: &mut Cursor<'_>) -> Option<u32>
    ensures value { result ≡ spec.hex_digit cursor.old.after }
    ensures bound { IfSome result (λ value. value < 16) }
    ensures rest { IfSome result (λ _. cursor.new.after ≡ drop 1 cursor.old.after) }
    ensures text { characters_of cursor.new ≡ characters_of cursor.old }
    ensures onward { length cursor.new.after ≤ length cursor.old.after }
{
    let digit = cursor.peek()?.to_digit(16)?;
    advance(cursor);
    Some(digit)
}

/// The same of two digits.
fn two_digits(cursor: &mut Cursor<'_>) -> Option<u32>
    ensures value { result ≡ spec.two_digits cursor.old.after }
    ensures bound { IfSome result (λ value. value < 256) }
    ensures rest { IfSome result (λ _. cursor.new.after ≡ drop 2 cursor.old.after) }
    ensures text { characters_of cursor.new ≡ characters_of cursor.old }
    ensures onward { length cursor.new.after ≤ length cursor.old.after }
{
    let high = hex_digit(cursor)?;
    let low = hex_digit(cursor)?;
    Some(high * 16 + low)
}

/// The same of four digits.
fn four_digits(cursor: &mut Cursor<'_>) -> Option<u32>
    ensures value { result ≡ spec.four_digits cursor.old.after }
    ensures bound { IfSome result (λ value. value < 0x1_0000) }
    ensures rest { IfSome result (λ _. cursor.new.after ≡ drop 4 cursor.old.after) }
    ensures text { characters_of cursor.new ≡ characters_of cursor.old }
    ensures onward { length cursor.new.after ≤ length cursor.old.after }
{
    let high = two_digits(cursor)?;
    let low = two_digits(cursor)?;
    Some(high * 256 + low)
}

/// The number that a digit makes of those before it, if that is at most 10FFFF.
fn with_digit(value: u32, digit: char) -> Option<u32>
    requires { value ≤ 0x10FFFF }
    ensures value { result ≡ (if char.is_digit digit 16 && nat_le (value * 16 + char.digit_value digit) 0x10FFFF then Some (value * 16 + char.digit_value digit) else None) }
    ensures bound { IfSome result (λ more. more ≤ 0x10FFFF) }
{
    let more = value * 16 + digit.to_digit(16)?;
    if more <= 0x10FFFF { Some(more) } else { None }
}

/// Moves over digits up to and with a `}` and says the code point, which is at most 10FFFF.
fn braced_digits(cursor: &mut Cursor<'_>) -> Option<u32>
    ensures value { spec.braced_digits 0 cursor.old.after ≡ found_at result cursor.new }
    ensures bound { IfSome result (λ code. code ≤ 0x10FFFF) }
    ensures text { characters_of cursor.new ≡ characters_of cursor.old }
    ensures onward { length cursor.new.after ≤ length cursor.old.after }
{
    let mut value = 0;
    while let Some(next) = cursor.peek() {
        advance(cursor);
        if next == '}' {
            return Some(value);
        }
        match with_digit(value, next) {
            Some(more) => value = more,
            None => return None,
        }
    }
    None
}

/// Moves over the rest of an escape, after its `u`, and says the code point.
fn unicode_escape(cursor: &mut Cursor<'_>) -> Option<u32>
    ensures value { spec.unicode_escape cursor.old.after ≡ found_at result cursor.new }
    ensures bound { IfSome result (λ code. code ≤ 0x10FFFF) }
    ensures text { characters_of cursor.new ≡ characters_of cursor.old }
    ensures onward { length cursor.new.after ≤ length cursor.old.after }
{
    if cursor.peek() != Some('{') {
        return four_digits(cursor);
    }
    advance(cursor);
    if cursor.peek() == Some('}') {
        return None;
    }
    braced_digits(cursor)
}

/// Moves over an escape of an identifier, after its backslash, and says the code point.
pub(crate) fn identifier_escape(cursor: &mut Cursor<'_>) -> Option<u32>
    ensures value { spec.identifier_escape cursor.old.after ≡ found_at result cursor.new }
    ensures bound { IfSome result (λ code. code ≤ 0x10FFFF) }
    ensures text { characters_of cursor.new ≡ characters_of cursor.old }
    ensures onward { length cursor.new.after ≤ length cursor.old.after }
{
    match cursor.peek() {
        Some('u') => {
            advance(cursor);
            unicode_escape(cursor)
        }
        _ => None,
    }
}

/// The code of the character that an escape of one character stands for.
fn escaped_character(character: char) -> u32
    ensures value { result ≡ spec.escaped_character character }
    ensures bound { result ≤ 0x10FFFF }
{
    match character {
        'b' => 0x08,
        't' => 0x09,
        'n' => 0x0A,
        'v' => 0x0B,
        'f' => 0x0C,
        'r' => 0x0D,
        other => other as u32,
    }
}

/// Moves over the rest of an escape, after a digit: `0` stands alone, and no other is one.
fn digit_escape(cursor: &Cursor<'_>, digit: char) -> Option<Escaped>
    ensures value { says_at result cursor.now ≡ spec.digit_escape digit cursor.now.after }
    ensures bound { IfSome result (λ escaped. IfSome (meaning escaped) (λ code. code ≤ 0x10FFFF)) }
{
    let followed = cursor.peek().is_some_and(is_digit);
    if digit == '0' && !followed {
        Some(Escaped::Code(0))
    } else {
        None
    }
}

/// An escape that stands for a code point, if there is one.
fn code_point(code: Option<u32>) -> Option<Escaped>
    ensures value { (place : Place) → spec.says (found_at code place) ≡ says_at result place }
    ensures bound { IfSome code (λ code. code ≤ 0x10FFFF) → IfSome result (λ escaped. IfSome (meaning escaped) (λ code. code ≤ 0x10FFFF)) }
{
    match code {
        Some(code) => Some(Escaped::Code(code)),
        None => None,
    }
}

/// Moves over an escape of a string or a template, after its backslash, and says what it stands
/// for.
pub(crate) fn escape(cursor: &mut Cursor<'_>) -> Option<Escaped>
    ensures value { spec.escape cursor.old.after ≡ says_at result cursor.new }
    ensures bound { IfSome result (λ escaped. IfSome (meaning escaped) (λ code. code ≤ 0x10FFFF)) }
    ensures text { characters_of cursor.new ≡ characters_of cursor.old }
    ensures onward { length cursor.new.after ≤ length cursor.old.after }
{
    let first = cursor.peek()?;
    advance(cursor);
    match first {
        'x' => Some(Escaped::Code(two_digits(cursor)?)),
        'u' => code_point(unicode_escape(cursor)),
        '\r' => {
            if cursor.peek() == Some('\n') {
                advance(cursor);
            }
            Some(Escaped::Nothing)
        }
        other if is_line_terminator(other) => Some(Escaped::Nothing),
        other if is_digit(other) => digit_escape(cursor, other),
        other => Some(Escaped::Code(escaped_character(other))),
    }
}
