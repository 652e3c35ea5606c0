ghost use Rattle.std.specs.Prelude.{◌≡◌, ◌<◌, ◌≤◌, ◌-◌, ◌++◌, ◌==◌, ◌∷◌, [], length, take, drop, slice_get, zero, true, false, Some, IfOk, IfSome, OnOk, if◌then◌else◌, encode_utf8_all};
ghost use Rattle.std.specs.Char.Escape.{encode_utf16};
ghost use Rattle.std.specs.Str.{chars};
ghost use Rattle.js_lexer.specs.Escape.{found_at, meaning};
ghost use Rattle.js_text.specs.Identifier.{character_escape, decoded};
ghost use Rattle.js_text.specs.Lex.{characters_of};
ghost use Rattle.js_text.specs.Position.{begins_with_line_feed};
ghost use Rattle.js_text.specs.Units as spec;

use crate::escape::{Escaped, escape, identifier_escape};
use crate::scan::advance;
use items::{Items, Memory, Text};
use js_text::Cursor;
use std::alloc::Global;

/// The 16-bit units of a string literal that is spelt so (12.9.4.2), or want of memory.
pub fn units_of(alloc: Global, spelling: &str) -> Result<Items<u16>, Memory>
    ensures { IfOk result (λ units. units ≡ spec.units_of spelling.now) }
{
    value_units(alloc, without_last(without_first(spelling)))
}

/// The 16-bit units of a part of a template that is spelt so (12.9.6.1), in which CR LF and CR are
/// LF, or want of memory.
pub fn template_units(alloc: Global, spelling: &str) -> Result<Items<u16>, Memory>
    ensures { IfOk result (λ units. units ≡ spec.template_units spelling.now) }
{
    let part = without_last(without_first(spelling));
    if ends_with_brace(spelling) {
        value_units(alloc, without_last(part))
    } else {
        value_units(alloc, part)
    }
}

/// A text without its first character.
fn without_first(text: &str) -> &str
    ensures { chars result.now ≡ drop 1 (chars text.now) }
{
    let mut cursor = Cursor::new(text);
    advance(&mut cursor);
    cursor.rest()
}

/// A text without its last character.
fn without_last(text: &str) -> &str
    ensures { chars result.now ≡ take (length (chars text.now) - 1) (chars text.now) }
{
    let mut characters = text.chars();
    characters.next_back();
    characters.as_str()
}

/// Whether a text ends with `{`.
fn ends_with_brace(text: &str) -> bool
    ensures { result ≡ spec.ends_with_brace (chars text.now) }
{
    let mut cursor = Cursor::new(text);
    let mut brace = false;
    while let Some(next) = cursor.peek() {
        advance(&mut cursor);
        brace = next == '{';
    }
    brace
}

/// The units of what a text's characters and escapes stand for, up to a backslash that begins none.
fn value_units(alloc: Global, text: &str) -> Result<Items<u16>, Memory>
    ensures { IfOk result (λ units. units ≡ spec.value_units zero (chars text.now)) }
{
    let mut units = Items::new(alloc);
    let mut cursor = Cursor::new(text);
    while let Some(next) = cursor.peek() {
        if !put_next(&mut units, &mut cursor, next)? {
            return Ok(units);
        }
    }
    Ok(units)
}

/// Moves over the character that follows, with its escape or with the LF of a CR LF, and puts its
/// units at the end. Says whether the text may go on: it doesn't where a backslash begins no escape.
fn put_next(units: &mut Items<u16>, cursor: &mut Cursor<'_>, next: char) -> Result<bool, Memory>
    requires { slice_get cursor.old.after 0 ≡ Some next }
    ensures units { IfOk result (λ on. units.old ++ spec.value_units zero cursor.old.after ≡ (if on then units.new ++ spec.value_units zero cursor.new.after else units.new)) }
    ensures shorter { IfOk result (λ on. length cursor.new.after < length cursor.old.after) }
{
    advance(cursor);
    match next {
        '\\' => match escape(cursor) {
            Some(escaped) => {
                put_escaped(units, escaped)?;
                Ok(true)
            }
            None => Ok(false),
        },
        '\r' => {
            skip_line_feed(cursor);
            units.push(0x0A)?;
            Ok(true)
        }
        other => {
            push_units(units, other as u32)?;
            Ok(true)
        }
    }
}

/// Moves over an LF, if one follows.
fn skip_line_feed(cursor: &mut Cursor<'_>)
    ensures rest { cursor.new.after ≡ drop (if begins_with_line_feed cursor.old.after then 1 else 0) cursor.old.after }
    ensures onward { length cursor.new.after ≤ length cursor.old.after }
{
    if cursor.peek() == Some('\n') {
        advance(cursor);
    }
}

/// Puts the units of what an escape stands for at the end.
fn put_escaped(units: &mut Items<u16>, escaped: Escaped) -> Result<(), Memory>
    requires { IfSome (meaning escaped) (λ code. code ≤ 0x10FFFF) }
    ensures { OnOk result (units.new ≡ units.old ++ spec.escape_units (meaning escaped)) }
{
    match escaped {
        Escaped::Nothing => Ok(()),
        Escaped::Code(code) => push_units(units, code),
    }
}

/// Puts the one or two units of a code point at the end.
fn push_units(units: &mut Items<u16>, code: u32) -> Result<(), Memory>
    requires { code ≤ 0x10FFFF }
    ensures { OnOk result (units.new ≡ units.old ++ encode_utf16 code) }
{
    if code < 0x1_0000 {
        units.push(code as u16)?;
    } else {
        let above = code - 0x1_0000;
        units.push((0xD800 + above / 0x400) as u16)?;
        units.push((0xDC00 + above % 0x400) as u16)?;
    }
    Ok(())
}

/// The name of an identifier that is spelt so (12.7.1.2), each escape as the character that it stands
/// for, or want of memory. Of what is no identifier's spelling it is what stands before a backslash
/// that begins no such escape.
pub fn name_of(alloc: Global, spelling: &str) -> Result<Text, Memory>
    ensures { IfOk result (λ name. name ≡ encode_utf8_all (decoded zero (chars spelling.now))) }
{
    let mut name = String::new(alloc);
    let mut cursor = Cursor::new(spelling);
    while let Some(next) = cursor.peek() {
        advance(&mut cursor);
        match decoded_character(&mut cursor, next) {
            Some(character) => name.push(character)?,
            None => return Ok(Text::from_string(name)),
        }
    }
    Ok(Text::from_string(name))
}

/// The character that a backslash and its escape stand for, or another character itself. None where
/// a backslash begins no escape of a character.
fn decoded_character(cursor: &mut Cursor<'_>, first: char) -> Option<char>
    ensures value { (if first == 0x5C then character_escape cursor.old.after else Some (first, cursor.old.after)) ≡ found_at result cursor.new }
    ensures text { characters_of cursor.new ≡ characters_of cursor.old }
    ensures onward { length cursor.new.after ≤ length cursor.old.after }
{
    if first == '\\' {
        escaped_character(cursor)
    } else {
        Some(first)
    }
}

/// The character that the escape which follows stands for, if one follows.
fn escaped_character(cursor: &mut Cursor<'_>) -> Option<char>
    ensures value { character_escape cursor.old.after ≡ found_at result cursor.new }
    ensures text { characters_of cursor.new ≡ characters_of cursor.old }
    ensures onward { length cursor.new.after ≤ length cursor.old.after }
{
    match identifier_escape(cursor) {
        Some(code) => char::from_u32(code),
        None => None,
    }
}
