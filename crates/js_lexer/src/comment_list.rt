ghost use Rattle.std.specs.Prelude.{◌≡◌, ◌∷◌, ◌++◌, ◌≤◌, ◌==◌, ◌&&◌, [], length, drop, map, zero, IfOk, OnOk, encode_utf8_all};
ghost use Rattle.std.specs.Str.{chars, IsCharBoundary};
ghost use Rattle.js_lexer.specs.private.Close.{close_from};
ghost use Rattle.js_text.specs.Comment as spec;
ghost use Rattle.js_text.specs.Gap as gap;
ghost use Rattle.js_text.specs.Lex.{characters_of};
ghost use Rattle.js_text.specs.Place.{place_at};

use crate::Span;
use crate::character::Class;
use crate::comment::{skip_comment, skip_single_line};
use crate::gap::begins_hashbang;
use crate::scan::{advance, between, skip};
use items::{Items, Memory, Text};
use js_terms::{Comment, Pos};
use js_text::Cursor;
use std::alloc::Global;

/// The comments before a token of a text, whose `comments` and start are given: those that stand at
/// the start of that span. Want of memory is the only error.
pub fn comments(alloc: Global, text: &str, span: Span, next: Pos) -> Result<Items<Comment>, Memory>
    requires { IsCharBoundary text.now span.start }
    ensures { IfOk result (λ found. found ≡ gap.comments_before next (place_at (chars text.now) span.start)) }
{
    let mut found = Items::new(alloc);
    let mut cursor = Cursor::new(text_from(text, span.start));
    if is_hashbang(span.start, &cursor) {
        push_comment(alloc, &mut found, &cursor, next)?;
        skip_single_line(&mut cursor);
    }
    push_comments(alloc, &mut found, &mut cursor, next)?;
    Ok(found)
}

/// What stands in a text after so many bytes.
fn text_from(text: &str, start: usize) -> &str
    requires { IsCharBoundary text.now start }
    ensures { result.now ≡ drop start text.now }
{
    &text[start..]
}

/// Whether a hashbang comment stands after so many bytes of a text, which the cursor's follow.
fn is_hashbang(start: usize, cursor: &Cursor<'_>) -> bool
    ensures { result ≡ ((start == 0) && spec.begins_hashbang cursor.now.after) }
{
    start == 0 && begins_hashbang(cursor)
}

/// Moves over the comments that follow, and white space, and puts each of them at the end.
fn push_comments(
    alloc: Global,
    found: &mut Items<Comment>,
    cursor: &mut Cursor<'_>,
    next: Pos,
) -> Result<(), Memory>
    ensures { OnOk result (found.new ≡ found.old ++ map (λ each. gap.comment_of next each.0) (gap.comments_in zero cursor.old.after)) }
{
    loop {
        skip(cursor, Class::Gap);
        let start = cursor.again();
        if !skip_comment(cursor) {
            return Ok(());
        }
        push_comment(alloc, found, &start, next)?;
    }
}

/// Puts the comment that begins at a place at the end.
fn push_comment(
    alloc: Global,
    found: &mut Items<Comment>,
    start: &Cursor<'_>,
    next: Pos,
) -> Result<(), Memory>
    ensures { OnOk result (found.new ≡ found.old ++ gap.comment_of next start.now.after ∷ []) }
{
    let text = Text::from_str(alloc, comment_text(start))?;
    found.push(Comment { text, next })
}

/// What the comment that begins at a place says.
fn comment_text<'a>(start: &Cursor<'a>) -> &'a str
    ensures { result.now ≡ encode_utf8_all (spec.comment_text start.now.after) }
{
    let mut cursor = start.again();
    advance(&mut cursor);
    let multi_line = cursor.peek() == Some('*');
    advance(&mut cursor);
    if multi_line {
        multi_line_text(&cursor)
    } else {
        single_line_text(&cursor)
    }
}

/// What stands up to the line's end.
fn single_line_text<'a>(start: &Cursor<'a>) -> &'a str
    ensures { result.now ≡ encode_utf8_all (spec.single_line_text start.now.after) }
{
    let mut end = start.again();
    skip_single_line(&mut end);
    between(start, &end)
}

/// What stands up to a `*/`.
fn multi_line_text<'a>(start: &Cursor<'a>) -> &'a str
    ensures { result.now ≡ encode_utf8_all (spec.multi_line_text start.now.after) }
{
    let mut end = start.again();
    skip_to_close(&mut end);
    between(start, &end)
}

/// Moves to a `*/`.
fn skip_to_close(cursor: &mut Cursor<'_>)
    ensures rest { cursor.new.after ≡ close_from cursor.old.after }
    ensures text { characters_of cursor.new ≡ characters_of cursor.old }
    ensures onward { length cursor.new.after ≤ length cursor.old.after }
{
    while let Some(_) = cursor.peek() {
        if closes(cursor) {
            break;
        }
        advance(cursor);
    }
}

/// Whether a `*/` follows.
fn closes(cursor: &Cursor<'_>) -> bool
    ensures { result ≡ spec.closes_comment cursor.now.after }
{
    if cursor.peek() != Some('*') {
        return false;
    }
    let mut next = cursor.again();
    advance(&mut next);
    next.peek() == Some('/')
}
