ghost use Rattle.std.specs.Prelude.{◌≡◌, ◌≤◌, length, zero};
ghost use Rattle.std.specs.List.{list_any};
ghost use Rattle.std.specs.Str.{chars};
ghost use Rattle.js_lexer.specs.Gap.{grown, spans};
ghost use Rattle.js_text.specs.Comment as comment;
ghost use Rattle.js_text.specs.Gap as spec;
ghost use Rattle.js_text.specs.Lex as lex;
ghost use Rattle.js_text.specs.Place.{Place};
ghost use Rattle.js_text.specs.Position.{is_line_terminator as ends_a_line};

use crate::Span;
use crate::character::{Class, is_line_terminator};
use crate::comment::{skip_comment, skip_single_line};
use crate::scan::{advance, between, skip};
use js_text::{Cursor, Goal};

/// A span that goes on to the end of a comment, or begins with it.
fn through(comments: Option<Span>, start: usize, end: usize) -> Span
    ensures { result ≡ spans comments start end }
{
    match comments {
        Some(first) => Span {
            start: first.start,
            end,
        },
        None => Span { start, end },
    }
}

/// Moves over white space, line terminators and comments, and says from where to where comments
/// stand, these before included.
fn skip_comments(cursor: &mut Cursor<'_>, before: Option<Span>) -> Option<Span>
    ensures rest { cursor.new.after ≡ spec.gap_rest zero cursor.old.after }
    ensures text { lex.characters_of cursor.new ≡ lex.characters_of cursor.old }
    ensures onward { length cursor.new.after ≤ length cursor.old.after }
    ensures comments { (whole : Place)
        → lex.characters_of cursor.old ≡ lex.characters_of whole
        → length cursor.old.after ≤ length whole.after
        → result ≡ grown whole before (spec.comments_in zero cursor.old.after) }
{
    let mut comments = before;
    loop {
        skip(cursor, Class::Gap);
        let start = cursor.at();
        if !skip_comment(cursor) {
            return comments;
        }
        comments = Some(through(comments, start, cursor.at()));
    }
}

/// Whether a place is a text's start.
fn at_start(cursor: &Cursor<'_>) -> bool
    ensures { result ≡ spec.is_start cursor.now.before }
{
    cursor.at() == 0
}

/// Whether a hashbang comment begins with what follows.
pub(crate) fn begins_hashbang(cursor: &Cursor<'_>) -> bool
    ensures { result ≡ comment.begins_hashbang cursor.now.after }
{
    if cursor.peek() != Some('#') {
        return false;
    }
    let mut next = cursor.again();
    advance(&mut next);
    next.peek() == Some('!')
}

/// Whether a hashbang comment stands at a place.
fn has_hashbang(cursor: &Cursor<'_>) -> bool
    ensures { result ≡ spec.has_hashbang cursor.now }
{
    at_start(cursor) && begins_hashbang(cursor)
}

/// Whether a line terminator is in a text.
fn has_line_terminator(text: &str) -> bool
    ensures { result ≡ list_any ends_a_line (chars text.now) }
{
    let mut cursor = Cursor::new(text);
    while let Some(next) = cursor.bump() {
        if is_line_terminator(next) {
            return true;
        }
    }
    false
}

/// What stands before a token.
#[derive(Clone, Copy)]
pub(crate) struct Gap {
    /// Whether a line terminator is in it.
    pub(crate) line_terminator: bool,
    /// From the start of the first comment in it to the end of the last; none where there is none.
    pub(crate) comments: Option<Span>,
}

/// Moves over what stands before the next token, for a goal that isn't the template's, and says from
/// where to where comments stand in it.
fn skip_all_comments(cursor: &mut Cursor<'_>) -> Option<Span>
    ensures rest { cursor.new.after ≡ spec.after_gap cursor.old }
    ensures text { lex.characters_of cursor.new ≡ lex.characters_of cursor.old }
    ensures onward { length cursor.new.after ≤ length cursor.old.after }
    ensures comments { result ≡ grown cursor.old None (spec.comments_at cursor.old) }
{
    if !has_hashbang(cursor) {
        return skip_comments(cursor, None);
    }
    let start = cursor.at();
    skip_single_line(cursor);
    let end = cursor.at();
    skip_comments(cursor, Some(Span { start, end }))
}

/// The same, and says what stands there.
fn skip_common_gap(cursor: &mut Cursor<'_>) -> Gap
    ensures rest { cursor.new.after ≡ spec.after_gap cursor.old }
    ensures text { lex.characters_of cursor.new ≡ lex.characters_of cursor.old }
    ensures onward { length cursor.new.after ≤ length cursor.old.after }
    ensures line { result.line_terminator ≡ list_any ends_a_line (lex.gap_run Goal.Div cursor.old) }
    ensures comments { result.comments ≡ grown cursor.old None (spec.comments_at cursor.old) }
{
    let start = cursor.again();
    let comments = skip_all_comments(cursor);
    Gap {
        line_terminator: has_line_terminator(between(&start, cursor)),
        comments,
    }
}

/// Moves over what stands before the next token; nothing does for the template's goal.
pub(crate) fn skip_gap(cursor: &mut Cursor<'_>, goal: Goal) -> Gap
    ensures place { cursor.new ≡ lex.token_place goal cursor.old }
    ensures line { result.line_terminator ≡ list_any ends_a_line (lex.gap_run goal cursor.old) }
    ensures comments { result.comments ≡ grown cursor.old None (lex.comments_for goal cursor.old) }
{
    match goal {
        Goal::Div | Goal::RegExp => skip_common_gap(cursor),
        Goal::Template => Gap {
            line_terminator: false,
            comments: None,
        },
    }
}
