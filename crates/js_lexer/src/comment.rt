ghost use Rattle.std.specs.Prelude.{◌≡◌, ◌<◌, ◌≤◌, length, true, false, Some, None, if◌then◌else◌};
ghost use Rattle.js_text.specs.Comment as spec;
ghost use Rattle.js_text.specs.Lex.{characters_of};

use crate::character::is_line_terminator;
use crate::scan::advance;
use js_text::Cursor;

/// Moves to the end of the line.
pub(crate) fn skip_single_line(cursor: &mut Cursor<'_>)
    ensures rest { cursor.new.after ≡ spec.single_line_rest cursor.old.after }
    ensures text { characters_of cursor.new ≡ characters_of cursor.old }
    ensures onward { length cursor.new.after ≤ length cursor.old.after }
{
    while let Some(next) = cursor.peek() {
        if is_line_terminator(next) {
            break;
        }
        advance(cursor);
    }
}

/// Moves over the rest of a comment of several lines, after its `/*`, and says whether it is closed.
fn skip_multi_line(cursor: &mut Cursor<'_>) -> bool
    ensures rest { spec.multi_line_rest cursor.old.after ≡ (if result then Some cursor.new.after else None) }
    ensures text { characters_of cursor.new ≡ characters_of cursor.old }
    ensures onward { length cursor.new.after ≤ length cursor.old.after }
{
    while let Some(next) = cursor.peek() {
        advance(cursor);
        if next == '*' && cursor.peek() == Some('/') {
            advance(cursor);
            return true;
        }
    }
    false
}

/// Moves over the rest of a comment, after its first `/`, and says whether there is one.
fn skip_after_slash(cursor: &mut Cursor<'_>) -> bool
    ensures rest { spec.comment_after_slash cursor.old.after ≡ (if result then Some cursor.new.after else None) }
    ensures text { characters_of cursor.new ≡ characters_of cursor.old }
    ensures onward { length cursor.new.after ≤ length cursor.old.after }
{
    match cursor.peek() {
        Some('/') => {
            advance(cursor);
            skip_single_line(cursor);
            true
        }
        Some('*') => {
            advance(cursor);
            skip_multi_line(cursor)
        }
        _ => false,
    }
}

/// Moves over the comment that follows, and says whether one does. Where none does, nothing
/// changes.
pub(crate) fn skip_comment(cursor: &mut Cursor<'_>) -> bool
    ensures rest { spec.comment_rest cursor.old.after ≡ (if result then Some cursor.new.after else None) }
    ensures text { characters_of cursor.new ≡ characters_of cursor.old }
    ensures onward { length cursor.new.after ≤ length cursor.old.after }
    ensures shorter { result ≡ true → length cursor.new.after < length cursor.old.after }
    ensures unmoved { result ≡ false → cursor.new ≡ cursor.old }
{
    if cursor.peek() != Some('/') {
        return false;
    }
    let mut end = cursor.again();
    advance(&mut end);
    if skip_after_slash(&mut end) {
        *cursor = end;
        true
    } else {
        false
    }
}
