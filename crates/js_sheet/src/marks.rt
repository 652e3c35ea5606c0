ghost use Rattle.std.specs.Prelude.{◌≡◌, ◌≤◌, ◌++◌, length, map, IfOk};
ghost use Rattle.std.specs.Str.{chars, encode_utf8_all};
ghost use Rattle.js_layout.specs.Layout as spec;
ghost use Rattle.js_text.specs.Place.{place_at};
ghost use Rattle.js_sheet.specs.Ascending.{Ascending};

use items::{Items, Memory};
use js_layout::Mark;
use js_text::Cursor;
use js_tree::Pos;
use std::alloc::Global;

/// The marks of a text, each by how many bytes stand before it, with their places. The numbers of
/// bytes ascend, so that one pass through the text places all.
pub fn place_marks(
    alloc: Global,
    text: &str,
    offsets: &[(usize, Option<Pos>)],
) -> Result<Items<Mark>, Memory>
    requires { Ascending 0 offsets.now }
    ensures { IfOk result (λ marks. marks ≡ map (λ m. spec.mark_of text.now m) offsets.now) }
{
    let mut cursor = Cursor::new(text);
    let mut marks = Items::new(alloc);
    for (offset, source) in offsets {
        advance(&mut cursor, *offset);
        marks.push(Mark {
            at: cursor.position(),
            source: *source,
        })?;
    }
    Ok(marks)
}

/// Moves a cursor on to the place at this many bytes of its text.
fn advance(cursor: &mut Cursor, at: usize)
    requires { length (encode_utf8_all cursor.now.before) ≤ at }
    ensures { cursor.new ≡ place_at (cursor.old.before ++ cursor.old.after) at }
{
    while let Some(next) = cursor.peek() {
        if at - cursor.at() < next.len_utf8() {
            break;
        }
        cursor.bump();
    }
}
