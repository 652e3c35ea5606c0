ghost use Rattle.std.specs.Prelude.{◌≡◌, ◌+◌, ◌++◌, ℕ, List, ◌∷◌, IfOk};
ghost use Rattle.std.specs.Str.{chars};
ghost use Rattle.js_text.specs.Position as text;
ghost use Rattle.js_text.specs.Character as characters;
ghost use Rattle.cov_v8.specs.Coverage as spec;
ghost use Rattle.cov_v8.specs.private.Pending.{pending};

use items::Memory;
use js_text::Cursor;
use std::alloc::Global;

fn is_line_terminator(character: char) -> bool
    ensures { result ≡ text.is_line_terminator character }
{
    matches!(character, '\n' | '\r' | '\u{2028}' | '\u{2029}')
}

fn is_white_space(character: char) -> bool
    ensures { result ≡ characters.is_white_space character }
{
    matches!(
        character,
        '\u{9}'
            | '\u{b}'
            | '\u{c}'
            | ' '
            | '\u{a0}'
            | '\u{feff}'
            | '\u{1680}'
            | '\u{2000}'..='\u{200a}' | '\u{202f}' | '\u{205f}' | '\u{3000}'
    )
}

// The first unit on the line that isn't white space, after one character more; at a line's end its
// offset and that of the end are put at the end.
fn step(
    all: &mut Vec<(u64, u64)>,
    first: Option<u64>,
    at: u64,
    character: char,
) -> Result<Option<u64>, Memory>
    ensures { IfOk result (λ next. (rest : List ℕ) →
        all.new.items ++ pending next (at + text.utf16_units character) rest ≡ all.old.items ++ pending first at (character ∷ rest)) }
{
    if is_line_terminator(character) {
        if let Some(start) = first {
            all.push((start, at))?;
        }
        return Ok(None);
    }
    match first {
        Some(start) => Ok(Some(start)),
        None => if is_white_space(character) {
            Ok(None)
        } else {
            Ok(Some(at))
        },
    }
}

// Of each line with a unit that isn't white space, the offset of its first such unit and that of the
// line's end. So many units stand before the text's end.
pub(crate) fn lines(alloc: Global, text: &str, end: u64) -> Result<Vec<(u64, u64)>, Memory>
    requires { end ≡ spec.units (chars text.now) }
    ensures { IfOk result (λ all. all.items ≡ spec.lines (chars text.now)) }
{
    let mut cursor = Cursor::new(text);
    let mut all = Vec::new(alloc);
    let mut at = 0u64;
    let mut first: Option<u64> = None;
    'next: while let Some(next) = cursor.bump() {
        first = step(&mut all, first, at, next)?;
        at += next.len_utf16() as u64;
    }
    if let Some(start) = first {
        all.push((start, end))?;
    }
    Ok(all)
}
