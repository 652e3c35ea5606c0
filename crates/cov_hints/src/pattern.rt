ghost use Rattle.std.specs.Prelude.{◌≡◌, Some, None, if◌then◌else◌};
ghost use Rattle.js_terms.specs.Blank as blank;
ghost use Rattle.js_tree.specs.Comments as spec;

use js_text::Cursor;
use js_tree::Hint;

// Whether a character is white space or ends a line.
#[tactic(auto, unfolding(js_terms::specs::Blank::is_gap))]
fn is_gap(character: char) -> bool
    ensures { result ≡ blank.is_gap character }
{
    matches!(
        character,
        '\t' | '\n'
            | '\u{B}'
            | '\u{C}'
            | '\r'
            | ' '
            | '\u{A0}'
            | '\u{1680}'
            | '\u{2000}'..='\u{200A}'
            | '\u{2028}'
            | '\u{2029}'
            | '\u{202F}'
            | '\u{205F}'
            | '\u{3000}'
            | '\u{FEFF}'
    )
}

// Moves over white space and line terminators.
fn skip_gap(cursor: &mut Cursor<'_>)
    ensures { cursor.new.after ≡ spec.skip_gap cursor.old.after }
{
    while let Some(next) = cursor.peek() {
        if !is_gap(next) {
            break;
        }
        cursor.bump();
    }
}

// The same, and whether there was any.
fn after_gap(cursor: &mut Cursor<'_>) -> bool
    ensures { spec.after_gap cursor.old.after ≡ (if result then Some cursor.new.after else None) }
{
    match cursor.peek() {
        None => false,
        Some(next) => {
            let found = is_gap(next);
            skip_gap(cursor);
            found
        }
    }
}

// Moves over a word, and says whether it stands there.
fn after_word(cursor: &mut Cursor<'_>, word: &[char]) -> bool
    ensures { spec.after_word word.now cursor.old.after ≡ (if result then Some cursor.new.after else None) }
{
    for letter in word {
        if cursor.bump() != Some(*letter) {
            return false;
        }
    }
    true
}

// Whether no letter, digit or `_` stands here.
fn is_word_end(cursor: &Cursor<'_>) -> bool
    ensures { result ≡ spec.is_word_end cursor.now.after }
{
    match cursor.peek() {
        None => true,
        Some(next) => !(next.is_ascii_alphanumeric() || next == '_'),
    }
}

// Whether a word stands here, and no longer one.
fn has_word(cursor: &Cursor<'_>, word: &[char]) -> bool
    ensures { result ≡ spec.has_word word.now cursor.now.after }
{
    let mut end = cursor.again();
    after_word(&mut end, word) && is_word_end(&end)
}

// Moves over `istanbul ignore`, and says whether it stands there.
fn after_ignore(cursor: &mut Cursor<'_>) -> bool
    ensures { spec.after_ignore cursor.old.after ≡ (if result then Some cursor.new.after else None) }
{
    skip_gap(cursor);
    after_word(cursor, &['i', 's', 't', 'a', 'n', 'b', 'u', 'l'])
        && after_gap(cursor)
        && after_word(cursor, &['i', 'g', 'n', 'o', 'r', 'e'])
        && after_gap(cursor)
}

// The word of a hint that stands here.
fn hint_word(cursor: &Cursor<'_>) -> Option<Hint>
    ensures { result ≡ spec.hint_in (Some cursor.now.after) }
{
    if has_word(cursor, &['i', 'f']) {
        Some(Hint::If)
    } else if has_word(cursor, &['e', 'l', 's', 'e']) {
        Some(Hint::Else)
    } else if has_word(cursor, &['n', 'e', 'x', 't']) {
        Some(Hint::Next)
    } else {
        None
    }
}

// What a comment's text takes out.
#[tactic(auto, unfolding(js_tree::specs::Comments::hint_in_text))]
pub(crate) fn hint_in_text(text: &str) -> Option<Hint>
    ensures { result ≡ spec.hint_in_text text.now }
{
    let mut cursor = Cursor::new(text);
    if after_ignore(&mut cursor) {
        hint_word(&cursor)
    } else {
        None
    }
}

// Whether a comment's text takes out the file.
#[tactic(auto, unfolding(js_tree::specs::Comments::ignores_in_text))]
pub(crate) fn ignores_in_text(text: &str) -> bool
    ensures { result ≡ spec.ignores_in_text text.now }
{
    let mut cursor = Cursor::new(text);
    after_ignore(&mut cursor) && has_word(&cursor, &['f', 'i', 'l', 'e'])
}
