ghost use Rattle.std.specs.Prelude.{◌≡◌, true, false};
ghost use Rattle.std.specs.Str.{chars};
ghost use Rattle.js_text.specs.Lex.{characters_of, offset_of};
ghost use Rattle.js_text.specs.Place.{Place};
ghost use Rattle.js_text.specs.Position.{position_of};

use js_text::Cursor;
use js_tree::Pos;

/// Whether two positions are one.
#[tactic(auto, using(crate::proofs::Offsets::same_position))]
fn is_same(one: Pos, other: Pos) -> bool
    ensures same { result ≡ true → one ≡ other }
    ensures other { result ≡ false → one ≡ other → ⊥ }
{
    one.line == other.line && one.column == other.column
}

/// How many bytes of a text stand before a place of this position, which it has.
pub(crate) fn offset_at(text: &str, position: Pos) -> usize
    requires { (p : Place) × (characters_of p ≡ chars text.now) × (position_of p ≡ position) }
    ensures { (p : Place) × (characters_of p ≡ chars text.now) × (position_of p ≡ position) × (result ≡ offset_of p) }
{
    let mut cursor = Cursor::new(text);
    'places: while !is_same(cursor.position(), position) {
        if cursor.bump().is_none() {
            unreachable!();
        }
    }
    cursor.at()
}
