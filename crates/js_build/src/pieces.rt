ghost use Rattle.std.specs.Prelude.{Some};
ghost use Rattle.js_tree.specs.Plain as tree;
ghost use Rattle.js_lexer.specs.Token.{kind_of};
ghost use Rattle.js_terms.specs.declared.place.Loc.{Loc};
ghost use Rattle.js_reading.specs.Productions as productions;
ghost use Rattle.js_reading.specs.declared.class.Class.TheVariants as class;
ghost use Rattle.js_reading.specs.Slots as slot;
ghost use Rattle.js_build.specs.Leaves.{Leaves};

use crate::strings::{string, template_text};
use crate::words::{bound_name, escaped_name};
use crate::{Key, Piece};
use items::{Memory, Text};
use js_lexer::TokenKind;
use js_reading::Class;
use js_tree::{Loc, Name, PropertyKey, Spelled};
use std::alloc::Global;

/// What a token of a class leaves in a production, where it is one of the class.
pub fn piece_of(
    alloc: Global,
    class: Class,
    kind: TokenKind<'_>,
    place: Loc,
) -> Result<Option<Piece>, Memory>
    ensures { Leaves result (productions.piece_of class (kind_of kind.entry) place) }
{
    match class {
        Class::BoundName => bound(alloc, kind, place),
        Class::AnyName => any_name(alloc, kind, place),
        Class::Key => key(alloc, kind, place),
        Class::FirstText => first_text(alloc, kind),
        Class::LaterText => later_text(alloc, kind),
    }
}

/// A name that is bound, or a label.
fn bound(alloc: Global, kind: TokenKind<'_>, place: Loc) -> Result<Option<Piece>, Memory>
    ensures { Leaves result (productions.piece_of class.BoundName (kind_of kind.entry) place) }
{
    match bound_name(alloc, kind)? {
        Some(name) => Ok(Some(Piece::Word(name, place))),
        None => Ok(None),
    }
}

/// A name after `.` (ECMA-262, 13.3).
fn any_name(alloc: Global, kind: TokenKind<'_>, place: Loc) -> Result<Option<Piece>, Memory>
    ensures { Leaves result (productions.piece_of class.AnyName (kind_of kind.entry) place) }
{
    match kind {
        TokenKind::Word(word) => Ok(Some(Piece::Word(Text::from_str(alloc, word)?, place))),
        TokenKind::EscapedWord(word) => Ok(Some(Piece::Word(escaped_name(alloc, word)?, place))),
        _ => Ok(None),
    }
}

/// The key of a property that is not computed (13.2.5).
fn key(alloc: Global, kind: TokenKind<'_>, place: Loc) -> Result<Option<Piece>, Memory>
    ensures { Leaves result (productions.piece_of class.Key (kind_of kind.entry) place) }
{
    match kind {
        TokenKind::Word(word) => name_key(Text::from_str(alloc, word)?, place),
        TokenKind::EscapedWord(word) => name_key(escaped_name(alloc, word)?, place),
        TokenKind::StringLiteral(spelling) => string_key(string(alloc, spelling)?, place),
        TokenKind::Numeral(spelling) => number_key(Text::from_str(alloc, spelling)?, place),
        _ => Ok(None),
    }
}

#[tactic(auto, using(js_tree::proofs::Equations::tree_rules))]
fn name_key(name: Name, place: Loc) -> Result<Option<Piece>, Memory>
    ensures { Leaves result (Some (slot.AKey (tree.NameKey name) place)) }
{
    let tree = PropertyKey::NameKey(name);
    Ok(Some(Piece::Key(Key { tree, height: 0 }, place)))
}

#[tactic(auto, using(js_tree::proofs::Equations::tree_rules))]
fn string_key(string: Spelled, place: Loc) -> Result<Option<Piece>, Memory>
    ensures { Leaves result (Some (slot.AKey (tree.StringKey string) place)) }
{
    let tree = PropertyKey::StringKey(string);
    Ok(Some(Piece::Key(Key { tree, height: 0 }, place)))
}

#[tactic(auto, using(js_tree::proofs::Equations::tree_rules))]
fn number_key(number: Text, place: Loc) -> Result<Option<Piece>, Memory>
    ensures { Leaves result (Some (slot.AKey (tree.NumberKey number) place)) }
{
    let tree = PropertyKey::NumberKey(number);
    Ok(Some(Piece::Key(Key { tree, height: 0 }, place)))
}

/// The first part of a template with substitutions (13.2.8).
fn first_text(alloc: Global, kind: TokenKind<'_>) -> Result<Option<Piece>, Memory>
    ensures { (l : Loc) → Leaves result (productions.piece_of class.FirstText (kind_of kind.entry) l) }
{
    match kind {
        TokenKind::TemplateHead(spelling) => Ok(Some(Piece::Text(template_text(alloc, spelling)?))),
        _ => Ok(None),
    }
}

/// A part of a template after a substitution.
fn later_text(alloc: Global, kind: TokenKind<'_>) -> Result<Option<Piece>, Memory>
    ensures { (l : Loc) → Leaves result (productions.piece_of class.LaterText (kind_of kind.entry) l) }
{
    match kind {
        TokenKind::TemplateMiddle(spelling) | TokenKind::TemplateTail(spelling) => {
            Ok(Some(Piece::Text(template_text(alloc, spelling)?)))
        }
        _ => Ok(None),
    }
}
