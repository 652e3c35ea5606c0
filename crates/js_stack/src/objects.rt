ghost use Rattle.std.specs.Prelude.{◌≡◌};
ghost use Rattle.js_tree.specs.Tree.{plain_property_key};
ghost use Rattle.js_build.specs.View.{plain_piece, plain_pieces};
ghost use Rattle.js_stack.specs.Objects as spec;
ghost use Rattle.js_stack.specs.declared.objects.Awaits.TheVariants as awaits;

use js_build::{Piece, is_keyword, is_proto};
use js_tree::PropertyKey;

/// The part of an object that is awaited (ECMA-262, 13.2.5).
#[derive(Clone, Copy)]
pub(crate) enum Awaits {
    /// A key, or the end.
    Key,
    /// The place of a computed key.
    KeyPlace,
    /// The expression of a computed key.
    KeyExpression,
    /// What stands after a key: whether it may be a property alone, and have a value.
    Definition(bool, bool),
    /// The place of a value's end.
    ValueEnd,
    /// A parameter of a method, or the place of its body.
    Parameter,
    /// What stands after a parameter's name.
    Initializer,
    /// The place of an initializer's end.
    InitializerEnd,
    /// The statements of a method.
    Body,
    /// The place of a method's end.
    BodyEnd,
    /// Nothing: it is no object.
    Nothing,
}

/// Whether a key may be a property alone: a name that is no reserved word.
#[tactic(auto, using(js_build::proofs::ObjectLaws::key_rules))]
fn is_alone(key: &PropertyKey) -> bool
    ensures { result ≡ spec.is_alone (plain_property_key key.now) }
{
    match key {
        PropertyKey::NameKey(name) => !is_keyword(name.as_str()),
        PropertyKey::StringKey(_) | PropertyKey::NumberKey(_) | PropertyKey::ComputedKey(_) => {
            false
        }
    }
}

/// After a part where a key is awaited.
fn after_key(piece: &Piece) -> Awaits
    ensures { result ≡ spec.after awaits.Key (plain_piece piece.now) }
{
    match piece {
        Piece::Computed => Awaits::KeyPlace,
        Piece::Key(key, _) => Awaits::Definition(is_alone(&key.tree), !is_proto(&key.tree)),
        _ => Awaits::Nothing,
    }
}

/// After a part where one is awaited that defines a property.
fn after_definition(alone: bool, valued: bool, piece: &Piece) -> Awaits
    ensures { result ≡ spec.after (awaits.Definition alone valued) (plain_piece piece.now) }
{
    match piece {
        Piece::Missing => if alone { Awaits::Key } else { Awaits::Nothing },
        Piece::Expression(_) => if valued {
            Awaits::ValueEnd
        } else {
            Awaits::Nothing
        },
        Piece::Method => Awaits::Parameter,
        _ => Awaits::Nothing,
    }
}

/// After a part where a parameter or a body is awaited.
fn after_parameter(piece: &Piece) -> Awaits
    ensures { result ≡ spec.after awaits.Parameter (plain_piece piece.now) }
{
    match piece {
        Piece::Word(_, _) => Awaits::Initializer,
        Piece::Place(_) => Awaits::Body,
        _ => Awaits::Nothing,
    }
}

/// After a part where an initializer is awaited.
fn after_initializer(piece: &Piece) -> Awaits
    ensures { result ≡ spec.after awaits.Initializer (plain_piece piece.now) }
{
    match piece {
        Piece::Missing => Awaits::Parameter,
        Piece::Expression(_) => Awaits::InitializerEnd,
        _ => Awaits::Nothing,
    }
}

/// After a part where a place is awaited, and then this.
fn after_place(next: Awaits, piece: &Piece) -> Awaits
    ensures { result ≡ spec.after_place next (plain_piece piece.now) }
{
    match piece {
        Piece::Place(_) => next,
        _ => Awaits::Nothing,
    }
}

/// After a part where the expression of a key is awaited.
fn after_key_place(piece: &Piece) -> Awaits
    ensures { result ≡ spec.after awaits.KeyExpression (plain_piece piece.now) }
{
    match piece {
        Piece::Expression(_) => Awaits::Definition(false, true),
        _ => Awaits::Nothing,
    }
}

/// After a part where the statements of a method are awaited.
fn after_opening(piece: &Piece) -> Awaits
    ensures { result ≡ spec.after awaits.Body (plain_piece piece.now) }
{
    match piece {
        Piece::Statements(_) => Awaits::BodyEnd,
        _ => Awaits::Nothing,
    }
}

/// What is awaited after a part.
fn after(awaits: Awaits, piece: &Piece) -> Awaits
    ensures { result ≡ spec.after awaits (plain_piece piece.now) }
{
    match awaits {
        Awaits::Key => after_key(piece),
        Awaits::KeyPlace => after_place(Awaits::KeyExpression, piece),
        Awaits::KeyExpression => after_key_place(piece),
        Awaits::Definition(alone, valued) => after_definition(alone, valued, piece),
        Awaits::ValueEnd => after_place(Awaits::Key, piece),
        Awaits::Parameter => after_parameter(piece),
        Awaits::Initializer => after_initializer(piece),
        Awaits::InitializerEnd => after_place(Awaits::Parameter, piece),
        Awaits::Body => after_opening(piece),
        Awaits::BodyEnd => after_place(Awaits::Key, piece),
        Awaits::Nothing => Awaits::Nothing,
    }
}

/// Whether a property may start there.
fn is_key(awaits: Awaits) -> bool
    ensures { result ≡ spec.is_key awaits }
{
    match awaits {
        Awaits::Key => true,
        _ => false,
    }
}

/// Whether an object is made of these parts.
pub(crate) fn is_object(parts: &[Piece]) -> bool
    ensures { result ≡ spec.ends awaits.Key (plain_pieces parts.now) }
{
    let mut awaits = Awaits::Key;
    let mut left = parts;
    while let [piece, others @ ..] = left {
        awaits = after(awaits, piece);
        left = others;
    }
    is_key(awaits)
}
