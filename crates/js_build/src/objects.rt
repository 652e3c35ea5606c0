ghost use Rattle.std.specs.Prelude.{◌≡◌, ◌+◌, ◌∷◌, IfOk, Some, codes, max};
ghost use Rattle.std.specs.Option.{option_map};
ghost use Rattle.std.specs.Str.{bytes_eq};
ghost use Rattle.js_tree.specs.Plain as tree;
ghost use Rattle.js_tree.specs.Tree.{plain_expr, plain_function, plain_properties, plain_property, plain_property_key};
ghost use Rattle.js_reading.specs.Kinds as kinds;
ghost use Rattle.js_reading.specs.Makes as makes;
ghost use Rattle.js_reading.specs.declared.form.Form.TheVariants as form;
ghost use Rattle.js_build.specs.Objects as objects;
ghost use Rattle.js_build.specs.View.{plain_piece, plain_pieces, Makes, MakesExpr};

use crate::callables::callable;
use crate::make::{above, expression, nothing};
use crate::parts::MadeFunction;
use crate::piece::discard;
use crate::place::through;
use crate::properties::{Definition, MadeProperties, MadeProperty};
use crate::queue::Pieces;
use crate::shapes::{take_expression, take_place};
use crate::{Key, Operand, Piece};
use items::{Items, Memory};
use js_text::reserved_word;
use js_tree::{ExprNode, Loc, Property, PropertyKey, PropertyNode};
use std::alloc::Global;

/// `__proto__` in 16-bit units.
const PROTO: [u16; 9] = [95, 95, 112, 114, 111, 116, 111, 95, 95];

/// Whether a word can be no name (ECMA-262, 12.7.2).
#[tactic(auto, unfolding(js_reading::specs::Kinds::is_keyword))]
pub fn is_keyword(word: &str) -> bool
    ensures { result ≡ kinds.is_keyword word.now }
{
    reserved_word(word).is_some()
}

/// Whether a string's units are `__proto__`.
pub fn is_proto_string(units: &[u16]) -> bool
    ensures { result ≡ bytes_eq units.now (codes "__proto__") }
{
    units == PROTO.as_slice()
}

/// Whether a key is `__proto__`, which with `:` is no form of the language.
#[tactic(auto, using(crate::proofs::ObjectLaws::key_rules))]
pub fn is_proto(key: &PropertyKey) -> bool
    ensures { result ≡ makes.is_proto (plain_property_key key.now) }
{
    match key {
        PropertyKey::NameKey(name) => name.as_str() == "__proto__",
        PropertyKey::StringKey(string) => is_proto_string(string.units.as_slice()),
        PropertyKey::NumberKey(_) => false,
        PropertyKey::ComputedKey(_) => false,
    }
}

/// A key that is computed.
#[tactic(auto, using(js_tree::proofs::Equations::property_key_computed_key))]
fn computed_key(value: Operand) -> Key
    ensures { plain_property_key result.tree ≡ tree.ComputedKey (plain_expr value.tree) }
{
    let height = value.height;
    let tree = PropertyKey::ComputedKey(value.tree);
    Key { tree, height }
}

/// A key that is computed and its place, after its mark.
#[tactic(auto, using(crate::proofs::ObjectLaws::computed_first))]
fn computed(pieces: &mut Pieces) -> Option<(Key, Loc)>
    ensures { objects.key_view result (plain_pieces pieces.new) ≡ objects.computed_of (plain_pieces pieces.old) }
{
    match take_place(pieces) {
        None => None,
        Some(place) => match take_expression(pieces) {
            None => None,
            Some(value) => Some((computed_key(value), place)),
        },
    }
}

/// The key that begins with a piece, and its place.
fn take_key(first: Piece, pieces: &mut Pieces) -> Option<(Key, Loc)>
    ensures { objects.key_view result (plain_pieces pieces.new) ≡ objects.key_of (plain_piece first) (plain_pieces pieces.old) }
{
    match first {
        Piece::Computed => computed(pieces),
        Piece::Key(key, place) => Some((key, place)),
        other => {
            discard(Some(other));
            None
        }
    }
}

/// What stands after a key.
#[tactic(auto, using(crate::proofs::ObjectLaws::definition_value))]
fn take_definition(pieces: &mut Pieces) -> Option<Definition>
    ensures { objects.definition_view result (plain_pieces pieces.new) ≡ objects.definition_of (plain_pieces pieces.old) }
{
    match pieces.next() {
        Some(Piece::Missing) => Some(Definition::Shorthand),
        Some(Piece::Method) => Some(Definition::Method),
        Some(Piece::Expression(value)) => match take_place(pieces) {
            None => None,
            Some(end) => Some(Definition::Value(value, end)),
        },
        other => {
            discard(other);
            None
        }
    }
}

/// Lets a key go, whole, as `discard` does with a piece.
fn discard_key(_key: PropertyKey) {}

/// A name that is the key and the value, where it is no reserved word.
#[tactic(auto, using(crate::proofs::ObjectLaws::key_rules, crate::proofs::PropertyNodes::shorthand_rules))]
fn shorthand(key: PropertyKey, place: Loc) -> Option<MadeProperty>
    ensures { objects.property_if result ≡ objects.shorthand_of (plain_property_key key) place }
{
    match key {
        PropertyKey::NameKey(name) => {
            if is_keyword(name.as_str()) {
                return None;
            }
            let tree = Property {
                loc: Some(place),
                node: PropertyNode::Shorthand(name),
            };
            Some(MadeProperty { tree, height: 2 })
        }
        PropertyKey::StringKey(_) => None,
        PropertyKey::NumberKey(_) => None,
        PropertyKey::ComputedKey(_) => None,
    }
}

/// A key and a value.
#[tactic(auto, using(crate::proofs::PropertyNodes::value_rules))]
fn value_node(key: Key, loc: Loc, value: Operand) -> Result<MadeProperty, Memory>
    ensures { IfOk result (λ made. plain_property made.tree ≡ tree.KeyValue (Some loc) (plain_property_key key.tree) (plain_expr value.tree)) }
{
    match above(key.height.max(value.height)) {
        Err(memory) => {
            discard_key(key.tree);
            Err(memory)
        }
        Ok(height) => {
            let tree = Property {
                loc: Some(loc),
                node: PropertyNode::KeyValue(key.tree, value.tree),
            };
            Ok(MadeProperty { tree, height })
        }
    }
}

/// A key and a value, but for `__proto__`.
fn key_value(key: Key, place: Loc, value: Operand, end: Loc) -> Result<Option<MadeProperty>, Memory>
    ensures { IfOk result (λ made. objects.property_if made ≡ objects.key_value_of (plain_property_key key.tree) place (plain_expr value.tree) end) }
{
    if is_proto(&key.tree) {
        discard_key(key.tree);
        return Ok(None);
    }
    Ok(Some(value_node(key, through(place, end), value)?))
}

/// The height of a method, by those of its key and of its function's highest part.
fn method_height(key: u64, parts: u64) -> Result<u64, Memory>
    ensures { IfOk result (λ height. height ≡ max key (parts + 1) + 1) }
{
    above(key.max(above(parts)?))
}

/// A key and a method.
#[tactic(auto, using(crate::proofs::PropertyNodes::method_rules))]
fn method_node(key: Key, loc: Loc, function: MadeFunction) -> Result<MadeProperty, Memory>
    ensures { IfOk result (λ made. plain_property made.tree ≡ tree.Method (Some loc) (plain_property_key key.tree) (plain_function function.tree)) }
{
    match method_height(key.height, function.parts) {
        Err(memory) => {
            discard_key(key.tree);
            Err(memory)
        }
        Ok(height) => {
            let tree = Property {
                loc: Some(loc),
                node: PropertyNode::Method(key.tree, function.tree),
            };
            Ok(MadeProperty { tree, height })
        }
    }
}

/// A method after its key and its mark.
fn method(
    alloc: Global,
    key: Key,
    place: Loc,
    pieces: &mut Pieces,
) -> Result<Option<MadeProperty>, Memory>
    ensures { IfOk result (λ made. objects.property_view made (plain_pieces pieces.new) ≡ makes.method_with (plain_property_key key.tree) place (makes.method_of (plain_pieces pieces.old))) }
{
    match callable(alloc, pieces) {
        Err(memory) => {
            discard_key(key.tree);
            Err(memory)
        }
        Ok(None) => {
            discard_key(key.tree);
            Ok(None)
        }
        Ok(Some((function, end))) => Ok(Some(method_node(key, through(place, end), function)?)),
    }
}

/// A property after its key.
#[tactic(auto, using(crate::proofs::ObjectLaws::after_defined))]
fn after_key(
    alloc: Global,
    key: Key,
    place: Loc,
    pieces: &mut Pieces,
) -> Result<Option<MadeProperty>, Memory>
    ensures { IfOk result (λ made. objects.property_view made (plain_pieces pieces.new) ≡ makes.after_key (plain_property_key key.tree) place (plain_pieces pieces.old)) }
{
    match take_definition(pieces) {
        None => {
            discard_key(key.tree);
            Ok(None)
        }
        Some(Definition::Shorthand) => Ok(shorthand(key.tree, place)),
        Some(Definition::Value(value, end)) => key_value(key, place, value, end),
        Some(Definition::Method) => method(alloc, key, place, pieces),
    }
}

/// The property that begins with a piece.
#[tactic(auto, using(crate::proofs::ObjectLaws::property_keyed))]
fn one_property(
    alloc: Global,
    first: Piece,
    pieces: &mut Pieces,
) -> Result<Option<MadeProperty>, Memory>
    ensures { IfOk result (λ made. objects.property_view made (plain_pieces pieces.new) ≡ makes.property_of (plain_piece first ∷ plain_pieces pieces.old)) }
{
    match take_key(first, pieces) {
        None => Ok(None),
        Some((key, place)) => after_key(alloc, key, place, pieces),
    }
}

/// All properties.
#[tactic(auto, using(js_tree::proofs::Equations::properties_push, crate::proofs::ObjectLaws::object_rules))]
fn properties(alloc: Global, mut pieces: Pieces) -> Result<Option<MadeProperties>, Memory>
    ensures { IfOk result (λ made. option_map objects.properties_view made ≡ objects.all_properties (plain_pieces pieces)) }
{
    let mut items = Items::new(alloc);
    let mut height = 0;
    'each: loop {
        match pieces.next() {
            None => break,
            Some(first) => match one_property(alloc, first, &mut pieces)? {
                None => return Ok(None),
                Some(property) => {
                    height = property.height.max(height);
                    items.push(property.tree)?;
                }
            },
        }
    }
    Ok(Some(MadeProperties { items, height }))
}

/// An object.
#[tactic(auto, using(js_tree::proofs::Equations::expr_object_literal))]
fn object_node(
    alloc: Global,
    place: Loc,
    properties: MadeProperties,
) -> Result<Option<Piece>, Memory>
    ensures { MakesExpr result 22 (tree.ObjectLiteral (Some place) (plain_properties properties.items)) }
{
    let parts = properties.height;
    let node = ExprNode::ObjectLiteral(properties.items);
    expression(alloc, 22, place, node, parts, 22, false)
}

/// An object (13.2.5).
#[tactic(auto, unfolding(crate::specs::Objects::all_properties))]
pub(crate) fn object(alloc: Global, place: Loc, pieces: Pieces) -> Result<Option<Piece>, Memory>
    ensures { Makes result (makes.build form.ObjectLiteral place (plain_pieces pieces)) }
{
    match properties(alloc, pieces)? {
        None => nothing(),
        Some(properties) => object_node(alloc, place, properties),
    }
}
