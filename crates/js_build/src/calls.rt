ghost use Rattle.std.specs.Prelude.{◌≡◌, Some};
ghost use Rattle.js_tree.specs.Plain as tree;
ghost use Rattle.js_tree.specs.Tree.{plain_expr, plain_exprs};
ghost use Rattle.js_reading.specs.Makes.{build};
ghost use Rattle.js_reading.specs.Productions as productions;
ghost use Rattle.js_reading.specs.declared.form.Form.TheVariants as form;
ghost use Rattle.js_build.specs.CallShapes as shape;
ghost use Rattle.js_build.specs.View.{plain_pieces, Makes, MakesExpr};

use crate::make::{expression, nothing};
use crate::piece::discard;
use crate::queue::Pieces;
use crate::shapes::{is_over, take_expression, take_list, two_expressions};
use crate::{List, Operand, Piece};
use items::{Items, Memory};
use js_tree::{ExprNode, Loc, Name};
use std::alloc::Global;

/// The level of a member, by that of its object: one of what holds a call is like a call (13.3).
fn member_level(level: u8) -> u8
    ensures { result ≡ productions.member_level level }
{
    if level >= 21 { 21 } else { 20 }
}

/// One list, in brackets.
#[tactic(auto, using(crate::proofs::CallForms::one_list_first))]
pub(crate) fn one_list(mut pieces: Pieces) -> Option<List>
    ensures { shape.list_if result ≡ shape.one_list (plain_pieces pieces) }
{
    match take_list(&mut pieces) {
        None => None,
        Some((_, list)) => { if is_over(pieces) { Some(list) } else { None } }
    }
}

/// An array.
#[tactic(auto, using(js_tree::proofs::Equations::expr_array_literal))]
fn array_node(alloc: Global, place: Loc, list: List) -> Result<Option<Piece>, Memory>
    ensures { MakesExpr result 22 (tree.ArrayLiteral (Some place) (plain_exprs list.items)) }
{
    let parts = list.height;
    let node = ExprNode::ArrayLiteral(list.items);
    expression(alloc, 22, place, node, parts, 22, false)
}

/// A call.
#[tactic(auto, using(js_tree::proofs::Equations::expr_call))]
fn call_node(
    alloc: Global,
    place: Loc,
    callee: Operand,
    list: List,
) -> Result<Option<Piece>, Memory>
    ensures { MakesExpr result 20 (tree.Call (Some place) (plain_expr callee.tree) (plain_exprs list.items)) }
{
    let parts = callee.height.max(list.height);
    let node = ExprNode::Call(callee.tree, list.items);
    expression(alloc, 20, place, node, parts, 22, false)
}

/// A construction with its arguments.
#[tactic(auto, using(js_tree::proofs::Equations::expr_new))]
fn new_node(
    alloc: Global,
    level: u8,
    place: Loc,
    callee: Operand,
    list: List,
) -> Result<Option<Piece>, Memory>
    ensures { MakesExpr result level (tree.New (Some place) (plain_expr callee.tree) (plain_exprs list.items)) }
{
    let parts = callee.height.max(list.height);
    let node = ExprNode::New(callee.tree, list.items);
    expression(alloc, level, place, node, parts, 22, false)
}

/// A member by name.
#[tactic(auto, using(js_tree::proofs::Equations::expr_named_member))]
fn dot_node(alloc: Global, place: Loc, object: Operand, name: Name) -> Result<Option<Piece>, Memory>
    ensures { MakesExpr result (productions.member_level object.level) (tree.NamedMember (Some place) (plain_expr object.tree) name) }
{
    let parts = object.height;
    let level = member_level(object.level);
    let node = ExprNode::NamedMember(object.tree, name);
    expression(alloc, level, place, node, parts, 22, false)
}

/// A member by expression.
#[tactic(auto, using(js_tree::proofs::Equations::expr_computed_member))]
fn member_node(
    alloc: Global,
    place: Loc,
    object: Operand,
    key: Operand,
) -> Result<Option<Piece>, Memory>
    ensures { MakesExpr result (productions.member_level object.level) (tree.ComputedMember (Some place) (plain_expr object.tree) (plain_expr key.tree)) }
{
    let parts = object.height.max(key.height);
    let level = member_level(object.level);
    let node = ExprNode::ComputedMember(object.tree, key.tree);
    expression(alloc, level, place, node, parts, 22, false)
}

/// An array (13.2.4).
#[tactic(auto, using(crate::proofs::CallForms::array_form))]
pub(crate) fn array(alloc: Global, place: Loc, pieces: Pieces) -> Result<Option<Piece>, Memory>
    ensures { Makes result (build form.ArrayLiteral place (plain_pieces pieces)) }
{
    match one_list(pieces) {
        None => nothing(),
        Some(list) => array_node(alloc, place, list),
    }
}

/// A call (13.3.6).
#[tactic(auto, using(crate::proofs::CallForms::call_form))]
pub(crate) fn call(alloc: Global, place: Loc, mut pieces: Pieces) -> Result<Option<Piece>, Memory>
    ensures { Makes result (build form.Call place (plain_pieces pieces)) }
{
    match take_expression(&mut pieces) {
        None => nothing(),
        Some(callee) => match one_list(pieces) {
            None => nothing(),
            Some(list) => call_node(alloc, place, callee, list),
        },
    }
}

/// No arguments.
fn no_list(alloc: Global) -> List
    ensures { plain_exprs result.items ≡ tree.no_expr }
{
    List {
        items: Items::new(alloc),
        height: 0,
        joined: 0,
    }
}

/// The arguments of a construction and its level, which is another without them; nothing else stands there.
fn arguments(alloc: Global, mut pieces: Pieces) -> Option<(u8, List)>
    ensures { shape.arguments_view result ≡ shape.arguments_of (plain_pieces pieces) }
{
    let found = match pieces.next() {
        Some(Piece::Missing) => (19, no_list(alloc)),
        Some(Piece::Expressions(_, list)) => (21, list),
        other => {
            discard(other);
            return None;
        }
    };
    if is_over(pieces) { Some(found) } else { None }
}

/// A construction (13.3.5).
#[tactic(auto, using(crate::proofs::CallForms::new_form))]
pub(crate) fn new(alloc: Global, place: Loc, mut pieces: Pieces) -> Result<Option<Piece>, Memory>
    ensures { Makes result (build form.New place (plain_pieces pieces)) }
{
    match take_expression(&mut pieces) {
        None => nothing(),
        Some(callee) => match arguments(alloc, pieces) {
            None => nothing(),
            Some((level, list)) => new_node(alloc, level, place, callee, list),
        },
    }
}

/// One name.
fn one_name(mut pieces: Pieces) -> Option<Name>
    ensures { result ≡ shape.one_name (plain_pieces pieces) }
{
    let name = match pieces.next() {
        Some(Piece::Word(name, _)) => name,
        other => {
            discard(other);
            return None;
        }
    };
    if is_over(pieces) { Some(name) } else { None }
}

/// A member by name (13.3.2).
#[tactic(auto, using(crate::proofs::CallForms::dot_form))]
pub(crate) fn dot(alloc: Global, place: Loc, mut pieces: Pieces) -> Result<Option<Piece>, Memory>
    ensures { Makes result (build form.Dot place (plain_pieces pieces)) }
{
    match take_expression(&mut pieces) {
        None => nothing(),
        Some(object) => match one_name(pieces) {
            None => nothing(),
            Some(name) => dot_node(alloc, place, object, name),
        },
    }
}

/// A member by expression (13.3.2).
#[tactic(auto, using(crate::proofs::CallForms::member_form))]
pub(crate) fn member(alloc: Global, place: Loc, pieces: Pieces) -> Result<Option<Piece>, Memory>
    ensures { Makes result (build form.Member place (plain_pieces pieces)) }
{
    match two_expressions(pieces) {
        None => nothing(),
        Some((object, key)) => member_node(alloc, place, object, key),
    }
}
