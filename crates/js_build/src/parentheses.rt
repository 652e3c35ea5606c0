ghost use Rattle.std.specs.Prelude.{◌≡◌, IfOk, Some};
ghost use Rattle.js_tree.specs.Height.{height_expr};
ghost use Rattle.js_tree.specs.Plain as tree;
ghost use Rattle.js_tree.specs.Tree.{plain_expr, plain_exprs};
ghost use Rattle.js_reading.specs.Makes as makes;
ghost use Rattle.js_reading.specs.declared.form.Form.TheVariants as form;
ghost use Rattle.js_build.specs.Parentheses as spec;
ghost use Rattle.js_build.specs.View.{plain_pieces, Makes, MakesExpr};

use crate::arrows::{arrow, block_body, expression_body};
use crate::make::{expression, nothing};
use crate::piece::discard;
use crate::place::through;
use crate::queue::{Pieces, Queue};
use crate::shapes::{is_over, take_list};
use crate::{List, Piece};
use items::{Boxed, Memory};
use js_tree::{Expr, ExprNode, Loc};
use std::alloc::Global;

/// From the start of one expression to the end of another, where both have a place.
fn both(first: Option<Loc>, last: Option<Loc>) -> Option<Loc>
    ensures { result ≡ spec.both first last }
{
    match (first, last) {
        (Some(first), Some(last)) => Some(through(first, last)),
        _ => None,
    }
}

/// Where an expression stands.
#[tactic(auto, using(crate::proofs::ExprPlaces::expr_place_same))]
fn place_of(expression: &Expr) -> Option<Loc>
    ensures { result ≡ makes.loc_of (plain_expr expression.now) }
{
    expression.loc
}

/// A comma between two expressions.
#[tactic(auto, using(js_tree::proofs::Equations::tree_rules))]
fn pair(alloc: Global, left: Expr, right: Expr) -> Result<Expr, Memory>
    ensures { IfOk result (λ made. plain_expr made ≡ spec.pair (plain_expr left) (plain_expr right)) }
{
    let loc = both(place_of(&left), place_of(&right));
    let left = Boxed::new(alloc, left)?;
    let right = Boxed::new(alloc, right)?;
    Ok(Expr {
        loc,
        node: ExprNode::Comma(left, right),
    })
}

/// Expressions with a comma between every two (13.16).
#[tactic(auto, using(crate::proofs::ParenthesesForms::joined_is))]
fn joined(alloc: Global, first: Expr, rest: Queue<Expr>) -> Result<Expr, Memory>
    ensures { IfOk result (λ made. plain_expr made ≡ makes.comma_of makes.loc_of (plain_expr first) (plain_exprs rest)) }
{
    let mut made = first;
    let mut left = rest;
    'each: loop {
        match left.next() {
            None => break,
            Some(expression) => made = pair(alloc, made, expression)?,
        }
    }
    Ok(made)
}

/// An expression in parentheses, whose height is this.
#[tactic(auto, using(js_tree::proofs::Equations::expr_parenthesized))]
fn parenthesized_node(
    alloc: Global,
    place: Loc,
    inner: Expr,
    height: u64,
) -> Result<Option<Piece>, Memory>
    requires { height_expr (plain_expr inner) ≡ height }
    ensures { MakesExpr result 21 (tree.Parenthesized (Some place) (plain_expr inner)) }
{
    let node = ExprNode::Parenthesized(Boxed::new(alloc, inner)?);
    expression(alloc, 21, place, node, height, 22, false)
}

/// A pair of parentheses that is no arrow's (13.2.9).
fn parenthesized(
    alloc: Global,
    place: Loc,
    trailing: bool,
    list: List,
    pieces: Pieces,
) -> Result<Option<Piece>, Memory>
    ensures { Makes result (spec.parenthesized place trailing (plain_exprs list.items) (plain_pieces pieces)) }
{
    if trailing {
        return nothing();
    }
    let height = list.joined;
    let mut left = Queue::new(list.items.into_vec());
    match left.next() {
        None => nothing(),
        Some(first) => {
            if !is_over(pieces) {
                return nothing();
            }
            let inner = joined(alloc, first, left)?;
            parenthesized_node(alloc, place, inner, height)
        }
    }
}

/// What stands after the items in parentheses.
fn after_list(
    alloc: Global,
    place: Loc,
    trailing: bool,
    list: List,
    mut pieces: Pieces,
) -> Result<Option<Piece>, Memory>
    ensures { Makes result (spec.after_list place trailing (plain_exprs list.items) (plain_pieces pieces)) }
{
    match pieces.next() {
        Some(Piece::Missing) => parenthesized(alloc, place, trailing, list, pieces),
        Some(Piece::Expression(value)) => {
            let body = expression_body(alloc, value, pieces)?;
            arrow(alloc, place, list, body)
        }
        Some(Piece::Place(opening)) => {
            let body = block_body(alloc, opening, pieces)?;
            arrow(alloc, place, list, body)
        }
        other => {
            discard(other);
            Ok(None)
        }
    }
}

/// A pair of parentheses, or an arrow function that begins with one (13.2.9, 15.3).
#[tactic(auto, using(crate::proofs::ParenthesesForms::parentheses_form))]
pub(crate) fn parentheses(
    alloc: Global,
    place: Loc,
    mut pieces: Pieces,
) -> Result<Option<Piece>, Memory>
    ensures { Makes result (makes.build form.Parentheses place (plain_pieces pieces)) }
{
    match take_list(&mut pieces) {
        None => nothing(),
        Some((trailing, list)) => after_list(alloc, place, trailing, list, pieces),
    }
}
