ghost use Rattle.std.specs.Prelude.{◌≡◌, ◌∷◌, IfErr, IfOk, None, OnErr, Some};
ghost use Rattle.js_tree.specs.Height.{height_expr_if, height_for_init, height_for_target};
ghost use Rattle.js_tree.specs.Plain as tree;
ghost use Rattle.js_tree.specs.Tree.{plain_expr, plain_expr_if, plain_for_init, plain_for_target, plain_stmt};
ghost use Rattle.js_reading.specs.Makes as makes;
ghost use Rattle.js_reading.specs.Slots.{AnExpr};
ghost use Rattle.js_build.specs.DeclaratorPieces.{cons_if};
ghost use Rattle.js_build.specs.Fors as spec;
ghost use Rattle.js_build.specs.Lists.{test_view};
ghost use Rattle.js_build.specs.View.{plain_pieces, Makes, MakesStmt};

use crate::make::{nothing, statement};
use crate::queue::Pieces;
use crate::shapes::{an_expression_a_statement, maybe, one_statement, take_maybe};
use crate::tests::{is_async, is_target};
use crate::{Body, Operand, Piece};
use items::{Boxed, Memory};
use js_tree::{Expr, ForInit, ForTarget, Loc, StmtNode};
use std::alloc::Global;

/// A part that may be left out, and its height.
#[tactic(auto, using(js_tree::proofs::Equations::expr_if_none, js_tree::proofs::Equations::expr_if_some))]
fn part(operand: Option<Operand>) -> (Option<Boxed<Expr>>, u64)
    ensures tree { plain_expr_if result.0 ≡ test_view operand }
    ensures height { result.1 ≡ height_expr_if (test_view operand) }
{
    match operand {
        None => (None, 0),
        Some(operand) => {
            let height = operand.height;
            (Some(operand.tree), height)
        }
    }
}

/// `for` with three parts, the first of this height.
#[tactic(auto, using(js_tree::proofs::Equations::stmt_for))]
fn for_node(
    alloc: Global,
    place: Loc,
    init: ForInit,
    first: u64,
    test: Option<Operand>,
    update: Option<Operand>,
    body: Body,
) -> Result<Option<Piece>, Memory>
    requires { first ≡ height_for_init (plain_for_init init) }
    ensures { MakesStmt result (tree.For (Some place) (plain_for_init init) (test_view test) (test_view update) (plain_stmt body.tree)) }
{
    let (test, second) = part(test);
    let (update, third) = part(update);
    let parts = first.max(second.max(third.max(body.height)));
    let init = Boxed::new(alloc, init)?;
    let node = StmtNode::For(init, test, update, body.tree);
    statement(alloc, place, node, parts)
}

/// `for` with `in`, whose target has this height.
#[tactic(auto, using(js_tree::proofs::Equations::stmt_for_in))]
fn for_in_node(
    alloc: Global,
    place: Loc,
    target: ForTarget,
    first: u64,
    object: Operand,
    body: Body,
) -> Result<Option<Piece>, Memory>
    requires { first ≡ height_for_target (plain_for_target target) }
    ensures { MakesStmt result (tree.ForIn (Some place) (plain_for_target target) (plain_expr object.tree) (plain_stmt body.tree)) }
{
    let parts = first.max(object.height.max(body.height));
    let target = Boxed::new(alloc, target)?;
    let node = StmtNode::ForIn(target, object.tree, body.tree);
    statement(alloc, place, node, parts)
}

/// `for` with `of`, whose target has this height.
#[tactic(auto, using(js_tree::proofs::Equations::stmt_for_of))]
fn for_of_node(
    alloc: Global,
    place: Loc,
    target: ForTarget,
    first: u64,
    object: Operand,
    body: Body,
) -> Result<Option<Piece>, Memory>
    requires { first ≡ height_for_target (plain_for_target target) }
    ensures { MakesStmt result (tree.ForOf (Some place) (plain_for_target target) (plain_expr object.tree) (plain_stmt body.tree)) }
{
    let parts = first.max(object.height.max(body.height));
    let target = Boxed::new(alloc, target)?;
    let node = StmtNode::ForOf(target, object.tree, body.tree);
    statement(alloc, place, node, parts)
}

/// A `for` after its first part, which has this height; the next piece is taken.
#[tactic(auto, using(crate::proofs::ForLaws::rest_form))]
pub(crate) fn for_rest(
    alloc: Global,
    place: Loc,
    init: ForInit,
    first: u64,
    next: Option<Piece>,
    mut pieces: Pieces,
) -> Result<Option<Piece>, Memory>
    requires { first ≡ height_for_init (plain_for_init init) }
    ensures { Makes result (makes.for_of place (plain_for_init init) (cons_if next (plain_pieces pieces))) }
{
    match maybe(next) {
        None => nothing(),
        Some(test) => match take_maybe(&mut pieces) {
            None => nothing(),
            Some(update) => match one_statement(pieces) {
                None => nothing(),
                Some(body) => for_node(alloc, place, init, first, test, update, body),
            },
        },
    }
}

/// A `for` after `in` or `of`, whose target has this height.
pub(crate) fn for_each(
    alloc: Global,
    place: Loc,
    of: bool,
    target: ForTarget,
    first: u64,
    pieces: Pieces,
) -> Result<Option<Piece>, Memory>
    requires { first ≡ height_for_target (plain_for_target target) }
    ensures { Makes result (spec.each_of of place (plain_for_target target) (plain_pieces pieces)) }
{
    match an_expression_a_statement(pieces) {
        None => nothing(),
        Some((object, body)) => {
            if of {
                for_of_node(alloc, place, target, first, object, body)
            } else {
                for_in_node(alloc, place, target, first, object, body)
            }
        }
    }
}

/// Whether a `for` has `of`, or else the piece where `in` or `of` would stand.
pub(crate) fn each_next(pieces: &mut Pieces) -> Result<bool, Option<Piece>>
    ensures each { IfOk result (λ of. spec.first_each (plain_pieces pieces.old) ≡ Some (of, plain_pieces pieces.new)) }
    ensures same { IfErr result (λ other. plain_pieces pieces.old ≡ cons_if other (plain_pieces pieces.new)) }
    ensures other { OnErr result (spec.first_each (plain_pieces pieces.old) ≡ None) }
{
    match pieces.next() {
        None => Err(None),
        Some(Piece::In) => Ok(false),
        Some(Piece::Of) => Ok(true),
        Some(other) => Err(Some(other)),
    }
}

/// Whether what stands before `in` or `of` may be assigned to (14.7.5).
fn may_take(of: bool, target: &Expr) -> bool
    ensures { result ≡ spec.may_take of (plain_expr target.now) }
{
    if of {
        is_target(target) && !is_async(target)
    } else {
        is_target(target)
    }
}

/// A `for` with `in` or `of` after an expression.
#[tactic(auto, using(js_tree::proofs::Equations::for_target_target_expression))]
fn for_each_expression(
    alloc: Global,
    place: Loc,
    of: bool,
    operand: Operand,
    pieces: Pieces,
) -> Result<Option<Piece>, Memory>
    ensures { Makes result (spec.guarded (spec.may_take of (plain_expr operand.tree)) (spec.each_of of place (tree.TargetExpression (plain_expr operand.tree)) (plain_pieces pieces))) }
{
    if !may_take(of, operand.tree.get()) {
        return nothing();
    }
    let height = operand.height;
    let target = ForTarget::TargetExpression(operand.tree);
    for_each(alloc, place, of, target, height, pieces)
}

/// A `for` with three parts, of which the first is an expression; the next piece is taken.
#[tactic(auto, using(js_tree::proofs::Equations::for_init_init_expression))]
fn for_initial(
    alloc: Global,
    place: Loc,
    operand: Operand,
    next: Option<Piece>,
    pieces: Pieces,
) -> Result<Option<Piece>, Memory>
    ensures { Makes result (makes.for_of place (tree.InitExpression (plain_expr operand.tree)) (cons_if next (plain_pieces pieces))) }
{
    let height = operand.height;
    let init = ForInit::InitExpression(operand.tree);
    for_rest(alloc, place, init, height, next, pieces)
}

/// A `for`, after its first expression.
#[tactic(auto, using(crate::proofs::ForLaws::expression_form))]
pub(crate) fn for_expression(
    alloc: Global,
    place: Loc,
    operand: Operand,
    mut pieces: Pieces,
) -> Result<Option<Piece>, Memory>
    ensures { Makes result (makes.for_parts place (AnExpr operand.level (plain_expr operand.tree) ∷ plain_pieces pieces)) }
{
    match each_next(&mut pieces) {
        Ok(of) => for_each_expression(alloc, place, of, operand, pieces),
        Err(next) => for_initial(alloc, place, operand, next, pieces),
    }
}
