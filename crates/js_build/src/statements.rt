ghost use Rattle.std.specs.Prelude.{◌≡◌, ◌∷◌, Some, None};
ghost use Rattle.js_tree.specs.Plain as tree;
ghost use Rattle.js_tree.specs.Tree.{plain_expr, plain_stmt, plain_stmts};
ghost use Rattle.js_reading.specs.Makes.{build};
ghost use Rattle.js_reading.specs.declared.form.Form.TheVariants as form;
ghost use Rattle.js_reading.specs.Slots.{AnExpr, AStmt};
ghost use Rattle.js_build.specs.Fors.{maybe_view};
ghost use Rattle.js_build.specs.Shapes.{else_of, else_view, value_of};
ghost use Rattle.js_build.specs.View.{plain_pieces, Makes, MakesStmt};

use crate::make::{nothing, statement};
use crate::names::into_identifier;
use crate::piece::discard;
use crate::queue::Pieces;
use crate::shapes::{
    an_expression_a_statement, is_over, one_expression, take_expression, take_maybe,
    take_statement, take_statements,
};
use crate::{Body, Operand, Piece, Statements};
use items::Memory;
use js_tree::{Identifier, Loc, StmtNode};
use std::alloc::Global;

/// An expression statement.
#[tactic(auto, using(js_tree::proofs::Equations::stmt_expression))]
fn expression_node(alloc: Global, place: Loc, inner: Operand) -> Result<Option<Piece>, Memory>
    ensures { MakesStmt result (tree.Expression (Some place) (plain_expr inner.tree)) }
{
    let parts = inner.height;
    let node = StmtNode::Expression(inner.tree);
    statement(alloc, place, node, parts)
}

/// `throw`.
#[tactic(auto, using(js_tree::proofs::Equations::stmt_throw))]
fn throw_node(alloc: Global, place: Loc, value: Operand) -> Result<Option<Piece>, Memory>
    ensures { MakesStmt result (tree.Throw (Some place) (plain_expr value.tree)) }
{
    let parts = value.height;
    let node = StmtNode::Throw(value.tree);
    statement(alloc, place, node, parts)
}

/// `while`.
#[tactic(auto, using(js_tree::proofs::Equations::stmt_while))]
fn while_node(alloc: Global, place: Loc, test: Operand, body: Body) -> Result<Option<Piece>, Memory>
    ensures { MakesStmt result (tree.While (Some place) (plain_expr test.tree) (plain_stmt body.tree)) }
{
    let parts = test.height.max(body.height);
    let node = StmtNode::While(test.tree, body.tree);
    statement(alloc, place, node, parts)
}

/// `do`.
#[tactic(auto, using(js_tree::proofs::Equations::stmt_do_while))]
fn do_while_node(
    alloc: Global,
    place: Loc,
    body: Body,
    test: Operand,
) -> Result<Option<Piece>, Memory>
    ensures { MakesStmt result (tree.DoWhile (Some place) (plain_stmt body.tree) (plain_expr test.tree)) }
{
    let parts = body.height.max(test.height);
    let node = StmtNode::DoWhile(body.tree, test.tree);
    statement(alloc, place, node, parts)
}

/// A block.
#[tactic(auto, using(js_tree::proofs::Equations::stmt_block))]
fn block_node(alloc: Global, place: Loc, statements: Statements) -> Result<Option<Piece>, Memory>
    ensures { MakesStmt result (tree.Block (Some place) (plain_stmts statements.items)) }
{
    let parts = statements.height;
    let node = StmtNode::Block(statements.items);
    statement(alloc, place, node, parts)
}

/// `if` without `else`.
#[tactic(auto, using(crate::proofs::Nodes::if_without))]
fn if_node(alloc: Global, place: Loc, test: Operand, then: Body) -> Result<Option<Piece>, Memory>
    ensures { MakesStmt result (tree.If (Some place) (plain_expr test.tree) (plain_stmt then.tree) tree.none_stmt) }
{
    let parts = test.height.max(then.height);
    let node = StmtNode::If(test.tree, then.tree, None);
    statement(alloc, place, node, parts)
}

/// `if` with `else`.
#[tactic(auto, using(crate::proofs::Nodes::if_with))]
fn if_else_node(
    alloc: Global,
    place: Loc,
    test: Operand,
    then: Body,
    otherwise: Body,
) -> Result<Option<Piece>, Memory>
    ensures { MakesStmt result (tree.If (Some place) (plain_expr test.tree) (plain_stmt then.tree) (tree.some_stmt (plain_stmt otherwise.tree))) }
{
    let parts = test.height.max(then.height.max(otherwise.height));
    let node = StmtNode::If(test.tree, then.tree, Some(otherwise.tree));
    statement(alloc, place, node, parts)
}

/// A label and its statement.
#[tactic(auto, using(js_tree::proofs::Equations::stmt_labelled))]
fn labelled_node(
    alloc: Global,
    place: Loc,
    label: Identifier,
    body: Body,
) -> Result<Option<Piece>, Memory>
    ensures { MakesStmt result (tree.Labelled (Some place) label (plain_stmt body.tree)) }
{
    let parts = body.height;
    let node = StmtNode::Labelled(label, body.tree);
    statement(alloc, place, node, parts)
}

/// `return` without a value.
#[tactic(auto, using(crate::proofs::Nodes::return_without))]
fn return_node(alloc: Global, place: Loc) -> Result<Option<Piece>, Memory>
    ensures { MakesStmt result (tree.Return (Some place) tree.none_expr) }
{
    let parts = 0;
    let node = StmtNode::Return(None);
    statement(alloc, place, node, parts)
}

/// `return` with a value.
#[tactic(auto, using(crate::proofs::Nodes::return_with))]
fn return_value_node(alloc: Global, place: Loc, value: Operand) -> Result<Option<Piece>, Memory>
    ensures { MakesStmt result (tree.Return (Some place) (tree.some_expr (plain_expr value.tree))) }
{
    let parts = value.height;
    let node = StmtNode::Return(Some(value.tree));
    statement(alloc, place, node, parts)
}

/// An expression statement (14.5).
#[tactic(auto, using(crate::proofs::StatementForms::expression_form))]
pub(crate) fn expression_statement(
    alloc: Global,
    place: Loc,
    pieces: Pieces,
) -> Result<Option<Piece>, Memory>
    ensures { Makes result (build form.Expression place (plain_pieces pieces)) }
{
    match one_expression(pieces) {
        None => nothing(),
        Some(inner) => expression_node(alloc, place, inner),
    }
}

/// `throw` (14.14).
#[tactic(auto, using(crate::proofs::StatementForms::throw_form))]
pub(crate) fn throw(alloc: Global, place: Loc, pieces: Pieces) -> Result<Option<Piece>, Memory>
    ensures { Makes result (build form.Throw place (plain_pieces pieces)) }
{
    match one_expression(pieces) {
        None => nothing(),
        Some(value) => throw_node(alloc, place, value),
    }
}

/// `while` (14.7.3).
#[tactic(auto, using(crate::proofs::StatementForms::while_form))]
pub(crate) fn while_loop(alloc: Global, place: Loc, pieces: Pieces) -> Result<Option<Piece>, Memory>
    ensures { Makes result (build form.While place (plain_pieces pieces)) }
{
    match an_expression_a_statement(pieces) {
        None => nothing(),
        Some((test, body)) => while_node(alloc, place, test, body),
    }
}

/// A label and its statement (14.13).
#[tactic(auto, using(crate::proofs::StatementForms::labelled_form))]
pub(crate) fn labelled(alloc: Global, place: Loc, pieces: Pieces) -> Result<Option<Piece>, Memory>
    ensures { Makes result (build form.Labelled place (plain_pieces pieces)) }
{
    match an_expression_a_statement(pieces) {
        None => nothing(),
        Some((label, body)) => match into_identifier(label.tree) {
            None => nothing(),
            Some(label) => labelled_node(alloc, place, label, body),
        },
    }
}

/// A block (14.2).
#[tactic(auto, using(crate::proofs::StatementForms::block_form))]
pub(crate) fn block(alloc: Global, place: Loc, mut pieces: Pieces) -> Result<Option<Piece>, Memory>
    ensures { Makes result (build form.Block place (plain_pieces pieces)) }
{
    match take_statements(&mut pieces) {
        None => nothing(),
        Some(statements) => {
            if is_over(pieces) {
                block_node(alloc, place, statements)
            } else {
                nothing()
            }
        }
    }
}

/// `do` (14.7.2).
#[tactic(auto, using(crate::proofs::StatementForms::do_while_form))]
pub(crate) fn do_while(
    alloc: Global,
    place: Loc,
    mut pieces: Pieces,
) -> Result<Option<Piece>, Memory>
    ensures { Makes result (build form.DoWhile place (plain_pieces pieces)) }
{
    match take_statement(&mut pieces) {
        None => nothing(),
        Some(body) => match one_expression(pieces) {
            None => nothing(),
            Some(test) => do_while_node(alloc, place, body, test),
        },
    }
}

/// The statement after `else`, if there is one, and nothing else.
fn otherwise(mut pieces: Pieces) -> Option<Option<Body>>
    ensures { else_view result ≡ else_of (plain_pieces pieces) }
{
    let otherwise = match pieces.next() {
        Some(Piece::Missing) => None,
        Some(Piece::Statement(otherwise)) => Some(otherwise),
        other => {
            discard(other);
            return None;
        }
    };
    if is_over(pieces) {
        Some(otherwise)
    } else {
        None
    }
}

/// `if`, after its first statement.
#[tactic(auto, using(crate::proofs::StatementForms::then_form))]
fn if_rest(
    alloc: Global,
    place: Loc,
    test: Operand,
    then: Body,
    pieces: Pieces,
) -> Result<Option<Piece>, Memory>
    ensures { Makes result (build form.If place (AnExpr test.level (plain_expr test.tree) ∷ AStmt (plain_stmt then.tree) ∷ plain_pieces pieces)) }
{
    match otherwise(pieces) {
        None => nothing(),
        Some(None) => if_node(alloc, place, test, then),
        Some(Some(otherwise)) => if_else_node(alloc, place, test, then, otherwise),
    }
}

/// `if` (14.6).
#[tactic(auto, using(crate::proofs::StatementForms::if_form))]
pub(crate) fn if_statement(
    alloc: Global,
    place: Loc,
    mut pieces: Pieces,
) -> Result<Option<Piece>, Memory>
    ensures { Makes result (build form.If place (plain_pieces pieces)) }
{
    match take_expression(&mut pieces) {
        None => nothing(),
        Some(test) => match take_statement(&mut pieces) {
            None => nothing(),
            Some(then) => if_rest(alloc, place, test, then, pieces),
        },
    }
}

/// The value of `return`, if there is one, and nothing else.
#[tactic(auto, using(crate::proofs::StatementForms::value_first))]
fn returned(mut pieces: Pieces) -> Option<Option<Operand>>
    ensures { maybe_view result ≡ value_of (plain_pieces pieces) }
{
    match take_maybe(&mut pieces) {
        None => None,
        Some(value) => { if is_over(pieces) { Some(value) } else { None } }
    }
}

/// `return` (14.10).
#[tactic(auto, using(crate::proofs::StatementForms::return_form))]
pub(crate) fn return_statement(
    alloc: Global,
    place: Loc,
    pieces: Pieces,
) -> Result<Option<Piece>, Memory>
    ensures { Makes result (build form.Return place (plain_pieces pieces)) }
{
    match returned(pieces) {
        None => nothing(),
        Some(None) => return_node(alloc, place),
        Some(Some(value)) => return_value_node(alloc, place, value),
    }
}
