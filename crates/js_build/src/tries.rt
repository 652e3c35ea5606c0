ghost use Rattle.std.specs.Prelude.{◌≡◌, ◌∷◌, Some};
ghost use Rattle.js_tree.specs.Height.{height_pattern_if};
ghost use Rattle.js_tree.specs.Plain as tree;
ghost use Rattle.js_tree.specs.Tree.{plain_catch, plain_pattern_if, plain_stmts};
ghost use Rattle.js_reading.specs.Makes.{build};
ghost use Rattle.js_reading.specs.Slots.{TheStmts};
ghost use Rattle.js_reading.specs.declared.form.Form.TheVariants as form;
ghost use Rattle.js_build.specs.Tries.{caught, handled_of, last_of, last_view};
ghost use Rattle.js_build.specs.View.{plain_pieces, Makes, MakesStmt};

use crate::make::{nothing, statement};
use crate::names::bound;
use crate::piece::discard;
use crate::queue::Pieces;
use crate::shapes::{is_over, take_statements};
use crate::{Piece, Statements};
use items::{Boxed, Items, Memory};
use js_tree::{Catch, Loc, Name, Pattern, Stmt, StmtNode};
use std::alloc::Global;

/// What a `catch` binds, if it names something.
#[tactic(auto, using(js_tree::proofs::Equations::pattern_if_none, js_tree::proofs::Equations::pattern_if_some))]
fn parameter(name: Option<(Name, Loc)>) -> Option<Pattern>
    ensures { plain_pattern_if result ≡ caught name }
{
    match name {
        None => None,
        Some((name, at)) => Some(bound(name, at)),
    }
}

/// How high that is.
fn parameter_height(name: &Option<(Name, Loc)>) -> u64
    ensures { result ≡ height_pattern_if (caught name.now) }
{
    match name {
        None => 0,
        Some(_) => 1,
    }
}

/// A `catch` clause.
#[tactic(auto, using(js_tree::proofs::Equations::catch_rolled))]
fn catch_clause(name: Option<(Name, Loc)>, statements: Items<Stmt>) -> Catch
    ensures { plain_catch result ≡ tree.MakeCatch (caught name) (plain_stmts statements) }
{
    Catch {
        parameter: parameter(name),
        statements,
    }
}

/// `try` with `finally` alone.
#[tactic(auto, using(js_tree::proofs::Equations::stmt_try_finally))]
fn finally_node(
    alloc: Global,
    place: Loc,
    block: Statements,
    last: Statements,
) -> Result<Option<Piece>, Memory>
    ensures { MakesStmt result (tree.TryFinally (Some place) (plain_stmts block.items) (plain_stmts last.items)) }
{
    let parts = block.height.max(last.height);
    let node = StmtNode::TryFinally(block.items, last.items);
    statement(alloc, place, node, parts)
}

/// `try` with `catch` alone.
#[tactic(auto, using(js_tree::proofs::Equations::stmt_try_catch))]
fn catch_node(
    alloc: Global,
    place: Loc,
    block: Statements,
    name: Option<(Name, Loc)>,
    statements: Statements,
) -> Result<Option<Piece>, Memory>
    ensures { MakesStmt result (tree.TryCatch (Some place) (plain_stmts block.items) (tree.MakeCatch (caught name) (plain_stmts statements.items))) }
{
    let height = parameter_height(&name).max(statements.height);
    let parts = block.height.max(height);
    let clause = Boxed::new(alloc, catch_clause(name, statements.items))?;
    let node = StmtNode::TryCatch(block.items, clause);
    statement(alloc, place, node, parts)
}

/// `try` with both.
#[tactic(auto, using(js_tree::proofs::Equations::stmt_try_catch_finally))]
fn both_node(
    alloc: Global,
    place: Loc,
    block: Statements,
    name: Option<(Name, Loc)>,
    statements: Statements,
    last: Statements,
) -> Result<Option<Piece>, Memory>
    ensures { MakesStmt result (tree.TryCatchFinally (Some place) (plain_stmts block.items) (tree.MakeCatch (caught name) (plain_stmts statements.items)) (plain_stmts last.items)) }
{
    let height = parameter_height(&name).max(statements.height);
    let parts = block.height.max(height.max(last.height));
    let clause = Boxed::new(alloc, catch_clause(name, statements.items))?;
    let node = StmtNode::TryCatchFinally(block.items, clause, last.items);
    statement(alloc, place, node, parts)
}

/// The statements of `finally`, if there is one, and nothing else.
fn last_block(mut pieces: Pieces) -> Option<Option<Statements>>
    ensures { last_view result ≡ last_of (plain_pieces pieces) }
{
    let last = match pieces.next() {
        Some(Piece::Missing) => None,
        Some(Piece::Statements(last)) => Some(last),
        other => {
            discard(other);
            return None;
        }
    };
    if is_over(pieces) { Some(last) } else { None }
}

/// `try`, after the parameter of its `catch`.
#[tactic(auto, using(crate::proofs::TryForms::handled_form))]
fn handled(
    alloc: Global,
    place: Loc,
    block: Statements,
    name: Option<(Name, Loc)>,
    mut pieces: Pieces,
) -> Result<Option<Piece>, Memory>
    ensures { Makes result (handled_of place (plain_stmts block.items) (caught name) (plain_pieces pieces)) }
{
    match take_statements(&mut pieces) {
        None => nothing(),
        Some(statements) => match last_block(pieces) {
            None => nothing(),
            Some(None) => catch_node(alloc, place, block, name, statements),
            Some(Some(last)) => both_node(alloc, place, block, name, statements, last),
        },
    }
}

/// `try`, after its block.
#[tactic(auto, using(crate::proofs::TryForms::try_rules))]
fn after_block(
    alloc: Global,
    place: Loc,
    block: Statements,
    mut pieces: Pieces,
) -> Result<Option<Piece>, Memory>
    ensures { Makes result (build form.Try place (TheStmts (plain_stmts block.items) ∷ plain_pieces pieces)) }
{
    match pieces.next() {
        Some(Piece::Statements(last)) => {
            if is_over(pieces) {
                finally_node(alloc, place, block, last)
            } else {
                nothing()
            }
        }
        Some(Piece::Missing) => handled(alloc, place, block, None, pieces),
        Some(Piece::Word(name, at)) => handled(alloc, place, block, Some((name, at)), pieces),
        other => {
            discard(other);
            Ok(None)
        }
    }
}

/// `try` (14.15).
#[tactic(auto, using(crate::proofs::TryForms::try_form))]
pub(crate) fn try_statement(
    alloc: Global,
    place: Loc,
    mut pieces: Pieces,
) -> Result<Option<Piece>, Memory>
    ensures { Makes result (build form.Try place (plain_pieces pieces)) }
{
    match take_statements(&mut pieces) {
        None => nothing(),
        Some(block) => after_block(alloc, place, block, pieces),
    }
}
