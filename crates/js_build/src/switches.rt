ghost use Rattle.std.specs.Prelude.{◌≡◌, ◌≤◌, IfOk, Some, false, length};
ghost use Rattle.std.specs.Option.{option_map};
ghost use Rattle.js_tree.specs.Plain as tree;
ghost use Rattle.js_tree.specs.Tree.{plain_case, plain_cases, plain_expr, plain_stmts};
ghost use Rattle.js_reading.specs.Makes.{build, cases_of};
ghost use Rattle.js_reading.specs.declared.form.Form.TheVariants as form;
ghost use Rattle.js_build.specs.Lists as lists;
ghost use Rattle.js_build.specs.View.{plain_piece, plain_pieces, Makes, MakesStmt};

use crate::callables::braces;
use crate::lists::{MadeCase, MadeCases};
use crate::make::{above, nothing, statement};
use crate::piece::discard;
use crate::place::through;
use crate::queue::Pieces;
use crate::shapes::{take_expression, take_place};
use crate::{Operand, Piece, Statements};
use items::{Boxed, Items, Memory};
use js_tree::{Case, Expr, Loc, Stmt, StmtNode};
use std::alloc::Global;

/// A clause, after the place of its first word.
#[tactic(auto, using(crate::proofs::ListLaws::clause_rules))]
fn clause(pieces: &mut Pieces) -> Option<(Option<Operand>, (Statements, Loc))>
    ensures read { lists.clause_view result (plain_pieces pieces.new) ≡ lists.clause_of (plain_pieces pieces.old) }
    ensures shorter { length pieces.new ≤ length pieces.old }
{
    match pieces.next() {
        Some(Piece::Expression(test)) => match braces(pieces) {
            None => None,
            Some(ended) => Some((Some(test), ended)),
        },
        Some(Piece::Statements(statements)) => match take_place(pieces) {
            None => None,
            Some(closing) => Some((None, (statements, closing))),
        },
        other => {
            discard(other);
            None
        }
    }
}

/// A `default`.
#[tactic(auto, using(js_tree::proofs::Equations::case_rolled, js_tree::proofs::Equations::expr_if_none))]
fn default_case(loc: Loc, statements: Items<Stmt>) -> Case
    ensures { plain_case result ≡ tree.MakeCase (Some loc) tree.none_expr (plain_stmts statements) }
{
    Case {
        loc: Some(loc),
        test: None,
        statements,
    }
}

/// A `case`.
#[tactic(auto, using(js_tree::proofs::Equations::case_rolled, js_tree::proofs::Equations::expr_if_some))]
fn tested_case(loc: Loc, test: Boxed<Expr>, statements: Items<Stmt>) -> Case
    ensures { plain_case result ≡ tree.MakeCase (Some loc) (tree.some_expr (plain_expr test)) (plain_stmts statements) }
{
    Case {
        loc: Some(loc),
        test: Some(test),
        statements,
    }
}

/// A clause of this test, or none, and these statements.
fn made_case(loc: Loc, test: Option<Operand>, statements: Statements) -> Result<MadeCase, Memory>
    ensures { IfOk result (λ made. plain_case made.tree ≡ tree.MakeCase (Some loc) (lists.test_view test) (plain_stmts statements.items)) }
{
    match test {
        None => {
            let height = above(statements.height)?;
            let tree = default_case(loc, statements.items);
            Ok(MadeCase { tree, height })
        }
        Some(test) => {
            let height = above(test.height.max(statements.height))?;
            let tree = tested_case(loc, test.tree, statements.items);
            Ok(MadeCase { tree, height })
        }
    }
}

/// Whether a clause is a second default.
fn is_second(defaulted: bool, test: &Option<Operand>) -> bool
    ensures { result ≡ lists.is_second defaulted (lists.test_view test.now) }
{
    match test {
        None => defaulted,
        Some(_) => false,
    }
}

/// Whether there is a default, with this clause.
fn is_default(defaulted: bool, test: &Option<Operand>) -> bool
    ensures { result ≡ lists.is_default defaulted (lists.test_view test.now) }
{
    match test {
        None => true,
        Some(_) => defaulted,
    }
}

/// A clause after the place of its first word, and whether there is a default with it; none that is a second one (14.12).
fn read_case(
    defaulted: bool,
    opening: Loc,
    pieces: &mut Pieces,
) -> Result<Option<(MadeCase, bool)>, Memory>
    ensures read { IfOk result (λ made. lists.case_view made (plain_pieces pieces.new) ≡ lists.case_read defaulted opening (lists.clause_of (plain_pieces pieces.old))) }
    ensures shorter { length pieces.new ≤ length pieces.old }
{
    match clause(pieces) {
        None => Ok(None),
        Some((test, (statements, closing))) => {
            if is_second(defaulted, &test) {
                return Ok(None);
            }
            let with_default = is_default(defaulted, &test);
            let made = made_case(through(opening, closing), test, statements)?;
            Ok(Some((made, with_default)))
        }
    }
}

/// The place that a piece is, if it is one.
fn place_of(piece: Piece) -> Option<Loc>
    ensures { result ≡ lists.place_of (plain_piece piece) }
{
    match piece {
        Piece::Place(place) => Some(place),
        other => {
            discard(Some(other));
            None
        }
    }
}

/// The clauses of a `switch`; at most one is a default (14.12).
#[tactic(auto, using(js_tree::proofs::Equations::cases_push, crate::proofs::ListLaws::case_rules))]
fn cases(alloc: Global, pieces: &mut Pieces) -> Result<Option<MadeCases>, Memory>
    ensures { IfOk result (λ made. option_map lists.cases_view made ≡ cases_of false (plain_pieces pieces.old)) }
{
    let mut items = Items::new(alloc);
    let mut height = 0;
    let mut defaulted = false;
    'each: loop {
        match pieces.next() {
            None => return Ok(Some(MadeCases { items, height })),
            Some(next) => match place_of(next) {
                None => return Ok(None),
                Some(opening) => match read_case(defaulted, opening, pieces)? {
                    None => return Ok(None),
                    Some((made, with_default)) => {
                        defaulted = with_default;
                        height = made.height.max(height);
                        items.push(made.tree)?;
                    }
                },
            },
        }
    }
}

/// A `switch`.
#[tactic(auto, using(js_tree::proofs::Equations::stmt_switch))]
fn switch_node(
    alloc: Global,
    place: Loc,
    value: Operand,
    cases: MadeCases,
) -> Result<Option<Piece>, Memory>
    ensures { MakesStmt result (tree.Switch (Some place) (plain_expr value.tree) (plain_cases cases.items)) }
{
    let parts = value.height.max(cases.height);
    let node = StmtNode::Switch(value.tree, cases.items);
    statement(alloc, place, node, parts)
}

/// `switch` (14.12).
#[tactic(auto, using(crate::proofs::ListLaws::switch_form))]
pub(crate) fn switch(alloc: Global, place: Loc, mut pieces: Pieces) -> Result<Option<Piece>, Memory>
    ensures { Makes result (build form.Switch place (plain_pieces pieces)) }
{
    match take_expression(&mut pieces) {
        None => nothing(),
        Some(value) => match cases(alloc, &mut pieces)? {
            None => nothing(),
            Some(cases) => switch_node(alloc, place, value, cases),
        },
    }
}
