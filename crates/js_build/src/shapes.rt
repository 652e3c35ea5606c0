ghost use Rattle.std.specs.Prelude.{◌≡◌, ◌≤◌, length};
ghost use Rattle.js_build.specs.Fors.{first_maybe, maybe_of, maybe_taken, maybe_view};
ghost use Rattle.js_build.specs.Objects.{first_place, place_taken};
ghost use Rattle.js_build.specs.Parentheses.{first_list, list_taken};
ghost use Rattle.js_build.specs.View.{plain_pieces};
ghost use Rattle.js_build.specs.Shapes.{expr_stmt, expr_taken, first_expr, first_stmt, first_stmts, none_left, one_expr, one_stmt, operand_body, operand_if, operands, operands_of_three, stmt_if, stmt_taken, stmts_taken, three_exprs, two_exprs};

use crate::piece::discard;
use crate::queue::Pieces;
use crate::{Body, List, Operand, Piece, Statements};
use js_tree::Loc;

/// The expression that is next.
pub(crate) fn take_expression(pieces: &mut Pieces) -> Option<Operand>
    ensures { expr_taken result (plain_pieces pieces.new) ≡ first_expr (plain_pieces pieces.old) }
{
    match pieces.next() {
        Some(Piece::Expression(next)) => Some(next),
        other => {
            discard(other);
            None
        }
    }
}

/// The statement that is next.
pub(crate) fn take_statement(pieces: &mut Pieces) -> Option<Body>
    ensures { stmt_taken result (plain_pieces pieces.new) ≡ first_stmt (plain_pieces pieces.old) }
{
    match pieces.next() {
        Some(Piece::Statement(next)) => Some(next),
        other => {
            discard(other);
            None
        }
    }
}

/// The statements that are next.
pub(crate) fn take_statements(pieces: &mut Pieces) -> Option<Statements>
    ensures read { stmts_taken result (plain_pieces pieces.new) ≡ first_stmts (plain_pieces pieces.old) }
    ensures shorter { length pieces.new ≤ length pieces.old }
{
    match pieces.next() {
        Some(Piece::Statements(next)) => Some(next),
        other => {
            discard(other);
            None
        }
    }
}

/// The items that are next, and whether nothing stands after their last comma.
pub(crate) fn take_list(pieces: &mut Pieces) -> Option<(bool, List)>
    ensures { list_taken result (plain_pieces pieces.new) ≡ first_list (plain_pieces pieces.old) }
{
    match pieces.next() {
        Some(Piece::Expressions(trailing, list)) => Some((trailing, list)),
        other => {
            discard(other);
            None
        }
    }
}

/// The place that is next.
pub(crate) fn take_place(pieces: &mut Pieces) -> Option<Loc>
    ensures read { place_taken result (plain_pieces pieces.new) ≡ first_place (plain_pieces pieces.old) }
    ensures shorter { length pieces.new ≤ length pieces.old }
{
    let piece = pieces.next();
    match piece {
        Some(Piece::Place(place)) => {
            discard(piece);
            Some(place)
        }
        other => {
            discard(other);
            None
        }
    }
}

/// An expression that may be left out, which this piece is.
pub(crate) fn maybe(piece: Option<Piece>) -> Option<Option<Operand>>
    ensures { maybe_view result ≡ maybe_of piece }
{
    match piece {
        Some(Piece::Missing) => Some(None),
        Some(Piece::Expression(operand)) => Some(Some(operand)),
        other => {
            discard(other);
            None
        }
    }
}

/// The same, which is next.
pub(crate) fn take_maybe(pieces: &mut Pieces) -> Option<Option<Operand>>
    ensures { maybe_taken result (plain_pieces pieces.new) ≡ first_maybe (plain_pieces pieces.old) }
{
    match pieces.next() {
        Some(Piece::Missing) => Some(None),
        Some(Piece::Expression(operand)) => Some(Some(operand)),
        other => {
            discard(other);
            None
        }
    }
}

/// Whether no piece is left.
pub(crate) fn is_over(mut pieces: Pieces) -> bool
    ensures { result ≡ none_left (plain_pieces pieces) }
{
    match pieces.next() {
        None => true,
        other => {
            discard(other);
            false
        }
    }
}

/// One expression.
#[tactic(auto, using(crate::proofs::ShapeLaws::one_first))]
pub(crate) fn one_expression(mut pieces: Pieces) -> Option<Operand>
    ensures { operand_if result ≡ one_expr (plain_pieces pieces) }
{
    match take_expression(&mut pieces) {
        None => None,
        Some(operand) => { if is_over(pieces) { Some(operand) } else { None } }
    }
}

/// One statement.
#[tactic(auto, using(crate::proofs::ShapeLaws::one_stmt_first))]
pub(crate) fn one_statement(mut pieces: Pieces) -> Option<Body>
    ensures { stmt_if result ≡ one_stmt (plain_pieces pieces) }
{
    match take_statement(&mut pieces) {
        None => None,
        Some(body) => { if is_over(pieces) { Some(body) } else { None } }
    }
}

/// Two expressions.
#[tactic(auto, using(crate::proofs::ShapeLaws::two_first))]
pub(crate) fn two_expressions(mut pieces: Pieces) -> Option<(Operand, Operand)>
    ensures { operands result ≡ two_exprs (plain_pieces pieces) }
{
    match take_expression(&mut pieces) {
        None => None,
        Some(left) => match one_expression(pieces) {
            None => None,
            Some(right) => Some((left, right)),
        },
    }
}

/// Three expressions.
#[tactic(auto, using(crate::proofs::ShapeLaws::three_first))]
pub(crate) fn three_expressions(mut pieces: Pieces) -> Option<(Operand, Operand, Operand)>
    ensures { operands_of_three result ≡ three_exprs (plain_pieces pieces) }
{
    match take_expression(&mut pieces) {
        None => None,
        Some(first) => match two_expressions(pieces) {
            None => None,
            Some((second, third)) => Some((first, second, third)),
        },
    }
}

/// An expression and a statement.
#[tactic(auto, using(crate::proofs::ShapeLaws::both_first))]
pub(crate) fn an_expression_a_statement(mut pieces: Pieces) -> Option<(Operand, Body)>
    ensures { operand_body result ≡ expr_stmt (plain_pieces pieces) }
{
    match take_expression(&mut pieces) {
        None => None,
        Some(operand) => match one_statement(pieces) {
            None => None,
            Some(body) => Some((operand, body)),
        },
    }
}
