ghost use Rattle.std.specs.Prelude.{◌≡◌, Some};
ghost use Rattle.js_tree.specs.Plain as tree;
ghost use Rattle.js_reading.specs.Makes.{build};
ghost use Rattle.js_reading.specs.declared.form.Form.TheVariants as form;
ghost use Rattle.js_build.specs.Labels.{label_of};
ghost use Rattle.js_build.specs.View.{plain_pieces, Makes, MakesStmt};

use crate::Piece;
use crate::make::{nothing, statement};
use crate::piece::discard;
use crate::queue::Pieces;
use crate::shapes::is_over;
use items::Memory;
use js_tree::{Identifier, Loc, StmtNode};
use std::alloc::Global;

/// A label, or none.
fn label(mut pieces: Pieces) -> Option<Option<Identifier>>
    ensures { result ≡ label_of (plain_pieces pieces) }
{
    let label = match pieces.next() {
        Some(Piece::Missing) => None,
        Some(Piece::Word(name, at)) => Some(Identifier {
            loc: Some(at),
            name,
        }),
        other => {
            discard(other);
            return None;
        }
    };
    if is_over(pieces) { Some(label) } else { None }
}

/// `continue`.
#[tactic(auto, using(js_tree::proofs::Equations::stmt_continue))]
fn continue_node(
    alloc: Global,
    place: Loc,
    label: Option<Identifier>,
) -> Result<Option<Piece>, Memory>
    ensures { MakesStmt result (tree.Continue (Some place) label) }
{
    statement(alloc, place, StmtNode::Continue(label), 0)
}

/// `break`.
#[tactic(auto, using(js_tree::proofs::Equations::stmt_break))]
fn break_node(alloc: Global, place: Loc, label: Option<Identifier>) -> Result<Option<Piece>, Memory>
    ensures { MakesStmt result (tree.Break (Some place) label) }
{
    statement(alloc, place, StmtNode::Break(label), 0)
}

/// `;` alone.
#[tactic(auto, using(js_tree::proofs::Equations::stmt_empty))]
fn empty_node(alloc: Global, place: Loc) -> Result<Option<Piece>, Memory>
    ensures { MakesStmt result (tree.Empty (Some place)) }
{
    statement(alloc, place, StmtNode::Empty, 0)
}

/// `debugger`.
#[tactic(auto, using(js_tree::proofs::Equations::stmt_debugger))]
fn debugger_node(alloc: Global, place: Loc) -> Result<Option<Piece>, Memory>
    ensures { MakesStmt result (tree.Debugger (Some place)) }
{
    statement(alloc, place, StmtNode::Debugger, 0)
}

/// `continue` (14.8).
#[tactic(auto, using(crate::proofs::JumpForms::continue_form))]
pub(crate) fn continue_statement(
    alloc: Global,
    place: Loc,
    pieces: Pieces,
) -> Result<Option<Piece>, Memory>
    ensures { Makes result (build form.Continue place (plain_pieces pieces)) }
{
    match label(pieces) {
        None => nothing(),
        Some(label) => continue_node(alloc, place, label),
    }
}

/// `break` (14.9).
#[tactic(auto, using(crate::proofs::JumpForms::break_form))]
pub(crate) fn break_statement(
    alloc: Global,
    place: Loc,
    pieces: Pieces,
) -> Result<Option<Piece>, Memory>
    ensures { Makes result (build form.Break place (plain_pieces pieces)) }
{
    match label(pieces) {
        None => nothing(),
        Some(label) => break_node(alloc, place, label),
    }
}

/// `;` alone (14.4).
#[tactic(auto, using(crate::proofs::JumpForms::empty_form))]
pub(crate) fn empty(alloc: Global, place: Loc, pieces: Pieces) -> Result<Option<Piece>, Memory>
    ensures { Makes result (build form.Empty place (plain_pieces pieces)) }
{
    if is_over(pieces) {
        empty_node(alloc, place)
    } else {
        nothing()
    }
}

/// `debugger` (14.16).
#[tactic(auto, using(crate::proofs::JumpForms::debugger_form))]
pub(crate) fn debugger(alloc: Global, place: Loc, pieces: Pieces) -> Result<Option<Piece>, Memory>
    ensures { Makes result (build form.Debugger place (plain_pieces pieces)) }
{
    if is_over(pieces) {
        debugger_node(alloc, place)
    } else {
        nothing()
    }
}
