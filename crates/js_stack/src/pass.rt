ghost use Rattle.std.specs.Prelude.{◌≡◌, ◌+◌, ◌++◌, ◌∷◌, IfOk, length};
ghost use Rattle.js_lexer.specs.Token.{plain_token};
ghost use Rattle.js_reading.specs.Makes as makes;
ghost use Rattle.js_reading.specs.Turns as turns;
ghost use Rattle.js_grammar.specs.View.{plain_branch, plain_marker, plain_markers, plain_slot, plain_slots, plain_wanted};
ghost use Rattle.js_grammar.specs.declared.slot.Slot.TheVariants as slot;
ghost use Rattle.js_build.specs.View.{plain_piece, plain_pieces};
ghost use Rattle.js_stack.specs.Pass.{Passes, chosen};
ghost use Rattle.js_stack.specs.View.{frames, Gives, Turns, passed, made};

use crate::Refusal;
use crate::parts::Parts;
use crate::place::through;
use crate::production::{Frame, Passed, Place, Production, Turn, discard_piece};
use crate::stack::Stack;
use crate::start::{begin, least};
use crate::take::take;
use items::Memory;
use js_build::{Piece, Statements, build};
use js_grammar::{Branch, Marker, Slot, Wanted, branch, closes};
use js_lexer::Token;
use js_reading::{Choice, Form};
use js_tree::Loc;
use std::alloc::Global;

/// What a branch leaves.
fn piece_of(marker: Marker) -> Piece
    ensures { plain_piece result ≡ plain_marker marker }
{
    match marker {
        Marker::Missing => Piece::Missing,
        Marker::Computed => Piece::Computed,
        Marker::Method => Piece::Method,
        Marker::In => Piece::In,
        Marker::Of => Piece::Of,
        Marker::Kind(kind) => Piece::Kind(kind),
    }
}

/// Puts what a branch leaves after the parts that are read.
#[tactic(auto, using(crate::proofs::PartsLemmas::pieces_push))]
fn mark(parts: Parts, marker: Option<Marker>) -> Result<Parts, Memory>
    ensures { IfOk result (λ more. plain_pieces more ≡ plain_pieces parts ++ plain_markers marker) }
{
    let mut parts = parts;
    match marker {
        None => Ok(parts),
        Some(marker) => {
            parts.push(piece_of(marker))?;
            Ok(parts)
        }
    }
}

/// A production that is there, at the token that follows it.
#[tactic(auto, using(crate::proofs::Passing::made_none, crate::proofs::Passing::made_other))]
fn ended(
    alloc: Global,
    stack: &Stack,
    form: Form,
    parts: Parts,
    place: Loc,
    token: Token<'_>,
) -> Result<Turn, Refusal>
    ensures { Turns result (frames stack.now) (made (makes.build form place (plain_pieces parts)) place (frames stack.now) (plain_token token.entry)) (plain_token token.entry) (length (frames stack.now) + 2) }
{
    match build(alloc, form, place, parts.into_vec())? {
        Some(Piece::Expression(operand)) => Ok(Turn::Expression(operand, place)),
        Some(Piece::Statement(body)) => Ok(Turn::Statement(body, place)),
        other => {
            discard_piece(other);
            Err(Refusal::Syntax)
        }
    }
}

/// A place is kept.
#[tactic(auto, using(crate::proofs::PartsLemmas::pieces_push))]
fn pass_place(
    stack: &Stack,
    production: Production,
    last: Loc,
    token: Token<'_>,
) -> Result<Passed, Refusal>
    ensures { Passes result (frames stack.now) (frames stack.now) (passed production.form production.start (plain_slot slot.Place ∷ plain_slots production.left) (plain_pieces production.parts) last (frames stack.now) (plain_token token.entry)) last (plain_token token.entry) (length production.left) }
{
    let mut production = production;
    production.parts.push(Piece::Place(last))?;
    Ok(Passed::On(production))
}

/// A token where statements may begin.
#[tactic(auto, using(crate::proofs::PartsLemmas::pieces_push))]
fn pass_statements(
    alloc: Global,
    stack: &mut Stack,
    production: Production,
    last: Loc,
    token: Token<'_>,
) -> Result<Passed, Refusal>
    ensures { Passes result (frames stack.old) (frames stack.new) (passed production.form production.start (plain_slot slot.Stmts ∷ plain_slots production.left) (plain_pieces production.parts) last (frames stack.old) (plain_token token.entry)) last (plain_token token.entry) (length production.left) }
{
    let none = Statements::new(alloc);
    if closes(token) {
        let mut production = production;
        production.parts.push(Piece::Statements(none))?;
        Ok(Passed::On(production))
    } else {
        let frame = Frame::InStatements(production, none);
        Ok(Passed::To(begin(alloc, stack, frame, token)?))
    }
}

/// A slot that was chosen, and those after it.
#[tactic(auto, using(crate::proofs::LeftLemmas::slots_append))]
fn go(
    alloc: Global,
    stack: &mut Stack,
    production: Production,
    marker: Option<Marker>,
    next: Slot,
    row: &'static [Slot],
    token: Token<'_>,
) -> Result<Place, Refusal>
    ensures { Gives result (frames stack.new) (turns.take production.form production.start (plain_slot next) (plain_slots row.now ++ plain_slots production.left) (plain_pieces production.parts ++ plain_markers marker) (frames stack.old) (plain_token token.entry)) }
{
    let Production {
        form,
        start,
        left,
        parts,
    } = production;
    let parts = mark(parts, marker)?;
    let mut left = left;
    left.put(row)?;
    let production = Production {
        form,
        start,
        left,
        parts,
    };
    take(alloc, stack, production, next, token)
}

/// Whether what is chosen may stand in a place: an arrow's body stands only where an arrow may.
fn leads(place: Wanted, choice: Choice) -> bool
    ensures { result ≡ turns.leads (plain_wanted place) choice }
{
    match choice {
        Choice::Arrow => least(place) <= 2,
        _ => true,
    }
}

/// What was chosen by the next token.
fn pass_branch(
    alloc: Global,
    stack: &mut Stack,
    production: Production,
    choice: Choice,
    by: Branch,
    last: Loc,
    token: Token<'_>,
) -> Result<Passed, Refusal>
    ensures { Passes result (frames stack.old) (frames stack.new) (chosen (plain_branch by) choice production.form production.start (plain_slots production.left) (plain_pieces production.parts) last (frames stack.old) (plain_token token.entry)) last (plain_token token.entry) (length production.left) }
{
    match by {
        Branch::Refuse => Err(Refusal::Syntax),
        Branch::Pass(marker) => {
            let Production {
                form,
                start,
                left,
                parts,
            } = production;
            let parts = mark(parts, marker)?;
            Ok(Passed::On(Production {
                form,
                start,
                left,
                parts,
            }))
        }
        Branch::Go(marker, next, row) => {
            if leads(stack.place(), choice) {
                Ok(Passed::To(go(alloc, stack, production, marker, next, row, token)?))
            } else {
                Err(Refusal::Syntax)
            }
        }
    }
}

/// A token where it chooses what is next.
fn pass_choice(
    alloc: Global,
    stack: &mut Stack,
    production: Production,
    choice: Choice,
    last: Loc,
    token: Token<'_>,
) -> Result<Passed, Refusal>
    ensures { Passes result (frames stack.old) (frames stack.new) (passed production.form production.start (plain_slot (slot.By choice) ∷ plain_slots production.left) (plain_pieces production.parts) last (frames stack.old) (plain_token token.entry)) last (plain_token token.entry) (length production.left) }
{
    let by = branch(choice, token);
    pass_branch(alloc, stack, production, choice, by, last, token)
}

/// A token where this slot is next.
fn pass_slot(
    alloc: Global,
    stack: &mut Stack,
    production: Production,
    next: Slot,
    last: Loc,
    token: Token<'_>,
) -> Result<Passed, Refusal>
    ensures { Passes result (frames stack.old) (frames stack.new) (passed production.form production.start (plain_slot next ∷ plain_slots production.left) (plain_pieces production.parts) last (frames stack.old) (plain_token token.entry)) last (plain_token token.entry) (length production.left) }
{
    match next {
        Slot::Place => pass_place(stack, production, last, token),
        Slot::Stmts => pass_statements(alloc, stack, production, last, token),
        Slot::By(choice) => pass_choice(alloc, stack, production, choice, last, token),
        Slot::Sign(_) | Slot::Text(_) | Slot::Expr(_) | Slot::Stmt | Slot::Items(_) => {
            Ok(Passed::To(take(alloc, stack, production, next, token)?))
        }
    }
}

/// A token where slots of a production are left.
pub(crate) fn pass(
    alloc: Global,
    stack: &mut Stack,
    production: Production,
    last: Loc,
    token: Token<'_>,
) -> Result<Turn, Refusal>
    ensures { Turns result (frames stack.new) (passed production.form production.start (plain_slots production.left) (plain_pieces production.parts) last (frames stack.old) (plain_token token.entry)) (plain_token token.entry) (length (frames stack.old) + 2) }
{
    let mut production = production;
    while let Some(next) = production.left.next() {
        match pass_slot(alloc, stack, production, next, last, token)? {
            Passed::On(further) => production = further,
            Passed::To(place) => return Ok(Turn::To(place)),
        }
    }
    let place = through(production.start, last);
    ended(
        alloc,
        stack,
        production.form,
        production.parts,
        place,
        token,
    )
}
