ghost use Rattle.std.specs.Prelude.{◌≡◌, ◌+◌, length, Some, true};
ghost use Rattle.js_tree.specs.Tree.{plain_expr, plain_stmt};
ghost use Rattle.js_lexer.specs.Token.{plain_token};
ghost use Rattle.js_reading.specs.Productions.{after_first, slots};
ghost use Rattle.js_reading.specs.Sentences as sentences;
ghost use Rattle.js_reading.specs.Slots.{AnExpr, AStmt};
ghost use Rattle.js_reading.specs.Turns as turns;
ghost use Rattle.js_grammar.specs.View.{plain_wanted};
ghost use Rattle.js_stack.specs.Leave.{shifted};
ghost use Rattle.js_stack.specs.Told as told;
ghost use Rattle.js_stack.specs.View.{plain_frame, frames, Gives, Turns, turned};

use crate::Refusal;
use crate::leave::{leave, left, takes};
use crate::left::Left;
use crate::parts::Parts;
use crate::production::{Frame, Place, Production, Turn, discard_frame};
use crate::stack::Stack;
use js_build::{Body, Operand, Piece};
use js_grammar::{Wanted, bans, continues, join, rest, wants};
use js_lexer::Token;
use js_reading::Form;
use js_tree::Loc;
use std::alloc::Global;

/// The place of an expression on top of the stack.
pub(crate) fn wanted(frame: &Frame) -> Wanted
    ensures { plain_wanted result ≡ turns.wanted (plain_frame frame.now) }
{
    match frame {
        Frame::InExpression(_, wanted) => *wanted,
        Frame::InItems(_, _, _) => Wanted::Level(2),
        _ => Wanted::Level(1),
    }
}

/// Whether a token goes on with an expression in a frame.
fn goes_on(frame: &Frame, operand: &Operand, token: Token<'_>) -> bool
    ensures { result ≡ sentences.continues (turns.wanted (plain_frame frame.now)) (plain_expr operand.now.tree) (plain_token token.entry) }
{
    continues(wanted(frame), operand.last_level, token)
}

/// Whether a token is an `in` that the place of an expression does not take (14.7.4).
fn banned(stack: &Stack, token: Token<'_>) -> bool
    ensures { result ≡ turns.banned (plain_token token.entry) (frames stack.now) }
{
    bans(stack.place(), token)
}

/// A production that begins with this expression, after the token that tells it.
#[tactic(auto, using(crate::proofs::Told::takes_second, crate::proofs::PartsLemmas::pieces_push))]
fn take_second(
    alloc: Global,
    stack: &Stack,
    form: Form,
    operand: Operand,
    first: Loc,
    token: Token<'_>,
) -> Result<Place, Refusal>
    requires { told.is_joined form ≡ true }
    ensures { Gives result (frames stack.now) (turns.take_second form operand.level (plain_expr operand.tree) first (frames stack.now) (plain_token token.entry) (after_first (slots form))) }
{
    let mut left = Left::new(alloc);
    left.put(rest(form))?;
    let mut parts = Parts::new(alloc);
    parts.push(Piece::Expression(operand))?;
    let production = Production {
        form,
        start: first,
        left,
        parts,
    };
    Ok(Place::Due(production, token.loc))
}

/// The same where a token tells one.
fn shift_by(
    alloc: Global,
    stack: &Stack,
    by: Option<Form>,
    operand: Operand,
    first: Loc,
    token: Token<'_>,
) -> Result<Place, Refusal>
    requires { told.joined_if by ≡ true }
    ensures { Gives result (frames stack.now) (turns.shift by operand.level (plain_expr operand.tree) first (frames stack.now) (plain_token token.entry)) }
{
    let Some(form) = by else {
        return Err(Refusal::Syntax);
    };
    if wants(Some(form)) <= operand.level && takes(stack.place(), &operand) {
        take_second(alloc, stack, form, operand, first, token)
    } else {
        Err(Refusal::Syntax)
    }
}

/// A production that begins with this expression.
#[tactic(auto, using(crate::proofs::Told::join_told))]
fn shift(
    alloc: Global,
    stack: &Stack,
    operand: Operand,
    first: Loc,
    token: Token<'_>,
) -> Result<Place, Refusal>
    ensures { Gives result (frames stack.now) (shifted operand first (frames stack.now) (plain_token token.entry)) }
{
    let by = join(token);
    shift_by(alloc, stack, by, operand, first, token)
}

/// A token after an expression.
pub(crate) fn have(
    alloc: Global,
    stack: &mut Stack,
    operand: Operand,
    last: Loc,
    token: Token<'_>,
) -> Result<Turn, Refusal>
    ensures { Turns result (frames stack.new) (turns.have (frames stack.old) (Some (AnExpr operand.level (plain_expr operand.tree))) last (plain_token token.entry)) (plain_token token.entry) (length (frames stack.old) + 1) }
{
    let is_banned = banned(stack, token);
    let Some(frame) = stack.pop() else {
        return Err(Refusal::Syntax);
    };
    if goes_on(&frame, &operand, token) {
        if is_banned {
            discard_frame(Some(frame));
            return Err(Refusal::Syntax);
        }
        stack.push(frame)?;
        Ok(Turn::To(shift(alloc, stack, operand, last, token)?))
    } else {
        leave(alloc, stack, frame, operand, last, token)
    }
}

/// A token after a statement.
pub(crate) fn after(
    alloc: Global,
    stack: &mut Stack,
    body: Body,
    last: Loc,
    token: Token<'_>,
) -> Result<Turn, Refusal>
    ensures { Turns result (frames stack.new) (turns.have (frames stack.old) (Some (AStmt (plain_stmt body.tree))) last (plain_token token.entry)) (plain_token token.entry) (length (frames stack.old) + 1) }
{
    let Some(frame) = stack.pop() else {
        return Err(Refusal::Syntax);
    };
    left(alloc, stack, frame, body, last, token)
}

/// Takes a token that has led to a part: each round takes a frame off, or is the last.
pub(crate) fn settle(
    alloc: Global,
    stack: &mut Stack,
    turn: Turn,
    token: Token<'_>,
) -> Result<Place, Refusal>
    ensures { Gives result (frames stack.new) (turned turn (frames stack.old) (plain_token token.entry)) }
{
    let mut turn = turn;
    loop {
        match turn {
            Turn::To(place) => return Ok(place),
            Turn::Expression(operand, last) => turn = have(alloc, stack, operand, last, token)?,
            Turn::Statement(body, last) => turn = after(alloc, stack, body, last, token)?,
        }
    }
}
