ghost use Rattle.js_lexer.specs.Token.{plain_token};
ghost use Rattle.js_reading.specs.Turns as turns;
ghost use Rattle.js_grammar.specs.View.{plain_slot, plain_slots};
ghost use Rattle.js_grammar.specs.declared.slot.Slot.TheVariants as slot;
ghost use Rattle.js_build.specs.View.{plain_pieces};
ghost use Rattle.js_stack.specs.View.{frames, Gives};

use crate::Refusal;
use crate::production::{Frame, Place, Production};
use crate::stack::Stack;
use crate::start::{begin, want};
use js_build::{List, Piece, piece_of};
use js_grammar::{Sign, Slot, is_mark, is_sign};
use js_lexer::Token;
use js_reading::Class;
use js_text::Punctuator;
use std::alloc::Global;

/// A token where this one is next.
fn take_sign(
    stack: &Stack,
    production: Production,
    sign: Sign,
    token: Token<'_>,
) -> Result<Place, Refusal>
    ensures { Gives result (frames stack.now) (turns.take production.form production.start (plain_slot (slot.Sign sign)) (plain_slots production.left) (plain_pieces production.parts) (frames stack.now) (plain_token token.entry)) }
{
    if is_sign(sign, token.kind) {
        Ok(Place::Due(production, token.loc))
    } else {
        Err(Refusal::Syntax)
    }
}

/// A token where one of a class is next.
#[tactic(auto, using(crate::proofs::PartsLemmas::pieces_push))]
fn take_text(
    alloc: Global,
    stack: &Stack,
    production: Production,
    class: Class,
    token: Token<'_>,
) -> Result<Place, Refusal>
    ensures { Gives result (frames stack.now) (turns.take production.form production.start (plain_slot (slot.Text class)) (plain_slots production.left) (plain_pieces production.parts) (frames stack.now) (plain_token token.entry)) }
{
    let mut production = production;
    match piece_of(alloc, class, token.kind, token.loc)? {
        None => Err(Refusal::Syntax),
        Some(text) => {
            production.parts.push(text)?;
            Ok(Place::Due(production, token.loc))
        }
    }
}

/// A token where items are next, up to a punctuator.
#[tactic(auto, using(crate::proofs::PartsLemmas::pieces_push))]
fn take_items(
    alloc: Global,
    stack: &mut Stack,
    production: Production,
    mark: Punctuator,
    token: Token<'_>,
) -> Result<Place, Refusal>
    ensures { Gives result (frames stack.new) (turns.take production.form production.start (plain_slot (slot.Items mark)) (plain_slots production.left) (plain_pieces production.parts) (frames stack.old) (plain_token token.entry)) }
{
    let items = List::new(alloc);
    if is_mark(mark, token.kind) {
        let mut production = production;
        production.parts.push(Piece::Expressions(true, items))?;
        Ok(Place::Due(production, token.loc))
    } else {
        want(alloc, stack, Frame::InItems(production, mark, items), token)
    }
}

/// A slot that a token begins.
pub(crate) fn take(
    alloc: Global,
    stack: &mut Stack,
    production: Production,
    next: Slot,
    token: Token<'_>,
) -> Result<Place, Refusal>
    ensures { Gives result (frames stack.new) (turns.take production.form production.start (plain_slot next) (plain_slots production.left) (plain_pieces production.parts) (frames stack.old) (plain_token token.entry)) }
{
    match next {
        Slot::Sign(sign) => take_sign(stack, production, sign, token),
        Slot::Text(class) => take_text(alloc, stack, production, class, token),
        Slot::Expr(wanted) => want(alloc, stack, Frame::InExpression(production, wanted), token),
        Slot::Stmt => begin(alloc, stack, Frame::InStatement(production), token),
        Slot::Items(mark) => take_items(alloc, stack, production, mark, token),
        Slot::Stmts | Slot::Place | Slot::By(_) => Err(Refusal::Syntax),
    }
}
