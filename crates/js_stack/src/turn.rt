ghost use Rattle.js_lexer.specs.Token.{plain_token};
ghost use Rattle.js_reading.specs.Turns as turns;
ghost use Rattle.js_stack.specs.View.{config, frames, Gives};

use crate::Refusal;
use crate::have::settle;
use crate::leave::{finished, is_end};
use crate::pass::pass;
use crate::production::{Frame, Place, Turn, discard_frame, discard_place};
use crate::stack::Stack;
use crate::start::{begin, want};
use js_build::{Piece, Statements};
use js_grammar::is_mark;
use js_lexer::Token;
use std::alloc::Global;

/// A token where an item or the end of its list is due.
#[tactic(auto, using(crate::proofs::PartsLemmas::pieces_push))]
fn item(alloc: Global, stack: &mut Stack, token: Token<'_>) -> Result<Place, Refusal>
    ensures { Gives result (frames stack.new) (turns.item (frames stack.old) (plain_token token.entry)) }
{
    match stack.pop() {
        Some(Frame::InItems(production, mark, items)) => {
            if is_mark(mark, token.kind) {
                let mut production = production;
                production.parts.push(Piece::Expressions(true, items))?;
                Ok(Place::Due(production, token.loc))
            } else {
                want(alloc, stack, Frame::InItems(production, mark, items), token)
            }
        }
        other => {
            discard_frame(other);
            Err(Refusal::Syntax)
        }
    }
}

/// The first token of a file.
fn begin_file(alloc: Global, stack: &mut Stack, token: Token<'_>) -> Result<Place, Refusal>
    ensures { Gives result (frames stack.new) (turns.begin_file (plain_token token.entry)) }
{
    let none = Statements::new(alloc);
    if is_end(token.kind) {
        return finished(alloc, stack, none);
    }
    *stack = Stack::new(alloc);
    begin(alloc, stack, Frame::InFile(none), token)
}

/// Takes a token: where the machine goes from here, or why it goes nowhere.
pub(crate) fn turn(
    alloc: Global,
    stack: &mut Stack,
    place: Place,
    token: Token<'_>,
) -> Result<Place, Refusal>
    ensures { Gives result (frames stack.new) (turns.turn (config place (frames stack.old)) (plain_token token.entry)) }
{
    match place {
        Place::Due(production, last) => {
            let turn = pass(alloc, stack, production, last, token)?;
            settle(alloc, stack, turn, token)
        }
        Place::Expression(operand, last) => {
            settle(alloc, stack, Turn::Expression(operand, last), token)
        }
        Place::Statement(body, last) => settle(alloc, stack, Turn::Statement(body, last), token),
        Place::Item => {
            discard_place(place);
            item(alloc, stack, token)
        }
        Place::Start => {
            discard_place(place);
            begin_file(alloc, stack, token)
        }
        Place::Finished(_) => {
            discard_place(place);
            Err(Refusal::Syntax)
        }
    }
}
