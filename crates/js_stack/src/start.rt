ghost use Rattle.std.specs.Prelude.{◌≡◌, ◌∷◌, [], IfOk, true};
ghost use Rattle.js_lexer.specs.Token.{kind_of, plain_token};
ghost use Rattle.js_reading.specs.Productions.{slots};
ghost use Rattle.js_reading.specs.Sentences as sentences;
ghost use Rattle.js_reading.specs.Turns as turns;
ghost use Rattle.js_grammar.specs.View.{plain_slots, plain_wanted, after_told};
ghost use Rattle.js_stack.specs.Told as told;
ghost use Rattle.js_stack.specs.View.{plain_frame, frames, Gives};

use crate::Refusal;
use crate::left::Left;
use crate::parts::Parts;
use crate::production::{Frame, Place, Production, discard_frame};
use crate::stack::Stack;
use items::Memory;
use js_build::{leaf, piece_of};
use js_grammar::{Wanted, prefix, rest, statement};
use js_lexer::Token;
use js_reading::{Class, Form};
use js_tree::{Loc, VariableKind};
use std::alloc::Global;

/// Whether a production is a template, the only one that begins with a token whose spelling is kept.
fn is_template(form: Form) -> bool
    ensures { result ≡ told.is_template form }
{
    match form {
        Form::Template => true,
        _ => false,
    }
}

/// A production after the token that tells it.
fn opened(alloc: Global, form: Form, start: Loc) -> Result<Production, Memory>
    ensures form { IfOk result (λ production. production.form ≡ form) }
    ensures start { IfOk result (λ production. production.start ≡ start) }
    ensures slots { IfOk result (λ production. plain_slots production.left ≡ after_told (slots form)) }
    ensures parts { IfOk result (λ production. production.parts ≡ []) }
{
    let mut left = Left::new(alloc);
    left.put(rest(form))?;
    Ok(Production {
        form,
        start,
        left,
        parts: Parts::new(alloc),
    })
}

/// The first token of a production: it is told by it.
#[tactic(auto, using(crate::proofs::Told::begins_sign, crate::proofs::Told::begins_template, crate::proofs::PartsLemmas::pieces_push))]
fn begin_form(alloc: Global, stack: &Stack, form: Form, token: Token<'_>) -> Result<Place, Refusal>
    requires { told.is_headed form ≡ true }
    ensures { Gives result (frames stack.now) (turns.begin_form form (plain_token token.entry) (slots form) (frames stack.now)) }
{
    let mut production = opened(alloc, form, token.loc)?;
    if is_template(form) {
        match piece_of(alloc, Class::FirstText, token.kind, token.loc)? {
            None => return Err(Refusal::Syntax),
            Some(first) => production.parts.push(first)?,
        }
    }
    Ok(Place::Due(production, token.loc))
}

/// The least level that a place asks of an expression.
pub(crate) fn least(wanted: Wanted) -> u8
    ensures { result ≡ sentences.least (plain_wanted wanted) }
{
    match wanted {
        Wanted::Level(level) | Wanted::WithoutIn(level) => level,
        Wanted::Callee => 19,
    }
}

/// The highest level that a production makes that a token begins: parentheses may turn out to be an arrow's parameters.
fn begun_level(form: Form) -> u8
    ensures { result ≡ turns.begun_level form }
{
    match form {
        Form::Parentheses | Form::New => 21,
        Form::PrefixUpdate(_) => 17,
        Form::Unary(_) => 16,
        _ => 22,
    }
}

/// Whether a production is a declaration, which stands in a list of statements only (ECMA-262, 14).
fn declares(form: Form) -> bool
    ensures { result ≡ turns.declares form }
{
    match form {
        Form::FunctionDeclaration => true,
        Form::Variables(kind) => match kind {
            VariableKind::Var => false,
            VariableKind::Let | VariableKind::Const => true,
        },
        _ => false,
    }
}

/// Whether a declaration may stand in a frame.
fn lists(frame: &Frame) -> bool
    ensures { result ≡ told.lists (plain_frame frame.now) }
{
    match frame {
        Frame::InExpression(_, _) | Frame::InStatement(_) => false,
        _ => true,
    }
}

/// A token that tells this expression, or that is one itself.
fn want_by(
    alloc: Global,
    stack: &Stack,
    by: Option<Form>,
    token: Token<'_>,
) -> Result<Place, Refusal>
    requires { told.headed_if by ≡ true }
    ensures { Gives result (frames stack.now) (turns.want_by by (plain_token token.entry) (frames stack.now)) }
{
    match by {
        Some(form) => {
            if least(stack.place()) <= begun_level(form) {
                begin_form(alloc, stack, form, token)
            } else {
                Err(Refusal::Syntax)
            }
        }
        None => begin_leaf(alloc, stack, token),
    }
}

/// A token that is an expression itself (13.1, 13.2).
fn begin_leaf(alloc: Global, stack: &Stack, token: Token<'_>) -> Result<Place, Refusal>
    ensures { Gives result (frames stack.now) (turns.begin_leaf (plain_token token.entry) (frames stack.now) (sentences.leaf_of (kind_of token.entry.kind) token.entry.loc)) }
{
    match leaf(alloc, token.kind, token.loc)? {
        Some(operand) => Ok(Place::Expression(operand, token.loc)),
        None => Err(Refusal::Syntax),
    }
}

/// A token where an expression is due, in a frame.
#[tactic(auto, using(crate::proofs::Told::prefix_told))]
pub(crate) fn want(
    alloc: Global,
    stack: &mut Stack,
    frame: Frame,
    token: Token<'_>,
) -> Result<Place, Refusal>
    ensures { Gives result (frames stack.new) (turns.want (plain_token token.entry) (plain_frame frame ∷ frames stack.old)) }
{
    stack.push(frame)?;
    let by = prefix(token);
    want_by(alloc, stack, by, token)
}

/// A token that tells this statement, or that begins an expression statement.
#[tactic(auto, using(crate::proofs::Told::lists_is))]
fn begin_by(
    alloc: Global,
    stack: &mut Stack,
    frame: Frame,
    by: Option<Form>,
    token: Token<'_>,
) -> Result<Place, Refusal>
    requires { told.headed_if by ≡ true }
    ensures { Gives result (frames stack.new) (turns.begin_by by (plain_token token.entry) (plain_frame frame ∷ frames stack.old)) }
{
    match by {
        Some(form) => {
            if declares(form) && !lists(&frame) {
                discard_frame(Some(frame));
                return Err(Refusal::Syntax);
            }
            stack.push(frame)?;
            begin_form(alloc, stack, form, token)
        }
        None => {
            stack.push(frame)?;
            want(alloc, stack, Frame::InLine(token.loc), token)
        }
    }
}

/// A token where a statement is due, in a frame.
#[tactic(auto, using(crate::proofs::Told::statement_told))]
pub(crate) fn begin(
    alloc: Global,
    stack: &mut Stack,
    frame: Frame,
    token: Token<'_>,
) -> Result<Place, Refusal>
    ensures { Gives result (frames stack.new) (turns.begin (plain_token token.entry) (plain_frame frame ∷ frames stack.old)) }
{
    let by = statement(token);
    begin_by(alloc, stack, frame, by, token)
}
