ghost use Rattle.std.specs.Prelude.{◌≡◌, ◌+◌, ◌∷◌, [], IfOk, length};
ghost use Rattle.js_tree.specs.Tree.{plain_expr, plain_exprs, plain_stmts};
ghost use Rattle.js_lexer.specs.Token.{kind_of, plain_token};
ghost use Rattle.js_text.specs.Token.{End};
ghost use Rattle.js_reading.specs.Kinds.{is_kind};
ghost use Rattle.js_reading.specs.Sentences as sentences;
ghost use Rattle.js_reading.specs.Slots.{AnExpr};
ghost use Rattle.js_reading.specs.Turns as turns;
ghost use Rattle.js_grammar.specs.View.{plain_slots, plain_wanted};
ghost use Rattle.js_build.specs.View.{plain_pieces};
ghost use Rattle.js_stack.specs.Leave.{leaves, left_by};
ghost use Rattle.js_stack.specs.View.{plain_frame, frames, Gives, Turns};
ghost use Rattle.js_stack.specs.declared.production.Frame.TheVariants as frame;

use crate::Refusal;
use crate::left::Left;
use crate::outside::this_outside;
use crate::parts::Parts;
use crate::pass::pass;
use crate::production::{Frame, Place, Production, Turn, discard_frame};
use crate::stack::Stack;
use crate::start::begin;
use items::Memory;
use js_build::{Body, List, Operand, Piece, Statements, is_declaration};
use js_grammar::{Slot, Wanted, closes, fits, is_mark};
use js_lexer::{Token, TokenKind};
use js_reading::{Choice, Form};
use js_text::Punctuator;
use js_tree::{Expr, ExprNode, Loc, Stmt};
use std::alloc::Global;

/// Whether a place takes an expression.
pub(crate) fn takes(wanted: Wanted, operand: &Operand) -> bool
    ensures { result ≡ sentences.fits (plain_wanted wanted) operand.now.level (plain_expr operand.now.tree) }
{
    fits(wanted, operand.level, operand.bare_in)
}

/// Whether an expression is a name without parentheses, which may be a label (14.13).
#[tactic(auto, using(js_tree::proofs::Equations::tree_rules))]
fn is_name(expression: &Expr) -> bool
    ensures { result ≡ turns.is_name (plain_expr expression.now) }
{
    match expression.node {
        ExprNode::IdentifierReference(_) => true,
        _ => false,
    }
}

/// Whether a token is the end of the text.
pub(crate) fn is_end(kind: TokenKind<'_>) -> bool
    ensures { result ≡ is_kind End (kind_of kind.entry) }
{
    match kind {
        TokenKind::End => true,
        _ => false,
    }
}

/// An expression in a production.
#[tactic(auto, using(crate::proofs::PartsLemmas::pieces_push))]
fn leave_production(
    alloc: Global,
    stack: &mut Stack,
    production: Production,
    wanted: Wanted,
    operand: Operand,
    last: Loc,
    token: Token<'_>,
) -> Result<Turn, Refusal>
    ensures { Turns result (frames stack.new) (leaves (plain_frame (frame.InExpression production wanted)) operand last (frames stack.old) (plain_token token.entry)) (plain_token token.entry) (length (frames stack.old) + 2) }
{
    if !takes(wanted, &operand) {
        return Err(Refusal::Syntax);
    }
    let mut production = production;
    production.parts.push(Piece::Expression(operand))?;
    pass(alloc, stack, production, last, token)
}

/// A production whose first part is this expression, with one slot left.
#[tactic(auto, using(crate::proofs::PartsLemmas::pieces_push))]
fn with_first(
    alloc: Global,
    form: Form,
    start: Loc,
    operand: Operand,
    next: Slot,
) -> Result<Production, Memory>
    ensures form { IfOk result (λ production. production.form ≡ form) }
    ensures start { IfOk result (λ production. production.start ≡ start) }
    ensures slots { IfOk result (λ production. production.left ≡ next ∷ []) }
    ensures parts { IfOk result (λ production. plain_pieces production.parts ≡ AnExpr operand.level (plain_expr operand.tree) ∷ []) }
{
    let mut left = Left::new(alloc);
    left.push(next)?;
    let mut parts = Parts::new(alloc);
    parts.push(Piece::Expression(operand))?;
    Ok(Production {
        form,
        start,
        left,
        parts,
    })
}

/// An expression of a statement that starts here: a label before `:`, else the statement itself.
fn leave_line(
    alloc: Global,
    stack: &mut Stack,
    start: Loc,
    operand: Operand,
    last: Loc,
    token: Token<'_>,
) -> Result<Turn, Refusal>
    ensures { Turns result (frames stack.new) (leaves (plain_frame (frame.InLine start)) operand last (frames stack.old) (plain_token token.entry)) (plain_token token.entry) (length (frames stack.old) + 2) }
{
    if is_mark(Punctuator::Colon, token.kind)
        && is_name(operand.tree.get())
        && 22 <= operand.level
    {
        let production = with_first(alloc, Form::Labelled, start, operand, Slot::Stmt)?;
        Ok(Turn::To(Place::Due(production, token.loc)))
    } else {
        let production = with_first(
            alloc,
            Form::Expression,
            start,
            operand,
            Slot::By(Choice::Semicolon),
        )?;
        pass(alloc, stack, production, last, token)
    }
}

/// A token after an item.
#[tactic(auto, using(crate::proofs::PartsLemmas::pieces_push))]
fn listed(
    stack: &mut Stack,
    production: Production,
    mark: Punctuator,
    items: List,
    token: Token<'_>,
) -> Result<Place, Refusal>
    ensures { Gives result (frames stack.new) (turns.listed production.form production.start mark (plain_slots production.left) (plain_pieces production.parts) (plain_exprs items.items) (frames stack.old) (plain_token token.entry)) }
{
    if is_mark(Punctuator::Comma, token.kind) {
        stack.push(Frame::InItems(production, mark, items))?;
        Ok(Place::Item)
    } else if is_mark(mark, token.kind) {
        let mut production = production;
        production.parts.push(Piece::Expressions(false, items))?;
        Ok(Place::Due(production, token.loc))
    } else {
        Err(Refusal::Syntax)
    }
}

/// An expression in a list of items.
fn leave_items(
    stack: &mut Stack,
    production: Production,
    mark: Punctuator,
    items: List,
    operand: Operand,
    last: Loc,
    token: Token<'_>,
) -> Result<Turn, Refusal>
    ensures { Turns result (frames stack.new) (leaves (plain_frame (frame.InItems production mark items)) operand last (frames stack.old) (plain_token token.entry)) (plain_token token.entry) (length (frames stack.old) + 2) }
{
    if operand.level < 2 {
        return Err(Refusal::Syntax);
    }
    let items = items.with(operand)?;
    Ok(Turn::To(listed(stack, production, mark, items, token)?))
}

/// An expression in a frame with which the token does not go on.
pub(crate) fn leave(
    alloc: Global,
    stack: &mut Stack,
    frame: Frame,
    operand: Operand,
    last: Loc,
    token: Token<'_>,
) -> Result<Turn, Refusal>
    ensures { Turns result (frames stack.new) (leaves (plain_frame frame) operand last (frames stack.old) (plain_token token.entry)) (plain_token token.entry) (length (frames stack.old) + 2) }
{
    match frame {
        Frame::InExpression(production, wanted) => {
            leave_production(alloc, stack, production, wanted, operand, last, token)
        }
        Frame::InLine(start) => leave_line(alloc, stack, start, operand, last, token),
        Frame::InItems(production, mark, items) => {
            leave_items(stack, production, mark, items, operand, last, token)
        }
        other => {
            discard_frame(Some(other));
            Err(Refusal::Syntax)
        }
    }
}

/// The end of a file.
pub(crate) fn finished(
    alloc: Global,
    stack: &Stack,
    statements: Statements,
) -> Result<Place, Refusal>
    ensures { Gives result (frames stack.now) (turns.finished (plain_stmts statements.items)) }
{
    if this_outside(alloc, statements.items.as_slice())? {
        Err(Refusal::Syntax)
    } else {
        Ok(Place::Finished(statements))
    }
}

/// A statement in a production.
#[tactic(auto, using(crate::proofs::PartsLemmas::pieces_push))]
fn left_production(
    alloc: Global,
    stack: &mut Stack,
    production: Production,
    body: Body,
    last: Loc,
    token: Token<'_>,
) -> Result<Turn, Refusal>
    ensures { Turns result (frames stack.new) (left_by (plain_frame (frame.InStatement production)) body last (frames stack.old) (plain_token token.entry)) (plain_token token.entry) (length (frames stack.old) + 2) }
{
    if is_declaration(body.tree.get()) {
        return Err(Refusal::Syntax);
    }
    let mut production = production;
    production.parts.push(Piece::Statement(body))?;
    pass(alloc, stack, production, last, token)
}

/// A statement in a list of them.
#[tactic(auto, using(crate::proofs::PartsLemmas::pieces_push))]
fn left_statements(
    alloc: Global,
    stack: &mut Stack,
    production: Production,
    statements: Statements,
    body: Body,
    last: Loc,
    token: Token<'_>,
) -> Result<Turn, Refusal>
    ensures { Turns result (frames stack.new) (left_by (plain_frame (frame.InStatements production statements)) body last (frames stack.old) (plain_token token.entry)) (plain_token token.entry) (length (frames stack.old) + 2) }
{
    let statements = statements.with(body)?;
    if closes(token) {
        let mut production = production;
        production.parts.push(Piece::Statements(statements))?;
        pass(alloc, stack, production, last, token)
    } else {
        let frame = Frame::InStatements(production, statements);
        Ok(Turn::To(begin(alloc, stack, frame, token)?))
    }
}

/// A statement in the file.
fn left_file(
    alloc: Global,
    stack: &mut Stack,
    statements: Statements,
    body: Body,
    last: Loc,
    token: Token<'_>,
) -> Result<Turn, Refusal>
    ensures { Turns result (frames stack.new) (left_by (plain_frame (frame.InFile statements)) body last (frames stack.old) (plain_token token.entry)) (plain_token token.entry) (length (frames stack.old) + 2) }
{
    let statements = statements.with(body)?;
    if is_end(token.kind) {
        Ok(Turn::To(finished(alloc, stack, statements)?))
    } else {
        Ok(Turn::To(begin(alloc, stack, Frame::InFile(statements), token)?))
    }
}

/// A statement in a frame.
pub(crate) fn left(
    alloc: Global,
    stack: &mut Stack,
    frame: Frame,
    body: Body,
    last: Loc,
    token: Token<'_>,
) -> Result<Turn, Refusal>
    ensures { Turns result (frames stack.new) (left_by (plain_frame frame) body last (frames stack.old) (plain_token token.entry)) (plain_token token.entry) (length (frames stack.old) + 2) }
{
    match frame {
        Frame::InStatement(production) => left_production(
            alloc, stack, production, body, last, token,
        ),
        Frame::InStatements(production, statements) => {
            left_statements(alloc, stack, production, statements, body, last, token)
        }
        Frame::InFile(statements) => left_file(alloc, stack, statements, body, last, token),
        other => {
            discard_frame(Some(other));
            Err(Refusal::Syntax)
        }
    }
}
