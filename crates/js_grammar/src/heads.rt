ghost use Rattle.std.specs.Prelude.{◌≡◌};
ghost use Rattle.js_lexer.specs.Token.{plain_token};
ghost use Rattle.js_reading.specs.Choices as spec;
ghost use Rattle.js_reading.specs.declared.choice.Choice.TheVariants as choice;
ghost use Rattle.js_grammar.specs.View.{plain_branch};

use crate::rows::{ASSIGNMENT, BOUND_NAME, CLOSE, EXPRESSION, SEMICOLON};
use crate::sign::{is_mark, is_word};
use crate::slot::{Branch, Marker, ProductionWord, Sign, Slot, Wanted};
use js_lexer::Token;
use js_reading::Choice;
use js_text::Punctuator;
use js_tree::VariableKind;

const INITIALIZER: Slot = Slot::Expr(Wanted::WithoutIn(2));

const DECLARED: Slot = Slot::By(Choice::AfterBound);

const SECOND: Slot = Slot::By(Choice::ValueBefore(Punctuator::Semicolon));

const THIRD: Slot = Slot::By(Choice::ValueBefore(Punctuator::CloseParenthesis));
/// An expression, or none before this token (ECMA-262, 14.7.4).
pub(crate) fn value_before(mark: Punctuator, token: Token<'_>) -> Branch
    ensures { plain_branch result ≡ spec.branch (choice.ValueBefore mark) (plain_token token.entry) }
{
    if is_mark(mark, token.kind) {
        Branch::Pass(Some(Marker::Missing))
    } else {
        Branch::Go(None, EXPRESSION, &[])
    }
}

/// `=` and an initializer without a bare `in`, or neither (14.7.4).
pub(crate) fn initializer(token: Token<'_>) -> Branch
    ensures { plain_branch result ≡ spec.branch choice.InitializerInHead (plain_token token.entry) }
{
    if is_mark(Punctuator::Assign, token.kind) {
        Branch::Go(
            None,
            Slot::Sign(Sign::Mark(Punctuator::Assign)),
            &[INITIALIZER, Slot::Place],
        )
    } else {
        Branch::Pass(Some(Marker::Missing))
    }
}

/// More declarators after a comma (14.7.4).
pub(crate) fn declarators(token: Token<'_>) -> Branch
    ensures { plain_branch result ≡ spec.branch choice.DeclaratorsInHead (plain_token token.entry) }
{
    if is_mark(Punctuator::Comma, token.kind) {
        Branch::Go(
            None,
            Slot::Sign(Sign::Mark(Punctuator::Comma)),
            &[
                BOUND_NAME,
                Slot::By(Choice::InitializerInHead),
                Slot::By(Choice::DeclaratorsInHead),
            ],
        )
    } else {
        Branch::Pass(None)
    }
}

/// Which `for` it is, by its first token (14.7.4, 14.7.5).
pub(crate) fn head(token: Token<'_>) -> Branch
    ensures { plain_branch result ≡ spec.branch choice.Head (plain_token token.entry) }
{
    if is_mark(Punctuator::Semicolon, token.kind) {
        Branch::Go(
            Some(Marker::Missing),
            SEMICOLON,
            &[SECOND, SEMICOLON, THIRD, CLOSE, Slot::Stmt],
        )
    } else if is_word(ProductionWord::Var, token.kind) {
        Branch::Go(
            Some(Marker::Kind(VariableKind::Var)),
            Slot::Sign(Sign::Word(ProductionWord::Var)),
            &[BOUND_NAME, DECLARED],
        )
    } else if is_word(ProductionWord::Let, token.kind) {
        Branch::Go(
            Some(Marker::Kind(VariableKind::Let)),
            Slot::Sign(Sign::Word(ProductionWord::Let)),
            &[BOUND_NAME, DECLARED],
        )
    } else if is_word(ProductionWord::Const, token.kind) {
        Branch::Go(
            Some(Marker::Kind(VariableKind::Const)),
            Slot::Sign(Sign::Word(ProductionWord::Const)),
            &[BOUND_NAME, DECLARED],
        )
    } else {
        Branch::Go(
            None,
            Slot::Expr(Wanted::WithoutIn(1)),
            &[Slot::By(Choice::AfterTarget)],
        )
    }
}

/// Which `for` it is, by what stands after the name that it declares.
pub(crate) fn after_bound(token: Token<'_>) -> Branch
    ensures { plain_branch result ≡ spec.branch choice.AfterBound (plain_token token.entry) }
{
    if is_word(ProductionWord::In, token.kind) {
        Branch::Go(
            Some(Marker::In),
            Slot::Sign(Sign::Word(ProductionWord::In)),
            &[EXPRESSION, CLOSE, Slot::Stmt],
        )
    } else if is_word(ProductionWord::Of, token.kind) {
        Branch::Go(
            Some(Marker::Of),
            Slot::Sign(Sign::Word(ProductionWord::Of)),
            &[ASSIGNMENT, CLOSE, Slot::Stmt],
        )
    } else if is_mark(Punctuator::Assign, token.kind) {
        Branch::Go(
            None,
            Slot::Sign(Sign::Mark(Punctuator::Assign)),
            &[
                INITIALIZER,
                Slot::Place,
                Slot::By(Choice::DeclaratorsInHead),
                SEMICOLON,
                SECOND,
                SEMICOLON,
                THIRD,
                CLOSE,
                Slot::Stmt,
            ],
        )
    } else if is_mark(Punctuator::Comma, token.kind) {
        Branch::Go(
            Some(Marker::Missing),
            Slot::Sign(Sign::Mark(Punctuator::Comma)),
            &[
                BOUND_NAME,
                Slot::By(Choice::InitializerInHead),
                Slot::By(Choice::DeclaratorsInHead),
                SEMICOLON,
                SECOND,
                SEMICOLON,
                THIRD,
                CLOSE,
                Slot::Stmt,
            ],
        )
    } else {
        Branch::Go(
            Some(Marker::Missing),
            SEMICOLON,
            &[SECOND, SEMICOLON, THIRD, CLOSE, Slot::Stmt],
        )
    }
}

/// Which `for` it is, by what stands after its expression.
pub(crate) fn after_target(token: Token<'_>) -> Branch
    ensures { plain_branch result ≡ spec.branch choice.AfterTarget (plain_token token.entry) }
{
    if is_word(ProductionWord::In, token.kind) {
        Branch::Go(
            Some(Marker::In),
            Slot::Sign(Sign::Word(ProductionWord::In)),
            &[EXPRESSION, CLOSE, Slot::Stmt],
        )
    } else if is_word(ProductionWord::Of, token.kind) {
        Branch::Go(
            Some(Marker::Of),
            Slot::Sign(Sign::Word(ProductionWord::Of)),
            &[ASSIGNMENT, CLOSE, Slot::Stmt],
        )
    } else {
        Branch::Go(
            None,
            SEMICOLON,
            &[SECOND, SEMICOLON, THIRD, CLOSE, Slot::Stmt],
        )
    }
}
