ghost use Rattle.std.specs.Prelude.{◌≡◌};
ghost use Rattle.js_lexer.specs.Token.{plain_token};
ghost use Rattle.js_reading.specs.Choices as spec;
ghost use Rattle.js_reading.specs.declared.choice.Choice.TheVariants as choice;
ghost use Rattle.js_grammar.specs.View.{plain_branch};

use crate::ends::stops;
use crate::rows::{ASSIGNMENT, BOUND_NAME, CLOSE, CLOSE_BRACE, COLON, EXPRESSION, OPEN_BRACE};
use crate::sign::{is_mark, is_word};
use crate::slot::{Branch, Marker, ProductionWord, Sign, Slot};
use js_lexer::Token;
use js_reading::Choice;
use js_text::Punctuator;
/// `;`, or what may stand for it (ECMA-262, 12.10).
pub(crate) fn semicolon(token: Token<'_>) -> Branch
    ensures { plain_branch result ≡ spec.branch choice.Semicolon (plain_token token.entry) }
{
    if is_mark(Punctuator::Semicolon, token.kind) {
        Branch::Go(None, Slot::Sign(Sign::Mark(Punctuator::Semicolon)), &[])
    } else if stops(token) && !is_mark(Punctuator::Colon, token.kind) {
        Branch::Pass(None)
    } else {
        Branch::Refuse
    }
}

/// The same after the `)` of `do`.
pub(crate) fn semicolon_of_do(token: Token<'_>) -> Branch
    ensures { plain_branch result ≡ spec.branch choice.SemicolonOfDo (plain_token token.entry) }
{
    if is_mark(Punctuator::Semicolon, token.kind) {
        Branch::Go(None, Slot::Sign(Sign::Mark(Punctuator::Semicolon)), &[])
    } else {
        Branch::Pass(None)
    }
}

/// An expression on this line, or none (14.10).
pub(crate) fn value_on_line(token: Token<'_>) -> Branch
    ensures { plain_branch result ≡ spec.branch choice.ValueOnLine (plain_token token.entry) }
{
    if stops(token) || is_mark(Punctuator::Semicolon, token.kind) {
        Branch::Pass(Some(Marker::Missing))
    } else {
        Branch::Go(None, EXPRESSION, &[])
    }
}

/// A label on this line, or none (14.8, 14.9).
pub(crate) fn label_on_line(token: Token<'_>) -> Branch
    ensures { plain_branch result ≡ spec.branch choice.LabelOnLine (plain_token token.entry) }
{
    if stops(token) || is_mark(Punctuator::Semicolon, token.kind) {
        Branch::Pass(Some(Marker::Missing))
    } else {
        Branch::Go(None, BOUND_NAME, &[])
    }
}

/// No line terminator may stand here (14.14).
pub(crate) fn on_line(token: Token<'_>) -> Branch
    ensures { plain_branch result ≡ spec.branch choice.OnLine (plain_token token.entry) }
{
    if token.line_terminator_before {
        Branch::Refuse
    } else {
        Branch::Pass(None)
    }
}

/// `else` and a statement, or neither (14.6).
pub(crate) fn else_part(token: Token<'_>) -> Branch
    ensures { plain_branch result ≡ spec.branch choice.Else (plain_token token.entry) }
{
    if is_word(ProductionWord::Else, token.kind) {
        Branch::Go(
            None,
            Slot::Sign(Sign::Word(ProductionWord::Else)),
            &[Slot::Stmt],
        )
    } else {
        Branch::Pass(Some(Marker::Missing))
    }
}

/// `=` and an initializer, or neither (14.3).
pub(crate) fn initializer(token: Token<'_>) -> Branch
    ensures { plain_branch result ≡ spec.branch choice.Initializer (plain_token token.entry) }
{
    if is_mark(Punctuator::Assign, token.kind) {
        Branch::Go(
            None,
            Slot::Sign(Sign::Mark(Punctuator::Assign)),
            &[ASSIGNMENT, Slot::Place],
        )
    } else {
        Branch::Pass(Some(Marker::Missing))
    }
}

/// More declarators after a comma (14.3).
pub(crate) fn declarators(token: Token<'_>) -> Branch
    ensures { plain_branch result ≡ spec.branch choice.Declarators (plain_token token.entry) }
{
    if is_mark(Punctuator::Comma, token.kind) {
        Branch::Go(
            None,
            Slot::Sign(Sign::Mark(Punctuator::Comma)),
            &[
                BOUND_NAME,
                Slot::By(Choice::Initializer),
                Slot::By(Choice::Declarators),
            ],
        )
    } else {
        Branch::Pass(None)
    }
}

/// Clauses of a `switch`, up to `}` (14.12).
pub(crate) fn clauses(token: Token<'_>) -> Branch
    ensures { plain_branch result ≡ spec.branch choice.Clauses (plain_token token.entry) }
{
    if is_word(ProductionWord::Case, token.kind) {
        Branch::Go(
            None,
            Slot::Sign(Sign::Word(ProductionWord::Case)),
            &[
                Slot::Place,
                EXPRESSION,
                COLON,
                Slot::Stmts,
                Slot::Place,
                Slot::By(Choice::Clauses),
            ],
        )
    } else if is_word(ProductionWord::Default, token.kind) {
        Branch::Go(
            None,
            Slot::Sign(Sign::Word(ProductionWord::Default)),
            &[
                Slot::Place,
                COLON,
                Slot::Stmts,
                Slot::Place,
                Slot::By(Choice::Clauses),
            ],
        )
    } else {
        Branch::Go(None, CLOSE_BRACE, &[])
    }
}

/// `catch` or `finally` (14.15).
pub(crate) fn handler(token: Token<'_>) -> Branch
    ensures { plain_branch result ≡ spec.branch choice.Handler (plain_token token.entry) }
{
    if is_word(ProductionWord::Catch, token.kind) {
        Branch::Go(
            None,
            Slot::Sign(Sign::Word(ProductionWord::Catch)),
            &[
                Slot::By(Choice::CatchName),
                OPEN_BRACE,
                Slot::Stmts,
                CLOSE_BRACE,
                Slot::By(Choice::Finally),
            ],
        )
    } else {
        Branch::Go(
            None,
            Slot::Sign(Sign::Word(ProductionWord::Finally)),
            &[OPEN_BRACE, Slot::Stmts, CLOSE_BRACE],
        )
    }
}

/// A catch's name, or none (14.15).
pub(crate) fn catch_name(token: Token<'_>) -> Branch
    ensures { plain_branch result ≡ spec.branch choice.CatchName (plain_token token.entry) }
{
    if is_mark(Punctuator::OpenParenthesis, token.kind) {
        Branch::Go(
            None,
            Slot::Sign(Sign::Mark(Punctuator::OpenParenthesis)),
            &[BOUND_NAME, CLOSE],
        )
    } else {
        Branch::Pass(Some(Marker::Missing))
    }
}

/// `finally`, or none (14.15).
pub(crate) fn finally(token: Token<'_>) -> Branch
    ensures { plain_branch result ≡ spec.branch choice.Finally (plain_token token.entry) }
{
    if is_word(ProductionWord::Finally, token.kind) {
        Branch::Go(
            None,
            Slot::Sign(Sign::Word(ProductionWord::Finally)),
            &[OPEN_BRACE, Slot::Stmts, CLOSE_BRACE],
        )
    } else {
        Branch::Pass(Some(Marker::Missing))
    }
}
