ghost use Rattle.std.specs.Prelude.{◌≡◌};
ghost use Rattle.js_lexer.specs.Token.{plain_token};
ghost use Rattle.js_reading.specs.Choices as spec;
ghost use Rattle.js_reading.specs.declared.choice.Choice.TheVariants as choice;
ghost use Rattle.js_grammar.specs.View.{plain_branch};

use crate::forms::join;
use crate::levels::wants;
use crate::rows::{ASSIGNMENT, BOUND_NAME, CLOSE, CLOSE_BRACE};
use crate::sign::is_mark;
use crate::slot::{Branch, Marker, Sign, Slot};
use js_lexer::Token;
use js_reading::Choice;
use js_text::Punctuator;
/// Arguments of `new`, or none (ECMA-262, 13.3.5).
pub(crate) fn arguments(token: Token<'_>) -> Branch
    ensures { plain_branch result ≡ spec.branch choice.Arguments (plain_token token.entry) }
{
    if is_mark(Punctuator::OpenParenthesis, token.kind) {
        Branch::Go(
            None,
            Slot::Sign(Sign::Mark(Punctuator::OpenParenthesis)),
            &[Slot::Items(Punctuator::CloseParenthesis)],
        )
    } else if wants(join(token)) <= 19 {
        Branch::Pass(Some(Marker::Missing))
    } else {
        Branch::Refuse
    }
}

/// What stands after a pair of parentheses: an arrow's body on its line, or nothing (15.3).
pub(crate) fn arrow(token: Token<'_>) -> Branch
    ensures { plain_branch result ≡ spec.branch choice.Arrow (plain_token token.entry) }
{
    if is_mark(Punctuator::Arrow, token.kind) && !token.line_terminator_before {
        Branch::Go(
            None,
            Slot::Sign(Sign::Mark(Punctuator::Arrow)),
            &[Slot::By(Choice::ConciseBody)],
        )
    } else {
        Branch::Pass(Some(Marker::Missing))
    }
}

/// An arrow's body: statements in braces, or an expression (15.3).
pub(crate) fn concise_body(token: Token<'_>) -> Branch
    ensures { plain_branch result ≡ spec.branch choice.ConciseBody (plain_token token.entry) }
{
    if is_mark(Punctuator::OpenBrace, token.kind) {
        Branch::Go(
            None,
            Slot::Sign(Sign::Mark(Punctuator::OpenBrace)),
            &[Slot::Place, Slot::Stmts, CLOSE_BRACE, Slot::Place],
        )
    } else {
        Branch::Go(None, ASSIGNMENT, &[])
    }
}

/// A function's name, or none (15.2).
pub(crate) fn name(token: Token<'_>) -> Branch
    ensures { plain_branch result ≡ spec.branch choice.FunctionName (plain_token token.entry) }
{
    if is_mark(Punctuator::OpenParenthesis, token.kind) {
        Branch::Pass(Some(Marker::Missing))
    } else {
        Branch::Go(None, BOUND_NAME, &[])
    }
}

/// Parameters up to `)` (15.1).
pub(crate) fn parameters(token: Token<'_>) -> Branch
    ensures { plain_branch result ≡ spec.branch choice.Parameters (plain_token token.entry) }
{
    if is_mark(Punctuator::CloseParenthesis, token.kind) {
        Branch::Go(None, CLOSE, &[])
    } else {
        Branch::Go(
            None,
            BOUND_NAME,
            &[
                Slot::By(Choice::Initializer),
                Slot::By(Choice::AfterParameter),
            ],
        )
    }
}

/// What stands after a parameter (15.1).
pub(crate) fn after_parameter(token: Token<'_>) -> Branch
    ensures { plain_branch result ≡ spec.branch choice.AfterParameter (plain_token token.entry) }
{
    if is_mark(Punctuator::Comma, token.kind) {
        Branch::Go(
            None,
            Slot::Sign(Sign::Mark(Punctuator::Comma)),
            &[Slot::By(Choice::Parameters)],
        )
    } else {
        Branch::Go(None, CLOSE, &[])
    }
}
