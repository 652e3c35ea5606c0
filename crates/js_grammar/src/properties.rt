ghost use Rattle.std.specs.Prelude.{◌≡◌};
ghost use Rattle.js_lexer.specs.Token.{plain_token};
ghost use Rattle.js_reading.specs.Choices as spec;
ghost use Rattle.js_reading.specs.declared.choice.Choice.TheVariants as choice;
ghost use Rattle.js_grammar.specs.View.{plain_branch};

use crate::rows::{ASSIGNMENT, CLOSE_BRACE, CLOSE_BRACKET, EXPRESSION, OPEN_BRACE};
use crate::sign::is_mark;
use crate::slot::{Branch, Marker, Sign, Slot};
use js_lexer::{Token, TokenKind};
use js_reading::{Choice, Class};
use js_text::Punctuator;
/// Properties up to `}` (ECMA-262, 13.2.5).
pub(crate) fn properties(token: Token<'_>) -> Branch
    ensures { plain_branch result ≡ spec.branch choice.Properties (plain_token token.entry) }
{
    if is_mark(Punctuator::CloseBrace, token.kind) {
        Branch::Go(None, CLOSE_BRACE, &[])
    } else if is_mark(Punctuator::OpenBracket, token.kind) {
        Branch::Go(
            Some(Marker::Computed),
            Slot::Sign(Sign::Mark(Punctuator::OpenBracket)),
            &[
                Slot::Place,
                ASSIGNMENT,
                CLOSE_BRACKET,
                Slot::By(Choice::AfterKey),
                Slot::By(Choice::AfterProperty),
            ],
        )
    } else {
        Branch::Go(
            None,
            Slot::Text(Class::Key),
            &[Slot::By(Choice::AfterKey), Slot::By(Choice::AfterProperty)],
        )
    }
}

/// What stands after a key (13.2.5).
pub(crate) fn after_key(token: Token<'_>) -> Branch
    ensures { plain_branch result ≡ spec.branch choice.AfterKey (plain_token token.entry) }
{
    if is_mark(Punctuator::Colon, token.kind) {
        Branch::Go(
            None,
            Slot::Sign(Sign::Mark(Punctuator::Colon)),
            &[ASSIGNMENT, Slot::Place],
        )
    } else if is_mark(Punctuator::OpenParenthesis, token.kind) {
        Branch::Go(
            Some(Marker::Method),
            Slot::Sign(Sign::Mark(Punctuator::OpenParenthesis)),
            &[
                Slot::By(Choice::Parameters),
                OPEN_BRACE,
                Slot::Place,
                Slot::Stmts,
                CLOSE_BRACE,
                Slot::Place,
            ],
        )
    } else {
        Branch::Pass(Some(Marker::Missing))
    }
}

/// What stands after a property (13.2.5).
pub(crate) fn after_property(token: Token<'_>) -> Branch
    ensures { plain_branch result ≡ spec.branch choice.AfterProperty (plain_token token.entry) }
{
    if is_mark(Punctuator::Comma, token.kind) {
        Branch::Go(
            None,
            Slot::Sign(Sign::Mark(Punctuator::Comma)),
            &[Slot::By(Choice::Properties)],
        )
    } else {
        Branch::Go(None, CLOSE_BRACE, &[])
    }
}

/// A template's next part (13.2.8).
pub(crate) fn template_rest(token: Token<'_>) -> Branch
    ensures { plain_branch result ≡ spec.branch choice.TemplateRest (plain_token token.entry) }
{
    match token.kind {
        TokenKind::TemplateMiddle(_) => Branch::Go(
            None,
            Slot::Text(Class::LaterText),
            &[EXPRESSION, Slot::By(Choice::TemplateRest)],
        ),
        _ => Branch::Go(None, Slot::Text(Class::LaterText), &[]),
    }
}
