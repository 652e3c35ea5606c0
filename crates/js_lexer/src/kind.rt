ghost use Rattle.std.specs.Prelude.{◌≡◌, ◌||◌, drop, slice_get, Some, None, if◌then◌else◌};
ghost use Rattle.js_lexer.specs.Token.{KindIs};
ghost use Rattle.js_text.specs.Character.{starts_identifier as starts};
ghost use Rattle.js_text.specs.Identifier.{is_backslash};
ghost use Rattle.js_text.specs.Lex as spec;
ghost use Rattle.js_text.specs.Punctuator.{longest_punctuator, is_for};

use crate::character::{is_digit, is_quote, starts_identifier};
use crate::literal::{continued, string, template};
use crate::longest::longest;
use crate::number::number;
use crate::regexp::regular_expression;
use crate::scan::{advance, advance_by};
use crate::word::word;
use crate::{Goal, Punctuator, TokenKind};
use js_text::Cursor;

/// Whether a punctuator is a token for a goal: `/` and `/=` are for `Div` alone.
fn is_for(goal: Goal, punctuator: Punctuator) -> bool
    ensures { result ≡ is_for goal punctuator }
{
    match goal {
        Goal::Div => true,
        Goal::RegExp | Goal::Template => !matches!(
            punctuator,
            Punctuator::Slash | Punctuator::DivideAssign
        ),
    }
}

/// The punctuator that follows; none where it is no token for the goal.
fn punctuator<'a>(cursor: &mut Cursor<'a>, goal: Goal) -> Option<TokenKind<'a>>
    ensures { KindIs result (spec.punctuator_of goal (longest_punctuator cursor.old.after)) cursor.old cursor.new }
{
    let punctuator = longest(cursor.rest())?;
    if !is_for(goal, punctuator) {
        return None;
    }
    advance_by(cursor, punctuator.spelling().len());
    Some(TokenKind::Punctuator(punctuator))
}

/// The character after the next.
fn second(cursor: &Cursor<'_>) -> Option<char>
    ensures { result ≡ slice_get cursor.now.after 1 }
{
    let mut next = cursor.again();
    advance(&mut next);
    next.peek()
}

/// The token that follows and begins with `/`.
fn slash<'a>(cursor: &mut Cursor<'a>, goal: Goal) -> Option<TokenKind<'a>>
    requires { slice_get cursor.old.after 0 ≡ Some 0x2F }
    ensures { KindIs result (if spec.begins_comment (drop 1 cursor.old.after) then None else spec.slash_token goal (drop 1 cursor.old.after)) cursor.old cursor.new }
{
    match (second(cursor), goal) {
        (Some('/' | '*'), _) => None,
        (_, Goal::RegExp) => regular_expression(cursor),
        _ => punctuator(cursor, goal),
    }
}

/// Whether a word begins with a character.
fn begins_word(first: char) -> bool
    ensures { result ≡ (starts first || is_backslash first) }
{
    starts_identifier(first) || first == '\\'
}

/// Whether a number begins with a character, which follows.
fn begins_number(cursor: &Cursor<'_>, first: char) -> bool
    ensures { result ≡ spec.begins_number first (drop 1 cursor.now.after) }
{
    is_digit(first) || (first == '.' && second(cursor).is_some_and(is_digit))
}

/// The token that follows and begins with a character.
fn kind_from<'a>(cursor: &mut Cursor<'a>, first: char, goal: Goal) -> Option<TokenKind<'a>>
    requires { slice_get cursor.old.after 0 ≡ Some first }
    ensures { KindIs result (spec.common_token goal cursor.old.after) cursor.old cursor.new }
{
    if begins_word(first) {
        word(cursor, first)
    } else if begins_number(cursor, first) {
        number(cursor, first)
    } else if is_quote(first) {
        string(cursor, first)
    } else if first == '`' {
        template(cursor)
    } else if first == '/' {
        slash(cursor, goal)
    } else {
        punctuator(cursor, goal)
    }
}

/// Moves over the token that follows for a goal and says what it is; none where no token stands
/// there.
pub(crate) fn kind<'a>(cursor: &mut Cursor<'a>, goal: Goal) -> Option<TokenKind<'a>>
    ensures { KindIs result (spec.token_of goal cursor.old.after) cursor.old cursor.new }
{
    match (goal, cursor.peek()) {
        (Goal::Template, _) => continued(cursor),
        (_, None) => Some(TokenKind::End),
        (_, Some(first)) => kind_from(cursor, first, goal),
    }
}
