ghost use Rattle.std.specs.Prelude.{◌≡◌};
ghost use Rattle.js_tree.specs.Plain.{Expr};
ghost use Rattle.js_lexer.specs.Token.{kind_of, plain_token};
ghost use Rattle.js_text.specs.Token.{End};
ghost use Rattle.js_reading.specs.Kinds.{is_kind};
ghost use Rattle.js_reading.specs.Choices as choices;
ghost use Rattle.js_reading.specs.Makes as makes;
ghost use Rattle.js_reading.specs.Sentences as spec;
ghost use Rattle.js_grammar.specs.View.{plain_wanted};

use crate::forms::join;
use crate::levels::{strength, wants};
use crate::sign::{is_mark, is_word};
use crate::slot::{ProductionWord, Wanted};
use js_lexer::{Token, TokenKind};
use js_text::Punctuator;

/// Whether a statement may end before a token without `;` (ECMA-262, 12.10).
pub fn stops(token: Token<'_>) -> bool
    ensures { result ≡ choices.stops (plain_token token.entry) }
{
    token.line_terminator_before
        || is_mark(Punctuator::CloseBrace, token.kind)
        || is_end(token.kind)
}

/// Whether a token is the end of the text.
fn is_end(kind: TokenKind<'_>) -> bool
    ensures { result ≡ is_kind End (kind_of kind.entry) }
{
    match kind {
        TokenKind::End => true,
        _ => false,
    }
}

/// Whether a token ends a list of statements.
pub fn closes(token: Token<'_>) -> bool
    ensures { result ≡ spec.closes (plain_token token.entry) }
{
    is_mark(Punctuator::CloseBrace, token.kind)
        || is_end(token.kind)
        || is_word(ProductionWord::Case, token.kind)
        || is_word(ProductionWord::Default, token.kind)
}

/// Whether a place takes an expression of this level, with a bare `in` or without.
pub fn fits(wanted: Wanted, level: u8, bare_in: bool) -> bool
    ensures { (e : Expr) → bare_in ≡ makes.bare_in e → result ≡ spec.fits (plain_wanted wanted) level e }
{
    match wanted {
        Wanted::Level(least) => least <= level,
        Wanted::WithoutIn(least) => least <= level && !bare_in,
        Wanted::Callee => 21 <= level || level == 19,
    }
}

/// Whether a token is an `in` that goes on with no expression in a place (14.7.4).
pub fn bans(wanted: Wanted, token: Token<'_>) -> bool
    ensures { result ≡ spec.bans (plain_wanted wanted) (plain_token token.entry) }
{
    match wanted {
        Wanted::WithoutIn(_) => is_word(ProductionWord::In, token.kind),
        _ => false,
    }
}

/// The level of what a regular expression or a template stands for where an expression ends before it.
fn stands_for(kind: TokenKind<'_>) -> u8
    ensures { result ≡ spec.stands_for (kind_of kind.entry) }
{
    match kind {
        TokenKind::RegularExpression(_) => 14,
        TokenKind::NoSubstitutionTemplate(_) | TokenKind::TemplateHead(_) => 20,
        _ => 0,
    }
}

/// The least level of what a token makes of an expression in a place.
fn grip(wanted: Wanted) -> u8
    ensures { result ≡ spec.grip (plain_wanted wanted) }
{
    match wanted {
        Wanted::Level(least) | Wanted::WithoutIn(least) => least,
        Wanted::Callee => 21,
    }
}

/// Whether a token goes on with an expression in a place; `last` is how tightly the operand binds with which the expression
/// ends.
pub fn goes_on(wanted: Wanted, last: u8, token: Token<'_>) -> bool
    ensures { (e : Expr) → last ≡ makes.last_level e → result ≡ spec.goes_on (plain_wanted wanted) e (plain_token token.entry) }
{
    let stands = stands_for(token.kind);
    if 1 <= stands && stands <= last {
        return true;
    }
    let form = join(token);
    let made = strength(form);
    1 <= made && grip(wanted) <= made && wants(form) <= last
}

/// The same where a bare `in` may be banned: there it ends the expression.
pub fn continues(wanted: Wanted, last: u8, token: Token<'_>) -> bool
    ensures { (e : Expr) → last ≡ makes.last_level e → result ≡ spec.continues (plain_wanted wanted) e (plain_token token.entry) }
{
    !bans(wanted, token) && goes_on(wanted, last, token)
}
