ghost use Rattle.std.specs.Prelude.{◌≡◌, IfOk, IfErr, OnErr, OnOk, None, Some};
ghost use Rattle.js_lexer.specs.Token.{kind_of, plain_token};
ghost use Rattle.js_text.specs.Lex as lex;
ghost use Rattle.js_text.specs.declared.goal.Goal.TheVariants as goal;
ghost use Rattle.js_text.specs.declared.goal.Goal.TheVariants.{Div};
ghost use Rattle.js_reading.specs.Reads as reads;
ghost use Rattle.js_reading.specs.Turns as turns;

use js_lexer::{Goal, LexFault, Lexer, Punctuator, Token, TokenKind};

/// Whether a token begins with `}`.
fn is_braced(kind: TokenKind<'_>) -> bool
    ensures { result ≡ turns.braced (kind_of kind.entry) }
{
    match kind {
        TokenKind::Punctuator(Punctuator::CloseBrace) => true,
        TokenKind::TemplateMiddle(_) | TokenKind::TemplateTail(_) => true,
        _ => false,
    }
}

/// The part of a template where a `}` stands next, which is this token.
fn continued<'a>(lexer: &mut Lexer<'a>, brace: Token<'a>) -> Result<Token<'a>, LexFault>
    ensures token { IfOk result (λ token. reads.continued lexer.old (Some (plain_token brace.entry, lexer.old)) ≡ Some (plain_token token, lexer.new)) }
    ensures fault { OnErr result (reads.continued lexer.old (Some (plain_token brace.entry, lexer.old)) ≡ None) }
    ensures fault_at { IfErr result (λ fault. fault.at ≡ lex.offset_of (lex.token_place Div lexer.old)) }
    ensures start { IfOk result (λ token. token.start ≡ lex.offset_of (lex.token_place Div lexer.old)) }
    ensures text { OnOk result (lex.characters_of lexer.new ≡ lex.characters_of lexer.old) }
{
    lexer.pass_gap();
    let part = lexer.next(Goal::Template)?;
    Ok(Token {
        line_terminator_before: brace.line_terminator_before,
        comments: brace.comments,
        ..part
    })
}

/// The next token where an expression of a template may end (12.1).
fn next_in_template<'a>(lexer: &mut Lexer<'a>) -> Result<Token<'a>, LexFault>
    ensures token { IfOk result (λ token. reads.asked_for goal.Template lexer.old ≡ Some (plain_token token, lexer.new)) }
    ensures fault { OnErr result (reads.asked_for goal.Template lexer.old ≡ None) }
    ensures fault_at { IfErr result (λ fault. fault.at ≡ lex.offset_of (lex.token_place Div lexer.old)) }
    ensures start { IfOk result (λ token. token.start ≡ lex.offset_of (lex.token_place Div lexer.old)) }
    ensures text { OnOk result (lex.characters_of lexer.new ≡ lex.characters_of lexer.old) }
{
    let mut ahead = lexer.again();
    let token = ahead.next(Goal::Div)?;
    if is_braced(token.kind) {
        continued(lexer, token)
    } else {
        *lexer = ahead;
        Ok(token)
    }
}

/// The next token for the goal of a place of the grammar, or the place where none stands.
pub(crate) fn ask<'a>(lexer: &mut Lexer<'a>, goal: Goal) -> Result<Token<'a>, LexFault>
    ensures token { IfOk result (λ token. reads.asked_for goal lexer.old ≡ Some (plain_token token, lexer.new)) }
    ensures fault { OnErr result (reads.asked_for goal lexer.old ≡ None) }
    ensures fault_at { IfErr result (λ fault. fault.at ≡ lex.offset_of (lex.token_place Div lexer.old)) }
    ensures start { IfOk result (λ token. token.start ≡ lex.offset_of (lex.token_place Div lexer.old)) }
    ensures text { OnOk result (lex.characters_of lexer.new ≡ lex.characters_of lexer.old) }
{
    match goal {
        Goal::Template => next_in_template(lexer),
        goal => lexer.next(goal),
    }
}
