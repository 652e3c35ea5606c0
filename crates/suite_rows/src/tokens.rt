// The tokens of a text: their kinds and places, and where none stands.
use crate::spelled::push_number;
use cov_base::Memory;
use js_lexer::{Goal, LexFault, Lexer, Token, TokenKind};
use js_text::{Limits, Text};
use std::alloc::Global;

/// The first 40 tokens, up to the end or to a fault: for each its kind, its bytes, and `+` where a line terminator
/// stands before it; `!` and the place for a fault. Where a division may follow and where none may, if they differ.
pub(crate) fn tokens_of(alloc: Global, bytes: Vec<u8>) -> Result<String, Memory> {
    let Ok(text) = Text::from_bytes(alloc, bytes, Limits::source()) else {
        return String::from_str(alloc, "no text");
    };
    let mut divided = tokens_by(alloc, &text, Goal::Div)?;
    let other = tokens_by(alloc, &text, Goal::RegExp)?;
    if divided.as_str() != other.as_str() {
        divided.push_str(" | ")?;
        divided.push_str(other.as_str())?;
    }
    Ok(divided)
}

/// The same of the token that continues a template at the text's start.
pub(crate) fn template_of(alloc: Global, bytes: Vec<u8>) -> Result<String, Memory> {
    let Ok(text) = Text::from_bytes(alloc, bytes, Limits::source()) else {
        return String::from_str(alloc, "no text");
    };
    let mut line = String::new(alloc);
    let mut lexer = Lexer::new(&text);
    push_next(alloc, &mut lexer, Goal::Template, &mut line)?;
    Ok(line)
}

fn tokens_by(alloc: Global, text: &Text, goal: Goal) -> Result<String, Memory> {
    let mut lexer = Lexer::new(text);
    let mut line = String::new(alloc);
    for _ in 0..40 {
        if !push_next(alloc, &mut lexer, goal, &mut line)? {
            break;
        }
        line.push_str(", ")?;
    }
    Ok(line)
}

/// Writes the next token or the fault. False where no token follows.
fn push_next(
    alloc: Global,
    lexer: &mut Lexer<'_>,
    goal: Goal,
    line: &mut String,
) -> Result<bool, Memory> {
    match lexer.next(goal) {
        Ok(token) => {
            push_token(alloc, &token, line)?;
            Ok(token.kind != TokenKind::End)
        }
        Err(LexFault { at, place: _ }) => {
            line.push_str("! ")?;
            push_number(alloc, at as u64, line)?;
            Ok(false)
        }
    }
}

fn push_token(alloc: Global, token: &Token<'_>, line: &mut String) -> Result<(), Memory> {
    line.push_str(letter(token.kind))?;
    push_span(alloc, " ", token.start, token.end, line)?;
    if token.line_terminator_before {
        line.push_str("+")?;
    }
    if token.comments.start < token.comments.end {
        push_span(alloc, "#", token.comments.start, token.comments.end, line)?;
    }
    Ok(())
}

fn push_span(
    alloc: Global,
    mark: &str,
    start: usize,
    end: usize,
    line: &mut String,
) -> Result<(), Memory> {
    line.push_str(mark)?;
    push_number(alloc, start as u64, line)?;
    line.push_str("..")?;
    push_number(alloc, end as u64, line)
}

/// A token's kind as the rows write it: a letter, or the punctuator.
fn letter(kind: TokenKind<'_>) -> &str {
    match kind {
        TokenKind::Word(_) => "W",
        TokenKind::Numeral(_) => "N",
        TokenKind::EscapedWord(_) => "X",
        TokenKind::BigInt(_) => "B",
        TokenKind::StringLiteral(_) => "S",
        TokenKind::NoSubstitutionTemplate(_) => "T",
        TokenKind::TemplateHead(_) => "TH",
        TokenKind::TemplateMiddle(_) => "TM",
        TokenKind::TemplateTail(_) => "TT",
        TokenKind::RegularExpression(_) => "R",
        TokenKind::Punctuator(punctuator) => punctuator.spelling(),
        TokenKind::End => "E",
    }
}
