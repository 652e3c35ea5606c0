ghost use Rattle.std.specs.Prelude.{◌≡◌, List, None, Some, IfOk};
ghost use Rattle.js_text.specs.Token as T;
ghost use Rattle.js_lexer.specs.Token.{plain_token};
ghost use Rattle.js_reading.specs.Found as spec;
ghost use Rattle.js_text.specs.Lex.{next_token};
ghost use Rattle.js_text.specs.declared.goal.Goal.TheVariants.{Div};
ghost use Rattle.js_reading.specs.Reads.{one_met, next_two};
ghost use Rattle.js_reading.specs.Turns.{Config};
ghost use Rattle.js_reading.specs.Turns as turns;
ghost use Rattle.js_stack.specs.Reader.{machine};
ghost use Rattle.js_stack.specs.Sight.{Sees};
ghost use Rattle.js_parser.specs.Recent.{Remembers, Saw};
ghost use Rattle.js_parser.specs.Further.{FoundBeyond};

use crate::found::{Find, one, proto_key, this_outside, three, two};
use crate::further::further;
use crate::recent::Recent;
use items::Memory;
use js_lexer::{Goal, Lexer, Token};
use js_stack::{Reader, Sight};
use js_tree::Loc;
use std::alloc::Global;

/// What a reader says of its place before it takes a token.
#[derive(Clone, Copy)]
pub(crate) struct Seen {
    pub(crate) sight: Sight,
    /// What is found with the token after a group.
    group: Find,
    /// A pattern among the parameters of an arrow.
    parameter: Find,
    /// The name whose arguments are whole.
    callee: Option<Loc>,
    /// Whether the place is in no function but arrows.
    outside: bool,
}

/// What a reader says of its place, where this token is next.
pub(crate) fn see(reader: &Reader, token: Token<'_>) -> Seen
    ensures { Saw result (machine reader.now) (plain_token token.entry) }
{
    Seen {
        sight: reader.sight(),
        group: reader.group(token),
        parameter: reader.parameter(token),
        callee: reader.callee(),
        outside: reader.outside(),
    }
}

/// What is found with a token that is read.
pub(crate) fn found_read(
    alloc: Global,
    recent: &Recent<'_>,
    seen: Seen,
    token: Token<'_>,
) -> Result<Find, Memory>
    ensures { IfOk result (λ find. (ts : List T.Token) (before : spec.Turns) (c d : Config) → Remembers recent.now before → Saw seen c (plain_token token.entry)
        → spec.Searched ts before c → turns.turn c (plain_token token.entry) ≡ Some d → find ≡ spec.found before c (plain_token token.entry)) }
{
    Ok(
        seen.group
            .or(this_outside(seen.sight, seen.outside, token))
            .or(recent.proto_back(alloc, token)?)
            .or(seen.parameter),
    )
}

/// What is found with a token that is refused.
fn found_refused(
    alloc: Global,
    recent: &Recent<'_>,
    seen: Seen,
    token: Token<'_>,
) -> Result<Find, Memory>
    ensures { IfOk result (λ find. (before : spec.Turns) (c : Config) → Remembers recent.now before → Saw seen c (plain_token token.entry)
        → find ≡ spec.found before c (plain_token token.entry)) }
{
    Ok(
        recent
            .two_back(alloc, token)?
            .or(recent.three_back(alloc, token)?)
            .or(one(seen.sight, token))
            .or(seen.group)
            .or(this_outside(seen.sight, seen.outside, token))
            .or(recent.called(seen.callee, token))
            .or(recent.proto_back(alloc, token)?)
            .or(seen.parameter),
    )
}

/// A form that a token and the two that stand next tell.
fn three_ahead(
    alloc: Global,
    sight: Sight,
    token: Token<'_>,
    next: Token<'_>,
    lexer: &mut Lexer<'_>,
) -> Result<Find, Memory>
    ensures { IfOk result (λ find. (c : Config) → Sees sight c → find ≡ spec.three_ahead c (plain_token token.entry) (plain_token next.entry) (one_met (next_token Div lexer.old))) }
{
    match lexer.next(Goal::Div) {
        Ok(last) => three(alloc, sight, token, next, last),
        Err(_) => Ok(None),
    }
}

/// What is found ahead of a token that is refused, with those that stand next.
fn ahead(
    alloc: Global,
    recent: &Recent<'_>,
    sight: Sight,
    token: Token<'_>,
    lexer: &mut Lexer<'_>,
) -> Result<Find, Memory>
    ensures { IfOk result (λ find. (before : spec.Turns) (c : Config) → Remembers recent.now before → Sees sight c
        → find ≡ spec.ahead before c (plain_token token.entry) (next_two lexer.old)) }
{
    let Ok(next) = lexer.next(Goal::Div) else {
        return Ok(None);
    };
    Ok(
        two(alloc, sight, token, next)?
            .or(three_ahead(alloc, sight, token, next, lexer)?)
            .or(recent.three_over(alloc, token, next)?)
            .or(proto_key(alloc, sight, token, next)?),
    )
}

/// What is found with a token that is refused, or else ahead of it or further on.
pub(crate) fn found_beyond(
    alloc: Global,
    recent: &Recent<'_>,
    seen: Seen,
    token: Token<'_>,
    lexer: &Lexer<'_>,
    limit: u64,
) -> Result<Find, Memory>
    ensures { IfOk result (λ find. (before : spec.Turns) (c : Config) → Remembers recent.now before → Saw seen c (plain_token token.entry) → FoundBeyond find before c (plain_token token.entry) lexer.now) }
{
    let found = found_refused(alloc, recent, seen, token)?;
    if found.is_some() {
        return Ok(found);
    }
    let ahead = ahead(alloc, recent, seen.sight, token, &mut lexer.again())?;
    match ahead {
        Some(_) => Ok(ahead),
        None => further(alloc, seen.sight, token, lexer, limit),
    }
}
