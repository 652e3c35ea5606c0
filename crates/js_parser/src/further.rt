ghost use Rattle.std.specs.Prelude.{◌≡◌, ◌&&◌, ◌∷◌, [], IfOk};
ghost use Rattle.js_lexer.specs.Token.{plain_token};
ghost use Rattle.js_text.specs.declared.punctuator.Punctuator.TheVariants as P;
ghost use Rattle.js_reading.specs.Productions as productions;
ghost use Rattle.js_reading.specs.Found as spec;
ghost use Rattle.js_reading.specs.Turns as turns;
ghost use Rattle.js_reading.specs.Turns.{Config};
ghost use Rattle.js_stack.specs.Reader.{machine};
ghost use Rattle.js_stack.specs.Sight.{Sees};
ghost use Rattle.js_parser.specs.Further.{ComesAt, GoesOn, FoundFurther};

use crate::ask::ask;
use crate::found::{Find, is_arrow, opens_call, same_start};
use crate::reader::take;
use items::Memory;
use js_lexer::{Goal, Lexer, Token};
use js_reading::Unsupported;
use js_stack::{Reader, Sight};
use js_tree::Loc;
use std::alloc::{AllocError, Global};

/// Whether the arguments of the name at a location are whole.
#[tactic(auto, using(crate::proofs::Advancing::argues_is))]
fn argues(reader: &Reader, location: Loc) -> bool
    ensures { result ≡ spec.argues location (machine reader.now) }
{
    match reader.callee() {
        Some(name) => same_start(name, location),
        None => false,
    }
}

/// Whether a token is `=>`, and the arguments of the name at a location are whole.
fn is_arrow_after(reader: &Reader, location: Loc, token: Token<'_>) -> bool
    ensures { result ≡ (productions.is_mark P.Arrow (plain_token token.entry) && spec.argues location (machine reader.now)) }
{
    is_arrow(token) && argues(reader, location)
}

/// Takes a token, and says whether it goes on. Where the tree would be higher than the limit, the answer is want of memory.
fn goes_on(reader: &mut Reader, token: Token<'_>, limit: u64) -> Result<bool, Memory>
    ensures { IfOk result (λ taken. GoesOn taken (machine reader.old) (machine reader.new) (plain_token token.entry)) }
{
    match take(reader, token, limit) {
        Ok(taken) => Ok(taken),
        Err(_) => Err(AllocError),
    }
}

/// Whether `=>` comes after the arguments of a word, where a file begins with it and this `(`.
fn arrow_comes(
    alloc: Global,
    word: Token<'_>,
    opening: Token<'_>,
    lexer: &Lexer<'_>,
    limit: u64,
) -> Result<bool, Memory>
    ensures { IfOk result (λ comes. ComesAt comes (plain_token word.entry).loc (turns.run turns.Start (plain_token word.entry ∷ plain_token opening.entry ∷ [])) lexer.now) }
{
    let mut reader = Reader::new(alloc);
    let begun = goes_on(&mut reader, word, limit)?;
    if !begun {
        return Ok(false);
    }
    let opened = goes_on(&mut reader, opening, limit)?;
    if !opened {
        return Ok(false);
    }
    let mut rest = lexer.again();
    'tokens: loop {
        let token = match ask(&mut rest, reader.goal()) {
            Ok(token) => token,
            Err(_) => return Ok(false),
        };
        let whole = is_arrow_after(&reader, word.loc, token);
        if whole {
            return Ok(true);
        }
        let taken = goes_on(&mut reader, token, limit)?;
        if !taken {
            return Ok(false);
        }
        if reader.height().is_some() {
            return Ok(false);
        }
    }
}

/// What is found further on than two tokens from one that is refused: an `async` arrow, whose parameters are read as where a file
/// begins with them. Where these are higher than the limit, the answer is want of memory.
pub(crate) fn further(
    alloc: Global,
    sight: Sight,
    token: Token<'_>,
    lexer: &Lexer<'_>,
    limit: u64,
) -> Result<Find, Memory>
    ensures { IfOk result (λ find. (c : Config) → Sees sight c → FoundFurther find c (plain_token token.entry) lexer.now) }
{
    if sight.at_any_name {
        return Ok(None);
    }
    let mut rest = lexer.again();
    let opening = match rest.next(Goal::Div) {
        Ok(opening) => opening,
        Err(_) => return Ok(None),
    };
    if !opens_call(token, opening) {
        return Ok(None);
    }
    let comes = arrow_comes(alloc, token, opening, &rest, limit)?;
    if comes {
        Ok(Some((Unsupported::Async, token.loc)))
    } else {
        Ok(None)
    }
}
