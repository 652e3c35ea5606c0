ghost use Rattle.std.specs.Prelude.{◌≡◌, ◌∷◌, [], IfOk, OnOk};
ghost use Rattle.js_terms.specs.declared.place.Loc.{Loc};
ghost use Rattle.js_lexer.specs.Token.{plain_token};
ghost use Rattle.js_reading.specs.Turns.{Config};
ghost use Rattle.js_reading.specs.Found as spec;
ghost use Rattle.js_stack.specs.Sight.{Sees};
ghost use Rattle.js_parser.specs.Recent.{Recalls, SameStarts, Remembers};

use crate::found::{Find, arrow_after, opens_call, proto_key, three, two};
use items::{Items, Memory};
use js_lexer::Token;
use js_stack::Sight;
use js_tree::Loc;
use std::alloc::Global;

/// A turn: its token, and what was seen of the place before it.
#[derive(Clone, Copy)]
pub(crate) struct Turn<'a> {
    pub(crate) sight: Sight,
    pub(crate) token: Token<'a>,
}

/// What is kept of the turns so far, for the forms that go on.
#[derive(Drop)]
pub(crate) struct Recent<'a> {
    /// The last turn.
    pub(crate) last: Option<Turn<'a>>,
    /// The turn before it.
    pub(crate) before: Option<Turn<'a>>,
    /// Where each `async` stands whose next token was `(` on its line.
    pub(crate) asyncs: Items<Loc>,
}

/// Keeps where the last token stands, if it is an `async` before this one, a `(` on its line.
#[tactic(auto, using(crate::proofs::Recalling::async_more, crate::proofs::Recalling::async_kept, crate::proofs::Recalling::async_none))]
fn keep_async(
    asyncs: &mut Items<Loc>,
    last: Option<Turn<'_>>,
    token: Token<'_>,
) -> Result<(), Memory>
    ensures { OnOk result ((turns : spec.Turns) (c : Config) → Recalls last.entry turns → SameStarts asyncs.old (spec.asyncs turns) → SameStarts asyncs.new (spec.asyncs ((c, plain_token token.entry) ∷ turns))) }
{
    let Some(turn) = last else {
        return Ok(());
    };
    if !opens_call(turn.token, token) {
        return Ok(());
    }
    asyncs.push(turn.token.loc)
}

impl<'a> Recent<'a> {
    /// Before the first turn.
    pub(crate) fn new(alloc: Global) -> Recent<'a>
        ensures { Remembers result [] }
    {
        Recent {
            last: None,
            before: None,
            asyncs: Items::new(alloc),
        }
    }

    /// After a turn more.
    pub(crate) fn push(&mut self, sight: Sight, token: Token<'a>) -> Result<(), Memory>
        ensures { OnOk result ((turns : spec.Turns) (c : Config) → Remembers self.old turns → Sees sight c → Remembers self.new ((c, plain_token token.entry) ∷ turns)) }
    {
        keep_async(&mut self.asyncs, self.last, token)?;
        self.before = self.last;
        self.last = Some(Turn { sight, token });
        Ok(())
    }

    /// A form that the last token and this one tell.
    pub(crate) fn two_back(&self, alloc: Global, token: Token<'_>) -> Result<Find, Memory>
        ensures { IfOk result (λ find. (turns : spec.Turns) → Remembers self.now turns → find ≡ spec.two_back turns (plain_token token.entry)) }
    {
        match self.last {
            Some(turn) => two(alloc, turn.sight, turn.token, token),
            None => Ok(None),
        }
    }

    /// The key `__proto__` and this token.
    pub(crate) fn proto_back(&self, alloc: Global, token: Token<'_>) -> Result<Find, Memory>
        ensures { IfOk result (λ find. (turns : spec.Turns) → Remembers self.now turns → find ≡ spec.proto_back turns (plain_token token.entry)) }
    {
        match self.last {
            Some(turn) => proto_key(alloc, turn.sight, turn.token, token),
            None => Ok(None),
        }
    }

    /// A form that the last two tokens and this one tell.
    pub(crate) fn three_back(&self, alloc: Global, token: Token<'_>) -> Result<Find, Memory>
        ensures { IfOk result (λ find. (turns : spec.Turns) → Remembers self.now turns → find ≡ spec.three_back turns (plain_token token.entry)) }
    {
        match (self.before, self.last) {
            (Some(before), Some(last)) => {
                three(alloc, before.sight, before.token, last.token, token)
            }
            _ => Ok(None),
        }
    }

    /// A form that the last token, this one and the next tell.
    pub(crate) fn three_over(
        &self,
        alloc: Global,
        token: Token<'_>,
        next: Token<'_>,
    ) -> Result<Find, Memory>
        ensures { IfOk result (λ find. (turns : spec.Turns) → Remembers self.now turns → find ≡ spec.three_over turns (plain_token token.entry) (plain_token next.entry)) }
    {
        match self.last {
            Some(turn) => three(alloc, turn.sight, turn.token, token, next),
            None => Ok(None),
        }
    }

    /// An `async` arrow, whose arguments are those of a call of this name.
    pub(crate) fn called(&self, callee: Option<Loc>, token: Token<'_>) -> Find
        ensures { (turns : spec.Turns) → Remembers self.now turns → result ≡ spec.arrow_after turns callee (plain_token token.entry) }
    {
        arrow_after(self.asyncs.as_slice(), callee, token)
    }
}
