ghost use Rattle.std.specs.Prelude.{◌≡◌, IfOk, Some, None, if◌then◌else◌};
ghost use Rattle.js_text.specs.Token as T;
ghost use Rattle.js_lexer.specs.Token.{kind_of};
ghost use Rattle.js_reading.specs.Kinds as kinds;
ghost use Rattle.js_reading.specs.Productions as productions;

use crate::objects::is_keyword;
use items::{Memory, Text};
use js_lexer::{TokenKind, name_of};
use js_tree::Name;
use std::alloc::Global;

/// The name that a token binds or refers to, where it is one (12.7.2, 13.1).
pub(crate) fn bound_name(alloc: Global, kind: TokenKind<'_>) -> Result<Option<Name>, Memory>
    ensures { IfOk result (λ name. name ≡ productions.bound_name (kind_of kind.entry)) }
{
    match kind {
        TokenKind::Word(word) => plain_name(alloc, word),
        TokenKind::EscapedWord(word) => unless_keyword(escaped_name(alloc, word)?),
        _ => Ok(None),
    }
}

/// A word without escapes as a name.
fn plain_name(alloc: Global, word: &str) -> Result<Option<Name>, Memory>
    ensures { IfOk result (λ name. name ≡ productions.bound_name (T.Word word.now)) }
{
    if is_keyword(word) {
        return Ok(None);
    }
    Ok(Some(Text::from_str(alloc, word)?))
}

/// The name that a token with an escape stands for.
pub(crate) fn escaped_name(alloc: Global, word: &str) -> Result<Name, Memory>
    ensures { IfOk result (λ name. name ≡ productions.name_of word.now) }
{
    name_of(alloc, word)
}

/// A name with an escape, where it is no reserved word.
fn unless_keyword(name: Name) -> Result<Option<Name>, Memory>
    ensures { IfOk result (λ found. found ≡ if kinds.is_keyword name then None else Some name) }
{
    if is_keyword(name.as_str()) {
        return Ok(None);
    }
    Ok(Some(name))
}
