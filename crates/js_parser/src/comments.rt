ghost use Rattle.std.specs.Prelude.{◌≡◌, ◌++◌, OnOk};
ghost use Rattle.std.specs.Str.{chars, IsCharBoundary};
ghost use Rattle.js_lexer.specs.Token.{plain_token};
ghost use Rattle.js_reading.specs.Reads.{comments_of_token};

use items::{Items, Memory};
use js_lexer::{Token, comments};
use js_tree::Comment;
use std::alloc::Global;

/// Puts the comments before a token after those that were kept.
pub(crate) fn keep(
    alloc: Global,
    kept: &mut Items<Comment>,
    text: &str,
    token: &Token<'_>,
) -> Result<(), Memory>
    requires { IsCharBoundary text.now (plain_token token.now).comments.start }
    ensures { OnOk result (kept.new ≡ kept.old ++ comments_of_token (chars text.now) (plain_token token.now)) }
{
    let found = comments(alloc, text, token.comments, token.loc.start)?.into_vec();
    for comment in found {
        kept.push(comment)?;
    }
    Ok(())
}
