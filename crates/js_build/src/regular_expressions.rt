ghost use Rattle.std.specs.Prelude.{◌≡◌, option_map};
ghost use Rattle.js_reading.specs.Sentences as sentences;
ghost use Rattle.js_text.specs.Token as T;
ghost use Rattle.js_build.specs.Leaves.{IsLeaf};

use crate::Operand;
use crate::leaves::primary;
use items::{Memory, Text};
use js_tree::{ExprNode, Loc};
use std::alloc::Global;

/// A regular expression (ECMA-262, 13.2.7), where its spelling begins with `/` and has another after its body.
#[tactic(auto, using(js_tree::proofs::Equations::tree_rules))]
pub(crate) fn regular_expression(
    alloc: Global,
    spelling: &str,
    place: Loc,
) -> Result<Option<Operand>, Memory>
    ensures { IsLeaf result (sentences.leaf_of (T.RegularExpression spelling.now) place) }
{
    match body_and_flags(spelling) {
        Some((body, flags)) => {
            let body = Text::from_str(alloc, body)?;
            let flags = Text::from_str(alloc, flags)?;
            let node = ExprNode::RegularExpressionLiteral(body, flags);
            Ok(Some(primary(alloc, place, node)?))
        }
        None => Ok(None),
    }
}

/// Its body and its flags: what stands before and after the last `/` of what follows its first.
fn body_and_flags(spelling: &str) -> Option<(&str, &str)>
    ensures { option_map (λ x. (x.0.now, x.1.now)) result ≡ sentences.body_and_flags spelling.now }
{
    match spelling.strip_prefix('/') {
        Some(rest) => around_last_slash(rest),
        None => None,
    }
}

/// What stands before the last `/`, and after it.
fn around_last_slash(text: &str) -> Option<(&str, &str)>
    ensures { option_map (λ x. (x.0.now, x.1.now)) result ≡ sentences.around_last_slash text.now }
{
    match text.rfind('/') {
        Some(at) => Some((&text[..at], &text[at + 1..])),
        None => None,
    }
}
