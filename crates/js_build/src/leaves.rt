ghost use Rattle.std.specs.Prelude.{◌≡◌, IfOk, Some, false};
ghost use Rattle.js_text.specs.Token as T;
ghost use Rattle.js_lexer.specs.Token.{kind_of};
ghost use Rattle.js_reading.specs.Sentences as sentences;
ghost use Rattle.js_reading.specs.Productions as productions;
ghost use Rattle.js_build.specs.Measures.{measures};
ghost use Rattle.js_build.specs.View.{expr_node};
ghost use Rattle.js_build.specs.Leaves.{IsLeaf, operand_if};

use crate::Operand;
use crate::regular_expressions::regular_expression;
use crate::strings::{string, template_text};
use crate::words::bound_name;
use items::{Boxed, Items, Memory, Text};
use js_lexer::TokenKind;
use js_tree::{Expr, ExprNode, Loc};
use std::alloc::Global;

/// The expression that one token is, where it is one (ECMA-262, 13.1, 13.2).
#[tactic(auto, using(js_tree::proofs::Equations::tree_rules))]
pub fn leaf(alloc: Global, kind: TokenKind<'_>, place: Loc) -> Result<Option<Operand>, Memory>
    ensures { IsLeaf result (sentences.leaf_of (kind_of kind.entry) place) }
{
    match kind {
        TokenKind::Word(word) => of_word(alloc, word, place),
        TokenKind::EscapedWord(_) => named(alloc, kind, place),
        TokenKind::Numeral(spelling) => {
            let node = ExprNode::NumericLiteral(Text::from_str(alloc, spelling)?);
            Ok(Some(primary(alloc, place, node)?))
        }
        TokenKind::StringLiteral(spelling) => {
            let node = ExprNode::StringLiteral(string(alloc, spelling)?);
            Ok(Some(primary(alloc, place, node)?))
        }
        TokenKind::NoSubstitutionTemplate(spelling) => {
            let node = ExprNode::TemplateLiteral(
                template_text(alloc, spelling)?,
                Items::new(alloc),
            );
            Ok(Some(primary(alloc, place, node)?))
        }
        TokenKind::RegularExpression(spelling) => regular_expression(alloc, spelling, place),
        _ => Ok(None),
    }
}

/// A word.
#[tactic(auto, using(js_tree::proofs::Equations::tree_rules))]
fn of_word(alloc: Global, word: &str, place: Loc) -> Result<Option<Operand>, Memory>
    ensures { IsLeaf result (sentences.of_word word.now (T.Word word.now) place) }
{
    if word == "this" {
        return Ok(Some(primary(alloc, place, ExprNode::This)?));
    }
    if word == "null" {
        return Ok(Some(primary(alloc, place, ExprNode::NullLiteral)?));
    }
    if word == "true" {
        return Ok(Some(primary(alloc, place, ExprNode::BooleanLiteral(true))?));
    }
    if word == "false" {
        return Ok(Some(primary(alloc, place, ExprNode::BooleanLiteral(false))?));
    }
    named(alloc, TokenKind::Word(word), place)
}

/// A reference to the name that a token is, where it is one.
#[tactic(auto, using(js_tree::proofs::Equations::tree_rules))]
fn named(alloc: Global, kind: TokenKind<'_>, place: Loc) -> Result<Option<Operand>, Memory>
    ensures { IsLeaf result (sentences.named place (productions.bound_name (kind_of kind.entry))) }
{
    match bound_name(alloc, kind)? {
        Some(name) => Ok(Some(primary(alloc, place, ExprNode::IdentifierReference(name))?)),
        None => Ok(None),
    }
}

/// An expression of this node, which has no parts.
#[tactic(auto, using(js_tree::proofs::Equations::tree_rules))]
pub(crate) fn primary(alloc: Global, place: Loc, node: ExprNode) -> Result<Operand, Memory>
    requires { measures (expr_node node place) ≡ (1, (22, false)) }
    ensures { IfOk result (λ made. operand_if (Some made) ≡ Some (22, expr_node node place)) }
{
    let tree = Expr {
        loc: Some(place),
        node,
    };
    let tree = Boxed::new(alloc, tree)?;
    Ok(Operand {
        tree,
        level: 22,
        last_level: 22,
        bare_in: false,
        height: 1,
    })
}
