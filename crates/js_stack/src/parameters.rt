ghost use Rattle.std.specs.Prelude.{◌≡◌};
ghost use Rattle.js_tree.specs.Tree.{plain_expr, plain_exprs};
ghost use Rattle.js_lexer.specs.Token.{plain_token};
ghost use Rattle.js_reading.specs.Found as found;
ghost use Rattle.js_grammar.specs.View.{plain_slots};
ghost use Rattle.js_build.specs.View.{plain_piece, plain_pieces};
ghost use Rattle.js_stack.specs.Parameters as spec;
ghost use Rattle.js_stack.specs.View.{config, frames};

use crate::groups::{arrow_left, on_its_line};
use crate::production::{Place, Production};
use crate::sight::is_parentheses;
use crate::stack::Stack;
use js_build::Piece;
use js_lexer::Token;
use js_reading::Unsupported;
use js_tree::{Expr, ExprNode, Loc};

/// Where an expression is, if it is an array or an object.
#[tactic(auto, using(js_tree::proofs::Equations::tree_rules))]
fn literal_loc(expression: &Expr) -> Option<Loc>
    ensures { result ≡ found.literal_loc (plain_expr expression.now) }
{
    match expression.node {
        ExprNode::ArrayLiteral(_) | ExprNode::ObjectLiteral(_) => expression.loc,
        _ => None,
    }
}

/// Where the first of some expressions is that is an array or an object.
#[tactic(auto, using(js_tree::proofs::Equations::tree_rules))]
fn literal_item(expressions: &[Expr]) -> Option<Loc>
    ensures { result ≡ found.literal_item (plain_exprs expressions.now) }
{
    for expression in expressions {
        if let Some(location) = literal_loc(expression) {
            return Some(location);
        }
    }
    None
}

/// The same of a part.
fn item_of(part: &Piece) -> Option<Loc>
    ensures { result ≡ spec.item_of (plain_piece part.now) }
{
    match part {
        Piece::Expressions(_, list) => literal_item(list.items.as_slice()),
        _ => None,
    }
}

/// The same of the only part.
#[tactic(auto, using(crate::proofs::PartsLemmas::no_part_is))]
fn sole_item(parts: &[Piece]) -> Option<Loc>
    ensures { result ≡ spec.sole_item (plain_pieces parts.now) }
{
    match parts {
        [] => None,
        [first, others @ ..] => {
            if others.is_empty() {
                item_of(first)
            } else {
                None
            }
        }
    }
}

/// A form that an arrow on its line tells, if there is one.
fn before_body(location: Option<Loc>, token: Token<'_>) -> Option<(Unsupported, Loc)>
    ensures { result ≡ found.before_body location (plain_token token.entry) }
{
    let location = location?;
    if on_its_line(token) {
        Some((Unsupported::BindingPattern, location))
    } else {
        None
    }
}

/// A pattern among what stands in parentheses, where an arrow follows.
fn parameter_in(production: &Production, token: Token<'_>) -> Option<(Unsupported, Loc)>
    ensures { result ≡ spec.parameter_in production.now.form (plain_slots production.now.left) (plain_pieces production.now.parts) (plain_token token.entry) }
{
    if is_parentheses(production.form) && arrow_left(&production.left) && on_its_line(token) {
        before_body(sole_item(production.parts.as_slice()), token)
    } else {
        None
    }
}

/// A pattern among the parameters of an arrow, which begins its body with this token.
#[tactic(auto, using(crate::proofs::ParameterLemmas::parameter_is))]
pub(crate) fn parameter(
    place: &Place,
    stack: &Stack,
    token: Token<'_>,
) -> Option<(Unsupported, Loc)>
    ensures { result ≡ found.parameter (config place.now (frames stack.now)) (plain_token token.entry) }
{
    match place {
        Place::Due(production, _) => parameter_in(production, token),
        _ => None,
    }
}
