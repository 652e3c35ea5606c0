ghost use Rattle.std.specs.Prelude.{◌≡◌, ◌&&◌, not, nat_lt};
ghost use Rattle.js_tree.specs.Tree.{plain_expr};
ghost use Rattle.js_layout.specs.Neat as neat;
ghost use Rattle.js_sheet.specs.Openings as spec;

use crate::first::{stands_in_pair, stands_in_pair_as_body};
use crate::level::{is_looser, left_level, logical_right, right_level};
use js_tree::{BinaryOperator, ConciseBody, Expr, ExprNode, LogicalOperator};

/// Whether an operator is `in`.
fn is_in(operator: BinaryOperator) -> bool
    ensures { result ≡ spec.is_in operator }
{
    matches!(operator, BinaryOperator::In)
}

/// Whether `in` stands bare in an expression whose parts have their parentheses: in no brackets, and
/// not in the middle of a conditional.
#[cycle(bare)]
#[tactic(auto, using(js_tree::proofs::Equations::tree_rules))]
pub fn has_bare_in(expr: &Expr) -> bool
    ensures { result ≡ spec.bares (plain_expr expr.now) }
{
    match &expr.node {
        ExprNode::Parenthesized(inner) => has_bare_in(inner.get()),
        ExprNode::Binary(operator, left, right) => {
            let on_left = has_bare_in_part(left.get(), left_level(*operator));
            let on_right = has_bare_in_part(right.get(), right_level(*operator));
            is_in(*operator) | (on_left | on_right)
        }
        ExprNode::Logical(operator, left, right) => {
            let on_left = has_bare_in_left(*operator, left.get());
            let on_right = has_bare_in_part(right.get(), logical_right(*operator));
            on_left | on_right
        }
        ExprNode::Conditional(test, _, otherwise) => {
            let in_test = has_bare_in_part(test.get(), 4);
            let in_otherwise = has_bare_in_part(otherwise.get(), 2);
            in_test | in_otherwise
        }
        ExprNode::Assignment(_, _, value) => has_bare_in_part(value.get(), 2),
        ExprNode::Comma(left, right) => {
            let on_left = has_bare_in(left.get());
            let on_right = has_bare_in_part(right.get(), 2);
            on_left | on_right
        }
        ExprNode::PrefixUpdate(_, operand) => has_bare_in_part(operand.get(), 16),
        ExprNode::Unary(_, operand) => has_bare_in_part(operand.get(), 16),
        ExprNode::ArrowFunction(_, body) => match body.get() {
            ConciseBody::ExpressionBody(value) => has_bare_in_as_body(value),
            ConciseBody::BlockBody(_) => false,
        },
        ExprNode::IdentifierReference(_) => false,
        ExprNode::This => false,
        ExprNode::NullLiteral => false,
        ExprNode::BooleanLiteral(_) => false,
        ExprNode::NumericLiteral(_) => false,
        ExprNode::StringLiteral(_) => false,
        ExprNode::ArrayLiteral(_) => false,
        ExprNode::ObjectLiteral(_) => false,
        ExprNode::FunctionExpression(_, _) => false,
        ExprNode::RegularExpressionLiteral(_, _) => false,
        ExprNode::TemplateLiteral(_, _) => false,
        ExprNode::NamedMember(_, _) => false,
        ExprNode::ComputedMember(_, _) => false,
        ExprNode::New(_, _) => false,
        ExprNode::Call(_, _) => false,
        ExprNode::PostfixUpdate(_, _) => false,
    }
}

/// The same of a part whose place asks for a level.
#[cycle(bare)]
fn has_bare_in_part(expr: &Expr, least: u8) -> bool
    ensures { result ≡ (not (nat_lt (neat.level (plain_expr expr.now)) least) && spec.bares (plain_expr expr.now)) }
{
    !is_looser(expr, least) && has_bare_in(expr)
}

/// The same of the left operand of a logical operator.
#[cycle(bare)]
fn has_bare_in_left(operator: LogicalOperator, left: &Expr) -> bool
    ensures { result ≡ (not (spec.left_in_pair operator (plain_expr left.now)) && spec.bares (plain_expr left.now)) }
{
    !stands_in_pair(operator, left) && has_bare_in(left)
}

/// The same of the body of an arrow.
#[cycle(bare)]
fn has_bare_in_as_body(expr: &Expr) -> bool
    ensures { result ≡ (not (spec.body_in_pair (plain_expr expr.now)) && spec.bares (plain_expr expr.now)) }
{
    !stands_in_pair_as_body(expr) && has_bare_in(expr)
}

/// Whether it stands in parentheses as an initializer, in the head of a `for` (ECMA-262, 14.7.4) or
/// elsewhere.
pub fn stands_in_pair_as_initializer(head: bool, expr: &Expr) -> bool
    ensures { result ≡ spec.initializer_in_pair head (plain_expr expr.now) }
{
    is_looser(expr, 2) || (head && has_bare_in(expr))
}
