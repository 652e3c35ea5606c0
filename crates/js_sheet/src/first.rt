ghost use Rattle.std.specs.Prelude.{◌≡◌, nat_lt};
ghost use Rattle.js_tree.specs.Tree.{plain_expr};
ghost use Rattle.js_layout.specs.Neat as neat;
ghost use Rattle.js_sheet.specs.Openings as spec;

use crate::level::{is_and_or, is_looser, is_string, left_level, logical_level};
use crate::opening::Opening;
use js_tree::{Expr, ExprNode, LogicalOperator};

/// With what an expression begins whose parts have their parentheses.
#[cycle(first)]
#[tactic(auto, using(js_tree::proofs::Equations::tree_rules))]
fn opens_with(expr: &Expr) -> Opening
    ensures { result ≡ spec.opens (plain_expr expr.now) }
{
    match &expr.node {
        ExprNode::IdentifierReference(name) => if name.as_str() == "function" {
            Opening::Function
        } else {
            Opening::Other
        },
        ExprNode::ObjectLiteral(_) => Opening::Brace,
        ExprNode::FunctionExpression(_, _) => Opening::Function,
        ExprNode::Parenthesized(inner) => opens_with(inner.get()),
        ExprNode::NamedMember(object, _) => part_opens_with(object.get(), 20),
        ExprNode::ComputedMember(object, _) => part_opens_with(object.get(), 20),
        ExprNode::Call(callee, _) => part_opens_with(callee.get(), 20),
        ExprNode::PostfixUpdate(_, operand) => part_opens_with(operand.get(), 20),
        ExprNode::Assignment(_, target, _) => part_opens_with(target.get(), 20),
        ExprNode::Binary(operator, left, _) => part_opens_with(left.get(), left_level(*operator)),
        ExprNode::Logical(operator, left, _) => if stands_in_pair(*operator, left.get()) {
            Opening::Other
        } else {
            opens_with(left.get())
        },
        ExprNode::Conditional(test, _, _) => part_opens_with(test.get(), 4),
        ExprNode::Comma(left, _) => opens_with(left.get()),
        ExprNode::This => Opening::Other,
        ExprNode::NullLiteral => Opening::Other,
        ExprNode::BooleanLiteral(_) => Opening::Other,
        ExprNode::NumericLiteral(_) => Opening::Other,
        ExprNode::StringLiteral(_) => Opening::Other,
        ExprNode::ArrayLiteral(_) => Opening::Other,
        ExprNode::ArrowFunction(_, _) => Opening::Other,
        ExprNode::RegularExpressionLiteral(_, _) => Opening::Other,
        ExprNode::TemplateLiteral(_, _) => Opening::Other,
        ExprNode::New(_, _) => Opening::Other,
        ExprNode::PrefixUpdate(_, _) => Opening::Other,
        ExprNode::Unary(_, _) => Opening::Other,
    }
}

/// The same of a part whose place asks for a level.
#[cycle(first)]
fn part_opens_with(expr: &Expr, least: u8) -> Opening
    ensures { result ≡ spec.unless_pair (nat_lt (neat.level (plain_expr expr.now)) least) (spec.opens (plain_expr expr.now)) }
{
    if is_looser(expr, least) {
        Opening::Other
    } else {
        opens_with(expr)
    }
}

/// Whether the left operand of a logical operator stands in parentheses.
pub fn stands_in_pair(operator: LogicalOperator, left: &Expr) -> bool
    ensures { result ≡ spec.left_in_pair operator (plain_expr left.now) }
{
    is_looser(left, logical_level(operator))
        || (matches!(operator, LogicalOperator::Coalesce) && is_and_or(left))
}

/// Whether an expression statement of it stands in parentheses (ECMA-262, 14.5, 11.2.1).
pub fn stands_in_pair_as_statement(expr: &Expr) -> bool
    ensures { result ≡ spec.statement_in_pair (plain_expr expr.now) }
{
    matches!(opens_with(expr), Opening::Brace | Opening::Function) || is_string(expr)
}

/// Whether it stands in parentheses as the body of an arrow (15.3).
pub fn stands_in_pair_as_body(expr: &Expr) -> bool
    ensures { result ≡ spec.body_in_pair (plain_expr expr.now) }
{
    is_looser(expr, 2) || matches!(opens_with(expr), Opening::Brace)
}
