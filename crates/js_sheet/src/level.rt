ghost use Rattle.std.specs.Prelude.{◌≡◌, nat_lt, ◌==◌};
ghost use Rattle.js_tree.specs.Tree.{plain_expr};
ghost use Rattle.js_reading.specs.Level as levels;
ghost use Rattle.js_reading.specs.Productions.{call, logical_right};
ghost use Rattle.js_layout.specs.Neat as neat;
ghost use Rattle.js_sheet.specs.Openings as spec;

use js_tree::{BinaryOperator, Expr, ExprNode, LogicalOperator};

/// The level of a binary operator's expression (ECMA-262, 13.6 to 13.12).
fn binary_level(operator: BinaryOperator) -> u8
    ensures { result ≡ levels.binary_level operator }
{
    match operator {
        BinaryOperator::Exponentiate => 15,
        BinaryOperator::Multiply | BinaryOperator::Divide | BinaryOperator::Remainder => 14,
        BinaryOperator::Add | BinaryOperator::Subtract => 13,
        BinaryOperator::LeftShift
        | BinaryOperator::SignedRightShift
        | BinaryOperator::UnsignedRightShift => 12,
        BinaryOperator::LessThan
        | BinaryOperator::GreaterThan
        | BinaryOperator::LessThanOrEqual
        | BinaryOperator::GreaterThanOrEqual
        | BinaryOperator::InstanceOf
        | BinaryOperator::In => 11,
        BinaryOperator::Equal
        | BinaryOperator::NotEqual
        | BinaryOperator::StrictEqual
        | BinaryOperator::StrictNotEqual => 10,
        BinaryOperator::BitwiseAnd => 9,
        BinaryOperator::BitwiseXor => 8,
        BinaryOperator::BitwiseOr => 7,
    }
}

/// The least level of its left operand.
pub fn left_level(operator: BinaryOperator) -> u8
    ensures { result ≡ levels.left_level operator }
{
    match operator {
        BinaryOperator::Exponentiate => 17,
        _ => binary_level(operator),
    }
}

/// The least level of its right operand.
pub fn right_level(operator: BinaryOperator) -> u8
    ensures { result ≡ levels.right_level operator }
{
    match operator {
        BinaryOperator::Exponentiate => 15,
        _ => binary_level(operator) + 1,
    }
}

/// The level of a logical operator's expression (13.13).
pub(crate) fn logical_level(operator: LogicalOperator) -> u8
    ensures { result ≡ levels.logical_level operator }
{
    match operator {
        LogicalOperator::And => 6,
        LogicalOperator::Or => 5,
        LogicalOperator::Coalesce => 4,
    }
}

/// The least level of its right operand.
pub fn logical_right(operator: LogicalOperator) -> u8
    ensures { result ≡ logical_right operator }
{
    match operator {
        LogicalOperator::And => 7,
        LogicalOperator::Or => 6,
        LogicalOperator::Coalesce => 7,
    }
}

/// Whether an expression is a call, or a member of what is: those stand before the arguments of no
/// `new` (13.3.5).
#[cycle(calls)]
#[tactic(auto, using(js_tree::proofs::Equations::tree_rules))]
fn is_call(expr: &Expr) -> bool
    ensures { result ≡ (neat.level (plain_expr expr.now) == call) }
{
    match &expr.node {
        ExprNode::Call(_, _) => true,
        ExprNode::Parenthesized(inner) => is_call(inner.get()),
        ExprNode::NamedMember(object, _) | ExprNode::ComputedMember(object, _) => {
            is_call(object.get())
        }
        _ => false,
    }
}

/// How tightly an expression binds, pairs of parentheses looked through; of members and what stands
/// in brackets only that it is a call or tighter.
#[cycle(levels)]
#[tactic(auto, using(js_tree::proofs::Equations::tree_rules))]
pub fn is_looser(expr: &Expr, least: u8) -> bool
    ensures { result ≡ nat_lt (neat.level (plain_expr expr.now)) least }
{
    match &expr.node {
        ExprNode::Parenthesized(inner) => is_looser(inner.get(), least),
        ExprNode::NamedMember(object, _) | ExprNode::ComputedMember(object, _) => {
            least > 21 || (least == 21 && is_call(object.get()))
        }
        ExprNode::New(_, _) => least > 21,
        ExprNode::Call(_, _) => least > 20,
        ExprNode::PostfixUpdate(_, _) => least > 17,
        ExprNode::PrefixUpdate(_, _) => least > 17,
        ExprNode::Unary(_, _) => least > 16,
        ExprNode::Binary(operator, _, _) => least > binary_level(*operator),
        ExprNode::Logical(operator, _, _) => least > logical_level(*operator),
        ExprNode::Conditional(_, _, _) => least > 3,
        ExprNode::Assignment(_, _, _) => least > 2,
        ExprNode::ArrowFunction(_, _) => least > 2,
        ExprNode::Comma(_, _) => least > 1,
        ExprNode::IdentifierReference(_) => least > 22,
        ExprNode::This => least > 22,
        ExprNode::NullLiteral => least > 22,
        ExprNode::BooleanLiteral(_) => least > 22,
        ExprNode::NumericLiteral(_) => least > 22,
        ExprNode::StringLiteral(_) => least > 22,
        ExprNode::ArrayLiteral(_) => least > 22,
        ExprNode::ObjectLiteral(_) => least > 22,
        ExprNode::FunctionExpression(_, _) => least > 22,
        ExprNode::RegularExpressionLiteral(_, _) => least > 22,
        ExprNode::TemplateLiteral(_, _) => least > 22,
    }
}

/// Whether an expression is `&&` or `||`, with which `??` isn't mixed (13.13).
#[cycle(mixed)]
#[tactic(auto, using(js_tree::proofs::Equations::tree_rules))]
pub(crate) fn is_and_or(expr: &Expr) -> bool
    ensures { result ≡ spec.mixes (plain_expr expr.now) }
{
    match &expr.node {
        ExprNode::Parenthesized(inner) => is_and_or(inner.get()),
        ExprNode::Logical(operator, _, _) => !matches!(operator, LogicalOperator::Coalesce),
        _ => false,
    }
}

/// Whether an expression is a string.
#[cycle(string)]
#[tactic(auto, using(js_tree::proofs::Equations::tree_rules))]
pub(crate) fn is_string(expr: &Expr) -> bool
    ensures { result ≡ spec.is_text (plain_expr expr.now) }
{
    match &expr.node {
        ExprNode::Parenthesized(inner) => is_string(inner.get()),
        ExprNode::StringLiteral(_) => true,
        _ => false,
    }
}
