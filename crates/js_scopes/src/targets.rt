ghost use Rattle.std.specs.Prelude.{◌≡◌, ◌++◌, OnOk};
ghost use Rattle.js_scopes.specs.Targets as spec;
ghost use Rattle.js_tree.specs.Tree.{plain_expr};

use crate::fault::ScopeFaultKind;
use crate::faults::Faults;
use crate::place::start_of;
use items::Memory;
use js_tree::{Expr, ExprNode, UnaryOperator};

/// The name that an expression is, parentheses notwithstanding.
#[cycle(targets)]
#[tactic(auto, using(js_tree::proofs::Equations::tree_rules))]
fn bare_name(expr: &Expr, out: &mut Faults) -> Result<(), Memory>
    ensures { OnOk result (out.new ≡ out.old ++ spec.bare_name (plain_expr expr.now)) }
{
    match &expr.node {
        ExprNode::IdentifierReference(_) => {
            out.put(start_of(&expr.loc), ScopeFaultKind::BadTarget)
        }
        ExprNode::Parenthesized(inner) => bare_name(inner.get(), out),
        ExprNode::This => Ok(()),
        ExprNode::NullLiteral => Ok(()),
        ExprNode::BooleanLiteral(_) => Ok(()),
        ExprNode::NumericLiteral(_) => Ok(()),
        ExprNode::StringLiteral(_) => Ok(()),
        ExprNode::ArrayLiteral(_) => Ok(()),
        ExprNode::ObjectLiteral(_) => Ok(()),
        ExprNode::FunctionExpression(_, _) => Ok(()),
        ExprNode::ArrowFunction(_, _) => Ok(()),
        ExprNode::RegularExpressionLiteral(_, _) => Ok(()),
        ExprNode::TemplateLiteral(_, _) => Ok(()),
        ExprNode::NamedMember(_, _) => Ok(()),
        ExprNode::ComputedMember(_, _) => Ok(()),
        ExprNode::New(_, _) => Ok(()),
        ExprNode::Call(_, _) => Ok(()),
        ExprNode::PostfixUpdate(_, _) => Ok(()),
        ExprNode::PrefixUpdate(_, _) => Ok(()),
        ExprNode::Unary(_, _) => Ok(()),
        ExprNode::Binary(_, _, _) => Ok(()),
        ExprNode::Logical(_, _, _) => Ok(()),
        ExprNode::Conditional(_, _, _) => Ok(()),
        ExprNode::Assignment(_, _, _) => Ok(()),
        ExprNode::Comma(_, _) => Ok(()),
    }
}

/// What a unary expression deletes.
pub(crate) fn deleted(
    operator: UnaryOperator,
    operand: &Expr,
    out: &mut Faults,
) -> Result<(), Memory>
    ensures { OnOk result (out.new ≡ out.old ++ spec.deleted operator (plain_expr operand.now)) }
{
    match operator {
        UnaryOperator::Delete => bare_name(operand, out),
        _ => Ok(()),
    }
}
