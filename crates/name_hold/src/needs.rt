ghost use Rattle.std.specs.Prelude.{◌≡◌};
ghost use Rattle.cov_rewritten.specs.Rewritten.{is_anonymous};
ghost use Rattle.js_tree.specs.Tree.{plain_expr};

use js_tree::{Expr, ExprNode};

/// Whether an expression is a function without a name of its own, parentheses notwithstanding, which
/// gets one where it is an initializer or a default (ECMA-262, 8.4.5). It takes no memory.
#[tactic(auto, using(js_tree::proofs::Equations::tree_rules))]
pub fn needs_hold(value: &Expr) -> bool
    ensures { result ≡ is_anonymous (plain_expr value.now) }
{
    match &value.node {
        ExprNode::FunctionExpression(name, _) => name.is_none(),
        ExprNode::ArrowFunction(_, _) => true,
        ExprNode::Parenthesized(inner) => needs_hold(inner.get()),
        _ => false,
    }
}
