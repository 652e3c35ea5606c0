ghost use Rattle.std.specs.Prelude.{◌≡◌};
ghost use Rattle.js_tree.specs.Tree.{plain_expr, plain_stmt};
ghost use Rattle.js_reading.specs.Makes as makes;
ghost use Rattle.js_build.specs.Mixed as mixed;
ghost use Rattle.js_build.specs.NameTests as names;

use js_tree::{Expr, ExprNode, LogicalOperator, Stmt, StmtNode, VariableKind};

/// Whether an expression may be assigned to: a name or a member, without parentheses (13.15.1).
#[tactic(auto, using(js_tree::proofs::Equations::tree_rules))]
pub fn is_target(expression: &Expr) -> bool
    ensures { result ≡ makes.is_target (plain_expr expression.now) }
{
    match expression.node {
        ExprNode::IdentifierReference(_)
        | ExprNode::NamedMember(_, _)
        | ExprNode::ComputedMember(_, _) => true,
        _ => false,
    }
}

/// Whether a statement is a declaration, which stands in a list of statements only (14).
#[tactic(auto, using(js_tree::proofs::Equations::tree_rules))]
pub fn is_declaration(statement: &Stmt) -> bool
    ensures { result ≡ makes.is_declaration (plain_stmt statement.now) }
{
    match statement.node {
        StmtNode::FunctionDeclaration(_, _)
        | StmtNode::VariableDeclaration(VariableKind::Let | VariableKind::Const, _) => true,
        _ => false,
    }
}

/// Whether an expression is `&&` or `||` without parentheses (13.13).
#[tactic(auto, using(js_tree::proofs::Equations::tree_rules))]
fn is_and_or(expression: &Expr) -> bool
    ensures { result ≡ makes.is_and_or (plain_expr expression.now) }
{
    match expression.node {
        ExprNode::Logical(LogicalOperator::And | LogicalOperator::Or, _, _) => true,
        _ => false,
    }
}

/// Whether the operator is `??` and its left operand `&&` or `||` without parentheses (13.13).
pub(crate) fn is_mixed(operator: LogicalOperator, left: &Expr) -> bool
    ensures { result ≡ mixed.is_mixed operator (plain_expr left.now) }
{
    match operator {
        LogicalOperator::Coalesce => is_and_or(left),
        _ => false,
    }
}

/// Whether an expression is a name alone.
#[tactic(auto, using(js_tree::proofs::Equations::tree_rules))]
pub(crate) fn is_name(expression: &Expr) -> bool
    ensures { result ≡ names.is_name (plain_expr expression.now) }
{
    match expression.node {
        ExprNode::IdentifierReference(_) => true,
        _ => false,
    }
}

/// Whether an expression is the bare name `async` (14.7.5).
#[tactic(auto, using(js_tree::proofs::Equations::tree_rules))]
pub(crate) fn is_async(expression: &Expr) -> bool
    ensures { result ≡ makes.is_async (plain_expr expression.now) }
{
    match &expression.node {
        ExprNode::IdentifierReference(name) => name.as_str() == "async",
        _ => false,
    }
}
