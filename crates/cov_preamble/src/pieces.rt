ghost use Rattle.std.specs.Prelude.{◌≡◌, None, Some, IfOk};
ghost use Rattle.js_terms.specs.declared.operators.BinaryOperator.TheVariants as binary;
ghost use Rattle.js_terms.specs.declared.operators.LogicalOperator.TheVariants as logic;
ghost use Rattle.js_terms.specs.declared.operators.UnaryOperator.TheVariants as unary;
ghost use Rattle.js_tree.specs.Plain as tree;
ghost use Rattle.js_tree.specs.Tree.{plain_declarator, plain_expr, plain_expr_node, plain_function, plain_stmt, plain_stmt_node, plain_stmts};
ghost use Rattle.cov_rewritten.specs.Counters as counters;
ghost use Rattle.cov_rewritten.specs.Preamble as spec;

use items::{Boxed, Items, Memory, Text};
use js_tree::{
    AssignmentOperator, BinaryOperator, Declarator, Expr, ExprNode, Function, FunctionBody,
    LogicalOperator, Pattern, PatternNode, Stmt, StmtNode, UnaryOperator, VariableKind,
};
use std::alloc::Global;

// What is inserted has no place.
#[tactic(auto, using(js_tree::proofs::Equations::tree_rules))]
pub(crate) fn expression(node: ExprNode) -> Expr
    ensures { plain_expr result ≡ plain_expr_node node None }
{
    Expr { loc: None, node }
}

#[tactic(auto, using(js_tree::proofs::Equations::tree_rules))]
pub(crate) fn statement(node: StmtNode) -> Stmt
    ensures { plain_stmt result ≡ plain_stmt_node node None }
{
    Stmt { loc: None, node }
}

// A name.
#[tactic(auto, using(js_tree::proofs::Equations::tree_rules))]
pub(crate) fn name(alloc: Global, text: &str) -> Result<Expr, Memory>
    ensures { IfOk result (λ e. plain_expr e ≡ counters.name text.now) }
{
    let text = Text::from_str(alloc, text)?;
    Ok(expression(ExprNode::IdentifierReference(text)))
}

// `e[key]`
#[tactic(auto, using(js_tree::proofs::Equations::tree_rules))]
pub(crate) fn at(alloc: Global, e: Expr, key: Expr) -> Result<Expr, Memory>
    ensures { IfOk result (λ r. plain_expr r ≡ spec.at (plain_expr e) (plain_expr key)) }
{
    let e = Boxed::new(alloc, e)?;
    let key = Boxed::new(alloc, key)?;
    Ok(expression(ExprNode::ComputedMember(e, key)))
}

// `target=value`
#[tactic(auto, using(js_tree::proofs::Equations::tree_rules))]
pub(crate) fn assigned(alloc: Global, target: Expr, value: Expr) -> Result<Expr, Memory>
    ensures { IfOk result (λ r. plain_expr r ≡ spec.assigned (plain_expr target) (plain_expr value)) }
{
    let target = Boxed::new(alloc, target)?;
    let value = Boxed::new(alloc, value)?;
    let operator = AssignmentOperator::Assign;
    Ok(expression(ExprNode::Assignment(operator, target, value)))
}

// `one||other`
#[tactic(auto, using(js_tree::proofs::Equations::tree_rules))]
pub(crate) fn or(alloc: Global, one: Expr, other: Expr) -> Result<Expr, Memory>
    ensures { IfOk result (λ r. plain_expr r ≡ tree.Logical None logic.Or (plain_expr one) (plain_expr other)) }
{
    let one = Boxed::new(alloc, one)?;
    let other = Boxed::new(alloc, other)?;
    Ok(expression(ExprNode::Logical(LogicalOperator::Or, one, other)))
}

// `!e`
#[tactic(auto, using(js_tree::proofs::Equations::tree_rules))]
pub(crate) fn not(alloc: Global, e: Expr) -> Result<Expr, Memory>
    ensures { IfOk result (λ r. plain_expr r ≡ tree.Unary None unary.LogicalNot (plain_expr e)) }
{
    let e = Boxed::new(alloc, e)?;
    Ok(expression(ExprNode::Unary(UnaryOperator::LogicalNot, e)))
}

// `one!==other`
#[tactic(auto, using(js_tree::proofs::Equations::tree_rules))]
pub(crate) fn differs(alloc: Global, one: Expr, other: Expr) -> Result<Expr, Memory>
    ensures { IfOk result (λ r. plain_expr r ≡ tree.Binary None binary.StrictNotEqual (plain_expr one) (plain_expr other)) }
{
    let one = Boxed::new(alloc, one)?;
    let other = Boxed::new(alloc, other)?;
    let operator = BinaryOperator::StrictNotEqual;
    Ok(expression(ExprNode::Binary(operator, one, other)))
}

// `(e)`
#[tactic(auto, using(js_tree::proofs::Equations::tree_rules))]
pub(crate) fn parenthesized(alloc: Global, e: Expr) -> Result<Expr, Memory>
    ensures { IfOk result (λ r. plain_expr r ≡ tree.Parenthesized None (plain_expr e)) }
{
    let e = Boxed::new(alloc, e)?;
    Ok(expression(ExprNode::Parenthesized(e)))
}

// `e.member`
#[tactic(auto, using(js_tree::proofs::Equations::tree_rules))]
pub(crate) fn member(alloc: Global, e: Expr, member: &str) -> Result<Expr, Memory>
    ensures { IfOk result (λ r. plain_expr r ≡ tree.NamedMember None (plain_expr e) member.now) }
{
    let e = Boxed::new(alloc, e)?;
    let member = Text::from_str(alloc, member)?;
    Ok(expression(ExprNode::NamedMember(e, member)))
}

// `var name=value;`
#[tactic(auto, using(js_tree::proofs::Equations::tree_rules))]
pub(crate) fn var(alloc: Global, name: &str, value: Expr) -> Result<Stmt, Memory>
    ensures { IfOk result (λ x. plain_stmt x ≡ spec.var_ name.now (plain_expr value)) }
{
    let declarator = declarator(alloc, name, value)?;
    let mut list = Items::new(alloc);
    list.push(declarator)?;
    let node = StmtNode::VariableDeclaration(VariableKind::Var, list);
    Ok(statement(node))
}

#[tactic(auto, using(js_tree::proofs::Equations::tree_rules))]
fn declarator(alloc: Global, name: &str, value: Expr) -> Result<Declarator, Memory>
    ensures { IfOk result (λ x. plain_declarator x ≡ tree.MakeDeclarator None (tree.BindingIdentifier None name.now) (tree.some_expr (plain_expr value))) }
{
    let name = Text::from_str(alloc, name)?;
    let value = Boxed::new(alloc, value)?;
    Ok(Declarator {
        loc: None,
        pattern: Pattern {
            loc: None,
            node: PatternNode::BindingIdentifier(name),
        },
        initializer: Some(value),
    })
}

// `e;`
#[tactic(auto, using(js_tree::proofs::Equations::tree_rules))]
pub(crate) fn does(alloc: Global, e: Expr) -> Result<Stmt, Memory>
    ensures { IfOk result (λ x. plain_stmt x ≡ spec.does (plain_expr e)) }
{
    let e = Boxed::new(alloc, e)?;
    Ok(statement(StmtNode::Expression(e)))
}

// `return e;`
#[tactic(auto, using(js_tree::proofs::Equations::tree_rules))]
pub(crate) fn returns(alloc: Global, e: Expr) -> Result<Stmt, Memory>
    ensures { IfOk result (λ x. plain_stmt x ≡ spec.returns (plain_expr e)) }
{
    let e = Boxed::new(alloc, e)?;
    Ok(statement(StmtNode::Return(Some(e))))
}

// A function without parameters.
#[tactic(auto, using(js_tree::proofs::Equations::tree_rules))]
pub(crate) fn function(alloc: Global, statements: Items<Stmt>) -> Function
    ensures { plain_function result ≡ tree.MakeFunction 0 tree.no_param (tree.MakeFunctionBody None (plain_stmts statements)) }
{
    Function {
        params: Items::new(alloc),
        body: FunctionBody {
            loc: None,
            statements,
        },
    }
}

// A list of one statement.
#[tactic(auto, using(js_tree::proofs::Equations::tree_rules))]
pub(crate) fn only(alloc: Global, x: Stmt) -> Result<Items<Stmt>, Memory>
    ensures { IfOk result (λ list. plain_stmts list ≡ tree.more_stmt (plain_stmt x) tree.no_stmt) }
{
    let mut list = Items::new(alloc);
    list.push(x)?;
    Ok(list)
}
