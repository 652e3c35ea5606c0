// Statements that are inserted: they have no place.

ghost use Rattle.std.specs.Prelude.{◌≡◌, None, Some, IfOk};
ghost use Rattle.js_tree.specs.Plain as tree;
ghost use Rattle.js_tree.specs.Tree.{plain_declarators, plain_declarator, plain_expr, plain_for_init, plain_stmt, plain_stmt_node, plain_stmts};
ghost use Rattle.js_prelude.specs.Prelude as spec;

use items::{Boxed, Items, Memory, Text};
use js_tree::{Declarator, Expr, ForInit, Pattern, PatternNode, Stmt, StmtNode, VariableKind};
use std::alloc::Global;

#[tactic(auto, using(js_tree::proofs::Equations::tree_rules))]
fn statement(node: StmtNode) -> Stmt
    ensures { plain_stmt result ≡ plain_stmt_node node None }
{
    Stmt { loc: None, node }
}

// `expression;`
#[tactic(auto, using(js_tree::proofs::Equations::tree_rules))]
pub(crate) fn does(alloc: Global, expression: Expr) -> Result<Stmt, Memory>
    ensures { IfOk result (λ x. plain_stmt x ≡ spec.does (plain_expr expression)) }
{
    let expression = Boxed::new(alloc, expression)?;
    Ok(statement(StmtNode::Expression(expression)))
}

// `return value;`
#[tactic(auto, using(js_tree::proofs::Equations::tree_rules))]
pub(crate) fn returns(alloc: Global, value: Expr) -> Result<Stmt, Memory>
    ensures { IfOk result (λ x. plain_stmt x ≡ spec.returns (plain_expr value)) }
{
    let value = Boxed::new(alloc, value)?;
    Ok(statement(StmtNode::Return(Some(value))))
}

// `throw value;`
#[tactic(auto, using(js_tree::proofs::Equations::tree_rules))]
pub(crate) fn throws(alloc: Global, value: Expr) -> Result<Stmt, Memory>
    ensures { IfOk result (λ x. plain_stmt x ≡ spec.throws (plain_expr value)) }
{
    let value = Boxed::new(alloc, value)?;
    Ok(statement(StmtNode::Throw(value)))
}

// `if(test)holds`
#[tactic(auto, using(js_tree::proofs::Equations::tree_rules))]
pub(crate) fn when(alloc: Global, test: Expr, holds: Stmt) -> Result<Stmt, Memory>
    ensures { IfOk result (λ x. plain_stmt x ≡ spec.when (plain_expr test) (plain_stmt holds)) }
{
    let test = Boxed::new(alloc, test)?;
    let holds = Boxed::new(alloc, holds)?;
    Ok(statement(StmtNode::If(test, holds, None)))
}

// `{statements}`
#[tactic(auto, using(js_tree::proofs::Equations::tree_rules))]
pub(crate) fn block(statements: Items<Stmt>) -> Stmt
    ensures { plain_stmt result ≡ tree.Block None (plain_stmts statements) }
{
    statement(StmtNode::Block(statements))
}

// `const word=value;`
#[tactic(auto, using(js_tree::proofs::Equations::tree_rules))]
pub(crate) fn constant(alloc: Global, word: &str, value: Expr) -> Result<Stmt, Memory>
    ensures { IfOk result (λ x. plain_stmt x ≡ spec.constant word.now (plain_expr value)) }
{
    let list = initialized(alloc, word, value)?;
    let kind = VariableKind::Const;
    Ok(statement(StmtNode::VariableDeclaration(kind, list)))
}

// `for(let word=value;test;update)body`
#[tactic(auto, using(js_tree::proofs::Equations::tree_rules))]
pub(crate) fn counted(
    alloc: Global,
    init: ForInit,
    test: Expr,
    update: Expr,
    body: Stmt,
) -> Result<Stmt, Memory>
    ensures { IfOk result (λ x. plain_stmt x ≡ tree.For None (plain_for_init init) (tree.some_expr (plain_expr test)) (tree.some_expr (plain_expr update)) (plain_stmt body)) }
{
    let init = Boxed::new(alloc, init)?;
    let test = Boxed::new(alloc, test)?;
    let update = Boxed::new(alloc, update)?;
    let body = Boxed::new(alloc, body)?;
    Ok(statement(StmtNode::For(init, Some(test), Some(update), body)))
}

// `let word=value`, in the head of a `for`
#[tactic(auto, using(js_tree::proofs::Equations::tree_rules))]
pub(crate) fn starts(alloc: Global, word: &str, value: Expr) -> Result<ForInit, Memory>
    ensures { IfOk result (λ init. plain_for_init init ≡ spec.starts word.now (plain_expr value)) }
{
    let list = initialized(alloc, word, value)?;
    Ok(ForInit::InitDeclaration(VariableKind::Let, list))
}

// `word=value`
#[tactic(auto, using(js_tree::proofs::Equations::tree_rules))]
fn initialized(alloc: Global, word: &str, value: Expr) -> Result<Items<Declarator>, Memory>
    ensures { IfOk result (λ list. plain_declarators list ≡ spec.initialized word.now (plain_expr value)) }
{
    let declarator = declarator(alloc, word, value)?;
    let mut list = Items::new(alloc);
    list.push(declarator)?;
    Ok(list)
}

#[tactic(auto, using(js_tree::proofs::Equations::tree_rules))]
fn declarator(alloc: Global, word: &str, value: Expr) -> Result<Declarator, Memory>
    ensures { IfOk result (λ x. plain_declarator x ≡ tree.MakeDeclarator None (tree.BindingIdentifier None word.now) (tree.some_expr (plain_expr value))) }
{
    let word = Text::from_str(alloc, word)?;
    let value = Boxed::new(alloc, value)?;
    Ok(Declarator {
        loc: None,
        pattern: Pattern {
            loc: None,
            node: PatternNode::BindingIdentifier(word),
        },
        initializer: Some(value),
    })
}
