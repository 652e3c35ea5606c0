ghost use Rattle.std.specs.Prelude.{◌≡◌, IfOk, IfErr, OnErr, false};
ghost use Rattle.js_tree.specs.Plain as tree;
ghost use Rattle.js_tree.specs.Tree.{plain_expr, plain_stmt, plain_stmts};
ghost use Rattle.js_reading.specs.Makes as makes;
ghost use Rattle.js_build.specs.Prologue.{directed_of, directive_of, is_string, is_string_statement};

use crate::Statements;
use crate::queue::Queue;
use items::{Boxed, Items, Memory};
use js_tree::{Expr, ExprNode, Spelled, Stmt, StmtNode};
use std::alloc::Global;

/// Whether an expression is a string.
#[tactic(auto, using(js_tree::proofs::Equations::tree_rules))]
fn is_string_expression(expression: &Expr) -> bool
    ensures { result ≡ is_string (plain_expr expression.now) }
{
    match expression.node {
        ExprNode::StringLiteral(_) => true,
        _ => false,
    }
}

/// Whether a statement is a string alone.
#[tactic(auto, using(js_tree::proofs::Equations::tree_rules))]
fn may_direct(statement: &Stmt) -> bool
    ensures { result ≡ is_string_statement (plain_stmt statement.now) }
{
    match &statement.node {
        StmtNode::Expression(inner) => is_string_expression(inner.get()),
        _ => false,
    }
}

/// The string that an expression is, or else the expression.
#[tactic(auto, using(js_tree::proofs::Equations::tree_rules))]
fn into_string(expression: Boxed<Expr>) -> Result<Spelled, Expr>
    ensures string { IfOk result (λ string. plain_expr expression ≡ tree.StringLiteral expression.loc string) }
    ensures same { IfErr result (λ other. other ≡ expression) }
    ensures other { OnErr result (is_string (plain_expr expression) ≡ false) }
{
    let (loc, node) = expression.into_inner().into_parts();
    match node {
        ExprNode::StringLiteral(string) => Ok(string),
        node => Err(Expr { loc, node }),
    }
}

/// A statement, as a directive where it is a string alone.
#[tactic(auto, using(js_tree::proofs::Equations::tree_rules, crate::proofs::Directives::no_directive))]
fn into_directive(alloc: Global, statement: Stmt) -> Result<Stmt, Memory>
    ensures { IfOk result (λ made. plain_stmt made ≡ directive_of (plain_stmt statement)) }
{
    let (loc, node) = statement.into_parts();
    match node {
        StmtNode::Expression(inner) => match into_string(inner) {
            Ok(string) => Ok(Stmt {
                loc,
                node: StmtNode::Directive(string),
            }),
            Err(inner) => Ok(Stmt {
                loc,
                node: StmtNode::Expression(Boxed::new(alloc, inner)?),
            }),
        },
        node => Ok(Stmt { loc, node }),
    }
}

/// A statement, as a directive where it may be one.
fn directed(alloc: Global, may: bool, statement: Stmt) -> Result<Stmt, Memory>
    ensures { IfOk result (λ made. plain_stmt made ≡ directed_of may (plain_stmt statement)) }
{
    if may {
        into_directive(alloc, statement)
    } else {
        Ok(statement)
    }
}

/// Statements whose first strings are directives (11.2.1).
#[tactic(auto, using(js_tree::proofs::Equations::stmts_push, crate::proofs::Directives::prologue_rules))]
pub fn with_directives(alloc: Global, statements: Statements) -> Result<Statements, Memory>
    ensures { IfOk result (λ made. plain_stmts made.items ≡ makes.with_directives (plain_stmts statements.items)) }
{
    let height = statements.height;
    let mut left = Queue::new(statements.items.into_vec());
    let mut items = Items::new(alloc);
    let mut prologue = true;
    'each: loop {
        match left.next() {
            None => break,
            Some(statement) => {
                prologue = prologue && may_direct(&statement);
                items.push(directed(alloc, prologue, statement)?)?;
            }
        }
    }
    Ok(Statements { items, height })
}
