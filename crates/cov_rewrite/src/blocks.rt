ghost use Rattle.std.specs.Prelude.{◌≡◌, None, false, IfOk, IfErr, OnOk};
ghost use Rattle.js_tree.specs.Plain as tree;
ghost use Rattle.js_tree.specs.Tree.{plain_concise_body, plain_expr, plain_stmt, plain_stmt_if, plain_stmts};
ghost use Rattle.cov_rewritten.specs.Rewritten.{joined, inside, block_place, after_directives};
ghost use Rattle.cov_rewrite.specs.Blocks as spec;

use items::{Boxed, Items, Memory};
use js_tree::{ConciseBody, Expr, FunctionBody, Loc, Stmt, StmtNode};
use std::alloc::Global;

// A block.
#[derive(Drop)]
struct Block {
    // Its place.
    loc: Option<Loc>,
    // Its statements.
    statements: Items<Stmt>,
}

// The parts of a block, or the statement back.
#[tactic(auto, using(js_tree::proofs::Equations::tree_rules))]
fn block_parts(x: Stmt) -> Result<Block, Stmt>
    ensures ok { IfOk result (λ block. plain_stmt x ≡ tree.Block block.loc (plain_stmts block.statements)) }
    ensures same { IfErr result (λ other. plain_stmt other ≡ plain_stmt x) }
    ensures err { IfErr result (λ other. spec.is_block (plain_stmt x) ≡ false) }
{
    let (loc, node) = x.into_parts();
    match node {
        StmtNode::Block(statements) => Ok(Block { loc, statements }),
        node => Err(Stmt { loc, node }),
    }
}

// Puts statements at the end.
#[tactic(auto, using(crate::proofs::Joined::joined_rules))]
pub(crate) fn append(out: &mut Items<Stmt>, statements: Items<Stmt>) -> Result<(), Memory>
    ensures { OnOk result (plain_stmts out.new ≡ joined (plain_stmts out.old) (plain_stmts statements)) }
{
    for statement in statements.into_vec() {
        out.push(statement)?;
    }
    Ok(())
}

// A block of these statements and of a block's own, or of another statement.
#[tactic(auto, using(crate::proofs::Joined::block_rules))]
fn in_block(before: Items<Stmt>, x: Stmt) -> Result<Stmt, Memory>
    ensures { IfOk result (λ r. plain_stmt r ≡ tree.Block (block_place (plain_stmt x)) (joined (plain_stmts before) (inside (plain_stmt x)))) }
{
    let mut out = before;
    match block_parts(x) {
        Ok(block) => {
            let Block { loc, statements } = block;
            append(&mut out, statements)?;
            Ok(Stmt {
                loc,
                node: StmtNode::Block(out),
            })
        }
        Err(other) => {
            out.push(other)?;
            Ok(Stmt {
                loc: None,
                node: StmtNode::Block(out),
            })
        }
    }
}

// A block of these statements and another, or the other alone where there are none.
#[tactic(auto, using(crate::proofs::Joined::block_rules))]
pub(crate) fn block_unless(before: Items<Stmt>, x: Stmt) -> Result<Stmt, Memory>
    ensures { IfOk result (λ r. plain_stmt r ≡ spec.block_unless (plain_stmts before) (plain_stmt x)) }
{
    if before.is_empty() {
        Ok(x)
    } else {
        in_block(before, x)
    }
}

// An arm of an `if`: a block, where it is said so.
#[tactic(auto, using(crate::proofs::Joined::block_rules))]
pub(crate) fn arm_of(in_a_block: bool, before: Items<Stmt>, x: Stmt) -> Result<Stmt, Memory>
    ensures { IfOk result (λ r. plain_stmt r ≡ spec.arm_of in_a_block (plain_stmts before) (plain_stmt x)) }
{
    if in_a_block {
        in_block(before, x)
    } else {
        Ok(x)
    }
}

// The arm that a missing one becomes: a block of these statements, where there are any.
#[tactic(auto, using(crate::proofs::Joined::block_rules))]
pub(crate) fn missing_arm(alloc: Global, before: Items<Stmt>) -> Result<Option<Boxed<Stmt>>, Memory>
    ensures { IfOk result (λ r. plain_stmt_if r ≡ spec.missing_of (plain_stmts before)) }
{
    if before.is_empty() {
        Ok(None)
    } else {
        let block = Stmt {
            loc: None,
            node: StmtNode::Block(before),
        };
        Ok(Some(Boxed::new(alloc, block)?))
    }
}

// An arrow's body: a block of these statements and one that returns the expression, where there are
// any.
#[tactic(auto, using(crate::proofs::Joined::block_rules))]
fn returning_after(alloc: Global, before: Items<Stmt>, value: Expr) -> Result<ConciseBody, Memory>
    ensures { IfOk result (λ r. plain_concise_body r ≡ spec.concise_of (plain_stmts before) (plain_expr value)) }
{
    if before.is_empty() {
        Ok(ConciseBody::ExpressionBody(value))
    } else {
        in_body(alloc, before, value)
    }
}

// The same of these statements and more.
pub(crate) fn returning(
    alloc: Global,
    before: Items<Stmt>,
    more: Items<Stmt>,
    value: Expr,
) -> Result<ConciseBody, Memory>
    ensures { IfOk result (λ r. plain_concise_body r ≡ spec.concise_of (joined (plain_stmts before) (plain_stmts more)) (plain_expr value)) }
{
    let mut before = before;
    append(&mut before, more)?;
    returning_after(alloc, before, value)
}

#[tactic(auto, using(crate::proofs::Joined::block_rules))]
fn in_body(alloc: Global, before: Items<Stmt>, value: Expr) -> Result<ConciseBody, Memory>
    ensures { IfOk result (λ r. plain_concise_body r ≡ tree.BlockBody (tree.MakeFunctionBody None (joined (plain_stmts before) (tree.more_stmt (tree.Return None (tree.some_expr (plain_expr value))) tree.no_stmt)))) }
{
    let mut statements = before;
    let value = Boxed::new(alloc, value)?;
    statements.push(Stmt {
        loc: None,
        node: StmtNode::Return(Some(value)),
    })?;
    Ok(ConciseBody::BlockBody(FunctionBody {
        loc: None,
        statements,
    }))
}

// Whether a statement is a directive.
#[tactic(auto, using(js_tree::proofs::Equations::tree_rules))]
fn is_directive(x: &Stmt) -> bool
    ensures { result ≡ spec.is_directive (plain_stmt x.now) }
{
    matches!(&x.node, StmtNode::Directive(_))
}

// Statements after the directives with which a body begins.
pub(crate) fn after_directives(
    alloc: Global,
    inserted: Items<Stmt>,
    body: Items<Stmt>,
) -> Result<Items<Stmt>, Memory>
    ensures { IfOk result (λ r. plain_stmts r ≡ after_directives (plain_stmts inserted) (plain_stmts body)) }
{
    let mut out = Items::new(alloc);
    let mut waiting = Some(inserted);
    for statement in body.into_vec() {
        waiting = put(&mut out, waiting, statement)?;
    }
    append_if(&mut out, waiting)?;
    Ok(out)
}

// Puts a statement at the end, and what waits before it if it is no directive. What still waits is
// given back.
#[tactic(auto, using(js_tree::proofs::Equations::tree_rules))]
fn put(
    out: &mut Items<Stmt>,
    waiting: Option<Items<Stmt>>,
    statement: Stmt,
) -> Result<Option<Items<Stmt>>, Memory>
    ensures out { OnOk result (plain_stmts out.new ≡ tree.push_stmts (spec.before_next (spec.is_directive (plain_stmt statement)) (plain_stmts out.old) (spec.waiting waiting)) (plain_stmt statement)) }
    ensures waits { IfOk result (λ left. left ≡ spec.still_waiting (spec.is_directive (plain_stmt statement)) waiting) }
{
    if is_directive(&statement) {
        out.push(statement)?;
        return Ok(waiting);
    }
    append_if(out, waiting)?;
    out.push(statement)?;
    Ok(None)
}

// Puts statements at the end, if there are any.
fn append_if(out: &mut Items<Stmt>, statements: Option<Items<Stmt>>) -> Result<(), Memory>
    ensures { OnOk result (plain_stmts out.new ≡ joined (plain_stmts out.old) (spec.waiting statements)) }
{
    match statements {
        None => Ok(()),
        Some(statements) => append(out, statements),
    }
}
