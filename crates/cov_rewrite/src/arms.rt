ghost use Rattle.std.specs.Prelude.{◌≡◌, ◌||◌, IfOk};
ghost use Rattle.js_tree.specs.Tree.{plain_stmt, plain_stmt_if, plain_stmts};
ghost use Rattle.cov_rewrite.specs.Blocks as spec;

use crate::blocks::{arm_of, missing_arm};
use items::{Boxed, Items, Memory};
use js_tree::Stmt;
use std::alloc::Global;

// A statement, and the counters that stand before it.
#[derive(Drop)]
pub(crate) struct Opened {
    pub(crate) counters: Items<Stmt>,
    pub(crate) statement: Stmt,
}

// The same of the arm after `else`, which may be missing.
#[derive(Drop)]
pub(crate) struct Arm {
    pub(crate) counters: Items<Stmt>,
    pub(crate) statement: Option<Boxed<Stmt>>,
}

// The arms of an `if`.
#[derive(Drop)]
pub(crate) struct Arms {
    pub(crate) then: Boxed<Stmt>,
    pub(crate) otherwise: Option<Boxed<Stmt>>,
}

// Whether there are statements.
#[tactic(auto, using(crate::proofs::Joined::some_rules))]
fn are_some(statements: &Items<Stmt>) -> bool
    ensures { result ≡ spec.are_some (plain_stmts statements.now) }
{
    !statements.is_empty()
}

// The arms with their counters: both become blocks, where one of them counts.
pub(crate) fn both_arms(alloc: Global, then: Opened, otherwise: Arm) -> Result<Arms, Memory>
    ensures then { IfOk result (λ r. plain_stmt r.then ≡ spec.arm_of (spec.are_some (plain_stmts then.counters) || spec.are_some (plain_stmts otherwise.counters)) (plain_stmts then.counters) (plain_stmt then.statement)) }
    ensures otherwise { IfOk result (λ r. plain_stmt_if r.otherwise ≡ spec.else_of (spec.are_some (plain_stmts then.counters) || spec.are_some (plain_stmts otherwise.counters)) (plain_stmts otherwise.counters) (plain_stmt_if otherwise.statement)) }
{
    let in_blocks = are_some(&then.counters) || are_some(&otherwise.counters);
    let then = arm_of(in_blocks, then.counters, then.statement)?;
    let otherwise = else_of(alloc, in_blocks, otherwise)?;
    Ok(Arms {
        then: Boxed::new(alloc, then)?,
        otherwise,
    })
}

// The arm after `else`: where it is missing, a block of its counters if there are any.
#[tactic(auto, using(js_tree::proofs::Equations::tree_rules))]
fn else_of(alloc: Global, in_a_block: bool, arm: Arm) -> Result<Option<Boxed<Stmt>>, Memory>
    ensures { IfOk result (λ r. plain_stmt_if r ≡ spec.else_of in_a_block (plain_stmts arm.counters) (plain_stmt_if arm.statement)) }
{
    let Arm {
        counters,
        statement,
    } = arm;
    match statement {
        None => missing_arm(alloc, counters),
        Some(statement) => {
            let made = arm_of(in_a_block, counters, statement.into_inner())?;
            Ok(Some(Boxed::new(alloc, made)?))
        }
    }
}
