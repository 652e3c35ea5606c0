ghost use Rattle.std.specs.Prelude.{◌≡◌, [], IfOk};
ghost use Rattle.js_tree.specs.Plain as tree;
ghost use Rattle.js_tree.specs.Tree.{plain_expr, plain_file, plain_properties, plain_stmts};
ghost use Rattle.js_prelude.specs.Prelude as spec;

use crate::expressions::{expression, parenthesized};
use crate::methods::{every, filter, find, find_index, for_each, map, some};
use crate::statements::does;
use items::{Items, Memory};
use js_scopes::{Checked, ScopeFault, ScopeFaultKind, check};
use js_tree::{Expr, ExprNode, File, Property, Stmt};
use std::alloc::{AllocError, Global};

/// The tree of the host's prelude: an object whose methods are the functions of arrays that are
/// written in the language. Want of memory is the only error.
pub fn prelude(alloc: Global) -> Result<Checked, Memory>
    ensures { IfOk result (λ checked. plain_file checked ≡ spec.prelude_tree) }
{
    let file = file(alloc)?;
    match check(alloc, file) {
        Ok(checked) => Ok(checked),
        Err((_, ScopeFault { at: _, kind })) => match kind {
            ScopeFaultKind::Memory => Err(AllocError),
            _ => unreachable!(),
        },
    }
}

#[tactic(auto, unfolding(crate::specs::Prelude::prelude_tree), using(js_tree::proofs::Equations::tree_rules))]
fn file(alloc: Global) -> Result<File, Memory>
    ensures { IfOk result (λ file. plain_file file ≡ spec.prelude_tree) }
{
    Ok(File {
        body: body(alloc)?,
        comments: Items::new(alloc),
    })
}

// `({..});`
#[tactic(auto, using(js_tree::proofs::Equations::tree_rules))]
fn body(alloc: Global) -> Result<Items<Stmt>, Memory>
    ensures { IfOk result (λ list. plain_stmts list ≡ tree.more_stmt (spec.does (tree.Parenthesized None spec.object)) tree.no_stmt) }
{
    let object = parenthesized(alloc, object(alloc)?)?;
    let mut list = Items::new(alloc);
    list.push(does(alloc, object)?)?;
    Ok(list)
}

#[tactic(auto, using(js_tree::proofs::Equations::tree_rules))]
fn object(alloc: Global) -> Result<Expr, Memory>
    ensures { IfOk result (λ e. plain_expr e ≡ spec.object) }
{
    let methods = methods(alloc)?;
    Ok(expression(ExprNode::ObjectLiteral(methods)))
}

#[tactic(auto, using(js_tree::proofs::Equations::tree_rules))]
fn methods(alloc: Global) -> Result<Items<Property>, Memory>
    ensures { IfOk result (λ list. plain_properties list ≡ spec.methods) }
{
    let mut list = Items::new(alloc);
    list.push(for_each(alloc)?)?;
    list.push(map(alloc)?)?;
    list.push(filter(alloc)?)?;
    list.push(some(alloc)?)?;
    list.push(every(alloc)?)?;
    list.push(find(alloc)?)?;
    list.push(find_index(alloc)?)?;
    Ok(list)
}
