ghost use Rattle.std.specs.Prelude.{◌≡◌, None, IfOk, codes};
ghost use Rattle.js_tree.specs.Plain as tree;
ghost use Rattle.js_tree.specs.Tree.{plain_expr, plain_stmt, plain_stmts};
ghost use Rattle.cov_object.specs.Json.{file_data};
ghost use Rattle.cov_rewritten.specs.Counters as counters;
ghost use Rattle.cov_rewritten.specs.Preamble as spec;
ghost use Rattle.cov_preamble.specs.Pieces as pieces;

use crate::pieces::{
    assigned, at, differs, does, expression, function, member, name, not, only, or, parenthesized,
    returns, statement, var,
};
use crate::spelled::{json_string, quoted};
use crate::zero::zero_literal;
use cov_object::FileCoverage;
use items::{Boxed, Items, Memory, Text};
use js_tree::{Expr, ExprNode, Identifier, Spelled, Stmt, StmtNode};
use std::alloc::Global;

// `coverage[path]`
fn data(alloc: Global) -> Result<Expr, Memory>
    ensures { IfOk result (λ e. plain_expr e ≡ spec.data_of) }
{
    let coverage = name(alloc, "coverage")?;
    let path = name(alloc, "path")?;
    at(alloc, coverage, path)
}

// `global[gcv]`
fn held(alloc: Global) -> Result<Expr, Memory>
    ensures { IfOk result (λ e. plain_expr e ≡ spec.held_of) }
{
    let global = name(alloc, "global")?;
    let key = name(alloc, "gcv")?;
    at(alloc, global, key)
}

// `(global[gcv]={})`
#[tactic(auto, using(js_tree::proofs::Equations::tree_rules))]
fn made_anew(alloc: Global) -> Result<Expr, Memory>
    ensures { IfOk result (λ e. plain_expr e ≡ tree.Parenthesized None (spec.assigned spec.held_of (tree.ObjectLiteral None tree.no_property))) }
{
    let object = expression(ExprNode::ObjectLiteral(Items::new(alloc)));
    let target = held(alloc)?;
    let made = assigned(alloc, target, object)?;
    parenthesized(alloc, made)
}

// `var coverage=global[gcv]||(global[gcv]={});`
fn takes_coverage(alloc: Global) -> Result<Stmt, Memory>
    ensures { IfOk result (λ x. plain_stmt x ≡ pieces.takes_coverage) }
{
    let held = held(alloc)?;
    let made = made_anew(alloc)?;
    let value = or(alloc, held, made)?;
    var(alloc, "coverage", value)
}

// `!coverage[path]||coverage[path].hash!==hash`
fn has_other(alloc: Global) -> Result<Expr, Memory>
    ensures { IfOk result (λ e. plain_expr e ≡ pieces.has_other) }
{
    let data_there = data(alloc)?;
    let missing = not(alloc, data_there)?;
    let data_there = data(alloc)?;
    let held = member(alloc, data_there, "hash")?;
    let hash = name(alloc, "hash")?;
    let other = differs(alloc, held, hash)?;
    or(alloc, missing, other)
}

// `{ coverage[path]=data; }`
#[tactic(auto, using(js_tree::proofs::Equations::tree_rules))]
fn puts(alloc: Global) -> Result<Stmt, Memory>
    ensures { IfOk result (λ x. plain_stmt x ≡ pieces.puts) }
{
    let place = data(alloc)?;
    let value = name(alloc, "data")?;
    let put = assigned(alloc, place, value)?;
    let list = only(alloc, does(alloc, put)?)?;
    Ok(statement(StmtNode::Block(list)))
}

// `if(!coverage[path]||coverage[path].hash!==hash){ coverage[path]=data; }`
#[tactic(auto, using(js_tree::proofs::Equations::tree_rules))]
fn puts_data(alloc: Global) -> Result<Stmt, Memory>
    ensures { IfOk result (λ x. plain_stmt x ≡ tree.If None pieces.has_other pieces.puts tree.none_stmt) }
{
    let test = Boxed::new(alloc, has_other(alloc)?)?;
    let then = Boxed::new(alloc, puts(alloc)?)?;
    Ok(statement(StmtNode::If(test, then, None)))
}

// `return actual;`
fn answers(alloc: Global) -> Result<Stmt, Memory>
    ensures { IfOk result (λ x. plain_stmt x ≡ spec.returns (counters.name (codes "actual"))) }
{
    let actual = name(alloc, "actual")?;
    returns(alloc, actual)
}

// `function(){ return actual; }`
#[tactic(auto, using(js_tree::proofs::Equations::tree_rules))]
fn successor(alloc: Global) -> Result<Expr, Memory>
    ensures { IfOk result (λ e. plain_expr e ≡ pieces.successor) }
{
    let list = only(alloc, answers(alloc)?)?;
    let function = Boxed::new(alloc, function(alloc, list))?;
    Ok(expression(ExprNode::FunctionExpression(None, function)))
}

// `N=function(){ return actual; };`
fn replaces_itself(alloc: Global, own: &str) -> Result<Stmt, Memory>
    ensures { IfOk result (λ x. plain_stmt x ≡ spec.does (spec.assigned (counters.name own.now) pieces.successor)) }
{
    let target = name(alloc, own)?;
    let value = successor(alloc)?;
    let replaced = assigned(alloc, target, value)?;
    does(alloc, replaced)
}

// A string.
#[tactic(auto, using(js_tree::proofs::Equations::tree_rules))]
fn string(string: Spelled) -> Expr
    ensures { plain_expr result ≡ tree.StringLiteral None string }
{
    expression(ExprNode::StringLiteral(string))
}

// The statements of the file's function.
#[tactic(auto, using(js_tree::proofs::Equations::tree_rules))]
fn body(
    alloc: Global,
    own: &str,
    path: Spelled,
    hash: Spelled,
    zero: Expr,
) -> Result<Items<Stmt>, Memory>
    ensures { IfOk result (λ list. plain_stmts list ≡ spec.first_body own.now path hash (plain_expr zero)) }
{
    let mut list = Items::new(alloc);
    list.push(var(alloc, "path", string(path))?)?;
    list.push(var(alloc, "hash", string(hash))?)?;
    list.push(var(alloc, "gcv", string(quoted(alloc, "__coverage__")?))?)?;
    list.push(var(alloc, "data", zero)?)?;
    list.push(var(alloc, "global", name(alloc, "globalThis")?)?)?;
    list.push(takes_coverage(alloc)?)?;
    list.push(puts_data(alloc)?)?;
    list.push(var(alloc, "actual", data(alloc)?)?)?;
    list.push(replaces_itself(alloc, own)?)?;
    list.push(answers(alloc)?)?;
    Ok(list)
}

// The function of a file, and a call of it.
#[tactic(auto, using(js_tree::proofs::Equations::tree_rules))]
fn with_call(alloc: Global, own: &str, statements: Items<Stmt>) -> Result<Items<Stmt>, Memory>
    ensures { IfOk result (λ list. plain_stmts list ≡ pieces.with_call own.now (plain_stmts statements)) }
{
    let declared = Identifier {
        loc: None,
        name: Text::from_str(alloc, own)?,
    };
    let function = Boxed::new(alloc, function(alloc, statements))?;
    let mut list = only(
        alloc,
        statement(StmtNode::FunctionDeclaration(declared, function)),
    )?;
    list.push(calls(alloc, own)?)?;
    Ok(list)
}

// `N();`
#[tactic(auto, using(js_tree::proofs::Equations::tree_rules))]
fn calls(alloc: Global, own: &str) -> Result<Stmt, Memory>
    ensures { IfOk result (λ x. plain_stmt x ≡ spec.does (tree.Call None (counters.name own.now) tree.no_expr)) }
{
    let callee = Boxed::new(alloc, name(alloc, own)?)?;
    let call = expression(ExprNode::Call(callee, Items::new(alloc)));
    does(alloc, call)
}

// The hash of a file, an empty text where it has none.
fn hash_of(zero: &FileCoverage) -> &str
    ensures { result.now ≡ pieces.hash_of zero.now }
{
    match &zero.hash {
        Some(hash) => hash.as_str(),
        None => "",
    }
}

/// What stands before the statements of a counted file: a function of this name, which at its first
/// call puts the file's coverage under the global object, unless coverage with the same hash is there,
/// and then becomes one that only answers it; and a call of it. The coverage has a hash.
pub fn preamble(alloc: Global, own: &str, zero: &FileCoverage) -> Result<Items<Stmt>, Memory>
    ensures { IfOk result (λ list. plain_stmts list ≡ spec.preamble own.now zero.now.path (pieces.hash_of zero.now) (file_data zero.now)) }
{
    let path = json_string(alloc, zero.path.as_str())?;
    let hash = json_string(alloc, hash_of(zero))?;
    let value = zero_literal(alloc, zero)?;
    let statements = body(alloc, own, path, hash, value)?;
    with_call(alloc, own, statements)
}
