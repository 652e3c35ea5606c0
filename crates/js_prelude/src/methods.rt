// The methods of the prelude.

ghost use Rattle.std.specs.Prelude.{◌≡◌, None, IfOk};
ghost use Rattle.js_tree.specs.Plain as tree;
ghost use Rattle.js_tree.specs.Tree.{plain_expr, plain_function, plain_param, plain_property, plain_stmt, plain_stmts};
ghost use Rattle.js_prelude.specs.Prelude as spec;

use crate::expressions::{assigned, at, both, name, prefixed};
use crate::parts::{
    called_here, called_with_value, each_index, guard, is_present, lengthens, result_length,
    returns_name, returns_none, returns_truth, takes_array, takes_element, takes_length,
};
use crate::statements::{block, does, when};
use items::{Boxed, Items, Memory, Text};
use js_tree::{
    Expr, Function, FunctionBody, Param, Pattern, PatternNode, Property, PropertyKey, PropertyNode,
    Stmt, UnaryOperator,
};
use std::alloc::Global;

// `forEach(f){..for(let i=0;i<n;i++) if(i in this)f(this[i],i,this);}`
#[tactic(auto, using(js_tree::proofs::Equations::tree_rules))]
pub(crate) fn for_each(alloc: Global) -> Result<Property, Memory>
    ensures { IfOk result (λ x. plain_property x ≡ spec.for_each) }
{
    let mut body = begun(alloc)?;
    let call = called_here(alloc)?;
    let turn = does(alloc, call)?;
    body.push(each_present(alloc, turn)?)?;
    method(alloc, "forEach", body)
}

// `map(f){..const r=[];for(let i=0;i<n;i++) if(i in this)r[i]=f(this[i],i,this);if(r.length<n)r.length=n;return r;}`
#[tactic(auto, using(js_tree::proofs::Equations::tree_rules))]
pub(crate) fn map(alloc: Global) -> Result<Property, Memory>
    ensures { IfOk result (λ x. plain_property x ≡ spec.map) }
{
    let mut body = begun(alloc)?;
    body.push(takes_array(alloc)?)?;
    let turn = maps(alloc)?;
    body.push(each_present(alloc, turn)?)?;
    body.push(lengthens(alloc)?)?;
    body.push(returns_name(alloc, "r")?)?;
    method(alloc, "map", body)
}

// `r[i]=f(this[i],i,this);`
fn maps(alloc: Global) -> Result<Stmt, Memory>
    ensures { IfOk result (λ x. plain_stmt x ≡ spec.maps) }
{
    let made = name(alloc, "r")?;
    let index = name(alloc, "i")?;
    let target = at(alloc, made, index)?;
    let value = called_here(alloc)?;
    let put = assigned(alloc, target, value)?;
    does(alloc, put)
}

// `filter(f){..const r=[];for(let i=0;i<n;i++) if(i in this){const v=this[i];if(f(v,i,this))r[r.length]=v;}return r;}`
#[tactic(auto, using(js_tree::proofs::Equations::tree_rules))]
pub(crate) fn filter(alloc: Global) -> Result<Property, Memory>
    ensures { IfOk result (λ x. plain_property x ≡ spec.filter) }
{
    let mut body = begun(alloc)?;
    body.push(takes_array(alloc)?)?;
    let kept = keeps(alloc)?;
    let turn = with_element(alloc, kept)?;
    body.push(each_present(alloc, turn)?)?;
    body.push(returns_name(alloc, "r")?)?;
    method(alloc, "filter", body)
}

// `if(f(v,i,this))r[r.length]=v;`
fn keeps(alloc: Global) -> Result<Stmt, Memory>
    ensures { IfOk result (λ x. plain_stmt x ≡ spec.keeps) }
{
    let test = called_with_value(alloc)?;
    let put = appends(alloc)?;
    when(alloc, test, put)
}

// `r[r.length]=v;`
fn appends(alloc: Global) -> Result<Stmt, Memory>
    ensures { IfOk result (λ x. plain_stmt x ≡ spec.appends) }
{
    let made = name(alloc, "r")?;
    let end = result_length(alloc)?;
    let target = at(alloc, made, end)?;
    let value = name(alloc, "v")?;
    let put = assigned(alloc, target, value)?;
    does(alloc, put)
}

// `some(f){..for(let i=0;i<n;i++) if(i in this&&f(this[i],i,this))return true;return false;}`
#[tactic(auto, using(js_tree::proofs::Equations::tree_rules))]
pub(crate) fn some(alloc: Global) -> Result<Property, Memory>
    ensures { IfOk result (λ x. plain_property x ≡ spec.some) }
{
    let mut body = begun(alloc)?;
    let holds = called_here(alloc)?;
    let answer = returns_truth(alloc, true)?;
    body.push(each_present_that(alloc, holds, answer)?)?;
    body.push(returns_truth(alloc, false)?)?;
    method(alloc, "some", body)
}

// `every(f){..for(let i=0;i<n;i++) if(i in this&&!f(this[i],i,this))return false;return true;}`
#[tactic(auto, using(js_tree::proofs::Equations::tree_rules))]
pub(crate) fn every(alloc: Global) -> Result<Property, Memory>
    ensures { IfOk result (λ x. plain_property x ≡ spec.every) }
{
    let mut body = begun(alloc)?;
    let fails = fails(alloc)?;
    let answer = returns_truth(alloc, false)?;
    body.push(each_present_that(alloc, fails, answer)?)?;
    body.push(returns_truth(alloc, true)?)?;
    method(alloc, "every", body)
}

// `!f(this[i],i,this)`
fn fails(alloc: Global) -> Result<Expr, Memory>
    ensures { IfOk result (λ e. plain_expr e ≡ spec.fails) }
{
    let call = called_here(alloc)?;
    prefixed(alloc, UnaryOperator::LogicalNot, call)
}

// `find(f){..for(let i=0;i<n;i++){const v=this[i];if(f(v,i,this))return v;}}`
#[tactic(auto, using(js_tree::proofs::Equations::tree_rules))]
pub(crate) fn find(alloc: Global) -> Result<Property, Memory>
    ensures { IfOk result (λ x. plain_property x ≡ spec.find) }
{
    let mut body = begun(alloc)?;
    let found = returns_found(alloc)?;
    let turn = with_element(alloc, found)?;
    body.push(each_index(alloc, turn)?)?;
    method(alloc, "find", body)
}

// `if(f(v,i,this))return v;`
fn returns_found(alloc: Global) -> Result<Stmt, Memory>
    ensures { IfOk result (λ x. plain_stmt x ≡ spec.returns_found) }
{
    let test = called_with_value(alloc)?;
    let answer = returns_name(alloc, "v")?;
    when(alloc, test, answer)
}

// `findIndex(f){..for(let i=0;i<n;i++) if(f(this[i],i,this))return i;return -1;}`
#[tactic(auto, using(js_tree::proofs::Equations::tree_rules))]
pub(crate) fn find_index(alloc: Global) -> Result<Property, Memory>
    ensures { IfOk result (λ x. plain_property x ≡ spec.find_index) }
{
    let mut body = begun(alloc)?;
    let turn = returns_index(alloc)?;
    body.push(each_index(alloc, turn)?)?;
    body.push(returns_none(alloc)?)?;
    method(alloc, "findIndex", body)
}

// `if(f(this[i],i,this))return i;`
fn returns_index(alloc: Global) -> Result<Stmt, Memory>
    ensures { IfOk result (λ x. plain_stmt x ≡ spec.returns_index) }
{
    let test = called_here(alloc)?;
    let answer = returns_name(alloc, "i")?;
    when(alloc, test, answer)
}

// `for(let i=0;i<n;i++) if(i in this)turn`
fn each_present(alloc: Global, turn: Stmt) -> Result<Stmt, Memory>
    ensures { IfOk result (λ x. plain_stmt x ≡ spec.each_index (spec.when spec.is_present (plain_stmt turn))) }
{
    let test = is_present(alloc)?;
    let turn = when(alloc, test, turn)?;
    each_index(alloc, turn)
}

// `for(let i=0;i<n;i++) if(i in this&&test)turn`
fn each_present_that(alloc: Global, test: Expr, turn: Stmt) -> Result<Stmt, Memory>
    ensures { IfOk result (λ x. plain_stmt x ≡ spec.each_index (spec.when (spec.both spec.is_present (plain_expr test)) (plain_stmt turn))) }
{
    let present = is_present(alloc)?;
    let test = both(alloc, present, test)?;
    let turn = when(alloc, test, turn)?;
    each_index(alloc, turn)
}

// `{const v=this[i];last}`
#[tactic(auto, using(js_tree::proofs::Equations::tree_rules))]
fn with_element(alloc: Global, last: Stmt) -> Result<Stmt, Memory>
    ensures { IfOk result (λ x. plain_stmt x ≡ spec.with_element (plain_stmt last)) }
{
    let mut list = Items::new(alloc);
    list.push(takes_element(alloc)?)?;
    list.push(last)?;
    Ok(block(list))
}

// What each method begins with.
#[tactic(auto, using(js_tree::proofs::Equations::tree_rules))]
fn begun(alloc: Global) -> Result<Items<Stmt>, Memory>
    ensures { IfOk result (λ list. plain_stmts list ≡ tree.more_stmt spec.guard (tree.more_stmt spec.takes_length tree.no_stmt)) }
{
    let mut list = Items::new(alloc);
    list.push(guard(alloc)?)?;
    list.push(takes_length(alloc)?)?;
    Ok(list)
}

// `word(f){statements}`
#[tactic(auto, using(js_tree::proofs::Equations::tree_rules))]
fn method(alloc: Global, word: &str, statements: Items<Stmt>) -> Result<Property, Memory>
    ensures { IfOk result (λ x. plain_property x ≡ spec.method_of word.now (plain_stmts statements)) }
{
    let word = Text::from_str(alloc, word)?;
    let function = Boxed::new(alloc, function(alloc, statements)?)?;
    Ok(Property {
        loc: None,
        node: PropertyNode::Method(PropertyKey::NameKey(word), function),
    })
}

#[tactic(auto, using(js_tree::proofs::Equations::tree_rules))]
fn function(alloc: Global, statements: Items<Stmt>) -> Result<Function, Memory>
    ensures { IfOk result (λ x. plain_function x ≡ spec.function_of (plain_stmts statements)) }
{
    let mut params = Items::new(alloc);
    params.push(parameter(alloc)?)?;
    Ok(Function {
        params,
        body: FunctionBody {
            loc: None,
            statements,
        },
    })
}

// `f`
#[tactic(auto, using(js_tree::proofs::Equations::tree_rules))]
fn parameter(alloc: Global) -> Result<Param, Memory>
    ensures { IfOk result (λ x. plain_param x ≡ spec.parameter) }
{
    let word = Text::from_str(alloc, "f")?;
    Ok(Param {
        loc: None,
        pattern: Pattern {
            loc: None,
            node: PatternNode::BindingIdentifier(word),
        },
        default: None,
    })
}
