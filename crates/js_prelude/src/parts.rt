// What the methods share.

ghost use Rattle.std.specs.Prelude.{◌≡◌, IfOk};
ghost use Rattle.js_tree.specs.Tree.{plain_expr, plain_exprs, plain_stmt};
ghost use Rattle.js_prelude.specs.Prelude as spec;

use crate::expressions::{
    assigned, at, call, constructed, empty_array, incremented, member, name, number, operation,
    prefixed, string, this, truth,
};
use crate::statements::{constant, counted, does, returns, starts, throws, when};
use items::{Items, Memory};
use js_tree::{BinaryOperator, Expr, Stmt, UnaryOperator};
use std::alloc::Global;

// `typeof f!=="function"`
fn no_function(alloc: Global) -> Result<Expr, Memory>
    ensures { IfOk result (λ e. plain_expr e ≡ spec.no_function) }
{
    let callback = name(alloc, "f")?;
    let kind = prefixed(alloc, UnaryOperator::TypeOf, callback)?;
    let wanted = string(alloc, "function")?;
    operation(alloc, BinaryOperator::StrictNotEqual, kind, wanted)
}

// `new TypeError("not a function")`
#[tactic(auto, using(js_tree::proofs::Equations::tree_rules))]
fn type_error(alloc: Global) -> Result<Expr, Memory>
    ensures { IfOk result (λ e. plain_expr e ≡ spec.type_error) }
{
    let message = string(alloc, "not a function")?;
    let mut arguments = Items::new(alloc);
    arguments.push(message)?;
    let constructor = name(alloc, "TypeError")?;
    constructed(alloc, constructor, arguments)
}

// `if(typeof f!=="function")throw new TypeError("not a function");`
pub(crate) fn guard(alloc: Global) -> Result<Stmt, Memory>
    ensures { IfOk result (λ x. plain_stmt x ≡ spec.guard) }
{
    let test = no_function(alloc)?;
    let error = type_error(alloc)?;
    let refusal = throws(alloc, error)?;
    when(alloc, test, refusal)
}

// `const n=this.length;`
pub(crate) fn takes_length(alloc: Global) -> Result<Stmt, Memory>
    ensures { IfOk result (λ x. plain_stmt x ≡ spec.takes_length) }
{
    let length = member(alloc, this(), "length")?;
    constant(alloc, "n", length)
}

// `const r=[];`
pub(crate) fn takes_array(alloc: Global) -> Result<Stmt, Memory>
    ensures { IfOk result (λ x. plain_stmt x ≡ spec.takes_array) }
{
    constant(alloc, "r", empty_array(alloc))
}

// `this[i]`
pub(crate) fn element(alloc: Global) -> Result<Expr, Memory>
    ensures { IfOk result (λ e. plain_expr e ≡ spec.element) }
{
    let index = name(alloc, "i")?;
    at(alloc, this(), index)
}

// `const v=this[i];`
pub(crate) fn takes_element(alloc: Global) -> Result<Stmt, Memory>
    ensures { IfOk result (λ x. plain_stmt x ≡ spec.takes_element) }
{
    let value = element(alloc)?;
    constant(alloc, "v", value)
}

// `i in this`
pub(crate) fn is_present(alloc: Global) -> Result<Expr, Memory>
    ensures { IfOk result (λ e. plain_expr e ≡ spec.is_present) }
{
    let index = name(alloc, "i")?;
    operation(alloc, BinaryOperator::In, index, this())
}

// `f(value,i,this)`
pub(crate) fn called(alloc: Global, value: Expr) -> Result<Expr, Memory>
    ensures { IfOk result (λ e. plain_expr e ≡ spec.called (plain_expr value)) }
{
    let callback = name(alloc, "f")?;
    let arguments = arguments(alloc, value)?;
    call(alloc, callback, arguments)
}

// `value,i,this`
#[tactic(auto, using(js_tree::proofs::Equations::tree_rules))]
fn arguments(alloc: Global, value: Expr) -> Result<Items<Expr>, Memory>
    ensures { IfOk result (λ list. plain_exprs list ≡ spec.arguments (plain_expr value)) }
{
    let mut list = Items::new(alloc);
    list.push(value)?;
    let index = name(alloc, "i")?;
    list.push(index)?;
    list.push(this())?;
    Ok(list)
}

// `f(this[i],i,this)`
pub(crate) fn called_here(alloc: Global) -> Result<Expr, Memory>
    ensures { IfOk result (λ e. plain_expr e ≡ spec.called spec.element) }
{
    let value = element(alloc)?;
    called(alloc, value)
}

// `f(v,i,this)`
pub(crate) fn called_with_value(alloc: Global) -> Result<Expr, Memory>
    ensures { IfOk result (λ e. plain_expr e ≡ spec.called spec.v) }
{
    let value = name(alloc, "v")?;
    called(alloc, value)
}

// `for(let i=0;i<n;i++)body`
pub(crate) fn each_index(alloc: Global, body: Stmt) -> Result<Stmt, Memory>
    ensures { IfOk result (λ x. plain_stmt x ≡ spec.each_index (plain_stmt body)) }
{
    let zero = number(alloc, "0")?;
    let init = starts(alloc, "i", zero)?;
    let test = below(alloc)?;
    let index = name(alloc, "i")?;
    let update = incremented(alloc, index)?;
    counted(alloc, init, test, update, body)
}

// `i<n`
fn below(alloc: Global) -> Result<Expr, Memory>
    ensures { IfOk result (λ e. plain_expr e ≡ spec.below spec.i) }
{
    let index = name(alloc, "i")?;
    let length = name(alloc, "n")?;
    operation(alloc, BinaryOperator::LessThan, index, length)
}

// `r.length`
pub(crate) fn result_length(alloc: Global) -> Result<Expr, Memory>
    ensures { IfOk result (λ e. plain_expr e ≡ spec.result_length) }
{
    let made = name(alloc, "r")?;
    member(alloc, made, "length")
}

// `if(r.length<n)r.length=n;`
pub(crate) fn lengthens(alloc: Global) -> Result<Stmt, Memory>
    ensures { IfOk result (λ x. plain_stmt x ≡ spec.lengthens) }
{
    let test = is_short(alloc)?;
    let target = result_length(alloc)?;
    let length = name(alloc, "n")?;
    let longer = assigned(alloc, target, length)?;
    let longer = does(alloc, longer)?;
    when(alloc, test, longer)
}

// `r.length<n`
fn is_short(alloc: Global) -> Result<Expr, Memory>
    ensures { IfOk result (λ e. plain_expr e ≡ spec.below spec.result_length) }
{
    let made = result_length(alloc)?;
    let length = name(alloc, "n")?;
    operation(alloc, BinaryOperator::LessThan, made, length)
}

// `return word;`
pub(crate) fn returns_name(alloc: Global, word: &str) -> Result<Stmt, Memory>
    ensures { IfOk result (λ x. plain_stmt x ≡ spec.returns (spec.name word.now)) }
{
    let value = name(alloc, word)?;
    returns(alloc, value)
}

// `return true;` or `return false;`
pub(crate) fn returns_truth(alloc: Global, value: bool) -> Result<Stmt, Memory>
    ensures { IfOk result (λ x. plain_stmt x ≡ spec.returns (spec.truth value)) }
{
    returns(alloc, truth(value))
}

// `return -1;`
pub(crate) fn returns_none(alloc: Global) -> Result<Stmt, Memory>
    ensures { IfOk result (λ x. plain_stmt x ≡ spec.returns_none) }
{
    let one = number(alloc, "1")?;
    let none = prefixed(alloc, UnaryOperator::Minus, one)?;
    returns(alloc, none)
}
