ghost use Rattle.std.specs.Prelude.{◌≡◌, None, IfOk, drop};
ghost use Rattle.std.specs.Fmt.{signed_decimal};
ghost use Rattle.serde_json.specs.Data.{array as an_array, object as an_object};
ghost use Rattle.serde_json.specs.View.{number_view, view, items_view, members_view};
ghost use Rattle.js_terms.specs.declared.operators.UnaryOperator.TheVariants as unary;
ghost use Rattle.js_tree.specs.Plain as tree;
ghost use Rattle.js_tree.specs.Tree.{plain_expr};
ghost use Rattle.cov_object.specs.SourceMapText.{data_of};
ghost use Rattle.cov_rewritten.specs.Preamble as spec;

use crate::objects::{array, numeral, object, put, string};
use crate::pieces::expression;
use cov_object::{SourceMapText, read_value};
use items::{Boxed, Items, Memory, Text};
use js_tree::{Expr, ExprNode, UnaryOperator};
use serde_json::{Map, Number, Value};
use std::alloc::Global;

// `null`
#[tactic(auto, using(js_tree::proofs::Equations::tree_rules))]
fn null() -> Expr
    ensures { plain_expr result ≡ tree.NullLiteral None }
{
    expression(ExprNode::NullLiteral)
}

// `true` or `false`
#[tactic(auto, using(js_tree::proofs::Equations::tree_rules))]
fn truth(value: bool) -> Expr
    ensures { plain_expr result ≡ tree.BooleanLiteral None value }
{
    expression(ExprNode::BooleanLiteral(value))
}

// A number below zero: a minus before its digits.
#[tactic(auto, using(js_tree::proofs::Equations::tree_rules))]
fn negative(alloc: Global, number: i64) -> Result<Expr, Memory>
    ensures { IfOk result (λ e. plain_expr e ≡ tree.Unary None unary.Minus (tree.NumericLiteral None (drop 1 (signed_decimal number)))) }
{
    let spelled = format!(in alloc; "{number}")?;
    let digits = Text::from_str(alloc, &spelled.as_str()[1..])?;
    let literal = Boxed::new(alloc, expression(ExprNode::NumericLiteral(digits)))?;
    Ok(expression(ExprNode::Unary(UnaryOperator::Minus, literal)))
}

// A number; one that isn't whole stands as `null`.
fn number(alloc: Global, number: &Number) -> Result<Expr, Memory>
    ensures { IfOk result (λ e. plain_expr e ≡ spec.number_literal (number_view number.now)) }
{
    if let Some(whole) = number.as_u64() {
        return numeral(alloc, whole);
    }
    match number.as_i64() {
        Some(below) => negative(alloc, below),
        None => Ok(null()),
    }
}

// A value of JSON, as JSON spells it.
#[tactic(auto, using(js_tree::proofs::Equations::tree_rules))]
#[cycle(value)]
fn value(alloc: Global, value: &Value) -> Result<Expr, Memory>
    ensures { IfOk result (λ e. plain_expr e ≡ spec.literal (view value.now)) }
{
    match value {
        Value::Null => Ok(null()),
        Value::Bool(value) => Ok(truth(*value)),
        Value::Number(value) => number(alloc, value),
        Value::String(text) => string(alloc, text.as_str()),
        Value::Array(items) => values(alloc, items.as_slice()),
        Value::Object(members) => members_of(alloc, members),
    }
}

#[tactic(auto, using(js_tree::proofs::Equations::tree_rules))]
#[cycle(value)]
fn values(alloc: Global, items: &[Value]) -> Result<Expr, Memory>
    ensures { IfOk result (λ e. plain_expr e ≡ spec.literal (an_array (items_view items.now))) }
{
    let mut list = Items::new(alloc);
    for item in items {
        let spelled = value(alloc, item)?;
        list.push(spelled)?;
    }
    Ok(array(list))
}

#[tactic(auto, using(js_tree::proofs::Equations::tree_rules))]
#[cycle(value)]
fn members_of(alloc: Global, entries: &Map<String, Value>) -> Result<Expr, Memory>
    ensures { IfOk result (λ e. plain_expr e ≡ spec.literal (an_object (members_view entries.now.entries))) }
{
    let mut members = Items::new(alloc);
    for (key, entry) in entries.iter() {
        let spelled = value(alloc, entry)?;
        put(alloc, &mut members, key.as_str(), spelled)?;
    }
    Ok(object(members))
}

// The source map that a file's coverage keeps, as an expression.
pub(crate) fn source_map(alloc: Global, map: &SourceMapText) -> Result<Expr, Memory>
    ensures { IfOk result (λ e. plain_expr e ≡ spec.literal (data_of map.now)) }
{
    match read_value(alloc, map.as_str().as_bytes())? {
        Some(told) => value(alloc, &told),
        None => Ok(null()),
    }
}
