ghost use Rattle.std.specs.Prelude.{◌≡◌, None, IfOk, OnOk};
ghost use Rattle.js_tree.specs.Plain as tree;
ghost use Rattle.js_tree.specs.Tree.{plain_expr, plain_exprs, plain_properties, plain_property};
ghost use Rattle.cov_rewritten.specs.Counters as counters;
ghost use Rattle.cov_rewritten.specs.Preamble as spec;

use crate::pieces::expression;
use crate::spelled::json_string;
use items::{Boxed, Items, Memory, Text};
use js_tree::{Expr, ExprNode, Property, PropertyKey, PropertyNode};
use std::alloc::Global;

// A number in decimal.
#[tactic(auto, using(crate::proofs::Small::small_rules))]
pub(crate) fn numeral(alloc: Global, number: u64) -> Result<Expr, Memory>
    ensures { IfOk result (λ e. plain_expr e ≡ counters.numeral number) }
{
    let text = Text::from_string(format!(in alloc; "{number}")?);
    Ok(expression(ExprNode::NumericLiteral(text)))
}

// A text.
#[tactic(auto, using(js_tree::proofs::Equations::tree_rules))]
pub(crate) fn string(alloc: Global, text: &str) -> Result<Expr, Memory>
    ensures { IfOk result (λ e. plain_expr e ≡ tree.StringLiteral None (spec.json_string text.now)) }
{
    let string = json_string(alloc, text)?;
    Ok(expression(ExprNode::StringLiteral(string)))
}

// A member of an object.
#[tactic(auto, using(js_tree::proofs::Equations::tree_rules))]
fn member(alloc: Global, key: &str, value: Expr) -> Result<Property, Memory>
    ensures { IfOk result (λ x. plain_property x ≡ tree.KeyValue None (tree.StringKey (spec.json_string key.now)) (plain_expr value)) }
{
    let key = json_string(alloc, key)?;
    let value = Boxed::new(alloc, value)?;
    Ok(Property {
        loc: None,
        node: PropertyNode::KeyValue(PropertyKey::StringKey(key), value),
    })
}

// Puts a member at the end of an object's.
#[tactic(auto, using(js_tree::proofs::Equations::tree_rules))]
pub(crate) fn put(
    alloc: Global,
    members: &mut Items<Property>,
    key: &str,
    value: Expr,
) -> Result<(), Memory>
    ensures { OnOk result (plain_properties members.new ≡ tree.push_properties (plain_properties members.old) (tree.KeyValue None (tree.StringKey (spec.json_string key.now)) (plain_expr value))) }
{
    members.push(member(alloc, key, value)?)
}

// An object.
#[tactic(auto, using(js_tree::proofs::Equations::tree_rules))]
pub(crate) fn object(members: Items<Property>) -> Expr
    ensures { plain_expr result ≡ tree.ObjectLiteral None (plain_properties members) }
{
    expression(ExprNode::ObjectLiteral(members))
}

// An array.
#[tactic(auto, using(js_tree::proofs::Equations::tree_rules))]
pub(crate) fn array(items: Items<Expr>) -> Expr
    ensures { plain_expr result ≡ tree.ArrayLiteral None (plain_exprs items) }
{
    expression(ExprNode::ArrayLiteral(items))
}
