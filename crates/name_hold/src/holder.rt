ghost use Rattle.std.specs.Prelude.{◌≡◌, ◌++◌, ◌∷◌, [], None, IfOk};
ghost use Rattle.js_tree.specs.Plain as tree;
ghost use Rattle.js_tree.specs.Tree.{plain_expr, plain_property};
ghost use Rattle.cov_rewritten.specs.Counters as spec;

use items::{Boxed, Items, Memory, Text};
use js_lexer::units_of;
use js_tree::{Expr, ExprNode, Name, Property, PropertyKey, PropertyNode, Spelled};
use std::alloc::Global;

/// What counts, and then the function with this name: `(COUNTER,{["f"]:FUNCTION}["f"])`.
pub fn hold(alloc: Global, counter: Expr, name: &Name, function: Expr) -> Result<Expr, Memory>
    ensures { IfOk result (λ held. plain_expr held ≡ spec.after_counter (plain_expr counter) (spec.with_name name.now (plain_expr function))) }
{
    let function = with_name(alloc, name, function)?;
    after_counter(alloc, counter, function)
}

/// What counts, and then a value: `(COUNTER,VALUE)`.
#[tactic(auto, using(js_tree::proofs::Equations::tree_rules))]
pub fn after_counter(alloc: Global, counter: Expr, value: Expr) -> Result<Expr, Memory>
    ensures { IfOk result (λ r. plain_expr r ≡ spec.after_counter (plain_expr counter) (plain_expr value)) }
{
    let counter = Boxed::new(alloc, counter)?;
    let both = Expr {
        loc: None,
        node: ExprNode::Comma(counter, Boxed::new(alloc, value)?),
    };
    Ok(Expr {
        loc: None,
        node: ExprNode::Parenthesized(Boxed::new(alloc, both)?),
    })
}

// An object that holds the function under the name, which it gets, and that member of it.
#[tactic(auto, using(js_tree::proofs::Equations::tree_rules))]
fn with_name(alloc: Global, name: &Name, function: Expr) -> Result<Expr, Memory>
    ensures { IfOk result (λ r. plain_expr r ≡ spec.with_name name.now (plain_expr function)) }
{
    let object = holder(alloc, name, function)?;
    let object = Boxed::new(alloc, object)?;
    let key = Boxed::new(alloc, quoted(alloc, name)?)?;
    Ok(Expr {
        loc: None,
        node: ExprNode::ComputedMember(object, key),
    })
}

#[tactic(auto, using(js_tree::proofs::Equations::tree_rules))]
fn holder(alloc: Global, name: &Name, function: Expr) -> Result<Expr, Memory>
    ensures { IfOk result (λ r. plain_expr r ≡ tree.ObjectLiteral None (tree.more_property (tree.KeyValue None (tree.ComputedKey (spec.text name.now)) (plain_expr function)) tree.no_property)) }
{
    let property = named(alloc, name, function)?;
    let mut properties = Items::new(alloc);
    properties.push(property)?;
    Ok(Expr {
        loc: None,
        node: ExprNode::ObjectLiteral(properties),
    })
}

#[tactic(auto, using(js_tree::proofs::Equations::tree_rules))]
fn named(alloc: Global, name: &Name, function: Expr) -> Result<Property, Memory>
    ensures { IfOk result (λ r. plain_property r ≡ tree.KeyValue None (tree.ComputedKey (spec.text name.now)) (plain_expr function)) }
{
    let key = Boxed::new(alloc, quoted(alloc, name)?)?;
    let value = Boxed::new(alloc, function)?;
    Ok(Property {
        loc: None,
        node: PropertyNode::KeyValue(PropertyKey::ComputedKey(key), value),
    })
}

// The name as a string.
#[tactic(auto, using(js_tree::proofs::Equations::tree_rules))]
fn quoted(alloc: Global, name: &Name) -> Result<Expr, Memory>
    ensures { IfOk result (λ r. plain_expr r ≡ spec.text name.now) }
{
    let string = in_quotes(alloc, name)?;
    Ok(Expr {
        loc: None,
        node: ExprNode::StringLiteral(string),
    })
}

fn in_quotes(alloc: Global, name: &Name) -> Result<Spelled, Memory>
    ensures { IfOk result (λ string. string ≡ spec.quoted name.now) }
{
    let spelling = spelling_of(alloc, name.as_str())?;
    let units = units_of(alloc, spelling.as_str())?;
    Ok(Spelled { spelling, units })
}

fn spelling_of(alloc: Global, name: &str) -> Result<Text, Memory>
    ensures { IfOk result (λ text. text ≡ 0x22 ∷ (name.now ++ 0x22 ∷ [])) }
{
    Ok(Text::from_string(format!(in alloc; "\"{name}\"")?))
}
