ghost use Rattle.std.specs.Prelude.{◌≡◌, ◌+◌, true, false, length, IfOk};
ghost use Rattle.js_tree.specs.Hints.{leaf_paths};
ghost use Rattle.js_tree.specs.Tree.{plain_expr, plain_expr_if, plain_expr_node, plain_exprs, plain_properties, plain_property, plain_property_key, plain_template_part, plain_template_parts};
ghost use Rattle.cov_rewritten.specs.Rewritten.{counted};
ghost use Rattle.cov_rewrite.specs.Made as made;
ghost use Rattle.cov_rewrite.specs.Numbers.{counts_of};
ghost use Rattle.cov_rewrite.specs.Site.{counter_of, heed_of};

use crate::counters::{counted, own_counter};
use crate::functions::{concise_body, function, inside, params};
use crate::numbering::{Numbers, function_place, in_branch, past};
use crate::site::Site;
use cov_hints::{place_as_written, place_of_body, place_of_concise, place_of_property};
use items::{Boxed, Items, Memory};
use js_tree::{
    ConstructKind, Expr, ExprNode, Loc, Property, PropertyKey, PropertyNode, TemplatePart,
};

// An operand of a chain of logical operators, and the next path of the chain's branch.
#[derive(Drop)]
struct Leafed {
    value: Boxed<Expr>,
    path: u64,
}

// An expression with its counters.
#[cycle(rewriting)]
#[tactic(auto, using(js_tree::proofs::Equations::tree_rules))]
pub(crate) fn expression(site: Site<'_>, numbers: &mut Numbers, x: Expr) -> Result<Expr, Memory>
    ensures tree { IfOk result (λ r. plain_expr r ≡ made.made_expr (counter_of site.entry) (heed_of site.entry) made.Alone (plain_expr x) (counts_of numbers.old)) }
    ensures next { IfOk result (λ _. counts_of numbers.new ≡ made.next_expr (heed_of site.entry) false (plain_expr x) (counts_of numbers.old)) }
{
    let (loc, node) = x.into_parts();
    let node = expression_node(site, numbers, loc, node)?;
    Ok(Expr { loc, node })
}

// What an expression that stands here is.
#[cycle(rewriting)]
#[tactic(auto, using(js_tree::proofs::Equations::tree_rules))]
fn expression_node(
    site: Site<'_>,
    numbers: &mut Numbers,
    loc: Option<Loc>,
    node: ExprNode,
) -> Result<ExprNode, Memory>
    ensures tree { IfOk result (λ r. plain_expr_node r loc ≡ made.made_expr (counter_of site.entry) (heed_of site.entry) made.Alone (plain_expr_node node loc) (counts_of numbers.old)) }
    ensures next { IfOk result (λ _. counts_of numbers.new ≡ made.next_expr (heed_of site.entry) false (plain_expr_node node loc) (counts_of numbers.old)) }
{
    match node {
        ExprNode::IdentifierReference(text) => Ok(ExprNode::IdentifierReference(text)),
        ExprNode::This => Ok(ExprNode::This),
        ExprNode::NullLiteral => Ok(ExprNode::NullLiteral),
        ExprNode::BooleanLiteral(value) => Ok(ExprNode::BooleanLiteral(value)),
        ExprNode::NumericLiteral(text) => Ok(ExprNode::NumericLiteral(text)),
        ExprNode::StringLiteral(string) => Ok(ExprNode::StringLiteral(string)),
        ExprNode::RegularExpressionLiteral(body, flags) => Ok(ExprNode::RegularExpressionLiteral(
            body, flags,
        )),
        ExprNode::ArrayLiteral(list) => {
            let list = expressions(site, numbers, list)?;
            Ok(ExprNode::ArrayLiteral(list))
        }
        ExprNode::ObjectLiteral(list) => {
            let list = properties(site, numbers, list)?;
            Ok(ExprNode::ObjectLiteral(list))
        }
        ExprNode::FunctionExpression(own, inner) => {
            let place = function_place(loc, &own, place_of_body(inner.get()));
            let inner = function(site, numbers, place, inner)?;
            Ok(ExprNode::FunctionExpression(own, inner))
        }
        ExprNode::ArrowFunction(list, body) => {
            let place = function_place(loc, &None, place_of_concise(body.get()));
            let counters = own_counter(site, numbers, ConstructKind::Function, place)?;
            let list = params(site, numbers, list)?;
            let body = concise_body(site, numbers, body, counters)?;
            Ok(ExprNode::ArrowFunction(list, body))
        }
        ExprNode::TemplateLiteral(first, parts) => {
            let parts = template_parts(site, numbers, parts)?;
            Ok(ExprNode::TemplateLiteral(first, parts))
        }
        ExprNode::Parenthesized(inner) => {
            let inner = boxed(site, numbers, inner)?;
            Ok(ExprNode::Parenthesized(inner))
        }
        ExprNode::NamedMember(object, member) => {
            let object = part(site, numbers, object)?;
            Ok(ExprNode::NamedMember(object, member))
        }
        ExprNode::ComputedMember(object, key) => {
            let object = part(site, numbers, object)?;
            let key = part(site, numbers, key)?;
            Ok(ExprNode::ComputedMember(object, key))
        }
        ExprNode::New(callee, list) => {
            let callee = part(site, numbers, callee)?;
            let list = expressions(site, numbers, list)?;
            Ok(ExprNode::New(callee, list))
        }
        ExprNode::Call(callee, list) => {
            let callee = part(site, numbers, callee)?;
            let list = expressions(site, numbers, list)?;
            Ok(ExprNode::Call(callee, list))
        }
        ExprNode::PostfixUpdate(operator, operand) => {
            let operand = part(site, numbers, operand)?;
            Ok(ExprNode::PostfixUpdate(operator, operand))
        }
        ExprNode::PrefixUpdate(operator, operand) => {
            let operand = part(site, numbers, operand)?;
            Ok(ExprNode::PrefixUpdate(operator, operand))
        }
        ExprNode::Unary(operator, operand) => {
            let operand = part(site, numbers, operand)?;
            Ok(ExprNode::Unary(operator, operand))
        }
        ExprNode::Binary(operator, one, other) => {
            let one = part(site, numbers, one)?;
            let other = part(site, numbers, other)?;
            Ok(ExprNode::Binary(operator, one, other))
        }
        ExprNode::Logical(operator, one, other) => {
            let branch = numbers.take(site.left, ConstructKind::Branch, loc)?;
            let one = operand(site, numbers, branch, 0, one)?;
            let other = operand(site, numbers, branch, one.path, other)?;
            Ok(ExprNode::Logical(operator, one.value, other.value))
        }
        ExprNode::Conditional(test, holds, fails) => {
            let branch = numbers.take(site.left, ConstructKind::Branch, loc)?;
            let test = part(site, numbers, test)?;
            let first = site.within(place_as_written(holds.get()));
            let second = site.within(place_as_written(fails.get()));
            let holds = by_path(first, numbers, branch, 0, holds)?;
            let fails = by_path(second, numbers, branch, past(first.left, 0)?, fails)?;
            Ok(ExprNode::Conditional(test, holds, fails))
        }
        ExprNode::Assignment(operator, target, value) => {
            let target = part(site, numbers, target)?;
            let value = part(site, numbers, value)?;
            Ok(ExprNode::Assignment(operator, target, value))
        }
        ExprNode::Comma(one, other) => {
            let one = part(site, numbers, one)?;
            let other = part(site, numbers, other)?;
            Ok(ExprNode::Comma(one, other))
        }
    }
}

// One in a box.
#[cycle(rewriting)]
#[tactic(auto, using(js_tree::proofs::Equations::tree_rules))]
fn boxed(site: Site<'_>, numbers: &mut Numbers, x: Boxed<Expr>) -> Result<Boxed<Expr>, Memory>
    ensures tree { IfOk result (λ r. plain_expr r ≡ made.made_expr (counter_of site.entry) (heed_of site.entry) made.Alone (plain_expr x) (counts_of numbers.old)) }
    ensures next { IfOk result (λ _. counts_of numbers.new ≡ made.next_expr (heed_of site.entry) false (plain_expr x) (counts_of numbers.old)) }
{
    let made = expression(site, numbers, x.into_inner())?;
    Boxed::new(site.alloc, made)
}

// One that is a part of another, or stands in a statement.
#[cycle(rewriting)]
#[tactic(auto, using(js_tree::proofs::Equations::tree_rules))]
pub(crate) fn part(
    site: Site<'_>,
    numbers: &mut Numbers,
    x: Boxed<Expr>,
) -> Result<Boxed<Expr>, Memory>
    ensures tree { IfOk result (λ r. plain_expr r ≡ made.made_expr (counter_of site.entry) (made.left_in (heed_of site.entry) (plain_expr x)) made.Alone (plain_expr x) (counts_of numbers.old)) }
    ensures next { IfOk result (λ _. counts_of numbers.new ≡ made.next_expr (made.left_in (heed_of site.entry) (plain_expr x)) false (plain_expr x) (counts_of numbers.old)) }
{
    boxed(site.within(place_as_written(x.get())), numbers, x)
}

// One that is a path of a branch.
#[cycle(rewriting)]
#[tactic(auto, using(js_tree::proofs::Equations::tree_rules))]
fn by_path(
    site: Site<'_>,
    numbers: &mut Numbers,
    branch: Option<u64>,
    path: u64,
    x: Boxed<Expr>,
) -> Result<Boxed<Expr>, Memory>
    ensures tree { IfOk result (λ r. plain_expr r ≡ counted (counter_of site.entry) (made.path_marks (heed_of site.entry) branch path) (made.made_expr (counter_of site.entry) (heed_of site.entry) made.Alone (plain_expr x) (counts_of numbers.old))) }
    ensures next { IfOk result (λ _. counts_of numbers.new ≡ made.next_expr (heed_of site.entry) false (plain_expr x) (counts_of numbers.old)) }
{
    let value = expression(site, numbers, x.into_inner())?;
    let number = in_branch(site.left, branch);
    let made = counted(site, ConstructKind::Branch, number, path, value)?;
    Boxed::new(site.alloc, made)
}

// An operand of a chain of logical operators.
#[cycle(rewriting)]
#[tactic(auto, using(js_tree::proofs::Equations::tree_rules))]
fn operand(
    site: Site<'_>,
    numbers: &mut Numbers,
    branch: Option<u64>,
    path: u64,
    x: Boxed<Expr>,
) -> Result<Leafed, Memory>
    ensures tree { IfOk result (λ r. plain_expr r.value ≡ made.leaf (counter_of site.entry) (made.left_in (heed_of site.entry) (plain_expr x)) (made.Among branch path) (plain_expr x) (made.made_expr (counter_of site.entry) (made.left_in (heed_of site.entry) (plain_expr x)) (made.Among branch path) (plain_expr x) (counts_of numbers.old))) }
    ensures path { IfOk result (λ r. r.path ≡ path + length (leaf_paths (made.left_in (heed_of site.entry) (plain_expr x)) (plain_expr x))) }
    ensures next { IfOk result (λ _. counts_of numbers.new ≡ made.next_expr (made.left_in (heed_of site.entry) (plain_expr x)) true (plain_expr x) (counts_of numbers.old)) }
{
    let inner = site.within(place_as_written(x.get()));
    chained(inner, numbers, branch, path, x)
}

// The same where it is told what is left in it.
#[cycle(rewriting)]
#[tactic(auto, using(js_tree::proofs::Equations::tree_rules))]
fn chained(
    site: Site<'_>,
    numbers: &mut Numbers,
    branch: Option<u64>,
    path: u64,
    x: Boxed<Expr>,
) -> Result<Leafed, Memory>
    ensures tree { IfOk result (λ r. plain_expr r.value ≡ made.leaf (counter_of site.entry) (heed_of site.entry) (made.Among branch path) (plain_expr x) (made.made_expr (counter_of site.entry) (heed_of site.entry) (made.Among branch path) (plain_expr x) (counts_of numbers.old))) }
    ensures path { IfOk result (λ r. r.path ≡ path + length (leaf_paths (heed_of site.entry) (plain_expr x))) }
    ensures next { IfOk result (λ _. counts_of numbers.new ≡ made.next_expr (heed_of site.entry) true (plain_expr x) (counts_of numbers.old)) }
{
    let (loc, node) = x.into_inner().into_parts();
    chained_node(site, numbers, branch, path, loc, node)
}

// What it is.
#[cycle(rewriting)]
#[tactic(auto, using(js_tree::proofs::Equations::tree_rules))]
fn chained_node(
    site: Site<'_>,
    numbers: &mut Numbers,
    branch: Option<u64>,
    path: u64,
    loc: Option<Loc>,
    node: ExprNode,
) -> Result<Leafed, Memory>
    ensures tree { IfOk result (λ r. plain_expr r.value ≡ made.leaf (counter_of site.entry) (heed_of site.entry) (made.Among branch path) (plain_expr_node node loc) (made.made_expr (counter_of site.entry) (heed_of site.entry) (made.Among branch path) (plain_expr_node node loc) (counts_of numbers.old))) }
    ensures path { IfOk result (λ r. r.path ≡ path + length (leaf_paths (heed_of site.entry) (plain_expr_node node loc))) }
    ensures next { IfOk result (λ _. counts_of numbers.new ≡ made.next_expr (heed_of site.entry) true (plain_expr_node node loc) (counts_of numbers.old)) }
{
    match node {
        ExprNode::Logical(operator, one, other) => {
            let one = operand(site, numbers, branch, path, one)?;
            let other = operand(site, numbers, branch, one.path, other)?;
            let node = ExprNode::Logical(operator, one.value, other.value);
            let value = Boxed::new(site.alloc, Expr { loc, node })?;
            Ok(Leafed {
                value,
                path: other.path,
            })
        }
        ExprNode::Parenthesized(inner) => {
            let inner = chained(site, numbers, branch, path, inner)?;
            let node = ExprNode::Parenthesized(inner.value);
            let value = Boxed::new(site.alloc, Expr { loc, node })?;
            Ok(Leafed {
                value,
                path: inner.path,
            })
        }
        node => counted_leaf(site, numbers, branch, path, loc, node),
    }
}

// A leaf of a chain.
#[cycle(rewriting)]
#[tactic(auto, using(js_tree::proofs::Equations::tree_rules))]
fn counted_leaf(
    site: Site<'_>,
    numbers: &mut Numbers,
    branch: Option<u64>,
    path: u64,
    loc: Option<Loc>,
    node: ExprNode,
) -> Result<Leafed, Memory>
    requires { made.is_leaf (plain_expr_node node loc) ≡ true }
    ensures tree { IfOk result (λ r. plain_expr r.value ≡ made.leaf (counter_of site.entry) (heed_of site.entry) (made.Among branch path) (plain_expr_node node loc) (made.made_expr (counter_of site.entry) (heed_of site.entry) (made.Among branch path) (plain_expr_node node loc) (counts_of numbers.old))) }
    ensures path { IfOk result (λ r. r.path ≡ path + length (leaf_paths (heed_of site.entry) (plain_expr_node node loc))) }
    ensures next { IfOk result (λ _. counts_of numbers.new ≡ made.next_expr (heed_of site.entry) true (plain_expr_node node loc) (counts_of numbers.old)) }
{
    let node = expression_node(site, numbers, loc, node)?;
    let number = in_branch(site.left, branch);
    let value = Expr { loc, node };
    let made = counted(site, ConstructKind::Branch, number, path, value)?;
    let value = Boxed::new(site.alloc, made)?;
    let path = past(site.left, path)?;
    Ok(Leafed { value, path })
}

// A list of expressions.
#[cycle(rewriting)]
#[tactic(auto, using(js_tree::proofs::Equations::tree_rules))]
fn expressions(
    site: Site<'_>,
    numbers: &mut Numbers,
    list: Items<Expr>,
) -> Result<Items<Expr>, Memory>
    ensures tree { IfOk result (λ r. plain_exprs r ≡ made.made_exprs (counter_of site.entry) (heed_of site.entry) (plain_exprs list) (counts_of numbers.old)) }
    ensures next { IfOk result (λ _. counts_of numbers.new ≡ made.next_exprs (heed_of site.entry) (plain_exprs list) (counts_of numbers.old)) }
{
    let mut out = Items::new(site.alloc);
    for each in list.into_vec() {
        let inner = site.within(place_as_written(&each));
        let made = expression(inner, numbers, each)?;
        out.push(made)?;
    }
    Ok(out)
}

// The parts of a template.
#[cycle(rewriting)]
#[tactic(auto, using(js_tree::proofs::Equations::tree_rules))]
fn template_parts(
    site: Site<'_>,
    numbers: &mut Numbers,
    list: Items<TemplatePart>,
) -> Result<Items<TemplatePart>, Memory>
    ensures tree { IfOk result (λ r. plain_template_parts r ≡ made.made_parts (counter_of site.entry) (heed_of site.entry) (plain_template_parts list) (counts_of numbers.old)) }
    ensures next { IfOk result (λ _. counts_of numbers.new ≡ made.next_parts (heed_of site.entry) (plain_template_parts list) (counts_of numbers.old)) }
{
    let mut out = Items::new(site.alloc);
    for each in list.into_vec() {
        let made = template_part(site, numbers, each)?;
        out.push(made)?;
    }
    Ok(out)
}

// One of them.
#[cycle(rewriting)]
#[tactic(auto, using(js_tree::proofs::Equations::tree_rules))]
fn template_part(
    site: Site<'_>,
    numbers: &mut Numbers,
    x: TemplatePart,
) -> Result<TemplatePart, Memory>
    ensures tree { IfOk result (λ r. plain_template_part r ≡ made.made_part (counter_of site.entry) (heed_of site.entry) (plain_template_part x) (counts_of numbers.old)) }
    ensures next { IfOk result (λ _. counts_of numbers.new ≡ made.next_part (heed_of site.entry) (plain_template_part x) (counts_of numbers.old)) }
{
    let TemplatePart { value, text } = x;
    let inner = site.within(place_as_written(&value));
    let value = expression(inner, numbers, value)?;
    Ok(TemplatePart { value, text })
}

// The properties of an object.
#[cycle(rewriting)]
#[tactic(auto, using(js_tree::proofs::Equations::tree_rules))]
fn properties(
    site: Site<'_>,
    numbers: &mut Numbers,
    list: Items<Property>,
) -> Result<Items<Property>, Memory>
    ensures tree { IfOk result (λ r. plain_properties r ≡ made.made_properties (counter_of site.entry) (heed_of site.entry) (plain_properties list) (counts_of numbers.old)) }
    ensures next { IfOk result (λ _. counts_of numbers.new ≡ made.next_properties (heed_of site.entry) (plain_properties list) (counts_of numbers.old)) }
{
    let mut out = Items::new(site.alloc);
    for each in list.into_vec() {
        let inner = site.within(place_of_property(&each));
        let made = property(inner, numbers, each)?;
        out.push(made)?;
    }
    Ok(out)
}

// One of them.
#[cycle(rewriting)]
#[tactic(auto, using(js_tree::proofs::Equations::tree_rules))]
fn property(site: Site<'_>, numbers: &mut Numbers, x: Property) -> Result<Property, Memory>
    ensures tree { IfOk result (λ r. plain_property r ≡ made.made_property (counter_of site.entry) (heed_of site.entry) (plain_property x) (counts_of numbers.old)) }
    ensures next { IfOk result (λ _. counts_of numbers.new ≡ made.next_property (heed_of site.entry) (plain_property x) (counts_of numbers.old)) }
{
    let Property { loc, node } = x;
    match node {
        PropertyNode::Shorthand(text) => Ok(Property {
            loc,
            node: PropertyNode::Shorthand(text),
        }),
        PropertyNode::KeyValue(key, value) => {
            let key = property_key(site, numbers, key)?;
            let value = part(site, numbers, value)?;
            Ok(Property {
                loc,
                node: PropertyNode::KeyValue(key, value),
            })
        }
        PropertyNode::Method(key, method) => {
            let place = function_place(loc, &None, place_of_body(method.get()));
            let counters = own_counter(site, numbers, ConstructKind::Function, place)?;
            let key = property_key(site, numbers, key)?;
            let method = inside(site, numbers, method, counters)?;
            Ok(Property {
                loc,
                node: PropertyNode::Method(key, method),
            })
        }
    }
}

// The key of a property.
#[cycle(rewriting)]
#[tactic(auto, using(js_tree::proofs::Equations::tree_rules))]
fn property_key(
    site: Site<'_>,
    numbers: &mut Numbers,
    x: PropertyKey,
) -> Result<PropertyKey, Memory>
    ensures tree { IfOk result (λ r. plain_property_key r ≡ made.made_key (counter_of site.entry) (heed_of site.entry) (plain_property_key x) (counts_of numbers.old)) }
    ensures next { IfOk result (λ _. counts_of numbers.new ≡ made.next_key (heed_of site.entry) (plain_property_key x) (counts_of numbers.old)) }
{
    match x {
        PropertyKey::NameKey(text) => Ok(PropertyKey::NameKey(text)),
        PropertyKey::StringKey(string) => Ok(PropertyKey::StringKey(string)),
        PropertyKey::NumberKey(text) => Ok(PropertyKey::NumberKey(text)),
        PropertyKey::ComputedKey(key) => Ok(PropertyKey::ComputedKey(part(site, numbers, key)?)),
    }
}

// An expression that may be missing.
#[cycle(rewriting)]
#[tactic(auto, using(js_tree::proofs::Equations::tree_rules))]
pub(crate) fn expression_if(
    site: Site<'_>,
    numbers: &mut Numbers,
    x: Option<Boxed<Expr>>,
) -> Result<Option<Boxed<Expr>>, Memory>
    ensures tree { IfOk result (λ r. plain_expr_if r ≡ made.made_maybe (counter_of site.entry) (heed_of site.entry) (plain_expr_if x) (counts_of numbers.old)) }
    ensures next { IfOk result (λ _. counts_of numbers.new ≡ made.next_maybe (heed_of site.entry) (plain_expr_if x) (counts_of numbers.old)) }
{
    match x {
        None => Ok(None),
        Some(value) => {
            let inner = site.within(place_as_written(value.get()));
            let made = expression(inner, numbers, value.into_inner())?;
            let made = Boxed::new(site.alloc, made)?;
            Ok(Some(made))
        }
    }
}
