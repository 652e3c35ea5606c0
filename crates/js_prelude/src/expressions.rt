// Expressions that are inserted: they have no place.

ghost use Rattle.std.specs.Prelude.{◌≡◌, None, IfOk};
ghost use Rattle.js_tree.specs.Plain as tree;
ghost use Rattle.js_tree.specs.Tree.{plain_expr, plain_expr_node, plain_exprs};
ghost use Rattle.js_prelude.specs.Prelude as spec;

use items::{Boxed, Items, Memory, Text};
use js_tree::{
    AssignmentOperator, BinaryOperator, Expr, ExprNode, LogicalOperator, Spelled, UnaryOperator,
    UpdateOperator,
};
use std::alloc::Global;

#[tactic(auto, using(js_tree::proofs::Equations::tree_rules))]
pub(crate) fn expression(node: ExprNode) -> Expr
    ensures { plain_expr result ≡ plain_expr_node node None }
{
    Expr { loc: None, node }
}

// `this`
#[tactic(auto, using(js_tree::proofs::Equations::tree_rules))]
pub(crate) fn this() -> Expr
    ensures { plain_expr result ≡ spec.this }
{
    expression(ExprNode::This)
}

#[tactic(auto, using(js_tree::proofs::Equations::tree_rules))]
pub(crate) fn truth(value: bool) -> Expr
    ensures { plain_expr result ≡ spec.truth value }
{
    expression(ExprNode::BooleanLiteral(value))
}

#[tactic(auto, using(js_tree::proofs::Equations::tree_rules))]
pub(crate) fn name(alloc: Global, word: &str) -> Result<Expr, Memory>
    ensures { IfOk result (λ e. plain_expr e ≡ spec.name word.now) }
{
    let word = Text::from_str(alloc, word)?;
    Ok(expression(ExprNode::IdentifierReference(word)))
}

#[tactic(auto, using(js_tree::proofs::Equations::tree_rules))]
pub(crate) fn number(alloc: Global, digits: &str) -> Result<Expr, Memory>
    ensures { IfOk result (λ e. plain_expr e ≡ spec.number digits.now) }
{
    let digits = Text::from_str(alloc, digits)?;
    Ok(expression(ExprNode::NumericLiteral(digits)))
}

// `"text"`
#[tactic(auto, using(js_tree::proofs::Equations::tree_rules))]
pub(crate) fn string(alloc: Global, text: &str) -> Result<Expr, Memory>
    ensures { IfOk result (λ e. plain_expr e ≡ spec.string text.now) }
{
    let string = quoted(alloc, text)?;
    Ok(expression(ExprNode::StringLiteral(string)))
}

fn quoted(alloc: Global, text: &str) -> Result<Spelled, Memory>
    ensures { IfOk result (λ string. string ≡ spec.quoted text.now) }
{
    let units = units_of(alloc, text.as_bytes())?;
    let spelling = Text::from_string(format!(in alloc; "\"{text}\"")?);
    Ok(Spelled { spelling, units })
}

// The 16-bit units of ASCII characters.
fn units_of(alloc: Global, bytes: &[u8]) -> Result<Items<u16>, Memory>
    ensures { IfOk result (λ units. units ≡ bytes.now) }
{
    let mut units = Items::new(alloc);
    for byte in bytes {
        units.push(u16::from(*byte))?;
    }
    Ok(units)
}

// `[]`
#[tactic(auto, using(js_tree::proofs::Equations::tree_rules))]
pub(crate) fn empty_array(alloc: Global) -> Expr
    ensures { plain_expr result ≡ tree.ArrayLiteral None tree.no_expr }
{
    expression(ExprNode::ArrayLiteral(Items::new(alloc)))
}

// `object.word`
#[tactic(auto, using(js_tree::proofs::Equations::tree_rules))]
pub(crate) fn member(alloc: Global, object: Expr, word: &str) -> Result<Expr, Memory>
    ensures { IfOk result (λ e. plain_expr e ≡ spec.member (plain_expr object) word.now) }
{
    let object = Boxed::new(alloc, object)?;
    let word = Text::from_str(alloc, word)?;
    Ok(expression(ExprNode::NamedMember(object, word)))
}

// `object[key]`
#[tactic(auto, using(js_tree::proofs::Equations::tree_rules))]
pub(crate) fn at(alloc: Global, object: Expr, key: Expr) -> Result<Expr, Memory>
    ensures { IfOk result (λ e. plain_expr e ≡ spec.at (plain_expr object) (plain_expr key)) }
{
    let object = Boxed::new(alloc, object)?;
    let key = Boxed::new(alloc, key)?;
    Ok(expression(ExprNode::ComputedMember(object, key)))
}

// `(inner)`
#[tactic(auto, using(js_tree::proofs::Equations::tree_rules))]
pub(crate) fn parenthesized(alloc: Global, inner: Expr) -> Result<Expr, Memory>
    ensures { IfOk result (λ e. plain_expr e ≡ tree.Parenthesized None (plain_expr inner)) }
{
    let inner = Boxed::new(alloc, inner)?;
    Ok(expression(ExprNode::Parenthesized(inner)))
}

// `new constructor(arguments)`
#[tactic(auto, using(js_tree::proofs::Equations::tree_rules))]
pub(crate) fn constructed(
    alloc: Global,
    constructor: Expr,
    arguments: Items<Expr>,
) -> Result<Expr, Memory>
    ensures { IfOk result (λ e. plain_expr e ≡ tree.New None (plain_expr constructor) (plain_exprs arguments)) }
{
    let constructor = Boxed::new(alloc, constructor)?;
    Ok(expression(ExprNode::New(constructor, arguments)))
}

// `callee(arguments)`
#[tactic(auto, using(js_tree::proofs::Equations::tree_rules))]
pub(crate) fn call(alloc: Global, callee: Expr, arguments: Items<Expr>) -> Result<Expr, Memory>
    ensures { IfOk result (λ e. plain_expr e ≡ tree.Call None (plain_expr callee) (plain_exprs arguments)) }
{
    let callee = Boxed::new(alloc, callee)?;
    Ok(expression(ExprNode::Call(callee, arguments)))
}

// `operand++`
#[tactic(auto, using(js_tree::proofs::Equations::tree_rules))]
pub(crate) fn incremented(alloc: Global, operand: Expr) -> Result<Expr, Memory>
    ensures { IfOk result (λ e. plain_expr e ≡ spec.incremented (plain_expr operand)) }
{
    let operand = Boxed::new(alloc, operand)?;
    let operator = UpdateOperator::Increment;
    Ok(expression(ExprNode::PostfixUpdate(operator, operand)))
}

#[tactic(auto, using(js_tree::proofs::Equations::tree_rules))]
pub(crate) fn prefixed(
    alloc: Global,
    operator: UnaryOperator,
    operand: Expr,
) -> Result<Expr, Memory>
    ensures { IfOk result (λ e. plain_expr e ≡ spec.prefixed operator (plain_expr operand)) }
{
    let operand = Boxed::new(alloc, operand)?;
    Ok(expression(ExprNode::Unary(operator, operand)))
}

#[tactic(auto, using(js_tree::proofs::Equations::tree_rules))]
pub(crate) fn operation(
    alloc: Global,
    operator: BinaryOperator,
    left: Expr,
    right: Expr,
) -> Result<Expr, Memory>
    ensures { IfOk result (λ e. plain_expr e ≡ spec.operation operator (plain_expr left) (plain_expr right)) }
{
    let left = Boxed::new(alloc, left)?;
    let right = Boxed::new(alloc, right)?;
    Ok(expression(ExprNode::Binary(operator, left, right)))
}

// `left&&right`
#[tactic(auto, using(js_tree::proofs::Equations::tree_rules))]
pub(crate) fn both(alloc: Global, left: Expr, right: Expr) -> Result<Expr, Memory>
    ensures { IfOk result (λ e. plain_expr e ≡ spec.both (plain_expr left) (plain_expr right)) }
{
    let left = Boxed::new(alloc, left)?;
    let right = Boxed::new(alloc, right)?;
    Ok(expression(ExprNode::Logical(LogicalOperator::And, left, right)))
}

// `target=value`
#[tactic(auto, using(js_tree::proofs::Equations::tree_rules))]
pub(crate) fn assigned(alloc: Global, target: Expr, value: Expr) -> Result<Expr, Memory>
    ensures { IfOk result (λ e. plain_expr e ≡ spec.assigned (plain_expr target) (plain_expr value)) }
{
    let target = Boxed::new(alloc, target)?;
    let value = Boxed::new(alloc, value)?;
    let operator = AssignmentOperator::Assign;
    Ok(expression(ExprNode::Assignment(operator, target, value)))
}
