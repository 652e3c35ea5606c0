ghost use Rattle.std.specs.Prelude.{◌≡◌, ◌∷◌, IfOk, Some};
ghost use Rattle.std.specs.Option.{option_map};
ghost use Rattle.js_tree.specs.Plain as tree;
ghost use Rattle.js_tree.specs.Tree.{plain_concise_body, plain_expr, plain_expr_node, plain_exprs, plain_param, plain_params};
ghost use Rattle.js_reading.specs.Makes as makes;
ghost use Rattle.js_reading.specs.Slots.{AnExpr, APlace};
ghost use Rattle.js_reading.specs.declared.form.Form.TheVariants as form;
ghost use Rattle.js_build.specs.Arrows.{default_of};
ghost use Rattle.js_build.specs.Callables.{concise_view, params_view};
ghost use Rattle.js_build.specs.View.{plain_pieces, Makes, MakesExpr};

use crate::callables::{body, braces};
use crate::make::{expression, nothing};
use crate::names::{discard_node, into_identifier};
use crate::parts::{MadeConcise, MadeParams};
use crate::piece::discard;
use crate::queue::{Pieces, Queue};
use crate::shapes::{is_over, take_expression};
use crate::tests::is_name;
use crate::{List, Operand, Piece};
use items::{Boxed, Items, Memory};
use js_tree::{
    AssignmentOperator, ConciseBody, Expr, ExprNode, Identifier, Loc, Name, Param, Pattern,
    PatternNode,
};
use std::alloc::Global;

/// A parameter with a default, that was read as an assignment.
#[tactic(auto, using(js_tree::proofs::Equations::tree_rules))]
fn default_param(loc: Option<Loc>, target: Boxed<Expr>, value: Boxed<Expr>) -> Option<Param>
    ensures { option_map plain_param result ≡ default_of loc (plain_expr target) (plain_expr value) }
{
    match into_identifier(target) {
        None => None,
        Some(Identifier { loc: at, name }) => Some(Param {
            loc,
            pattern: Pattern {
                loc: at,
                node: PatternNode::BindingIdentifier(name),
            },
            default: Some(value),
        }),
    }
}

/// A parameter that was read as an assignment by this operator (15.3).
#[tactic(auto, using(crate::proofs::ArrowLaws::assigned_default))]
fn assigned_param(
    loc: Option<Loc>,
    operator: AssignmentOperator,
    target: Boxed<Expr>,
    value: Boxed<Expr>,
) -> Option<Param>
    ensures { option_map plain_param result ≡ makes.param_of (tree.Assignment loc operator (plain_expr target) (plain_expr value)) }
{
    match operator {
        AssignmentOperator::Assign => default_param(loc, target, value),
        _ => None,
    }
}

/// A parameter without a default.
#[tactic(auto, using(js_tree::proofs::Equations::tree_rules))]
fn name_param(loc: Option<Loc>, name: Name) -> Param
    ensures { plain_param result ≡ tree.MakeParam loc (tree.BindingIdentifier loc name) tree.none_expr }
{
    Param {
        loc,
        pattern: Pattern {
            loc,
            node: PatternNode::BindingIdentifier(name),
        },
        default: None,
    }
}

/// A parameter that was read as an expression of this node (15.3).
#[tactic(auto, using(js_tree::proofs::Equations::tree_rules))]
fn node_param(loc: Option<Loc>, node: ExprNode) -> Option<Param>
    ensures { option_map plain_param result ≡ makes.param_of (plain_expr_node node loc) }
{
    match node {
        ExprNode::IdentifierReference(name) => Some(name_param(loc, name)),
        ExprNode::Assignment(operator, target, value) => {
            assigned_param(loc, operator, target, value)
        }
        other => {
            discard_node(other);
            None
        }
    }
}

/// A parameter that was read as an expression (15.3).
#[tactic(auto, using(js_tree::proofs::Equations::expr_made))]
fn into_param(expression: Expr) -> Option<Param>
    ensures { option_map plain_param result ≡ makes.param_of (plain_expr expression) }
{
    let (loc, node) = expression.into_parts();
    node_param(loc, node)
}

/// Parameters that were read as items in parentheses (15.3).
#[tactic(auto, using(js_tree::proofs::Equations::params_push, crate::proofs::ArrowLaws::params_rules))]
fn into_params(alloc: Global, list: List) -> Result<Option<MadeParams>, Memory>
    ensures { IfOk result (λ made. option_map params_view made ≡ makes.params_of (plain_exprs list.items)) }
{
    let height = list.height;
    let mut left = Queue::new(list.items.into_vec());
    let mut items = Items::new(alloc);
    'each: loop {
        match left.next() {
            None => break,
            Some(expression) => match into_param(expression) {
                None => return Ok(None),
                Some(param) => items.push(param)?,
            },
        }
    }
    Ok(Some(MadeParams { items, height }))
}

/// An arrow's body that is an expression.
#[tactic(auto, using(js_tree::proofs::Equations::concise_body_expression_body, crate::proofs::ArrowLaws::concise_expression))]
pub(crate) fn expression_body(
    alloc: Global,
    value: Operand,
    pieces: Pieces,
) -> Result<Option<MadeConcise>, Memory>
    ensures { IfOk result (λ made. option_map concise_view made ≡ makes.concise (AnExpr value.level (plain_expr value.tree) ∷ plain_pieces pieces)) }
{
    if !is_over(pieces) {
        return Ok(None);
    }
    let height = value.height;
    let last_level = value.last_level;
    let bare_in = value.bare_in;
    let tree = ConciseBody::ExpressionBody(value.tree.into_inner());
    Ok(Some(MadeConcise {
        tree: Boxed::new(alloc, tree)?,
        height,
        last_level,
        bare_in,
    }))
}

/// An arrow's body in braces, after the place of its `{`.
#[tactic(auto, using(js_tree::proofs::Equations::concise_body_block_body, crate::proofs::ArrowLaws::concise_place))]
pub(crate) fn block_body(
    alloc: Global,
    opening: Loc,
    mut pieces: Pieces,
) -> Result<Option<MadeConcise>, Memory>
    ensures { IfOk result (λ made. option_map concise_view made ≡ makes.concise (APlace opening ∷ plain_pieces pieces)) }
{
    let (statements, closing) = match braces(&mut pieces) {
        None => return Ok(None),
        Some(braces) => braces,
    };
    if !is_over(pieces) {
        return Ok(None);
    }
    let body = body(alloc, opening, statements, closing)?;
    let height = body.height;
    let tree = ConciseBody::BlockBody(body.tree);
    Ok(Some(MadeConcise {
        tree: Boxed::new(alloc, tree)?,
        height,
        last_level: 2,
        bare_in: false,
    }))
}

/// An arrow function.
#[tactic(auto, using(js_tree::proofs::Equations::expr_arrow_function, crate::proofs::ArrowLaws::arrow_measures))]
fn arrow_node(
    alloc: Global,
    place: Loc,
    params: MadeParams,
    body: MadeConcise,
) -> Result<Option<Piece>, Memory>
    ensures { MakesExpr result 2 (tree.ArrowFunction (Some place) 0 (plain_params params.items) (plain_concise_body body.tree)) }
{
    let parts = params.height.max(body.height);
    let last_level = body.last_level;
    let bare_in = body.bare_in;
    let node = ExprNode::ArrowFunction(params.items, body.tree);
    expression(alloc, 2, place, node, parts, last_level, bare_in)
}

/// An arrow function, if its parameters and its body are ones.
#[tactic(auto, using(crate::proofs::ArrowLaws::arrow_without))]
pub(crate) fn arrow(
    alloc: Global,
    place: Loc,
    list: List,
    body: Option<MadeConcise>,
) -> Result<Option<Piece>, Memory>
    ensures { Makes result (makes.arrow_of place (makes.params_of (plain_exprs list.items)) (option_map concise_view body)) }
{
    match body {
        None => nothing(),
        Some(body) => match into_params(alloc, list)? {
            None => nothing(),
            Some(params) => arrow_node(alloc, place, params, body),
        },
    }
}

/// An arrow function's body.
fn concise(alloc: Global, mut pieces: Pieces) -> Result<Option<MadeConcise>, Memory>
    ensures { IfOk result (λ made. option_map concise_view made ≡ makes.concise (plain_pieces pieces)) }
{
    match pieces.next() {
        Some(Piece::Expression(value)) => expression_body(alloc, value, pieces),
        Some(Piece::Place(opening)) => block_body(alloc, opening, pieces),
        other => {
            discard(other);
            Ok(None)
        }
    }
}

/// The list of one expression.
fn list_of_one(alloc: Global, operand: Operand) -> Result<List, Memory>
    ensures { IfOk result (λ list. plain_exprs list.items ≡ tree.more_expr (plain_expr operand.tree) tree.no_expr) }
{
    let height = operand.height;
    let mut items = Items::new(alloc);
    items.push(operand.tree.into_inner())?;
    Ok(List {
        items,
        height,
        joined: height,
    })
}

/// An arrow function whose parameter is a name without parentheses (15.3).
#[tactic(auto, using(crate::proofs::ArrowForms::arrow_of_name_form))]
pub(crate) fn arrow_of_name(
    alloc: Global,
    place: Loc,
    mut pieces: Pieces,
) -> Result<Option<Piece>, Memory>
    ensures { Makes result (makes.build form.ArrowOfName place (plain_pieces pieces)) }
{
    match take_expression(&mut pieces) {
        None => nothing(),
        Some(name) => {
            if is_name(name.tree.get()) {
                let body = concise(alloc, pieces)?;
                let list = list_of_one(alloc, name)?;
                arrow(alloc, place, list, body)
            } else {
                nothing()
            }
        }
    }
}
