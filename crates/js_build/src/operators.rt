ghost use Rattle.std.specs.Prelude.{Some};
ghost use Rattle.js_tree.specs.Plain as tree;
ghost use Rattle.js_tree.specs.Tree.{plain_expr};
ghost use Rattle.js_reading.specs.Level.{binary_level, logical_level};
ghost use Rattle.js_reading.specs.Makes.{build};
ghost use Rattle.js_reading.specs.declared.form.Form.TheVariants as form;
ghost use Rattle.js_build.specs.View.{plain_pieces, Makes, MakesExpr};

use crate::level::{binary_level, has_bare_in, logical_level};
use crate::make::{expression, nothing};
use crate::queue::Pieces;
use crate::shapes::{one_expression, three_expressions, two_expressions};
use crate::tests::{is_mixed, is_target};
use crate::{Operand, Piece};
use items::Memory;
use js_tree::{
    AssignmentOperator, BinaryOperator, ExprNode, Loc, LogicalOperator, UnaryOperator,
    UpdateOperator,
};
use std::alloc::Global;

/// An update operator after its operand.
#[tactic(auto, using(crate::proofs::Nodes::postfix_rules))]
fn postfix_node(
    alloc: Global,
    place: Loc,
    operator: UpdateOperator,
    operand: Operand,
) -> Result<Option<Piece>, Memory>
    ensures { MakesExpr result 17 (tree.PostfixUpdate (Some place) operator (plain_expr operand.tree)) }
{
    let parts = operand.height;
    let last_level = 17;
    let bare_in = false;
    let node = ExprNode::PostfixUpdate(operator, operand.tree);
    expression(alloc, 17, place, node, parts, last_level, bare_in)
}

/// An update operator before its operand.
#[tactic(auto, using(crate::proofs::Nodes::prefix_rules))]
fn prefix_node(
    alloc: Global,
    place: Loc,
    operator: UpdateOperator,
    operand: Operand,
) -> Result<Option<Piece>, Memory>
    ensures { MakesExpr result 17 (tree.PrefixUpdate (Some place) operator (plain_expr operand.tree)) }
{
    let parts = operand.height;
    let last_level = operand.last_level;
    let bare_in = operand.bare_in;
    let node = ExprNode::PrefixUpdate(operator, operand.tree);
    expression(alloc, 17, place, node, parts, last_level, bare_in)
}

/// A unary operator and its operand.
#[tactic(auto, using(crate::proofs::Nodes::unary_rules))]
fn unary_node(
    alloc: Global,
    place: Loc,
    operator: UnaryOperator,
    operand: Operand,
) -> Result<Option<Piece>, Memory>
    ensures { MakesExpr result 16 (tree.Unary (Some place) operator (plain_expr operand.tree)) }
{
    let parts = operand.height;
    let last_level = operand.last_level;
    let bare_in = operand.bare_in;
    let node = ExprNode::Unary(operator, operand.tree);
    expression(alloc, 16, place, node, parts, last_level, bare_in)
}

/// A binary operator and its operands.
#[tactic(auto, using(crate::proofs::Nodes::binary_rules))]
fn binary_node(
    alloc: Global,
    place: Loc,
    operator: BinaryOperator,
    left: Operand,
    right: Operand,
) -> Result<Option<Piece>, Memory>
    ensures { MakesExpr result (binary_level operator) (tree.Binary (Some place) operator (plain_expr left.tree) (plain_expr right.tree)) }
{
    let parts = left.height.max(right.height);
    let last_level = right.last_level;
    let bare_in = has_bare_in(operator, left.bare_in, right.bare_in);
    let node = ExprNode::Binary(operator, left.tree, right.tree);
    expression(
        alloc,
        binary_level(operator),
        place,
        node,
        parts,
        last_level,
        bare_in,
    )
}

/// A logical operator and its operands.
#[tactic(auto, using(crate::proofs::Nodes::logical_rules))]
fn logical_node(
    alloc: Global,
    place: Loc,
    operator: LogicalOperator,
    left: Operand,
    right: Operand,
) -> Result<Option<Piece>, Memory>
    ensures { MakesExpr result (logical_level operator) (tree.Logical (Some place) operator (plain_expr left.tree) (plain_expr right.tree)) }
{
    let parts = left.height.max(right.height);
    let last_level = right.last_level;
    let bare_in = left.bare_in | right.bare_in;
    let node = ExprNode::Logical(operator, left.tree, right.tree);
    expression(
        alloc,
        logical_level(operator),
        place,
        node,
        parts,
        last_level,
        bare_in,
    )
}

/// A condition and its arms.
#[tactic(auto, using(crate::proofs::Nodes::conditional_rules))]
fn conditional_node(
    alloc: Global,
    place: Loc,
    test: Operand,
    then: Operand,
    otherwise: Operand,
) -> Result<Option<Piece>, Memory>
    ensures { MakesExpr result 3 (tree.Conditional (Some place) (plain_expr test.tree) (plain_expr then.tree) (plain_expr otherwise.tree)) }
{
    let parts = test.height.max(then.height.max(otherwise.height));
    let last_level = otherwise.last_level;
    let bare_in = test.bare_in | otherwise.bare_in;
    let node = ExprNode::Conditional(test.tree, then.tree, otherwise.tree);
    expression(alloc, 3, place, node, parts, last_level, bare_in)
}

/// An assignment to a target.
#[tactic(auto, using(crate::proofs::Nodes::assignment_rules))]
fn assignment_node(
    alloc: Global,
    place: Loc,
    operator: AssignmentOperator,
    target: Operand,
    value: Operand,
) -> Result<Option<Piece>, Memory>
    ensures { MakesExpr result 2 (tree.Assignment (Some place) operator (plain_expr target.tree) (plain_expr value.tree)) }
{
    let parts = target.height.max(value.height);
    let last_level = value.last_level;
    let bare_in = value.bare_in;
    let node = ExprNode::Assignment(operator, target.tree, value.tree);
    expression(alloc, 2, place, node, parts, last_level, bare_in)
}

/// Two expressions with a comma between.
#[tactic(auto, using(crate::proofs::Nodes::comma_rules))]
pub(crate) fn comma_node(
    alloc: Global,
    place: Loc,
    left: Operand,
    right: Operand,
) -> Result<Option<Piece>, Memory>
    ensures { MakesExpr result 1 (tree.Comma (Some place) (plain_expr left.tree) (plain_expr right.tree)) }
{
    let parts = left.height.max(right.height);
    let last_level = right.last_level;
    let bare_in = left.bare_in | right.bare_in;
    let node = ExprNode::Comma(left.tree, right.tree);
    expression(alloc, 1, place, node, parts, last_level, bare_in)
}

/// An update operator after a target (13.4.2, 13.4.3).
#[tactic(auto, using(crate::proofs::Forms::postfix_form))]
pub(crate) fn postfix(
    alloc: Global,
    place: Loc,
    operator: UpdateOperator,
    pieces: Pieces,
) -> Result<Option<Piece>, Memory>
    ensures { Makes result (build (form.Postfix operator) place (plain_pieces pieces)) }
{
    match one_expression(pieces) {
        None => nothing(),
        Some(operand) => {
            if is_target(operand.tree.get()) {
                postfix_node(alloc, place, operator, operand)
            } else {
                nothing()
            }
        }
    }
}

/// An update operator before a target (13.4.4, 13.4.5).
#[tactic(auto, using(crate::proofs::Forms::prefix_update_form))]
pub(crate) fn prefix_update(
    alloc: Global,
    place: Loc,
    operator: UpdateOperator,
    pieces: Pieces,
) -> Result<Option<Piece>, Memory>
    ensures { Makes result (build (form.PrefixUpdate operator) place (plain_pieces pieces)) }
{
    match one_expression(pieces) {
        None => nothing(),
        Some(operand) => {
            if is_target(operand.tree.get()) {
                prefix_node(alloc, place, operator, operand)
            } else {
                nothing()
            }
        }
    }
}

/// A unary operator (13.5).
#[tactic(auto, using(crate::proofs::Forms::unary_form))]
pub(crate) fn unary(
    alloc: Global,
    place: Loc,
    operator: UnaryOperator,
    pieces: Pieces,
) -> Result<Option<Piece>, Memory>
    ensures { Makes result (build (form.Unary operator) place (plain_pieces pieces)) }
{
    match one_expression(pieces) {
        None => nothing(),
        Some(operand) => unary_node(alloc, place, operator, operand),
    }
}

/// A binary operator (13.6 to 13.12).
#[tactic(auto, using(crate::proofs::Forms::binary_form))]
pub(crate) fn binary(
    alloc: Global,
    place: Loc,
    operator: BinaryOperator,
    pieces: Pieces,
) -> Result<Option<Piece>, Memory>
    ensures { Makes result (build (form.Binary operator) place (plain_pieces pieces)) }
{
    match two_expressions(pieces) {
        None => nothing(),
        Some((left, right)) => binary_node(alloc, place, operator, left, right),
    }
}

/// A logical operator; `??` isn't mixed with the others (13.13).
#[tactic(auto, using(crate::proofs::Forms::logical_form))]
pub(crate) fn logical(
    alloc: Global,
    place: Loc,
    operator: LogicalOperator,
    pieces: Pieces,
) -> Result<Option<Piece>, Memory>
    ensures { Makes result (build (form.Logical operator) place (plain_pieces pieces)) }
{
    match two_expressions(pieces) {
        None => nothing(),
        Some((left, right)) => {
            if is_mixed(operator, left.tree.get()) {
                nothing()
            } else {
                logical_node(alloc, place, operator, left, right)
            }
        }
    }
}

/// A conditional (13.14).
#[tactic(auto, using(crate::proofs::Forms::conditional_form))]
pub(crate) fn conditional(
    alloc: Global,
    place: Loc,
    pieces: Pieces,
) -> Result<Option<Piece>, Memory>
    ensures { Makes result (build (form.Conditional) place (plain_pieces pieces)) }
{
    match three_expressions(pieces) {
        None => nothing(),
        Some((test, then, otherwise)) => conditional_node(alloc, place, test, then, otherwise),
    }
}

/// An assignment (13.15).
#[tactic(auto, using(crate::proofs::Forms::assignment_form))]
pub(crate) fn assignment(
    alloc: Global,
    place: Loc,
    operator: AssignmentOperator,
    pieces: Pieces,
) -> Result<Option<Piece>, Memory>
    ensures { Makes result (build (form.Assignment operator) place (plain_pieces pieces)) }
{
    match two_expressions(pieces) {
        None => nothing(),
        Some((target, value)) => {
            if is_target(target.tree.get()) {
                assignment_node(alloc, place, operator, target, value)
            } else {
                nothing()
            }
        }
    }
}

/// Two expressions with a comma between (13.16).
#[tactic(auto, using(crate::proofs::Forms::comma_form))]
pub(crate) fn comma(alloc: Global, place: Loc, pieces: Pieces) -> Result<Option<Piece>, Memory>
    ensures { Makes result (build (form.Comma) place (plain_pieces pieces)) }
{
    match two_expressions(pieces) {
        None => nothing(),
        Some((left, right)) => comma_node(alloc, place, left, right),
    }
}
