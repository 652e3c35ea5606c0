ghost use Rattle.std.specs.Prelude.{Some};
ghost use Rattle.js_tree.specs.Plain as tree;
ghost use Rattle.js_tree.specs.Tree.{plain_function};
ghost use Rattle.js_reading.specs.Makes.{build, declaration_of, expression_of, function_of};
ghost use Rattle.js_reading.specs.declared.form.Form.TheVariants as form;
ghost use Rattle.js_build.specs.View.{plain_pieces, Makes, MakesExpr, MakesStmt};

use crate::Piece;
use crate::callables::function;
use crate::make::{expression, nothing, statement};
use crate::parts::MadeFunction;
use crate::piece::discard;
use crate::queue::Pieces;
use items::Memory;
use js_tree::{ExprNode, Identifier, Loc, StmtNode};
use std::alloc::Global;

/// A function as an expression.
#[tactic(auto, using(crate::proofs::Nodes::function_rules))]
fn expression_node(
    alloc: Global,
    place: Loc,
    name: Option<Identifier>,
    function: MadeFunction,
) -> Result<Option<Piece>, Memory>
    ensures { MakesExpr result 22 (tree.FunctionExpression (Some place) name (plain_function function.tree)) }
{
    let parts = function.parts;
    let node = ExprNode::FunctionExpression(name, function.tree);
    expression(alloc, 22, place, node, parts, 22, false)
}

/// A function that is declared.
#[tactic(auto, using(crate::proofs::Nodes::function_rules))]
fn declaration_node(
    alloc: Global,
    place: Loc,
    name: Identifier,
    function: MadeFunction,
) -> Result<Option<Piece>, Memory>
    ensures { MakesStmt result (tree.FunctionDeclaration (Some place) name (plain_function function.tree)) }
{
    let parts = function.parts;
    let node = StmtNode::FunctionDeclaration(name, function.tree);
    statement(alloc, place, node, parts)
}

/// A function as an expression, after its name.
fn named(
    alloc: Global,
    place: Loc,
    name: Option<Identifier>,
    pieces: Pieces,
) -> Result<Option<Piece>, Memory>
    ensures { Makes result (expression_of (λ f. tree.FunctionExpression (Some place) name f) (function_of (plain_pieces pieces))) }
{
    match function(alloc, pieces)? {
        None => nothing(),
        Some(function) => expression_node(alloc, place, name, function),
    }
}

/// A function as an expression (15.2).
pub(crate) fn function_expression(
    alloc: Global,
    place: Loc,
    mut pieces: Pieces,
) -> Result<Option<Piece>, Memory>
    ensures { Makes result (build form.FunctionExpression place (plain_pieces pieces)) }
{
    match pieces.next() {
        Some(Piece::Missing) => named(alloc, place, None, pieces),
        Some(Piece::Word(name, at)) => {
            let name = Identifier {
                loc: Some(at),
                name,
            };
            named(alloc, place, Some(name), pieces)
        }
        other => {
            discard(other);
            Ok(None)
        }
    }
}

/// A function that is declared, after its name.
fn declared(
    alloc: Global,
    place: Loc,
    name: Identifier,
    pieces: Pieces,
) -> Result<Option<Piece>, Memory>
    ensures { Makes result (declaration_of (λ f. tree.FunctionDeclaration (Some place) name f) (function_of (plain_pieces pieces))) }
{
    match function(alloc, pieces)? {
        None => nothing(),
        Some(function) => declaration_node(alloc, place, name, function),
    }
}

/// A function that is declared (15.2).
pub(crate) fn function_declaration(
    alloc: Global,
    place: Loc,
    mut pieces: Pieces,
) -> Result<Option<Piece>, Memory>
    ensures { Makes result (build form.FunctionDeclaration place (plain_pieces pieces)) }
{
    match pieces.next() {
        Some(Piece::Word(name, at)) => {
            let name = Identifier {
                loc: Some(at),
                name,
            };
            declared(alloc, place, name, pieces)
        }
        other => {
            discard(other);
            Ok(None)
        }
    }
}
