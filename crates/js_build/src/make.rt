ghost use Rattle.std.specs.Prelude.{◌≡◌, ◌+◌, IfOk, None};
ghost use Rattle.js_tree.specs.Height.{height_stmt};
ghost use Rattle.js_build.specs.Measures.{measures};
ghost use Rattle.js_build.specs.View.{expr_node, stmt_node, Makes, MakesExpr, MakesStmt};

use crate::{Body, Operand, Piece};
use items::{Boxed, Memory};
use js_tree::{Expr, ExprNode, Loc, Stmt, StmtNode};
use std::alloc::{AllocError, Global};

/// The height of a node whose highest part has this one. No memory holds a tree of 2^64 levels.
pub(crate) fn above(part: u64) -> Result<u64, Memory>
    ensures { IfOk result (λ height. height ≡ part + 1) }
{
    part.checked_add(1).ok_or(AllocError)
}

/// That nothing is made.
pub(crate) fn nothing() -> Result<Option<Piece>, Memory>
    ensures { Makes result None }
{
    Ok(None)
}

/// An expression of this node and level, whose highest part has this height.
#[tactic(auto, using(js_tree::proofs::Equations::tree_rules))]
pub(crate) fn expression(
    alloc: Global,
    level: u8,
    place: Loc,
    node: ExprNode,
    parts: u64,
    last_level: u8,
    bare_in: bool,
) -> Result<Option<Piece>, Memory>
    requires { measures (expr_node node place) ≡ (parts + 1, (last_level, bare_in)) }
    ensures { MakesExpr result level (expr_node node place) }
{
    let tree = Expr {
        loc: Some(place),
        node,
    };
    let tree = Boxed::new(alloc, tree)?;
    let height = above(parts)?;
    Ok(Some(Piece::Expression(Operand {
        tree,
        level,
        last_level,
        bare_in,
        height,
    })))
}

/// A statement of this node, whose highest part has this height.
#[tactic(auto, using(js_tree::proofs::Equations::tree_rules))]
pub(crate) fn statement(
    alloc: Global,
    place: Loc,
    node: StmtNode,
    parts: u64,
) -> Result<Option<Piece>, Memory>
    requires { height_stmt (stmt_node node place) ≡ parts + 1 }
    ensures { MakesStmt result (stmt_node node place) }
{
    let tree = Stmt {
        loc: Some(place),
        node,
    };
    let tree = Boxed::new(alloc, tree)?;
    let height = above(parts)?;
    Ok(Some(Piece::Statement(Body { tree, height })))
}
