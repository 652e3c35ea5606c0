ghost use Rattle.std.specs.Prelude.{◌≡◌};
ghost use Rattle.cov_hints.specs.Left.{left_of};
ghost use Rattle.cov_maps.specs.private.Told.{told_of};
ghost use Rattle.js_tree.specs.Tree.{plain_expr, plain_stmt};
ghost use Rattle.js_walk.specs.Constructs as spec;

use cov_hints::Left;
use js_tree::{Expr, ExprNode, Hint, Stmt, StmtNode};

// What a part of a file tells the parts in it.
#[derive(Clone, Copy)]
pub(crate) struct Inherited<'h> {
    // What hints have left in it.
    pub(crate) left: Left<'h>,
    // In an `if` statement: what they have left in the arm where the condition holds.
    pub(crate) holds: Left<'h>,
    // In an `if` statement: what they have left in the arm where it fails.
    pub(crate) fails: Left<'h>,
    // Whether the parts are operands of a chain.
    pub(crate) chained: bool,
    // Whether it is a pair of parentheses.
    pub(crate) inner: bool,
}

impl<'h> Inherited<'h> {
    // What a part tells that is neither an operand of a chain nor an `if` statement.
    pub(crate) fn of(left: Left<'h>) -> Inherited<'h>
        ensures { told_of result ≡ spec.told (left_of left.entry) }
    {
        Inherited {
            left,
            holds: left,
            fails: left,
            chained: false,
            inner: false,
        }
    }

    // What a logical operator tells.
    fn operand(left: Left<'h>) -> Inherited<'h>
        ensures { told_of result ≡ spec.told_operand (left_of left.entry) }
    {
        Inherited {
            left,
            holds: left,
            fails: left,
            chained: true,
            inner: false,
        }
    }

    // What a pair of parentheses tells.
    fn parenthesized(left: Left<'h>, chained: bool) -> Inherited<'h>
        ensures { told_of result ≡ spec.told_inner chained (left_of left.entry) }
    {
        Inherited {
            left,
            holds: left,
            fails: left,
            chained,
            inner: true,
        }
    }

    // What an `if` statement tells.
    fn arms(left: Left<'h>, holds: Left<'h>, fails: Left<'h>) -> Inherited<'h>
        ensures { told_of result ≡ spec.told_arms (left_of left.entry) (left_of holds.entry) (left_of fails.entry) }
    {
        Inherited {
            left,
            holds,
            fails,
            chained: false,
            inner: false,
        }
    }
}

// What an expression tells.
#[tactic(auto, using(js_tree::proofs::Equations::tree_rules))]
pub(crate) fn tell_expr<'h>(left: Left<'h>, chained: bool, expr: &Expr) -> Inherited<'h>
    ensures { told_of result ≡ spec.tell_expr (left_of left.entry) chained (plain_expr expr.now) }
{
    match &expr.node {
        ExprNode::Logical(_, _, _) => Inherited::operand(left),
        ExprNode::Parenthesized(_) => Inherited::parenthesized(left, chained),
        _ => Inherited::of(left),
    }
}

// What a statement tells.
#[tactic(auto, using(js_tree::proofs::Equations::tree_rules))]
pub(crate) fn tell_stmt<'h>(left: Left<'h>, stmt: &Stmt) -> Inherited<'h>
    ensures { told_of result ≡ spec.tell_stmt (left_of left.entry) (plain_stmt stmt.now) }
{
    match &stmt.node {
        StmtNode::If(_, _, _) => Inherited::arms(
            left,
            left.within_arm(Hint::If, stmt.loc),
            left.within_arm(Hint::Else, stmt.loc),
        ),
        _ => Inherited::of(left),
    }
}
