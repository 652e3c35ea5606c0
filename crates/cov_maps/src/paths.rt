ghost use Rattle.std.specs.Prelude.{◌≡◌, ◌++◌, IfOk};
ghost use Rattle.cov_hints.specs.Left.{left_of};
ghost use Rattle.js_tree.specs.Hints as spec;
ghost use Rattle.js_tree.specs.Places.{case_place, expr_place};
ghost use Rattle.js_tree.specs.Tree.{plain_case, plain_cases, plain_expr, plain_stmt, plain_stmt_if};
ghost use Rattle.js_walk.specs.Constructs.{expr_paths, if_paths};

use cov_hints::{
    Left, place_as_written, place_of_arm, place_of_case, place_of_expr, place_of_stmt,
};
use items::{Boxed, Items, Memory};
use js_tree::{Case, Expr, ExprNode, Hint, Loc, Stmt};

// Puts the path of a part at the end that stands here, unless it is taken out.
fn push_path(left: Left<'_>, place: Option<Loc>, out: &mut Items<Option<Loc>>) -> Result<(), Memory>
    ensures { IfOk result (λ _. out.new ≡ out.old ++ spec.path_in (left_of left.entry) place) }
{
    if left.ignored {
        Ok(())
    } else {
        out.push(place)
    }
}

// Puts the path of an expression at the end.
pub(crate) fn push_expr_path(
    left: Left<'_>,
    expr: &Expr,
    out: &mut Items<Option<Loc>>,
) -> Result<(), Memory>
    ensures { IfOk result (λ _. out.new ≡ out.old ++ expr_paths (left_of left.entry) (plain_expr expr.now)) }
{
    push_path(
        left.within(place_as_written(expr)),
        place_of_expr(expr),
        out,
    )
}

// Puts the paths of an `if` statement at the end.
pub(crate) fn push_if_paths(
    left: Left<'_>,
    loc: Option<Loc>,
    holds: &Stmt,
    fails: &Option<Boxed<Stmt>>,
    out: &mut Items<Option<Loc>>,
) -> Result<(), Memory>
    ensures { IfOk result (λ _. out.new ≡ out.old ++ if_paths (left_of left.entry) loc (plain_stmt holds.now) (plain_stmt_if fails.now)) }
{
    push_path(
        left.within_arm(Hint::If, loc).within(place_of_stmt(holds)),
        loc,
        out,
    )?;
    let place = place_of_arm(fails);
    push_path(left.within_arm(Hint::Else, loc).within(place), place, out)
}

// Puts the path of a case at the end.
fn push_case_path(left: Left<'_>, case: &Case, out: &mut Items<Option<Loc>>) -> Result<(), Memory>
    ensures { IfOk result (λ _. out.new ≡ out.old ++ spec.path_in (spec.heed (left_of left.entry) (case_place (plain_case case.now))) (case_place (plain_case case.now))) }
{
    let place = place_of_case(case);
    push_path(left.within(place), place, out)
}

// Puts the paths of the cases of a `switch` at the end.
#[tactic(auto, using(js_tree::proofs::Equations::tree_rules))]
pub(crate) fn push_case_paths(
    left: Left<'_>,
    cases: &[Case],
    out: &mut Items<Option<Loc>>,
) -> Result<(), Memory>
    ensures { IfOk result (λ _. out.new ≡ out.old ++ spec.case_paths (left_of left.entry) (plain_cases cases.now)) }
{
    for case in cases {
        push_case_path(left, case, out)?;
    }
    Ok(())
}

// Puts the paths of the leaves of an operand at the end.
pub(crate) fn push_operand_paths(
    left: Left<'_>,
    expr: &Expr,
    out: &mut Items<Option<Loc>>,
) -> Result<(), Memory>
    ensures { IfOk result (λ _. out.new ≡ out.old ++ spec.leaf_paths (spec.heed (left_of left.entry) (expr_place (plain_expr expr.now))) (plain_expr expr.now)) }
{
    push_leaf_paths(left.within(place_as_written(expr)), expr, out)
}

// Puts the paths of the leaves of a chain at the end.
#[tactic(auto, using(js_tree::proofs::Equations::tree_rules))]
fn push_leaf_paths(left: Left<'_>, expr: &Expr, out: &mut Items<Option<Loc>>) -> Result<(), Memory>
    ensures { IfOk result (λ _. out.new ≡ out.old ++ spec.leaf_paths (left_of left.entry) (plain_expr expr.now)) }
{
    match &expr.node {
        ExprNode::Logical(_, first, second) => {
            push_leaf_paths(left.within(place_as_written(first.get())), first.get(), out)?;
            push_leaf_paths(
                left.within(place_as_written(second.get())),
                second.get(),
                out,
            )
        }
        ExprNode::Parenthesized(inner) => push_leaf_paths(left, inner.get(), out),
        ExprNode::IdentifierReference(_) => push_path(left, expr.loc, out),
        ExprNode::This => push_path(left, expr.loc, out),
        ExprNode::NullLiteral => push_path(left, expr.loc, out),
        ExprNode::BooleanLiteral(_) => push_path(left, expr.loc, out),
        ExprNode::NumericLiteral(_) => push_path(left, expr.loc, out),
        ExprNode::StringLiteral(_) => push_path(left, expr.loc, out),
        ExprNode::ArrayLiteral(_) => push_path(left, expr.loc, out),
        ExprNode::ObjectLiteral(_) => push_path(left, expr.loc, out),
        ExprNode::FunctionExpression(_, _) => push_path(left, expr.loc, out),
        ExprNode::ArrowFunction(_, _) => push_path(left, expr.loc, out),
        ExprNode::RegularExpressionLiteral(_, _) => push_path(left, expr.loc, out),
        ExprNode::TemplateLiteral(_, _) => push_path(left, expr.loc, out),
        ExprNode::NamedMember(_, _) => push_path(left, expr.loc, out),
        ExprNode::ComputedMember(_, _) => push_path(left, expr.loc, out),
        ExprNode::New(_, _) => push_path(left, expr.loc, out),
        ExprNode::Call(_, _) => push_path(left, expr.loc, out),
        ExprNode::PostfixUpdate(_, _) => push_path(left, expr.loc, out),
        ExprNode::PrefixUpdate(_, _) => push_path(left, expr.loc, out),
        ExprNode::Unary(_, _) => push_path(left, expr.loc, out),
        ExprNode::Binary(_, _, _) => push_path(left, expr.loc, out),
        ExprNode::Conditional(_, _, _) => push_path(left, expr.loc, out),
        ExprNode::Assignment(_, _, _) => push_path(left, expr.loc, out),
        ExprNode::Comma(_, _) => push_path(left, expr.loc, out),
    }
}
