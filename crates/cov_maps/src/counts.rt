ghost use Rattle.std.specs.Prelude.{◌≡◌, ◌++◌, IfOk};
ghost use Rattle.cov_hints.specs.Left.{left_of};
ghost use Rattle.js_tree.specs.Tree.{plain_concise_body, plain_declarator, plain_expr, plain_param};
ghost use Rattle.js_walk.specs.Constructs.{branch, counted, counted_expr, own_concise_body, own_declarator, own_param};

use crate::paths::push_expr_path;
use cov_hints::{Left, place_as_written, place_of_expr};
use items::{Items, Memory};
use js_tree::{BranchKind, ConciseBody, Construct, Declarator, Expr, Loc, Param};
use std::alloc::Global;

// Counts a statement, where it has a place.
pub(crate) fn count(loc: &Option<Loc>, out: &mut Items<Construct>) -> Result<(), Memory>
    ensures { IfOk result (λ _. out.new ≡ out.old ++ counted loc.now) }
{
    match loc {
        None => Ok(()),
        Some(loc) => out.push(Construct::Statement { loc: *loc }),
    }
}

// Counts an expression as a statement.
fn count_expr(left: Left<'_>, expr: &Expr, out: &mut Items<Construct>) -> Result<(), Memory>
    ensures { IfOk result (λ _. out.new ≡ out.old ++ counted_expr (left_of left.entry) (plain_expr expr.now)) }
{
    let within = left.within(place_as_written(expr));
    count(&within.place(place_of_expr(expr)), out)
}

// Counts the initializer of a declarator, where there is one.
#[tactic(auto, using(js_tree::proofs::Equations::tree_rules))]
pub(crate) fn count_initializer(
    left: Left<'_>,
    declarator: &Declarator,
    out: &mut Items<Construct>,
) -> Result<(), Memory>
    ensures { IfOk result (λ _. out.new ≡ out.old ++ own_declarator (left_of left.entry) (plain_declarator declarator.now)) }
{
    match &declarator.initializer {
        None => Ok(()),
        Some(expr) => count_expr(left, expr.get(), out),
    }
}

// Counts the expression that is an arrow's body.
#[tactic(auto, using(js_tree::proofs::Equations::tree_rules))]
pub(crate) fn count_body(
    left: Left<'_>,
    body: &ConciseBody,
    out: &mut Items<Construct>,
) -> Result<(), Memory>
    ensures { IfOk result (λ _. out.new ≡ out.old ++ own_concise_body (left_of left.entry) (plain_concise_body body.now)) }
{
    match body {
        ConciseBody::ExpressionBody(value) => count_expr(left, value, out),
        ConciseBody::BlockBody(_) => Ok(()),
    }
}

// Counts a branch, where it has a place.
pub(crate) fn count_branch(
    kind: BranchKind,
    loc: &Option<Loc>,
    paths: Items<Option<Loc>>,
    out: &mut Items<Construct>,
) -> Result<(), Memory>
    ensures { IfOk result (λ _. out.new ≡ out.old ++ branch kind loc.now paths) }
{
    match loc {
        None => Ok(()),
        Some(loc) => out.push(Construct::Branch {
            kind,
            loc: *loc,
            paths,
        }),
    }
}

// Counts the default of a parameter.
#[tactic(auto, using(js_tree::proofs::Equations::tree_rules))]
pub(crate) fn count_default(
    alloc: Global,
    left: Left<'_>,
    param: &Param,
    out: &mut Items<Construct>,
) -> Result<(), Memory>
    ensures { IfOk result (λ _. out.new ≡ out.old ++ own_param (left_of left.entry) (plain_param param.now)) }
{
    match &param.default {
        None => Ok(()),
        Some(default) => {
            let mut paths = Items::new(alloc);
            push_expr_path(left, default.get(), &mut paths)?;
            count_branch(BranchKind::Default, &left.place(param.loc), paths, out)
        }
    }
}
