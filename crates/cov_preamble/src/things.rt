ghost use Rattle.std.specs.Prelude.{◌≡◌, IfOk};
ghost use Rattle.js_tree.specs.Tree.{plain_expr};
ghost use Rattle.cov_object.specs.Json as json;
ghost use Rattle.cov_rewritten.specs.Preamble as spec;
ghost use Rattle.cov_preamble.specs.Data.{locations_data};

use crate::objects::{array, numeral, object, put, string};
use crate::pieces::expression;
use cov_object::{BranchCoverage, FunctionCoverage, Location, PathCoverage, Position};
use items::{Items, Memory};
use js_tree::{Expr, ExprNode};
use std::alloc::Global;

// A column, or null for the line's end.
#[tactic(auto, using(js_tree::proofs::Equations::tree_rules))]
fn column(alloc: Global, column: Option<u32>) -> Result<Expr, Memory>
    ensures { IfOk result (λ e. plain_expr e ≡ spec.literal (json.column_data column)) }
{
    match column {
        Some(column) => numeral(alloc, u64::from(column)),
        None => Ok(expression(ExprNode::NullLiteral)),
    }
}

// Where something begins or ends, if it stands anywhere.
#[tactic(auto, using(js_tree::proofs::Equations::tree_rules))]
fn position(alloc: Global, place: Option<Position>) -> Result<Expr, Memory>
    ensures { IfOk result (λ e. plain_expr e ≡ spec.literal (json.position_data place)) }
{
    let mut members = Items::new(alloc);
    match place {
        Some(place) => {
            put(alloc, &mut members, "column", column(alloc, place.column)?)?;
            put(
                alloc,
                &mut members,
                "line",
                numeral(alloc, u64::from(place.line.get()))?,
            )?;
            Ok(object(members))
        }
        None => Ok(object(members)),
    }
}

// Where something stands.
#[tactic(auto, using(js_tree::proofs::Equations::tree_rules))]
pub(crate) fn location(alloc: Global, location: Location) -> Result<Expr, Memory>
    ensures { IfOk result (λ e. plain_expr e ≡ spec.literal (json.location_data location)) }
{
    let mut members = Items::new(alloc);
    put(alloc, &mut members, "end", position(alloc, location.end)?)?;
    put(
        alloc,
        &mut members,
        "start",
        position(alloc, location.start)?,
    )?;
    Ok(object(members))
}

// What a function is.
#[tactic(auto, using(js_tree::proofs::Equations::tree_rules))]
pub(crate) fn function(alloc: Global, function: &FunctionCoverage) -> Result<Expr, Memory>
    ensures { IfOk result (λ e. plain_expr e ≡ spec.literal (json.function_data function.now)) }
{
    let mut members = Items::new(alloc);
    put(
        alloc,
        &mut members,
        "decl",
        location(alloc, function.declaration)?,
    )?;
    put(
        alloc,
        &mut members,
        "loc",
        location(alloc, function.location)?,
    )?;
    put(
        alloc,
        &mut members,
        "name",
        string(alloc, function.name.as_str())?,
    )?;
    Ok(object(members))
}

// What a branch is.
#[tactic(auto, using(js_tree::proofs::Equations::tree_rules))]
pub(crate) fn branch(alloc: Global, branch: &BranchCoverage) -> Result<Expr, Memory>
    ensures { IfOk result (λ e. plain_expr e ≡ spec.literal (json.branch_data branch.now)) }
{
    let mut members = Items::new(alloc);
    put(
        alloc,
        &mut members,
        "loc",
        location(alloc, branch.location())?,
    )?;
    put(
        alloc,
        &mut members,
        "locations",
        locations(alloc, branch.paths())?,
    )?;
    put(alloc, &mut members, "type", string(alloc, branch.kind())?)?;
    Ok(object(members))
}

// Where the paths of a branch stand.
#[tactic(auto, using(js_tree::proofs::Equations::tree_rules))]
fn locations(alloc: Global, paths: &[PathCoverage]) -> Result<Expr, Memory>
    ensures { IfOk result (λ e. plain_expr e ≡ spec.literal (locations_data paths.now)) }
{
    let mut list = Items::new(alloc);
    for path in paths {
        list.push(location(alloc, path.location)?)?;
    }
    Ok(array(list))
}

// How often each was taken.
#[tactic(auto, using(js_tree::proofs::Equations::tree_rules))]
pub(crate) fn path_counts(alloc: Global, branch: &BranchCoverage) -> Result<Expr, Memory>
    ensures { IfOk result (λ e. plain_expr e ≡ spec.literal (json.path_counts_data branch.now)) }
{
    let mut list = Items::new(alloc);
    let paths = branch.paths();
    for path in paths {
        list.push(numeral(alloc, path.count.get())?)?;
    }
    Ok(array(list))
}
