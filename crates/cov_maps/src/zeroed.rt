ghost use Rattle.std.specs.Prelude.{◌≡◌, ◌<◌, map, IfOk};
ghost use Rattle.cov_maps.specs.Located.{location_at, position_at};
ghost use Rattle.cov_maps.specs.Placed.{IsPlaced, IsPlacedIf, ArePathsPlaced, ArePlaced};
ghost use Rattle.cov_maps.specs.Zero as spec;

use cov_object::{
    BranchCoverage, Count, FileCoverage, FunctionCoverage, Line, Location, Numbered, PathCoverage,
    Position, StatementCoverage,
};
use items::{Items, Memory, Text};
use js_tree::{BranchKind, Construct, Loc, Pos};
use std::alloc::Global;

/// The coverage of a file in which nothing has run: each construct of a list with the count 0, the
/// constructs of each kind in the list's order. Each line in the list counts from 1. A path of a
/// branch that has no place stands nowhere, and so does the second of two paths of an `if` that has
/// the place of the whole `if`.
pub fn zero(
    alloc: Global,
    path: &str,
    hash: &str,
    list: &[Construct],
) -> Result<FileCoverage, Memory>
    requires lines { ArePlaced list.now }
    ensures { IfOk result (λ file. file ≡ spec.zero_file path.now hash.now list.now) }
{
    Ok(FileCoverage {
        path: Text::from_str(alloc, path)?,
        hash: Some(Text::from_str(alloc, hash)?),
        input_source_map: None,
        statements: Numbered::from_vec(alloc, statements_in(alloc, list)?)?,
        functions: Numbered::from_vec(alloc, functions_in(alloc, list)?)?,
        branches: Numbered::from_vec(alloc, branches_in(alloc, list)?)?,
    })
}

// The statements in a list, with the count 0.
fn statements_in(alloc: Global, list: &[Construct]) -> Result<Vec<StatementCoverage>, Memory>
    requires { ArePlaced list.now }
    ensures { IfOk result (λ statements. statements.items ≡ spec.zero_statements list.now) }
{
    let mut statements = Vec::new(alloc);
    for construct in list {
        if let Construct::Statement { loc } = construct {
            statements.push(StatementCoverage {
                location: location_at(*loc),
                count: Count::new(0),
            })?;
        }
    }
    Ok(statements)
}

// The functions in a list, with the count 0.
fn functions_in(alloc: Global, list: &[Construct]) -> Result<Vec<FunctionCoverage>, Memory>
    requires { ArePlaced list.now }
    ensures { IfOk result (λ functions. functions.items ≡ spec.zero_functions list.now) }
{
    let mut functions = Vec::new(alloc);
    for construct in list {
        if let Construct::Function { name, decl, loc } = construct {
            functions.push(FunctionCoverage {
                name: Text::from_str(alloc, name.as_str())?,
                declaration: location_at(*decl),
                location: location_at(*loc),
                count: Count::new(0),
            })?;
        }
    }
    Ok(functions)
}

// The branches in a list, each path with the count 0.
fn branches_in(alloc: Global, list: &[Construct]) -> Result<Vec<BranchCoverage>, Memory>
    requires { ArePlaced list.now }
    ensures { IfOk result (λ branches. branches.items ≡ spec.zero_branches list.now) }
{
    let mut branches = Vec::new(alloc);
    for construct in list {
        if let Construct::Branch { kind, loc, paths } = construct {
            let kind = spelling(*kind);
            let paths = paths_of(alloc, paths.as_slice())?;
            branches.push(BranchCoverage::new(alloc, kind, location_at(*loc), paths)?)?;
        }
    }
    Ok(branches)
}

// The paths of a branch, with the count 0.
fn paths_of(alloc: Global, places: &[Option<Loc>]) -> Result<Items<PathCoverage>, Memory>
    requires { ArePathsPlaced places.now }
    ensures { IfOk result (λ paths. paths ≡ map spec.zero_path places.now) }
{
    let mut paths = Items::new(alloc);
    for place in places {
        paths.push(PathCoverage {
            location: location_if(*place),
            count: Count::new(0),
        })?;
    }
    Ok(paths)
}

// How a kind of branch is spelled in the JSON.
fn spelling(kind: BranchKind) -> &'static str
    ensures { result.now ≡ spec.spelling_of kind }
{
    match kind {
        BranchKind::If => "if",
        BranchKind::Conditional => "cond-expr",
        BranchKind::Switch => "switch",
        BranchKind::Logical => "binary-expr",
        BranchKind::Default => "default-arg",
    }
}

fn position_at(pos: Pos) -> Position
    requires { 0 < pos.line }
    ensures { result ≡ position_at pos }
{
    Position {
        line: Line::new(pos.line),
        column: Some(pos.column),
    }
}

fn location_at(loc: Loc) -> Location
    requires { IsPlaced loc }
    ensures { result ≡ location_at loc }
{
    Location {
        start: Some(position_at(loc.start)),
        end: Some(position_at(loc.end)),
    }
}

fn location_if(loc: Option<Loc>) -> Location
    requires { IsPlacedIf loc }
    ensures { result ≡ spec.location_if loc }
{
    match loc {
        None => Location::nowhere(),
        Some(loc) => location_at(loc),
    }
}
