// What is kept of an entry of a file's maps and counts: small things, so that no more than one entry's JSON is held at a time.
ghost use Rattle.std.specs.Prelude.{◌≡◌, Option, codes, option_map, option_and_then, IfOk};
ghost use Rattle.serde_json.specs.Data.{Data};
ghost use Rattle.serde_json.specs.Find.{get, as_array};
ghost use Rattle.serde_json.specs.View.{view, items_view};
ghost use Rattle.cov_object.specs.Read as spec;
ghost use Rattle.cov_object.specs.private.ByMember.{path_counts_of, counts_of};

use crate::branch::BranchCoverage;
use crate::file::{FunctionCoverage, PathCoverage, StatementCoverage};
use crate::from_value::{count_of, location_in, location_of, text_in};
use crate::location::{Location, Position};
use crate::number::Count;
use items::{Items, Memory, Text};
use serde_json::Value;
use std::alloc::Global;

// What is kept of a value: a thing or its counts, or none where the value isn't of that form.
pub(crate) trait Entry: Sized + Drop {
    // what is kept
    ghost tells: { Data → Self };

    // What is kept of a value.
    fn from_value(alloc: Global, value: &Value) -> Result<Self, Memory>
        ensures { IfOk result (λ entry. entry ≡ tells (view value.now)) };
}

impl Entry for Option<StatementCoverage> {
    ghost tells = { spec.statement_of };

    fn from_value(_alloc: Global, value: &Value) -> Result<Option<StatementCoverage>, Memory> {
        match location_of(value) {
            Some(location) => Ok(Some(StatementCoverage {
                location,
                count: Count::new(0),
            })),
            None => Ok(None),
        }
    }
}

impl Entry for Option<FunctionCoverage> {
    ghost tells = { spec.function_of };

    fn from_value(alloc: Global, value: &Value) -> Result<Option<FunctionCoverage>, Memory> {
        let Some(name) = text_in("name", value) else {
            return Ok(None);
        };
        let Some(location) = location_in("loc", value) else {
            return Ok(None);
        };
        match declaration_in(value, location) {
            Some(declaration) => Ok(Some(FunctionCoverage {
                name: Text::from_str(alloc, name)?,
                declaration,
                location,
                count: Count::new(0),
            })),
            None => Ok(None),
        }
    }
}

impl Entry for Option<BranchCoverage> {
    ghost tells = { spec.branch_of };

    fn from_value(alloc: Global, value: &Value) -> Result<Option<BranchCoverage>, Memory> {
        let Some(kind) = text_in("type", value) else {
            return Ok(None);
        };
        let Some(paths) = paths_in(alloc, value)? else {
            return Ok(None);
        };
        match branch_location_in(value, paths.as_slice()) {
            Some(location) => {
                let paths = Items::from_vec(paths);
                Ok(Some(BranchCoverage::new(alloc, kind, location, paths)?))
            }
            None => Ok(None),
        }
    }
}

// How often a statement or a function ran.
impl Entry for Option<Count> {
    ghost tells = { spec.count_of };

    fn from_value(_alloc: Global, value: &Value) -> Result<Option<Count>, Memory> {
        Ok(count_of(value))
    }
}

// How often the paths of a branch were taken.
impl Entry for Option<Items<Option<Count>>> {
    ghost tells = { path_counts_of };

    fn from_value(alloc: Global, value: &Value) -> Result<Option<Items<Option<Count>>>, Memory> {
        match value.as_array() {
            Some(values) => Ok(Some(counts_of(alloc, values.as_slice())?)),
            None => Ok(None),
        }
    }
}

// The counts that values are, or that they are none.
fn counts_of(alloc: Global, values: &[Value]) -> Result<Items<Option<Count>>, Memory>
    ensures { IfOk result (λ counts. counts ≡ counts_of (items_view values.now)) }
{
    let mut counts = Vec::new(alloc);
    for value in values {
        counts.push(count_of(value))?;
    }
    Ok(Items::from_vec(counts))
}

// Where the name of a function stands that a value describes: where its body does, if that is all
// that is told.
fn declaration_in(value: &Value, location: Location) -> Option<Location>
    ensures { result ≡ spec.location_or (Some location) (get (codes "decl") (view value.now)) }
{
    match value.get("decl") {
        Some(value) => location_of(value),
        None => Some(location),
    }
}

// Where a branch with these paths stands that a value describes.
fn branch_location_in(value: &Value, paths: &[PathCoverage]) -> Option<Location>
    ensures { result ≡ spec.location_or (spec.span paths.now) (get (codes "loc") (view value.now)) }
{
    match value.get("loc") {
        Some(value) => location_of(value),
        None => span(paths),
    }
}

// From the start of the first path to the end of the last one.
fn span(paths: &[PathCoverage]) -> Option<Location>
    ensures { result ≡ spec.span paths.now }
{
    match paths {
        [] => None,
        [first, rest @ ..] => Some(Location {
            start: first.location.start,
            end: last_end(first.location.end, rest),
        }),
    }
}

// The end of the last of these paths, or else this one.
fn last_end(end: Option<Position>, paths: &[PathCoverage]) -> Option<Position>
    ensures { result ≡ spec.last_end end paths.now }
{
    let mut last = end;
    for path in paths {
        last = path.location.end;
    }
    last
}

// The paths of a branch that a value describes.
fn paths_in(alloc: Global, value: &Value) -> Result<Option<Vec<PathCoverage>>, Memory>
    ensures { IfOk result (λ paths. option_map (λ paths. paths.items) paths
        ≡ option_and_then spec.paths_of (option_and_then as_array (get (codes "locations") (view value.now)))) }
{
    let Some(value) = value.get("locations") else {
        return Ok(None);
    };
    match value.as_array() {
        Some(values) => paths_of(alloc, values.as_slice()),
        None => Ok(None),
    }
}

// The paths that stand at these places.
fn paths_of(alloc: Global, values: &[Value]) -> Result<Option<Vec<PathCoverage>>, Memory>
    ensures { IfOk result (λ paths. option_map (λ paths. paths.items) paths ≡ spec.paths_of (items_view values.now)) }
{
    let mut paths = Vec::new(alloc);
    for value in values {
        let Some(location) = location_of(value) else {
            return Ok(None);
        };
        paths.push(PathCoverage {
            location,
            count: Count::new(0),
        })?;
    }
    Ok(Some(paths))
}
