ghost use Rattle.std.specs.Prelude.{◌≡◌, ◌≤◌, filter_map, IfOk, IfSome};
ghost use Rattle.cov_remap.specs.Sent as spec;

use cov_object::{
    BranchCoverage, FunctionCoverage, Line, Location, PathCoverage, Position, StatementCoverage,
};
use items::{Items, Memory, Text};
use source_map::{SourceMap, Traced};
use std::alloc::Global;

// A part of a source.
#[derive(Clone, Copy)]
pub(crate) struct Part {
    // The number of the source.
    pub(crate) source: u32,
    // Where the part stands there.
    pub(crate) location: Location,
}

// What an end of a part traces to.
fn trace_end(map: &SourceMap, end: Option<Position>) -> Option<Traced>
    ensures value { result ≡ spec.trace_end map.now end }
    ensures from_one { IfSome result (λ place. 1 ≤ place.line) }
{
    match end {
        None => None,
        Some(place) => map.trace(place.line.get(), place.column),
    }
}

fn position_of(place: Traced) -> Position
    requires { 1 ≤ place.line }
    ensures { result ≡ spec.position_of place }
{
    Position {
        line: Line::new(place.line),
        column: Some(place.column),
    }
}

// Whether the first doesn't stand after the second.
fn in_order(a: Traced, b: Traced) -> bool
    ensures { result ≡ spec.in_order a b }
{
    a.line < b.line || a.line == b.line && a.column <= b.column
}

// Where a part of a file stands in a source, if both its ends go to one source, and in order.
pub(crate) fn traced(map: &SourceMap, location: Location) -> Option<Part>
    ensures { result ≡ spec.traced map.now location }
{
    match trace_end(map, location.start) {
        None => None,
        Some(start) => match trace_end(map, location.end) {
            None => None,
            Some(end) => if start.source == end.source && in_order(start, end) {
                Some(Part {
                    source: start.source,
                    location: Location {
                        start: Some(position_of(start)),
                        end: Some(position_of(end)),
                    },
                })
            } else {
                None
            },
        },
    }
}

// Where it stands in this source.
fn traced_in(map: &SourceMap, number: u32, location: Location) -> Option<Location>
    ensures { result ≡ spec.traced_in map.now number location }
{
    match traced(map, location) {
        None => None,
        Some(part) => if part.source == number {
            Some(part.location)
        } else {
            None
        },
    }
}

pub(crate) fn send_statement(
    map: &SourceMap,
    statement: &StatementCoverage,
) -> Option<(u32, StatementCoverage)>
    ensures { result ≡ spec.send_statement map.now statement.now }
{
    match traced(map, statement.location) {
        None => None,
        Some(part) => Some((
            part.source,
            StatementCoverage {
                location: part.location,
                count: statement.count,
            },
        )),
    }
}

pub(crate) fn send_function(
    alloc: Global,
    map: &SourceMap,
    function: &FunctionCoverage,
) -> Result<Option<(u32, FunctionCoverage)>, Memory>
    ensures { IfOk result (λ sent. sent ≡ spec.send_function map.now function.now) }
{
    let Some(part) = traced(map, function.declaration) else {
        return Ok(None);
    };
    let Some(body) = traced_in(map, part.source, function.location) else {
        return Ok(None);
    };
    Ok(Some((
        part.source,
        FunctionCoverage {
            name: Text::from_str(alloc, function.name.as_str())?,
            declaration: part.location,
            location: body,
            count: function.count,
        },
    )))
}

// Where a path goes: one that is nowhere stays, any other has to go to the branch's source.
fn send_location(map: &SourceMap, number: u32, location: Location) -> Option<Location>
    ensures { result ≡ spec.send_location map.now number location }
{
    if location.start.is_none() && location.end.is_none() {
        Some(location)
    } else {
        traced_in(map, number, location)
    }
}

fn send_paths(
    alloc: Global,
    map: &SourceMap,
    number: u32,
    paths: &[PathCoverage],
) -> Result<Items<PathCoverage>, Memory>
    ensures { IfOk result (λ sent. sent ≡ filter_map (spec.send_path map.now number) paths.now) }
{
    let mut sent = Vec::new(alloc);
    let mut rest = paths;
    'paths: while let Some((path, after)) = rest.split_first() {
        if let Some(location) = send_location(map, number, path.location) {
            sent.push(PathCoverage {
                location,
                count: path.count,
            })?;
        }
        rest = after;
    }
    Ok(Items::from_vec(sent))
}

pub(crate) fn send_branch(
    alloc: Global,
    map: &SourceMap,
    branch: &BranchCoverage,
) -> Result<Option<(u32, BranchCoverage)>, Memory>
    ensures { IfOk result (λ sent. sent ≡ spec.send_branch map.now branch.now) }
{
    let Some(part) = traced(map, branch.location()) else {
        return Ok(None);
    };
    let paths = send_paths(alloc, map, part.source, branch.paths())?;
    let sent = BranchCoverage::new(alloc, branch.kind(), part.location, paths)?;
    Ok(Some((part.source, sent)))
}
