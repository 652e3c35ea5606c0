ghost use Rattle.std.specs.Prelude.{◌≡◌, ◌≤◌, ◌-◌, ◌+◌, ◌*◌, ◌^◌, ◌<◌, nat_le, length, filter, None, Some, option_map, [], IfSome, IfNone};
ghost use Rattle.std.specs.List.{last_or};
ghost use Rattle.source_map.specs.Trace as spec;
ghost use Rattle.source_map.specs.private.Order.{AreInOrder, AreByColumn, AreHalves};

use crate::place::{Origin, Parts, Segment, Traced};
use crate::steps::{Steps, is_to};
use std::marker::Brand;
use std::sync::ledger::{Blank, Ledger};

/// The text of a source; none where it is null or past the list.
pub(crate) fn source(map: &Parts, number: u32) -> Option<&str>
    ensures { option_map (λ text. text.now) result ≡ spec.source map.now number }
{
    match map.sources.as_slice().get(number as usize) {
        Some(Some(text)) => Some(text.as_str()),
        Some(None) | None => None,
    }
}

// The segments on a line.
fn on_line(segments: &[Segment], line: u32) -> &[Segment]
    requires { AreInOrder segments.now }
    ensures line { result.now ≡ spec.on_line line segments.now }
    ensures columns { AreByColumn result.now }
{
    let line = u64::from(line);
    let first = segments.partition_point(|segment| segment.line < line);
    let rest = &segments[first..];
    let end = rest.partition_point(|segment| segment.line <= line);
    &rest[..end]
}

// The segment in the middle, between those before it and those after it; none where there are none.
fn halves(segments: &[Segment]) -> Option<(&[Segment], Segment, &[Segment])>
    ensures some { IfSome result (λ found. AreHalves segments.now found.0.now found.1 found.2.now) }
    ensures none { IfNone result (segments.now ≡ []) }
{
    let (before, from) = segments.split_at(segments.len() / 2);
    match from.split_first() {
        None => None,
        Some((middle, after)) => Some((before, *middle, after)),
    }
}

// The last segment at or before a column, of those on a line: half of what is left goes at each step.
fn last_to<L: Ledger>(segments: &[Segment], column: u32, steps: &mut Steps<L>) -> Option<Segment>
    requires { AreByColumn segments.now }
    ensures value { result ≡ last_or None (filter (λ segment. nat_le segment.column column) segments.now) }
    ensures later { steps.old ≤ steps.new }
    ensures few { 2 ^ (steps.new - steps.old) ≤ 2 * length segments.now + 1 }
{
    let mut rest = segments;
    let mut found = None;
    'halves: while let Some((before, middle, after)) = halves(rest) {
        if is_to(middle, column, steps) {
            found = Some(middle);
            rest = after;
        } else {
            rest = before;
        }
    }
    found
}

// The last segment on a line at or before a column, none being the line's end.
fn segment_by<L: Ledger>(
    segments: &[Segment],
    line: u32,
    column: Option<u32>,
    steps: &mut Steps<L>,
) -> Option<Segment>
    requires { AreInOrder segments.now }
    ensures value { result ≡ spec.segment_by line column segments.now }
    ensures later { steps.old ≤ steps.new }
    ensures few { 2 ^ (steps.new - steps.old) ≤ 2 * length (spec.on_line line segments.now) + 1 }
{
    let segments = on_line(segments, line);
    match column {
        None => segments.last().copied(),
        Some(column) => last_to(segments, column, steps),
    }
}

// Where a segment comes from, if it has a source that isn't null.
pub(crate) fn traced_to(map: &Parts, origin: Option<Origin>) -> Option<Traced>
    ensures { result ≡ spec.traced_to map.now origin }
{
    match origin {
        None => None,
        Some(origin) => match source(map, origin.source) {
            None => None,
            Some(_) => Some(Traced {
                source: origin.source,
                line: origin.line,
                column: origin.column,
            }),
        },
    }
}

/// What a place comes from, with the steps that it takes: lines count from 1, and no column is the
/// line's end.
pub(crate) fn trace_counted<L: Ledger>(
    map: &Parts,
    line: u32,
    column: Option<u32>,
    steps: &mut Steps<L>,
) -> Option<Traced>
    requires { AreInOrder map.now.segments }
    ensures value { result ≡ spec.trace map.now line column }
    ensures later { steps.old ≤ steps.new }
    ensures few { 2 ^ (steps.new - steps.old) ≤ 2 * length (spec.on_line line map.now.segments) + 1 }
{
    match segment_by(map.segments.as_slice(), line, column, steps) {
        None => None,
        Some(segment) => traced_to(map, segment.origin),
    }
}

// The same where nobody counts.
fn trace_from<L: Ledger>(
    map: &Parts,
    line: u32,
    column: Option<u32>,
    blank: Blank,
) -> Option<Traced>
    requires order { AreInOrder map.now.segments }
    requires name { blank.name ≡ L.name }
    requires parts { blank.parts ≡ L.parts }
    requires some { 0 < blank.parts }
    ensures { result ≡ spec.trace map.now line column }
{
    let mut steps = Steps::<L>::new(blank);
    trace_counted(map, line, column, &mut steps)
}

/// What a place comes from: lines count from 1, and no column is the line's end.
pub(crate) fn trace(map: &Parts, line: u32, column: Option<u32>) -> Option<Traced>
    requires { AreInOrder map.now.segments }
    ensures { result ≡ spec.trace map.now line column }
{
    trace_from::<Brand>(map, line, column, Blank::new(1))
}
