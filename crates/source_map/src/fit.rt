// Whether parts are those of a map: their numbers are in range, and their segments stand in order.
ghost use Rattle.std.specs.Prelude.{◌↔◌, ◌<◌, ◌≡◌, ◌^◌, min, true, IsTrue, IfSome};
ghost use Rattle.source_map.specs.Laws as spec;
ghost use Rattle.source_map.specs.Map as exact;
ghost use Rattle.source_map.specs.private.Fit.{Follows};

use crate::place::{Origin, Parts, Segment};

fn is_name(names: u64, name: Option<u32>) -> bool
    ensures { IsTrue result ↔ IfSome name (λ number. number < min names (2 ^ 32)) }
{
    match name {
        None => true,
        Some(number) => u64::from(number) < names,
    }
}

// Whether an origin is in range, where there are so many sources and names.
fn is_origin(sources: u64, names: u64, origin: Origin) -> bool
    ensures { IsTrue result ↔ spec.FitsOrigin sources names origin }
{
    let named = is_name(names, origin.name);
    u64::from(origin.source) < sources && 1 <= origin.line && named
}

fn is_from(sources: u64, names: u64, origin: Option<Origin>) -> bool
    ensures { IsTrue result ↔ IfSome origin (spec.FitsOrigin sources names) }
{
    match origin {
        None => true,
        Some(origin) => is_origin(sources, names, origin),
    }
}

fn is_segment(sources: u64, names: u64, segment: Segment) -> bool
    ensures { IsTrue result ↔ spec.FitsSegment sources names segment }
{
    let from = is_from(sources, names, segment.origin);
    1 <= segment.line && from
}

fn is_before(segment: Segment, last: Segment) -> bool
    ensures { result ≡ exact.is_before segment last }
{
    segment.line < last.line || segment.line == last.line && segment.column < last.column
}

// Whether a segment may stand after the last one, where there is one.
fn may_follow(last: Option<Segment>, segment: Segment) -> bool
    ensures { IsTrue result ↔ Follows last segment }
{
    match last {
        None => true,
        Some(last) => !is_before(segment, last),
    }
}

fn are_segments(sources: u64, names: u64, segments: &[Segment]) -> bool
    ensures { IsTrue result ↔ spec.AreSegments sources names segments.now }
{
    let mut last = None;
    for segment in segments {
        if !(may_follow(last, *segment) && is_segment(sources, names, *segment)) {
            return false;
        }
        last = Some(*segment);
    }
    true
}

/// Whether parts are those of a map: each number is in range, and no segment stands before the one
/// that it follows.
pub(crate) fn is_map(parts: &Parts) -> bool
    ensures { IsTrue result ↔ spec.IsMap parts.now }
{
    let sources = parts.sources.len() as u64;
    let names = parts.names.len() as u64;
    are_segments(sources, names, parts.segments.as_slice())
}
