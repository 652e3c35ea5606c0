ghost use Rattle.std.specs.Prelude.{◌≡◌, map, IfOk};
ghost use Rattle.source_map.specs.Trace as spec;
ghost use Rattle.source_map.specs.private.Order.{AreInOrder};

use crate::place::{Origin, Parts, Segment, Traced};
use crate::search::{trace, traced_to};
use items::{Items, Memory, Text};
use std::alloc::Global;

// What the inner map says of a place.
fn trace_again(inner: &Parts, place: Option<Traced>) -> Option<Traced>
    requires { AreInOrder inner.now.segments }
    ensures { result ≡ spec.trace_again inner.now place }
{
    match place {
        None => None,
        Some(place) => trace(inner, place.line, Some(place.column)),
    }
}

// A segment of the outer map, followed through the inner one.
fn followed(outer: &Parts, inner: &Parts, segment: Segment) -> Segment
    requires { AreInOrder inner.now.segments }
    ensures { result ≡ spec.followed outer.now inner.now segment }
{
    let origin = match trace_again(inner, traced_to(outer, segment.origin)) {
        None => None,
        Some(place) => Some(Origin {
            source: place.source,
            line: place.line,
            column: place.column,
            name: None,
        }),
    };
    Segment {
        line: segment.line,
        column: segment.column,
        origin,
    }
}

// All segments of the outer map, followed through the inner one.
fn all_followed(alloc: Global, outer: &Parts, inner: &Parts) -> Result<Items<Segment>, Memory>
    requires { AreInOrder inner.now.segments }
    ensures { IfOk result (λ segments. segments ≡ map (spec.followed outer.now inner.now) outer.now.segments) }
{
    let mut segments = Vec::new(alloc);
    for segment in outer.segments.as_slice() {
        segments.push(followed(outer, inner, *segment))?;
    }
    Ok(Items::from_vec(segments))
}

// A copy of a text, where there is one.
fn copied(alloc: Global, text: &Option<Text>) -> Result<Option<Text>, Memory>
    ensures { IfOk result (λ copy. copy ≡ text.now) }
{
    match text {
        None => Ok(None),
        Some(text) => Ok(Some(Text::from_str(alloc, text.as_str())?)),
    }
}

// Copies of the sources.
fn sources_of(alloc: Global, map: &Parts) -> Result<Items<Option<Text>>, Memory>
    ensures { IfOk result (λ sources. sources ≡ map.now.sources) }
{
    let mut sources = Vec::new(alloc);
    for source in map.sources.as_slice() {
        sources.push(copied(alloc, source)?)?;
    }
    Ok(Items::from_vec(sources))
}

/// The outer map and then the inner one.
pub(crate) fn compose(alloc: Global, outer: &Parts, inner: &Parts) -> Result<Parts, Memory>
    requires { AreInOrder inner.now.segments }
    ensures { IfOk result (λ map. map ≡ spec.composed outer.now inner.now) }
{
    Ok(Parts {
        sources: sources_of(alloc, inner)?,
        names: Items::new(alloc),
        segments: all_followed(alloc, outer, inner)?,
    })
}
