ghost use Rattle.std.specs.Prelude.{◌≡◌, [], ◌∷◌, Some, map, IfOk};
ghost use Rattle.printed_map.specs.Marked as spec;

use items::{Items, Memory, Text};
use js_layout::Mark;
use js_tree::Pos;
use source_map::{Origin, Parts, Segment, SourceMap};
use std::alloc::{AllocError, Global};

/// The source map of a text with these marks, which comes from the file at a path alone. Marks have
/// no map where one stands before another that it follows, or at a line 0 of the source: then it
/// fails as for want of memory, the only error.
pub fn map_of(alloc: Global, path: &str, marks: &[Mark]) -> Result<SourceMap, Memory>
    ensures { IfOk result (λ map. map ≡ spec.map_of path.now marks.now) }
{
    let parts = parts_of(alloc, path, marks)?;
    match SourceMap::of(parts) {
        Some(map) => Ok(map),
        None => Err(AllocError),
    }
}

fn parts_of(alloc: Global, path: &str, marks: &[Mark]) -> Result<Parts, Memory>
    ensures { IfOk result (λ parts. parts ≡ spec.map_of path.now marks.now) }
{
    Ok(Parts {
        sources: one_source(alloc, path)?,
        names: Items::new(alloc),
        segments: segments_of(alloc, marks)?,
    })
}

// The path as the only source.
fn one_source(alloc: Global, path: &str) -> Result<Items<Option<Text>>, Memory>
    ensures { IfOk result (λ sources. sources ≡ Some path.now ∷ []) }
{
    let mut sources = Items::new(alloc);
    sources.push(Some(Text::from_str(alloc, path)?))?;
    Ok(sources)
}

// A segment for each mark.
fn segments_of(alloc: Global, marks: &[Mark]) -> Result<Items<Segment>, Memory>
    ensures { IfOk result (λ segments. segments ≡ map spec.segment_of marks.now) }
{
    let mut segments = Vec::new(alloc);
    for mark in marks {
        segments.push(segment_of(*mark))?;
    }
    Ok(Items::from_vec(segments))
}

fn segment_of(mark: Mark) -> Segment
    ensures { result ≡ spec.segment_of mark }
{
    Segment {
        line: u64::from(mark.at.line),
        column: mark.at.column,
        origin: origin_of(mark.source),
    }
}

// A place in the only source, where there is one.
fn origin_of(place: Option<Pos>) -> Option<Origin>
    ensures { result ≡ spec.origin_of place }
{
    match place {
        None => None,
        Some(place) => Some(Origin {
            source: 0,
            line: place.line,
            column: place.column,
            name: None,
        }),
    }
}
