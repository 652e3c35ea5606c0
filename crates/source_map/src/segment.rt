ghost use Rattle.std.specs.Prelude.{◌≡◌, ◌<◌, ◌-◌, ◌+◌, ◌^◌, option_map, IfSome};
ghost use Rattle.source_map.specs.Mappings as exact;
ghost use Rattle.source_map.specs.private.Pieces as spec;

use crate::number::{moved, take_number};
use crate::place::{Origin, Segment};
use crate::state::State;

/// 2^32: a value is below it.
const MOST: u64 = 1 << 32;

fn to_column(sources: u64, names: u64, number: u64, from: State) -> Option<State>
    requires { number < 2 ^ 33 }
    ensures value { result ≡ exact.to_column sources names number from }
    ensures same_line { IfSome result (λ state. state.line ≡ from.line) }
{
    let column = moved(MOST, from.column, number)?;
    Some(State { column, ..from })
}

fn to_source(sources: u64, names: u64, number: u64, from: State) -> Option<State>
    requires { number < 2 ^ 33 }
    ensures value { result ≡ exact.to_source sources names number from }
    ensures same_line { IfSome result (λ state. state.line ≡ from.line) }
{
    let source = moved(sources.min(MOST), from.source, number)?;
    Some(State { source, ..from })
}

fn to_line(sources: u64, names: u64, number: u64, from: State) -> Option<State>
    requires { number < 2 ^ 33 }
    ensures value { result ≡ exact.to_line sources names number from }
    ensures same_line { IfSome result (λ state. state.line ≡ from.line) }
    ensures below { IfSome result (λ state. state.source_line < 2 ^ 32 - 1) }
{
    let source_line = moved(MOST - 1, from.source_line, number)?;
    Some(State {
        source_line,
        ..from
    })
}

fn to_source_column(sources: u64, names: u64, number: u64, from: State) -> Option<State>
    requires { number < 2 ^ 33 }
    ensures value { result ≡ exact.to_source_column sources names number from }
    ensures same_line { IfSome result (λ state. state.line ≡ from.line) }
    ensures line { IfSome result (λ state. state.source_line ≡ from.source_line) }
{
    let source_column = moved(MOST, from.source_column, number)?;
    Some(State {
        source_column,
        ..from
    })
}

fn to_name(sources: u64, names: u64, number: u64, from: State) -> Option<State>
    requires { number < 2 ^ 33 }
    ensures value { result ≡ exact.to_name sources names number from }
    ensures same_line { IfSome result (λ state. state.line ≡ from.line) }
    ensures line { IfSome result (λ state. state.source_line ≡ from.source_line) }
{
    let name = moved(names.min(MOST), from.name, number)?;
    Some(State { name, ..from })
}

// The segment at a state, with this origin.
fn at_origin(sources: u64, names: u64, after: State, origin: Option<Origin>) -> (State, Segment)
    ensures { result ≡ spec.at_origin sources names after origin }
{
    let segment = Segment {
        line: after.line,
        column: after.column,
        origin,
    };
    (after, segment)
}

// The place in a source at a state.
fn place_of(after: State, name: Option<u32>) -> Origin
    requires { after.source_line < 2 ^ 32 - 1 }
    ensures { result ≡ exact.place_of after name }
{
    Origin {
        source: after.source,
        line: after.source_line + 1,
        column: after.source_column,
        name,
    }
}

// The state after three numbers that tell a place, and the bytes after them.
fn place_in(sources: u64, names: u64, from: State, bytes: &[u8]) -> Option<(State, &[u8])>
    ensures same_line { IfSome result (λ found. found.0.line ≡ from.line) }
    ensures value { option_map (λ found. (found.0, found.1.now)) result ≡ spec.place_in sources names from bytes.now }
    ensures below { IfSome result (λ found. found.0.source_line < 2 ^ 32 - 1) }
{
    let (source, rest) = take_number(bytes)?;
    let with_source = to_source(sources, names, source, from)?;
    let (line, after_line) = take_number(rest)?;
    let with_line = to_line(sources, names, line, with_source)?;
    let (column, after_column) = take_number(after_line)?;
    let placed = to_source_column(sources, names, column, with_line)?;
    Some((placed, after_column))
}

// A segment whose name is told, at the end of its bytes.
fn named(sources: u64, names: u64, after: State, rest: &[u8]) -> Option<(State, Segment)>
    requires { after.source_line < 2 ^ 32 - 1 }
    ensures value { result ≡ spec.named sources names after rest.now }
    ensures same_line { IfSome result (λ found. found.0.line ≡ after.line) }
{
    if rest.is_empty() {
        let origin = place_of(after, Some(after.name));
        Some(at_origin(sources, names, after, Some(origin)))
    } else {
        None
    }
}

// A segment whose place is told, with the name that these bytes tell.
fn name_in(sources: u64, names: u64, after: State, bytes: &[u8]) -> Option<(State, Segment)>
    requires { after.source_line < 2 ^ 32 - 1 }
    ensures value { result ≡ spec.name_in sources names after bytes.now }
    ensures same_line { IfSome result (λ found. found.0.line ≡ after.line) }
{
    let (name, rest) = take_number(bytes)?;
    let with_name = to_name(sources, names, name, after)?;
    named(sources, names, with_name, rest)
}

// A segment whose place is told.
fn placed(sources: u64, names: u64, after: State, rest: &[u8]) -> Option<(State, Segment)>
    requires { after.source_line < 2 ^ 32 - 1 }
    ensures value { result ≡ spec.placed sources names after rest.now }
    ensures same_line { IfSome result (λ found. found.0.line ≡ after.line) }
{
    if rest.is_empty() {
        let origin = place_of(after, None);
        return Some(at_origin(sources, names, after, Some(origin)));
    }
    name_in(sources, names, after, rest)
}

// A segment whose column is told.
fn columned(sources: u64, names: u64, after: State, rest: &[u8]) -> Option<(State, Segment)>
    ensures value { result ≡ spec.columned sources names after rest.now }
    ensures same_line { IfSome result (λ found. found.0.line ≡ after.line) }
{
    if rest.is_empty() {
        return Some(at_origin(sources, names, after, None));
    }
    let (with_place, rest) = place_in(sources, names, after, rest)?;
    placed(sources, names, with_place, rest)
}

// The segment that bytes write after a state, and the state after it.
pub(crate) fn segment_in(
    sources: u64,
    names: u64,
    from: State,
    bytes: &[u8],
) -> Option<(State, Segment)>
    ensures value { result ≡ spec.segment_in sources names from bytes.now }
    ensures same_line { IfSome result (λ found. found.0.line ≡ from.line) }
{
    let (column, rest) = take_number(bytes)?;
    let with_column = to_column(sources, names, column, from)?;
    columned(sources, names, with_column, rest)
}
