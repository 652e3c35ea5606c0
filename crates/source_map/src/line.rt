ghost use Rattle.std.specs.Prelude.{◌≡◌, ◌<◌, ◌+◌, ◌-◌, ◌^◌, length, IfOk};
ghost use Rattle.source_map.specs.Mappings as exact;
ghost use Rattle.source_map.specs.private.Lines as spec;

use crate::fault::MapFault;
use crate::place::Segment;
use crate::segment::segment_in;
use crate::state::State;
use std::alloc::Global;

// Reads a piece between two commas, which begins after so many bytes, and puts its segment last.
// After an error the segments are of no use.
#[tactic(auto, using(crate::proofs::SegmentLemmas::segment_is))]
fn read_piece(
    sources: u64,
    names: u64,
    from: State,
    at: u64,
    piece: &str,
    segments: &mut Vec<Segment>,
) -> Result<State, MapFault>
    ensures answers { spec.Answers segments.new.items result (spec.onto segments.old.items (exact.read_segment sources names from at piece.now)) }
    ensures same_line { IfOk result (λ after. after.line ≡ from.line) }
{
    if piece.is_empty() {
        return Ok(from);
    }
    match segment_in(sources, names, from, piece.as_bytes()) {
        None => Err(MapFault::BadMappings { at }),
        Some((after, segment)) => {
            segments.push(segment)?;
            Ok(after)
        }
    }
}

// Reads a line, which begins after so many bytes, and puts its segments last.
fn read_line(
    sources: u64,
    names: u64,
    from: State,
    start: u64,
    line: &str,
    segments: &mut Vec<Segment>,
) -> Result<State, MapFault>
    requires { start + length line.now < 2 ^ 63 }
    ensures answers { spec.Answers segments.new.items result (spec.onto segments.old.items (exact.read_line sources names from start (spec.pieces line.now))) }
    ensures same_line { IfOk result (λ after. after.line ≡ from.line) }
{
    let mut state = from;
    let mut at = start;
    for piece in line.split(',') {
        match read_piece(sources, names, state, at, piece, segments) {
            Ok(after) => state = after,
            Err(fault) => return Err(fault),
        }
        at += piece.len() as u64 + 1;
    }
    Ok(state)
}

// The segments of all lines, in the order of the text.
pub(crate) fn read_lines(
    alloc: Global,
    sources: u64,
    names: u64,
    mappings: &str,
) -> Result<Vec<Segment>, MapFault>
    requires { length mappings.now < 2 ^ 63 }
    ensures { spec.AnswersAll result (exact.read_lines sources names exact.start 0 (spec.lines mappings.now)) }
{
    let mut segments = Vec::new(alloc);
    let mut state = start();
    let mut at = 0u64;
    for line in mappings.split(';') {
        match read_line(sources, names, state, at, line, &mut segments) {
            Ok(after) => state = next_line(after),
            Err(fault) => return Err(fault),
        }
        at += line.len() as u64 + 1;
    }
    Ok(segments)
}

// The state before the first line.
pub(crate) fn start() -> State
    ensures { result ≡ exact.start }
{
    State {
        line: 1,
        column: 0,
        source: 0,
        source_line: 0,
        source_column: 0,
        name: 0,
    }
}

// The state before the next line.
fn next_line(after: State) -> State
    requires { after.line < 2 ^ 64 - 1 }
    ensures { result ≡ record after { line = after.line + 1; column = 0 } }
{
    State {
        line: after.line + 1,
        column: 0,
        ..after
    }
}
