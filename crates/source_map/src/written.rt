ghost use Rattle.std.specs.Prelude.{◌≡◌, ◌≤◌, ◌<◌, ◌^◌, ◌++◌, ℕ, [], ◌∷◌, length, map, replicate, string_bytes, Ok, IfOk, OnOk};
ghost use Rattle.serde_json.specs.Data.{string};
ghost use Rattle.serde_json.specs.View.{view};
ghost use Rattle.source_map.specs.Vlq as vlq;
ghost use Rattle.source_map.specs.Laws.{IsMap};
ghost use Rattle.source_map.specs.Read.{source_map_of};
ghost use Rattle.source_map.specs.Write as spec;
ghost use Rattle.source_map.specs.private.Digits.{most_of};
ghost use Rattle.source_map.specs.private.Next.{next_text};

use crate::digit::byte_of;
use crate::laws::reading;
use crate::line::start;
use crate::place::{Origin, Parts, Segment};
use crate::state::State;
use items::{Memory, Text};
use serde_json::{Value, json};
use std::alloc::Global;

// Writes a digit at the end of `out`.
fn push_digit(out: &mut String, digit: u8) -> Result<(), Memory>
    requires { digit < 64 }
    ensures { OnOk result (string_bytes out.new ≡ string_bytes out.old ++ vlq.byte_of digit ∷ []) }
{
    out.push(char::from(byte_of(digit)))
}

// Writes a number, which has at most so many digits more than one.
#[tactic(auto, using(crate::proofs::DigitsLemmas::digits_short, crate::proofs::DigitsLemmas::digits_long, crate::proofs::DigitsLemmas::more_digits))]
fn push_number(out: &mut String, more: u8, number: u64) -> Result<(), Memory>
    requires { number < most_of more }
    ensures { OnOk result (string_bytes out.new ≡ string_bytes out.old ++ map vlq.byte_of (vlq.digits_from more number)) }
{
    if number < 32 {
        return push_digit(out, number as u8);
    }
    push_digit(out, 32 + (number % 32) as u8)?;
    push_number(out, more - 1, number / 32)
}

// How a value stands after the last one.
fn signed(last: u32, value: u32) -> u64
    ensures number { result ≡ vlq.signed last value }
    ensures below { result < 2 ^ 33 }
{
    let last = u64::from(last);
    let value = u64::from(value);
    if last <= value {
        2 * (value - last)
    } else {
        2 * (last - value) + 1
    }
}

fn push_value(out: &mut String, last: u32, value: u32) -> Result<(), Memory>
    ensures { OnOk result (string_bytes out.new ≡ string_bytes out.old ++ spec.value_text last value) }
{
    push_number(out, 6, signed(last, value))
}

fn push_name(out: &mut String, from: State, name: Option<u32>) -> Result<(), Memory>
    ensures { OnOk result (string_bytes out.new ≡ string_bytes out.old ++ spec.name_text from name) }
{
    match name {
        None => Ok(()),
        Some(name) => push_value(out, from.name, name),
    }
}

fn push_origin(out: &mut String, from: State, origin: Option<Origin>) -> Result<(), Memory>
    ensures { OnOk result (string_bytes out.new ≡ string_bytes out.old ++ spec.origin_text from origin) }
{
    match origin {
        None => Ok(()),
        Some(origin) => {
            push_value(out, from.source, origin.source)?;
            push_value(out, from.source_line, origin.line.saturating_sub(1))?;
            push_value(out, from.source_column, origin.column)?;
            push_name(out, from, origin.name)
        }
    }
}

fn push_segment(out: &mut String, from: State, segment: Segment) -> Result<(), Memory>
    ensures { OnOk result (string_bytes out.new ≡ string_bytes out.old ++ spec.segment_text from segment) }
{
    push_value(out, from.column, segment.column)?;
    push_origin(out, from, segment.origin)
}

// Ends so many lines.
fn push_ends(out: &mut String, count: u64) -> Result<(), Memory>
    ensures { OnOk result (string_bytes out.new ≡ string_bytes out.old ++ replicate count 59) }
{
    for ended in 0..count {
        out.push(';')?;
    }
    Ok(())
}

// The last value of each number after a segment.
fn after_origin(from: State, segment: Segment) -> State
    ensures { result ≡ spec.after_origin from segment segment.origin }
{
    match segment.origin {
        None => State {
            line: segment.line,
            column: segment.column,
            ..from
        },
        Some(origin) => State {
            line: segment.line,
            column: segment.column,
            source: origin.source,
            source_line: origin.line.saturating_sub(1),
            source_column: origin.column,
            name: match origin.name {
                None => from.name,
                Some(name) => name,
            },
        },
    }
}

// Writes a segment after those before it, of which one stands on its line or none.
fn push_next(out: &mut String, from: State, later: bool, segment: Segment) -> Result<(), Memory>
    ensures { OnOk result (string_bytes out.new ≡ string_bytes out.old ++ next_text from later segment) }
{
    if segment.line == from.line {
        push_comma(out, later)?;
        push_segment(out, from, segment)
    } else {
        push_ends(out, segment.line.saturating_sub(from.line))?;
        push_segment(out, State { column: 0, ..from }, segment)
    }
}

fn push_comma(out: &mut String, later: bool) -> Result<(), Memory>
    ensures { OnOk result (string_bytes out.new ≡ string_bytes out.old ++ spec.comma_if later) }
{
    if later { out.push(',') } else { Ok(()) }
}

// The mappings of segments.
fn mappings_of(alloc: Global, segments: &[Segment]) -> Result<String, Memory>
    ensures { IfOk result (λ text. string_bytes text ≡ spec.mappings_text segments.now) }
{
    let mut out = String::new(alloc);
    let mut state = start();
    let mut later = false;
    for segment in segments {
        push_next(&mut out, state, later, *segment)?;
        state = after_origin(state, *segment);
        later = true;
    }
    Ok(out)
}

// The names as JSON.
fn name_values(alloc: Global, parts: &Parts) -> Result<Vec<Value>, Memory>
    ensures { IfOk result (λ values. map view values.items ≡ map (λ text. string text) parts.now.names) }
{
    let mut values = Vec::new(alloc);
    for name in parts.names.as_slice() {
        values.push(Value::try_from_str(alloc, name.as_str())?)?;
    }
    Ok(values)
}

fn source_value(alloc: Global, source: &Option<Text>) -> Result<Value, Memory>
    ensures { IfOk result (λ value. view value ≡ spec.source_data source.now) }
{
    match source {
        None => Ok(Value::Null),
        Some(text) => Value::try_from_str(alloc, text.as_str()),
    }
}

// The sources as JSON.
fn source_values(alloc: Global, parts: &Parts) -> Result<Vec<Value>, Memory>
    ensures { IfOk result (λ values. map view values.items ≡ map spec.source_data parts.now.sources) }
{
    let mut values = Vec::new(alloc);
    for source in parts.sources.as_slice() {
        values.push(source_value(alloc, source)?)?;
    }
    Ok(values)
}

// The map as JSON.
pub(crate) fn value_of(alloc: Global, parts: &Parts) -> Result<Value, Memory>
    ensures { IfOk result (λ value. view value ≡ spec.map_data parts.now) }
{
    let mappings = mappings_of(alloc, parts.segments.as_slice())?;
    let names = name_values(alloc, parts)?;
    let sources = source_values(alloc, parts)?;
    json!(in alloc; {"mappings": mappings, "names": names, "sources": sources, "version": 3u64})
}

/// The text of a map, with no space. A map whose segments stand in order, with numbers in range, is
/// read back from it, where it isn't too long. Want of memory is the only error.
pub(crate) fn write(alloc: Global, parts: &Parts) -> Result<Vec<u8>, Memory>
    ensures text { IfOk result (λ text. text.items ≡ spec.map_text parts.now) }
    ensures reads_back { (most : ℕ) → IfOk result (λ text. IsMap parts.now → length text.items ≤ most → source_map_of most text.items ≡ Ok parts.now) }
{
    reading();
    let value = value_of(alloc, parts)?;
    value.to_vec(alloc)
}
