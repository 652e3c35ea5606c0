ghost use Rattle.std.specs.Prelude.{◌≡◌, ◌<◌, Some, IfSome, option_map};
ghost use Rattle.cov_object.specs.Read as spec;
ghost use Rattle.serde_json.specs.View.{view};

use crate::location::{Location, Position};
use crate::number::{Count, Line};
use serde_json::Value;

// A whole number below a bound.
fn whole_below(bound: u64, value: &Value) -> Option<u64>
    ensures value { result ≡ spec.whole_below bound (view value.now) }
    ensures below { IfSome result (λ n. n < bound) }
{
    match value.as_u64() {
        Some(n) => if n < bound { Some(n) } else { None },
        None => None,
    }
}

fn line_of(value: &Value) -> Option<Line>
    ensures { result ≡ spec.line_of (view value.now) }
{
    match whole_below(1 << 32, value) {
        Some(n) => if n > 0 {
            Some(Line::new(n as u32))
        } else {
            None
        },
        None => None,
    }
}

fn column_of(value: &Value) -> Option<Option<u32>>
    ensures { result ≡ spec.column_of (view value.now) }
{
    if value.is_null() {
        return Some(None);
    }
    match whole_below(1 << 32, value) {
        Some(n) => Some(Some(n as u32)),
        None => None,
    }
}

fn place_of(line: &Value, column: &Value) -> Option<Option<Position>>
    ensures { result ≡ spec.place_of (Some (view line.now)) (Some (view column.now)) }
{
    let line = line_of(line)?;
    let column = column_of(column)?;
    Some(Some(Position { line, column }))
}

fn position_of(value: &Value) -> Option<Option<Position>>
    ensures { result ≡ spec.position_of (view value.now) }
{
    if !value.is_object() {
        return None;
    }
    match (value.get("line"), value.get("column")) {
        (None, None) => Some(None),
        (Some(line), Some(column)) => place_of(line, column),
        (None, Some(_)) | (Some(_), None) => None,
    }
}

fn position_in(name: &str, value: &Value) -> Option<Option<Position>>
    ensures { result ≡ spec.position_in name.now (view value.now) }
{
    match value.get(name) {
        Some(value) => position_of(value),
        None => None,
    }
}

pub(crate) fn location_of(value: &Value) -> Option<Location>
    ensures { result ≡ spec.location_of (view value.now) }
{
    let start = position_in("start", value)?;
    let end = position_in("end", value)?;
    Some(Location { start, end })
}

pub(crate) fn location_in(name: &str, value: &Value) -> Option<Location>
    ensures { result ≡ spec.location_in name.now (view value.now) }
{
    match value.get(name) {
        Some(value) => location_of(value),
        None => None,
    }
}

pub(crate) fn text_in<'v>(name: &str, value: &'v Value) -> Option<&'v str>
    ensures { option_map (λ text. text.now) result ≡ spec.text_in name.now (view value.now) }
{
    match value.get(name) {
        Some(value) => value.as_str(),
        None => None,
    }
}

pub(crate) fn count_of(value: &Value) -> Option<Count>
    ensures { result ≡ spec.count_of (view value.now) }
{
    match whole_below(1 << 53, value) {
        Some(n) => Some(Count::new(n)),
        None => None,
    }
}
