// The functions that look for one text in another (ECMA-262, 22.1.3). A search takes time in proportion to the product of both
// lengths at worst, as std has no search but in bytes.

ghost use Rattle.std.specs.Prelude.{◌≡◌, ◌==◌, take, drop, length, map, Ok};
ghost use Rattle.std.specs.List.{ends_with};
ghost use Rattle.js_value.specs.Arguments as arguments_spec;
ghost use Rattle.js_value.specs.Arguments.{seen};
ghost use Rattle.js_value.specs.OnData as spec;
ghost use Rattle.js_data.specs.Does.{Does};

use crate::view::{clamped, number_at_or, number_at_or_end, text_at, this_text};
use js_value::{Datum, Halt, Primitive, Value};
use std::alloc::Global;

/// `String.prototype.endsWith` (22.1.3.7).
pub(crate) fn text_ends_with(
    alloc: Global,
    this: &Value,
    arguments: &[Value],
) -> Result<Datum, Halt>
    ensures { Does (spec.text_ends_with (seen this.now) (map seen arguments.now)) result }
{
    let text = this_text(alloc, this)?;
    let search = text_at(alloc, arguments, 0)?;
    let to = number_at_or_end(&text, arguments, 1)?;
    Ok(Datum::One(Primitive::Boolean(ends(text.as_slice(), search.as_slice(), to))))
}

/// Whether the units up to a place end with others.
fn ends(units: &[u16], search: &[u16], to: i64) -> bool
    ensures { result ≡ ends_with ◌==◌ (take (arguments_spec.clamped (length units.now) to) units.now) search.now }
{
    units[..clamped(units.len(), to)].ends_with(search)
}

/// `String.prototype.includes` (22.1.3.8).
pub(crate) fn text_includes(alloc: Global, this: &Value, arguments: &[Value]) -> Result<Datum, Halt>
    ensures { Does (spec.text_includes (seen this.now) (map seen arguments.now)) result }
{
    let text = this_text(alloc, this)?;
    let search = text_at(alloc, arguments, 0)?;
    let from = number_at_or(0, arguments, 1)?;
    includes(text.as_slice(), search.as_slice(), from)
}

/// Whether a text stands in another, from a place on.
fn includes(units: &[u16], search: &[u16], from: i64) -> Result<Datum, Halt>
    ensures { Does (spec.truth (spec.is_found (spec.index_in units.now search.now from))) result }
{
    let place = index_in(units, search, from)?;
    Ok(Datum::One(Primitive::Boolean(place >= 0)))
}

/// `String.prototype.indexOf` (22.1.3.9).
pub(crate) fn text_index_of(alloc: Global, this: &Value, arguments: &[Value]) -> Result<Datum, Halt>
    ensures { Does (spec.text_index_of (seen this.now) (map seen arguments.now)) result }
{
    let text = this_text(alloc, this)?;
    let search = text_at(alloc, arguments, 0)?;
    let from = number_at_or(0, arguments, 1)?;
    let place = index_in(text.as_slice(), search.as_slice(), from)?;
    Ok(Datum::One(Primitive::Number(place)))
}

/// Where a text stands first in another, from a place on; -1 where it doesn't.
fn index_in(units: &[u16], search: &[u16], from: i64) -> Result<i64, Halt>
    ensures { Does (Ok (spec.index_in units.now search.now from)) result }
{
    let from = clamped(units.len(), from);
    place_in(from, search, &units[from..])
}

/// The same in what is left of a text from a place on.
fn place_in(from: usize, search: &[u16], units: &[u16]) -> Result<i64, Halt>
    ensures { Does (Ok (spec.place_in from search.now units.now)) result }
{
    let mut at = from;
    let mut left = units;
    loop {
        if left.starts_with(search) {
            return match i64::try_from(at) {
                Ok(place) => Ok(place),
                Err(_) => Err(Halt::Memory),
            };
        }
        let [_, rest @ ..] = left else {
            return Ok(-1);
        };
        let Some(next) = at.checked_add(1) else {
            return Err(Halt::Memory);
        };
        at = next;
        left = rest;
    }
}

/// `String.prototype.startsWith` (22.1.3.24).
pub(crate) fn text_starts_with(
    alloc: Global,
    this: &Value,
    arguments: &[Value],
) -> Result<Datum, Halt>
    ensures { Does (spec.text_starts_with (seen this.now) (map seen arguments.now)) result }
{
    let text = this_text(alloc, this)?;
    let search = text_at(alloc, arguments, 0)?;
    let from = number_at_or(0, arguments, 1)?;
    Ok(Datum::One(Primitive::Boolean(starts(text.as_slice(), search.as_slice(), from))))
}

/// Whether the units from a place on begin with others.
fn starts(units: &[u16], search: &[u16], from: i64) -> bool
    ensures { result ≡ spec.begins (drop (arguments_spec.clamped (length units.now) from) units.now) search.now }
{
    units[clamped(units.len(), from)..].starts_with(search)
}
