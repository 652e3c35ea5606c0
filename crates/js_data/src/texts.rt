// The functions that give a text made of others, or a part of one (ECMA-262, 22.1).

ghost use Rattle.std.specs.Prelude.{◌≡◌, ◌≤◌, ◌++◌, ◌∷◌, [], MatchOption, OnOk, length, map};
ghost use Rattle.js_value.specs.Arguments.{seen};
ghost use Rattle.js_value.specs.OnData as spec;
ghost use Rattle.js_data.specs.Does.{Does};

use crate::view::{
    clamped, number, number_at_or, number_at_or_end, relative, text_receiver, this_text,
};
use items::Memory;
use js_value::{Complaint, Datum, Halt, Kind, Primitive, Str, Value};
use std::alloc::Global;

/// `String.fromCharCode` (22.1.2.1).
pub(crate) fn from_char_code(alloc: Global, arguments: &[Value]) -> Result<Datum, Halt>
    ensures { Does (spec.from_char_code (map seen arguments.now)) result }
{
    let mut units = Vec::new(alloc);
    for value in arguments {
        let number = number(value)?;
        put(&mut units, unit_of(number))?;
    }
    Ok(Datum::One(Primitive::Text(Str::from_vec(units)?)))
}

/// Puts a unit after others.
pub(crate) fn put(units: &mut Vec<u16>, unit: u16) -> Result<(), Memory>
    ensures { OnOk result (units.new.items ≡ units.old.items ++ unit ∷ []) }
{
    units.push(unit)?;
    Ok(())
}

/// ToUint16 (7.1.8).
fn unit_of(number: i64) -> u16
    ensures { result ≡ spec.unit_of number }
{
    let size = (number.unsigned_abs() % 65536) as u16;
    if number < 0 && size != 0 {
        (65536 - u32::from(size)) as u16
    } else {
        size
    }
}

/// These units as what is given.
fn given(alloc: Global, units: &[u16]) -> Result<Datum, Halt>
    ensures { Does (spec.units units.now) result }
{
    let units = Vec::from_slice(alloc, units)?;
    Ok(Datum::One(Primitive::Text(Str::from_vec(units)?)))
}

/// `String.prototype.charAt` (22.1.3.2).
pub(crate) fn char_at(alloc: Global, this: &Value, arguments: &[Value]) -> Result<Datum, Halt>
    ensures { Does (spec.char_at (seen this.now) (map seen arguments.now)) result }
{
    let text = this_text(alloc, this)?;
    let place = number_at_or(0, arguments, 0)?;
    single(alloc, text.as_slice(), place)
}

/// The text of the unit at a place, empty where there is none.
fn single(alloc: Global, units: &[u16], place: i64) -> Result<Datum, Halt>
    ensures { Does (spec.units (spec.unit_at units.now place)) result }
{
    match unit_at(units, place) {
        Some(unit) => given(alloc, &[unit]),
        None => given(alloc, &[]),
    }
}

/// The unit at a place.
fn unit_at(units: &[u16], place: i64) -> Option<u16>
    ensures { MatchOption result (spec.unit_at units.now place ≡ []) (λ unit. spec.unit_at units.now place ≡ unit ∷ []) }
{
    match usize::try_from(place) {
        Ok(place) => units.get(place).copied(),
        Err(_) => None,
    }
}

/// `String.prototype.charCodeAt` (22.1.3.3).
pub(crate) fn char_code_at(alloc: Global, this: &Value, arguments: &[Value]) -> Result<Datum, Halt>
    ensures { Does (spec.char_code_at (seen this.now) (map seen arguments.now)) result }
{
    let text = this_text(alloc, this)?;
    let place = number_at_or(0, arguments, 0)?;
    code_at(text.as_slice(), place)
}

/// The number of the unit at a place.
fn code_at(units: &[u16], place: i64) -> Result<Datum, Halt>
    ensures { Does (spec.code_of (spec.unit_at units.now place)) result }
{
    match unit_at(units, place) {
        Some(unit) => Ok(Datum::One(Primitive::Number(i64::from(unit)))),
        None => Err(Halt::Refuse(Kind::Number)),
    }
}

/// `String.prototype.repeat` (22.1.3.18).
pub(crate) fn text_repeat(alloc: Global, this: &Value, arguments: &[Value]) -> Result<Datum, Halt>
    ensures { Does (spec.text_repeat (seen this.now) (map seen arguments.now)) result }
{
    let text = this_text(alloc, this)?;
    let count = number_at_or(0, arguments, 0)?;
    repeated(alloc, text.as_slice(), count)
}

/// So many copies of these units, one after another. All room is taken at once, so that too many want memory at once.
fn repeated(alloc: Global, units: &[u16], count: i64) -> Result<Datum, Halt>
    ensures { Does (spec.repeated units.now count) result }
{
    match usize::try_from(count) {
        Ok(count) => {
            let copies = units.repeat(alloc, count)?;
            Ok(Datum::One(Primitive::Text(Str::from_vec(copies)?)))
        }
        Err(_) => Err(Halt::Throw(Complaint::BadCount)),
    }
}

/// `String.prototype.slice` (22.1.3.22).
pub(crate) fn text_slice(alloc: Global, this: &Value, arguments: &[Value]) -> Result<Datum, Halt>
    ensures { Does (spec.text_slice (seen this.now) (map seen arguments.now)) result }
{
    let text = this_text(alloc, this)?;
    let from = number_at_or(0, arguments, 0)?;
    let to = number_at_or_end(&text, arguments, 1)?;
    let length = text.len();
    between(
        alloc,
        relative(length, from),
        relative(length, to),
        text.as_slice(),
    )
}

/// The units from one place up to another; none where that comes first.
fn between(alloc: Global, from: usize, to: usize, units: &[u16]) -> Result<Datum, Halt>
    requires from_within { from ≤ length units.now }
    requires to_within { to ≤ length units.now }
    ensures { Does (spec.units (spec.between from to units.now)) result }
{
    if from < to {
        given(alloc, &units[from..to])
    } else {
        given(alloc, &[])
    }
}

/// `String.prototype.substring` (22.1.3.25).
pub(crate) fn substring(alloc: Global, this: &Value, arguments: &[Value]) -> Result<Datum, Halt>
    ensures { Does (spec.substring (seen this.now) (map seen arguments.now)) result }
{
    let text = this_text(alloc, this)?;
    let from = number_at_or(0, arguments, 0)?;
    let to = number_at_or_end(&text, arguments, 1)?;
    let length = text.len();
    sorted_between(
        alloc,
        clamped(length, from),
        clamped(length, to),
        text.as_slice(),
    )
}

/// The units between two places, of which either may come first.
fn sorted_between(alloc: Global, from: usize, to: usize, units: &[u16]) -> Result<Datum, Halt>
    requires from_within { from ≤ length units.now }
    requires to_within { to ≤ length units.now }
    ensures { Does (spec.units (spec.sorted_between from to units.now)) result }
{
    between(alloc, from.min(to), from.max(to), units)
}

/// `String.prototype.toString` (22.1.3.29).
pub(crate) fn text_to_string(this: &Value) -> Result<Datum, Halt>
    ensures { Does (spec.text_to_string (seen this.now)) result }
{
    let text = text_receiver(this)?;
    Ok(Datum::One(Primitive::Text(text)))
}

/// `String.prototype.trim` (22.1.3.32).
pub(crate) fn trim(alloc: Global, this: &Value) -> Result<Datum, Halt>
    ensures { Does (spec.trim (seen this.now)) result }
{
    let text = this_text(alloc, this)?;
    given(alloc, js_value::trim(text.as_slice()))
}
