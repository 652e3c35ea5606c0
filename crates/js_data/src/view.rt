// `this` and arguments as built-in functions see them.

ghost use Rattle.std.specs.Prelude.{◌≡◌, ◌≤◌, map, length, pos, Ok, Err};
ghost use Rattle.js_value.specs.Arguments as spec;
ghost use Rattle.js_value.specs.Arguments.{seen};
ghost use Rattle.js_value.specs.OnData as answers;
ghost use Rattle.js_data.specs.Does.{Does};

use js_value::{Complaint, Halt, Kind, Primitive, Str, Value, ascii, text_of_primitive};
use std::alloc::Global;

/// ToNumber (ECMA-262, 7.1.4).
pub fn number(value: &Value) -> Result<i64, Halt>
    ensures { Does (spec.to_number (seen value.now)) result }
{
    match js_value::to_number(value) {
        Ok(number) => Ok(number),
        Err(kind) => Err(Halt::Refuse(kind)),
    }
}

/// ToString (7.1.17).
pub fn text(alloc: Global, value: &Value) -> Result<Str, Halt>
    ensures { Does (spec.to_text (seen value.now)) result }
{
    match value {
        Value::Primitive(primitive) => Ok(text_of_primitive(alloc, primitive)?),
        Value::Object(_) => Err(Halt::Refuse(Kind::Convert)),
    }
}

/// ToNumber of the argument at this place.
pub fn number_at(arguments: &[Value], place: usize) -> Result<i64, Halt>
    ensures { Does (spec.to_number (spec.argument (map seen arguments.now) place)) result }
{
    match arguments.get(place) {
        Some(value) => number(value),
        None => Err(Halt::Refuse(Kind::Number)),
    }
}

/// ToString of the argument at this place.
pub fn text_at(alloc: Global, arguments: &[Value], place: usize) -> Result<Str, Halt>
    ensures { Does (spec.to_text (spec.argument (map seen arguments.now) place)) result }
{
    match arguments.get(place) {
        Some(value) => text(alloc, value),
        None => Ok(ascii(alloc, b"undefined")?),
    }
}

/// ToNumber of the argument at this place, or this number where it is undefined.
pub fn number_at_or(otherwise: i64, arguments: &[Value], place: usize) -> Result<i64, Halt>
    ensures { Does (spec.number_or otherwise (spec.argument (map seen arguments.now) place)) result }
{
    match arguments.get(place) {
        None | Some(Value::Primitive(Primitive::Undefined)) => Ok(otherwise),
        Some(value) => number(value),
    }
}

/// ToNumber of the argument at this place, or the length of a text where it is undefined.
pub fn number_at_or_end(text: &Str, arguments: &[Value], place: usize) -> Result<i64, Halt>
    ensures { Does (spec.number_or (pos (length text.now)) (spec.argument (map seen arguments.now) place)) result }
{
    match i64::try_from(text.len()) {
        Ok(end) => number_at_or(end, arguments, place),
        Err(_) => Err(Halt::Memory),
    }
}

/// The text of `this`, which may be of any type but undefined and null (7.2.1, 7.1.17).
pub fn this_text(alloc: Global, this: &Value) -> Result<Str, Halt>
    ensures { Does (answers.this_text (seen this.now)) result }
{
    match this {
        Value::Primitive(Primitive::Undefined | Primitive::Null) => Err(Halt::Throw(
            Complaint::NoProperties,
        )),
        _ => text(alloc, this),
    }
}

/// The text that `this` is (22.1.3, ThisStringValue).
pub fn text_receiver(this: &Value) -> Result<Str, Halt>
    ensures { Does (answers.text_receiver (seen this.now)) result }
{
    match this {
        Value::Primitive(Primitive::Text(text)) => Ok(text.copy()?),
        _ => Err(Halt::Throw(Complaint::WrongReceiver)),
    }
}

/// The number that `this` is (21.1.3, ThisNumberValue).
pub fn number_receiver(this: &Value) -> Result<i64, Halt>
    ensures { Does (answers.number_receiver (seen this.now)) result }
{
    match this {
        Value::Primitive(Primitive::Number(number)) => Ok(*number),
        _ => Err(Halt::Throw(Complaint::WrongReceiver)),
    }
}

/// The truth value that `this` is (20.3.3, ThisBooleanValue).
pub fn boolean_receiver(this: &Value) -> Result<bool, Halt>
    ensures { Does (answers.boolean_receiver (seen this.now)) result }
{
    match this {
        Value::Primitive(Primitive::Boolean(truth)) => Ok(*truth),
        _ => Err(Halt::Throw(Complaint::WrongReceiver)),
    }
}

/// A number between 0 and a length (7.1.5).
pub fn clamped(length: usize, number: i64) -> usize
    ensures place { result ≡ spec.clamped length number }
    ensures within { result ≤ length }
{
    match usize::try_from(number) {
        Ok(place) => place.min(length),
        Err(_) => 0,
    }
}

/// The place that a number tells, from the end where it is negative (22.1.3.22, 4 to 11).
pub fn relative(length: usize, number: i64) -> usize
    ensures place { result ≡ spec.relative length number }
    ensures within { result ≤ length }
{
    match usize::try_from(number) {
        Ok(place) => place.min(length),
        Err(_) => length.saturating_sub(number.unsigned_abs() as usize),
    }
}

/// A number as what is given, where it is in range.
pub fn ranged_number(number: i64) -> Result<Primitive, Halt>
    ensures { Does (answers.ranged_number number) result }
{
    if number.unsigned_abs() < 1 << 53 {
        Ok(Primitive::Number(number))
    } else {
        Err(Halt::Refuse(Kind::Number))
    }
}
