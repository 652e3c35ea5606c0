// The texts of numbers and truth values (ECMA-262, 20.3.3.2 and 21.1.3.6).

ghost use Rattle.std.specs.Prelude.{◌≡◌, ◌<◌, ◌≤◌, ◌++◌, [], map, reverse, codes, IfOk, if◌then◌else◌};
ghost use Rattle.js_value.specs.Arguments.{seen};
ghost use Rattle.js_value.specs.OnData as spec;
ghost use Rattle.js_data.specs.Does.{Does};

use crate::texts::put;
use crate::view::{boolean_receiver, number_at_or, number_receiver};
use items::Memory;
use js_value::{Complaint, Datum, Halt, Primitive, Str, Value, ascii};
use std::alloc::Global;

/// `Boolean.prototype.toString` (20.3.3.2).
pub(crate) fn boolean_to_string(alloc: Global, this: &Value) -> Result<Datum, Halt>
    ensures { Does (spec.boolean_to_string (seen this.now)) result }
{
    let truth = boolean_receiver(this)?;
    Ok(Datum::One(Primitive::Text(word_of(alloc, truth)?)))
}

/// `true` or `false`.
fn word_of(alloc: Global, truth: bool) -> Result<Str, Memory>
    ensures { IfOk result (λ text. text ≡ (if truth then codes "true" else codes "false")) }
{
    if truth {
        ascii(alloc, b"true")
    } else {
        ascii(alloc, b"false")
    }
}

/// `Number.prototype.toString` (21.1.3.6).
pub(crate) fn number_to_string(
    alloc: Global,
    this: &Value,
    arguments: &[Value],
) -> Result<Datum, Halt>
    ensures { Does (spec.number_to_string (seen this.now) (map seen arguments.now)) result }
{
    let number = number_receiver(this)?;
    let radix = number_at_or(10, arguments, 0)?;
    with_radix(alloc, number, radix)
}

/// The text of a number in this radix.
fn with_radix(alloc: Global, number: i64, radix: i64) -> Result<Datum, Halt>
    ensures { Does (spec.with_radix number radix) result }
{
    let radix = radix_of(radix)?;
    Ok(Datum::One(Primitive::Text(signed_digits(alloc, radix, number)?)))
}

/// A radix from 2 to 36.
fn radix_of(number: i64) -> Result<u64, Halt>
    ensures does { Does (spec.radix_of number) result }
    ensures within { IfOk result (λ radix. (2 ≤ radix) × (radix ≤ 36)) }
{
    match u64::try_from(number) {
        Ok(radix) if 2 <= radix && radix <= 36 => Ok(radix),
        _ => Err(Halt::Throw(Complaint::BadRadix)),
    }
}

/// The digits of a number in this radix, with `-` before them where it is negative.
fn signed_digits(alloc: Global, radix: u64, number: i64) -> Result<Str, Memory>
    requires { (2 ≤ radix) × (radix ≤ 36) }
    ensures { IfOk result (λ text. text ≡ spec.signed_digits radix number) }
{
    let units = reversed_digits(alloc, radix, number.unsigned_abs())?;
    signed(units, number < 0)
}

/// The text of these units, the last one first, with `-` before them where it is asked for.
fn signed(units: Vec<u16>, negative: bool) -> Result<Str, Memory>
    ensures { IfOk result (λ text. text ≡ (if negative then codes "-" ++ reverse units.items else reverse units.items)) }
{
    let mut units = units;
    if negative {
        put(&mut units, 45)?;
        return forward(units);
    }
    forward(units)
}

/// The text of these units, the last one first.
fn forward(units: Vec<u16>) -> Result<Str, Memory>
    ensures { IfOk result (λ text. text ≡ reverse units.items) }
{
    let mut units = units;
    units.reverse();
    Str::from_vec(units)
}

/// The digits of a number in this radix, the last one first.
fn reversed_digits(alloc: Global, radix: u64, number: u64) -> Result<Vec<u16>, Memory>
    requires { (2 ≤ radix) × (radix ≤ 36) }
    ensures { IfOk result (λ units. reverse units.items ≡ spec.digits_before 64 radix number []) }
{
    let mut units = Vec::new(alloc);
    let mut left = number;
    for _ in 0..64u32 {
        if left < radix {
            break;
        }
        put(&mut units, digit_unit(left % radix))?;
        left /= radix;
    }
    put(&mut units, digit_unit(left % radix))?;
    Ok(units)
}

/// The digit of a value below 36.
fn digit_unit(digit: u64) -> u16
    requires { digit < 36 }
    ensures { result ≡ spec.digit_unit digit }
{
    if digit < 10 {
        (digit + 48) as u16
    } else {
        (digit + 87) as u16
    }
}
