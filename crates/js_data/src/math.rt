// The functions of `Math` (ECMA-262, 21.3.2).

ghost use Rattle.std.specs.Prelude.{map};
ghost use Rattle.js_value.specs.Arguments.{seen};
ghost use Rattle.js_value.specs.OnData as spec;
ghost use Rattle.js_data.specs.Does.{Does};

use crate::view::{number, number_at, ranged_number};
use js_value::{Datum, Halt, Kind, Value};

/// `Math.abs` (21.3.2.1).
pub(crate) fn abs(arguments: &[Value]) -> Result<Datum, Halt>
    ensures { Does (spec.abs (map seen arguments.now)) result }
{
    let number = number_at(arguments, 0)?;
    match i64::try_from(number.unsigned_abs()) {
        Ok(size) => Ok(Datum::One(ranged_number(size)?)),
        Err(_) => Err(Halt::Refuse(Kind::Number)),
    }
}

/// `Math.floor` (21.3.2.16): every number is whole.
pub(crate) fn floor(arguments: &[Value]) -> Result<Datum, Halt>
    ensures { Does (spec.floor (map seen arguments.now)) result }
{
    let number = number_at(arguments, 0)?;
    Ok(Datum::One(ranged_number(number)?))
}

/// `Math.max` (21.3.2.24).
pub(crate) fn max(arguments: &[Value]) -> Result<Datum, Halt>
    ensures { Does (spec.max_of (map seen arguments.now)) result }
{
    match arguments {
        [] => Err(Halt::Refuse(Kind::Number)),
        [first, rest @ ..] => greatest_of(number(first)?, rest),
    }
}

/// The greatest of a number and more, as what is given.
fn greatest_of(first: i64, values: &[Value]) -> Result<Datum, Halt>
    ensures { Does (spec.greatest_of first (map seen values.now)) result }
{
    let greatest = greatest(first, values)?;
    Ok(Datum::One(ranged_number(greatest)?))
}

/// The greatest of a number and more.
fn greatest(first: i64, values: &[Value]) -> Result<i64, Halt>
    ensures { Does (spec.greatest first (map seen values.now)) result }
{
    let mut greatest = first;
    for value in values {
        let number = number(value)?;
        if greatest < number {
            greatest = number;
        }
    }
    Ok(greatest)
}

/// `Math.min` (21.3.2.25).
pub(crate) fn min(arguments: &[Value]) -> Result<Datum, Halt>
    ensures { Does (spec.min_of (map seen arguments.now)) result }
{
    match arguments {
        [] => Err(Halt::Refuse(Kind::Number)),
        [first, rest @ ..] => least_of(number(first)?, rest),
    }
}

/// The least of a number and more, as what is given.
fn least_of(first: i64, values: &[Value]) -> Result<Datum, Halt>
    ensures { Does (spec.least_of first (map seen values.now)) result }
{
    let least = least(first, values)?;
    Ok(Datum::One(ranged_number(least)?))
}

/// The least of a number and more.
fn least(first: i64, values: &[Value]) -> Result<i64, Halt>
    ensures { Does (spec.least first (map seen values.now)) result }
{
    let mut least = first;
    for value in values {
        let number = number(value)?;
        if number < least {
            least = number;
        }
    }
    Ok(least)
}
