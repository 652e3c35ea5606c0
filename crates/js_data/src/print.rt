// `print`.

ghost use Rattle.std.specs.Prelude.{◌≡◌, ◌++◌, OnOk, map};
ghost use Rattle.js_value.specs.Arguments.{seen};
ghost use Rattle.js_value.specs.OnData as spec;
ghost use Rattle.js_data.specs.Does.{Does};

use crate::view::text;
use items::Memory;
use js_value::{Datum, Halt, Str, Value};
use std::alloc::Global;

/// `print`: the texts of the values, with a space between two.
pub(crate) fn print(alloc: Global, arguments: &[Value]) -> Result<Datum, Halt>
    ensures { Does (spec.print (map seen arguments.now)) result }
{
    match arguments {
        [] => Ok(Datum::Line(Str::from_vec(Vec::new(alloc))?)),
        [first, rest @ ..] => {
            let before = text(alloc, first)?;
            let line = joined_after(alloc, &before, b" ", rest)?;
            Ok(Datum::Line(line))
        }
    }
}

/// The units before, and then the texts of the values, each after a separator.
fn joined_after(
    alloc: Global,
    before: &Str,
    separator: &[u8],
    values: &[Value],
) -> Result<Str, Halt>
    ensures { Does (spec.joined_after before.now separator.now (map seen values.now)) result }
{
    let mut units = Vec::from_slice(alloc, before.as_slice())?;
    for value in values {
        let text = text(alloc, value)?;
        append(&mut units, separator, &text)?;
    }
    Ok(Str::from_vec(units)?)
}

/// Puts a separator and a text after the units.
fn append(units: &mut Vec<u16>, separator: &[u8], text: &Str) -> Result<(), Memory>
    ensures { OnOk result (units.new.items ≡ units.old.items ++ separator.now ++ text.now) }
{
    for byte in separator {
        units.push(u16::from(*byte))?;
    }
    units.extend_from_slice(text.as_slice())
}
