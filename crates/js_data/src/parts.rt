// `String.prototype.split` (ECMA-262, 22.1.3.23).

ghost use Rattle.std.specs.Prelude.{◌≡◌, ◌≢◌, ◌∷◌, [], IfOk, map};
ghost use Rattle.js_value.specs.Arguments as arguments_spec;
ghost use Rattle.js_value.specs.Arguments.{seen};
ghost use Rattle.js_value.specs.OnData as spec;
ghost use Rattle.js_data.specs.Does.{Does};

use crate::texts::put;
use crate::view::{text, this_text};
use items::{Items, Memory};
use js_value::{Datum, Halt, Primitive, Str, Value};
use std::alloc::Global;

/// `String.prototype.split`; a limit is passed over.
pub(crate) fn split(alloc: Global, this: &Value, arguments: &[Value]) -> Result<Datum, Halt>
    ensures { Does (spec.split (seen this.now) (map seen arguments.now)) result }
{
    let text = this_text(alloc, this)?;
    split_by(alloc, arguments, text)
}

/// The parts of a text round the first argument; the whole text where that is undefined.
fn split_by(alloc: Global, arguments: &[Value], units: Str) -> Result<Datum, Halt>
    ensures { Does (spec.split_by (arguments_spec.argument (map seen arguments.now) 0) units) result }
{
    match arguments.get(0) {
        None | Some(Value::Primitive(Primitive::Undefined)) => Ok(Datum::Texts(whole(
            alloc, units,
        )?)),
        Some(separator) => {
            let separator = text(alloc, separator)?;
            Ok(Datum::Texts(all_parts(alloc, separator.as_slice(), units.as_slice())?))
        }
    }
}

/// One text.
fn whole(alloc: Global, text: Str) -> Result<Items<Str>, Memory>
    ensures { IfOk result (λ parts. parts ≡ text ∷ []) }
{
    let mut parts = Items::new(alloc);
    parts.push(text)?;
    Ok(parts)
}

/// The parts of a text round a separator.
fn all_parts(alloc: Global, separator: &[u16], units: &[u16]) -> Result<Items<Str>, Memory>
    ensures { IfOk result (λ parts. parts ≡ spec.parts separator.now units.now) }
{
    if separator.is_empty() {
        singles(alloc, units)
    } else {
        parts(alloc, separator, units)
    }
}

/// The units, each as a text.
fn singles(alloc: Global, units: &[u16]) -> Result<Items<Str>, Memory>
    ensures { IfOk result (λ parts. parts ≡ spec.singles units.now) }
{
    let mut parts = Items::new(alloc);
    for unit in units {
        parts.push(Str::from_vec(Vec::from_slice(alloc, &[*unit])?)?)?;
    }
    Ok(parts)
}

/// The parts of a text round a separator that isn't empty. It takes time in proportion to the product of both lengths at worst, as
/// std has no search but in bytes.
fn parts(alloc: Global, separator: &[u16], units: &[u16]) -> Result<Items<Str>, Memory>
    requires { separator.now ≢ [] }
    ensures { IfOk result (λ parts. parts ≡ spec.parts separator.now units.now) }
{
    let mut parts = Items::new(alloc);
    let mut before = Vec::new(alloc);
    let mut left = units;
    while let [unit, rest @ ..] = left {
        if left.starts_with(separator) {
            parts.push(Str::from_vec(before)?)?;
            before = Vec::new(alloc);
            left = &left[separator.len()..];
        } else {
            put(&mut before, *unit)?;
            left = rest;
        }
    }
    parts.push(Str::from_vec(before)?)?;
    Ok(parts)
}
