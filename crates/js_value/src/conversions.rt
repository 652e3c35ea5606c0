ghost use Rattle.std.specs.Prelude.{◌≡◌, ◌↔◌, IfOk, IfErr};
ghost use Rattle.js_value.specs.Conversions as spec;
ghost use Rattle.js_value.specs.Conversions.{Is, NoNumber, Reads, NoText};

use crate::numbers::{ascii, show_number};
use crate::text_number::text_number;
use crate::value::{Kind, OpFault, Primitive, Str, Value};
use items::Memory;
use std::alloc::Global;

/// ToBoolean (ECMA-262, 7.1.2). It takes no memory.
pub fn to_boolean(value: &Value) -> bool
    ensures { result ≡ spec.to_boolean value.now }
{
    match value {
        Value::Primitive(Primitive::Undefined | Primitive::Null) => false,
        Value::Primitive(Primitive::Boolean(truth)) => *truth,
        Value::Primitive(Primitive::Number(number)) => *number != 0,
        Value::Primitive(Primitive::Text(text)) => !text.is_empty(),
        Value::Object(_) => true,
    }
}

/// ToNumber (ECMA-262, 7.1.4), or the kind of the refusal: Convert for a reference, and Number for what
/// ECMA-262 takes to NaN, to a fraction or out of range. It takes no memory.
pub fn to_number(value: &Value) -> Result<i64, Kind>
    ensures ok { IfOk result (λ number. spec.to_number value.now ≡ Is number) }
    ensures refused { IfErr result (λ kind. spec.to_number value.now ≡ NoNumber kind) }
{
    match value {
        Value::Primitive(primitive) => number_of_primitive(primitive),
        Value::Object(_) => Err(Kind::Convert),
    }
}

/// ToNumber of a primitive value.
pub(crate) fn number_of_primitive(primitive: &Primitive) -> Result<i64, Kind>
    ensures ok { IfOk result (λ number. spec.number_of_primitive primitive.now ≡ Is number) }
    ensures refused { IfErr result (λ kind. spec.number_of_primitive primitive.now ≡ NoNumber kind) }
{
    match primitive {
        Primitive::Undefined => Err(Kind::Number),
        Primitive::Null => Ok(0),
        Primitive::Boolean(truth) => Ok(i64::from(*truth)),
        Primitive::Number(number) => Ok(*number),
        Primitive::Text(text) => match text_number(text.as_slice()) {
            Some(number) => Ok(number),
            None => Err(Kind::Number),
        },
    }
}

/// ToString (ECMA-262, 7.1.17): a reference refuses Convert, and memory may be wanting for the text
/// of a primitive value.
pub fn to_text(alloc: Global, value: &Value) -> Result<Str, OpFault>
    ensures ok { IfOk result (λ text. spec.to_text value.now ≡ Reads text) }
    ensures refused { (kind : Kind) → (result ≡ Err (OpFault.Refuse kind)) ↔ (spec.to_text value.now ≡ NoText kind) }
{
    match value {
        Value::Primitive(primitive) => Ok(text_of_primitive(alloc, primitive)?),
        Value::Object(_) => Err(OpFault::Refuse(Kind::Convert)),
    }
}

/// ToString of a primitive value, or want of memory.
pub fn text_of_primitive(alloc: Global, primitive: &Primitive) -> Result<Str, Memory>
    ensures { IfOk result (λ text. text ≡ spec.text_of_primitive primitive.now) }
{
    match primitive {
        Primitive::Undefined => ascii(alloc, b"undefined"),
        Primitive::Null => ascii(alloc, b"null"),
        Primitive::Boolean(true) => ascii(alloc, b"true"),
        Primitive::Boolean(false) => ascii(alloc, b"false"),
        Primitive::Number(number) => show_number(alloc, *number),
        Primitive::Text(text) => text.copy(),
    }
}
