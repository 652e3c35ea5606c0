// The built-in functions that may be constructed (ECMA-262, 20.1.1, 20.3.1, 20.5.1, 21.1.1, 22.1.1 and 23.1.1).

ghost use Rattle.std.specs.Prelude.{◌≡◌};
ghost use Rattle.js_value.specs.Constructors as spec;
ghost use Rattle.js_value.specs.OnObjects as looks;
ghost use Rattle.js_value.specs.Conversions as conversions;
ghost use Rattle.js_data.specs.Does.{Does};

use crate::values::{copies, give_text, truth, value_at};
use items::Items;
use js_data::{number, text};
use js_realm::object_at;
use js_value::{
    Complaint, Constructor, Deed, ErrorKind, Halt, Kind, Place, Primitive, Str, Value, to_boolean,
};
use std::alloc::Global;

/// What the function does for the arguments.
pub fn of_constructor(
    alloc: Global,
    function: Constructor,
    constructing: bool,
    arguments: &[Value],
) -> Result<Deed, Halt>
    ensures { Does (spec.of_constructor function constructing arguments.now) result }
{
    match function {
        Constructor::Object => make_object(arguments),
        Constructor::Array => make_array(alloc, arguments),
        Constructor::Error(kind) => make_error(alloc, kind, arguments),
        _ if constructing => Err(Halt::Refuse(Kind::Convert)),
        Constructor::String => make_text(alloc, arguments),
        Constructor::Number => make_number(arguments),
        Constructor::Boolean => make_boolean(arguments),
    }
}

/// `Object` (20.1.1.1).
fn make_object(arguments: &[Value]) -> Result<Deed, Halt>
    ensures { Does (spec.make_object (looks.value_at arguments.now 0)) result }
{
    match value_at(arguments, 0)? {
        Value::Object(object) => Ok(Deed::Give(Value::Object(object))),
        Value::Primitive(Primitive::Undefined | Primitive::Null) => {
            Ok(Deed::MakeObject(Some(object_at(Place::ObjectPrototype))))
        }
        Value::Primitive(_) => Err(Halt::Refuse(Kind::Convert)),
    }
}

/// `Array` (23.1.1.1).
fn make_array(alloc: Global, arguments: &[Value]) -> Result<Deed, Halt>
    ensures { Does (spec.make_array arguments.now) result }
{
    match arguments {
        [Value::Primitive(Primitive::Number(length))] => array_of_length(alloc, *length),
        _ => Ok(Deed::MakeArray(copies(alloc, arguments)?)),
    }
}

/// An array of so many elements, which has holes, but for none.
fn array_of_length(alloc: Global, length: i64) -> Result<Deed, Halt>
    ensures { Does (spec.array_of_length length) result }
{
    if length < 0 {
        return Err(Halt::Throw(Complaint::BadLength));
    }
    if length > 0 {
        return Err(Halt::Refuse(Kind::Sparse));
    }
    Ok(Deed::MakeArray(Items::new(alloc)))
}

/// `String` (22.1.1.1).
fn make_text(alloc: Global, arguments: &[Value]) -> Result<Deed, Halt>
    ensures { Does (spec.make_text arguments.now) result }
{
    match arguments {
        [] => Ok(give_text(Str::from_vec(Vec::new(alloc))?)),
        [first, ..] => Ok(give_text(text(alloc, first)?)),
    }
}

/// `Number` (21.1.1.1).
fn make_number(arguments: &[Value]) -> Result<Deed, Halt>
    ensures { Does (spec.make_number arguments.now) result }
{
    match arguments {
        [] => Ok(give_number(0)),
        [first, ..] => Ok(give_number(number(first)?)),
    }
}

/// A number as what is given.
fn give_number(number: i64) -> Deed
    ensures { result ≡ Deed.Give (Value.Primitive (Primitive.Number number)) }
{
    Deed::Give(Value::Primitive(Primitive::Number(number)))
}

/// `Boolean` (20.3.1.1).
fn make_boolean(arguments: &[Value]) -> Result<Deed, Halt>
    ensures { Does (looks.truth (conversions.to_boolean (looks.value_at arguments.now 0))) result }
{
    match arguments {
        [] => Ok(truth(false)),
        [first, ..] => Ok(truth(to_boolean(first))),
    }
}

/// `Error` and the errors of its kind (20.5.1.1).
fn make_error(alloc: Global, kind: ErrorKind, arguments: &[Value]) -> Result<Deed, Halt>
    ensures { Does (spec.make_error kind (looks.seen_at arguments.now 0)) result }
{
    match arguments {
        [] | [Value::Primitive(Primitive::Undefined), ..] => Ok(Deed::MakeError(kind, None)),
        [first, ..] => Ok(Deed::MakeError(kind, Some(text(alloc, first)?))),
    }
}
