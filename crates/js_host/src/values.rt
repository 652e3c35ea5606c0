// What the built-in functions ask of values.

ghost use Rattle.std.specs.Prelude.{◌≡◌, ◌+◌, ◌&&◌, IfOk, Ok, pos};
ghost use Rattle.js_value.specs.OnObjects as spec;
ghost use Rattle.std.specs.Str.{bytes_eq};
ghost use Rattle.js_value.specs.Objects as objects;
ghost use Rattle.js_value.specs.Objects.{count_value};
ghost use Rattle.js_heap.specs.Heap.{heap_of};
ghost use Rattle.js_data.specs.Does.{Does};

use items::{Items, Memory};
use js_heap::{Heap, ObjectKind};
use js_value::{Complaint, Deed, Halt, Kind, Object, Primitive, Str, Value};
use std::alloc::{AllocError, Global};

/// The key of an array's length.
const LENGTH: [u16; 6] = [108, 101, 110, 103, 116, 104];

/// The argument at this place once more, undefined where there is none.
pub fn value_at(arguments: &[Value], place: usize) -> Result<Value, Memory>
    ensures { IfOk result (λ value. value ≡ spec.value_at arguments.now place) }
{
    match arguments.get(place) {
        Some(value) => value.copy(),
        None => Ok(Value::Primitive(Primitive::Undefined)),
    }
}

/// Values once more.
pub fn copies(alloc: Global, values: &[Value]) -> Result<Items<Value>, Memory>
    ensures { IfOk result (λ copies. copies ≡ values.now) }
{
    let mut copies = Items::new(alloc);
    for value in values {
        copies.push(value.copy()?)?;
    }
    Ok(copies)
}

/// A truth value as what is given.
pub fn truth(truth: bool) -> Deed
    ensures { spec.truth truth ≡ Ok result }
{
    Deed::Give(Value::Primitive(Primitive::Boolean(truth)))
}

/// A text as what is given.
pub fn give_text(text: Str) -> Deed
    ensures { result ≡ Deed.Give (Value.Primitive (Primitive.Text text)) }
{
    Deed::Give(Value::Primitive(Primitive::Text(text)))
}

/// A length as a number.
pub fn size(length: usize) -> Result<i64, Memory>
    ensures { IfOk result (λ number. number ≡ pos length) }
{
    match i64::try_from(length) {
        Ok(number) => Ok(number),
        Err(_) => Err(AllocError),
    }
}

/// A length as a value.
pub fn count(length: usize) -> Result<Value, Memory>
    ensures { IfOk result (λ value. value ≡ count_value length) }
{
    Ok(Value::Primitive(Primitive::Number(size(length)?)))
}

/// The sum of two lengths as a value.
pub fn sum_of(length: usize, more: usize) -> Result<Value, Memory>
    ensures { IfOk result (λ value. value ≡ count_value (length + more)) }
{
    match length.checked_add(more) {
        Some(sum) => count(sum),
        None => Err(AllocError),
    }
}

/// The object that a value is; what is undefined or null complains, other primitive values aren't converted.
pub fn object_of(value: &Value) -> Result<Object, Halt>
    ensures { Does (spec.object_of value.now) result }
{
    match value {
        Value::Object(object) => Ok(*object),
        Value::Primitive(Primitive::Undefined | Primitive::Null) => {
            Err(Halt::Throw(Complaint::NotAnObject))
        }
        Value::Primitive(_) => Err(Halt::Refuse(Kind::Convert)),
    }
}

/// The object that the first argument is.
pub fn first_object(arguments: &[Value]) -> Result<Object, Halt>
    ensures { Does (spec.object_of (spec.value_at arguments.now 0)) result }
{
    match arguments {
        [] => Err(Halt::Throw(Complaint::NotAnObject)),
        [first, ..] => object_of(first),
    }
}

/// The array that a value is.
pub fn array_of(heap: &Heap, value: &Value) -> Result<Object, Halt>
    ensures { Does (spec.array_of (heap_of heap.now) value.now) result }
{
    match value {
        Value::Object(object) => match heap.kind(*object) {
            ObjectKind::Array => Ok(*object),
            _ => Err(Halt::Throw(Complaint::NotAnArray)),
        },
        Value::Primitive(_) => Err(Halt::Throw(Complaint::NotAnArray)),
    }
}

/// Whether a value is an array.
pub fn is_array(heap: &Heap, value: &Value) -> bool
    ensures { result ≡ spec.is_array_in (heap_of heap.now) value.now }
{
    match value {
        Value::Object(object) => matches!(heap.kind(*object), ObjectKind::Array),
        Value::Primitive(_) => false,
    }
}

/// Whether a value is a function.
pub fn is_function(heap: &Heap, value: &Value) -> bool
    ensures { result ≡ spec.is_function_in (heap_of heap.now) value.now }
{
    match value {
        Value::Object(object) => matches!(
            heap.kind(*object),
            ObjectKind::BuiltIn(_) | ObjectKind::Written(_, _)
        ),
        Value::Primitive(_) => false,
    }
}

/// A change, where the object may be changed.
pub fn changes(heap: &Heap, object: Object, deed: Deed) -> Result<Deed, Halt>
    ensures { Does (spec.changes (heap_of heap.now) object deed) result }
{
    if heap.is_frozen(object) {
        return Err(Halt::Throw(Complaint::ReadOnly));
    }
    Ok(deed)
}

/// Whether a property is the length of an array.
pub fn is_length_of_array(heap: &Heap, object: Object, key: &Str) -> bool
    ensures { result ≡ (objects.is_array (objects.kind_of (heap_of heap.now) object.index) && bytes_eq key.now objects.array_length) }
{
    matches!(heap.kind(object), ObjectKind::Array) && key.as_slice() == LENGTH.as_slice()
}
