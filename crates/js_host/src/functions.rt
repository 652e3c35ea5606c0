// The built-in functions of functions (ECMA-262, 20.2.3).

ghost use Rattle.std.specs.Prelude.{◌≡◌, IfOk};
ghost use Rattle.js_value.specs.OnObjects as spec;
ghost use Rattle.js_value.specs.Objects as objects;
ghost use Rattle.js_heap.specs.Heap.{heap_of};
ghost use Rattle.js_data.specs.Does.{Does};

use crate::objects::rest_of;
use crate::values::{copies, is_function, value_at};
use items::{Items, Memory};
use js_data::number;
use js_heap::{Heap, ObjectKind};
use js_value::{Complaint, Deed, Halt, Kind, Object, Primitive, Value, ascii, show_number};
use std::alloc::{AllocError, Global};

/// `Function.prototype.call` (20.2.3.3).
pub fn call(alloc: Global, heap: &Heap, this: &Value, arguments: &[Value]) -> Result<Deed, Halt>
    ensures { Does (spec.call this.now arguments.now (heap_of heap.now)) result }
{
    if !is_function(heap, this) {
        return Err(Halt::Throw(Complaint::NotAFunction));
    }
    let rest = rest_of(arguments);
    Ok(Deed::Enter(this.copy()?, value_at(arguments, 0)?, copies(alloc, rest)?))
}

/// `Function.prototype.apply` (20.2.3.1).
pub fn apply(alloc: Global, heap: &Heap, this: &Value, arguments: &[Value]) -> Result<Deed, Halt>
    ensures { Does (spec.apply this.now arguments.now (heap_of heap.now)) result }
{
    if !is_function(heap, this) {
        return Err(Halt::Throw(Complaint::NotAFunction));
    }
    let list = listed(alloc, heap, arguments)?;
    Ok(Deed::Enter(this.copy()?, value_at(arguments, 0)?, list))
}

/// The arguments that the second argument tells; none where it is undefined or null.
fn listed(alloc: Global, heap: &Heap, arguments: &[Value]) -> Result<Items<Value>, Halt>
    ensures { Does (spec.listed (heap_of heap.now) (spec.value_at arguments.now 1)) result }
{
    match arguments.get(1) {
        None | Some(Value::Primitive(Primitive::Undefined | Primitive::Null)) => Ok(Items::new(
            alloc,
        )),
        Some(Value::Primitive(_)) => Err(Halt::Throw(Complaint::NotAnObject)),
        Some(Value::Object(object)) => listed_of(alloc, heap, *object),
    }
}

/// The elements of an array, or the properties at the indices of another object (7.3.18).
fn listed_of(alloc: Global, heap: &Heap, object: Object) -> Result<Items<Value>, Halt>
    ensures { Does (spec.listed_of (heap_of heap.now) object.index) result }
{
    if matches!(heap.kind(object), ObjectKind::Array) {
        return Ok(copies(alloc, heap.elements(object))?);
    }
    let length = length_of(alloc, heap, object)?;
    Ok(at_indices(alloc, heap, object, length)?)
}

/// The length that an object tells, 0 where it tells none (7.3.19).
fn length_of(alloc: Global, heap: &Heap, object: Object) -> Result<u64, Halt>
    ensures { Does (spec.length_of (objects.get (heap_of heap.now) object.index objects.array_length)) result }
{
    let key = ascii(alloc, b"length")?;
    match heap.get(object, &key) {
        None => Ok(0),
        Some(length) => Ok(count_of(number(length)?)),
    }
}

/// A length that is negative is none (7.1.20).
fn count_of(number: i64) -> u64
    ensures { result ≡ spec.count_of number }
{
    if number < 0 { 0 } else { number as u64 }
}

/// The properties at so many indices.
fn at_indices(
    alloc: Global,
    heap: &Heap,
    object: Object,
    length: u64,
) -> Result<Items<Value>, Memory>
    ensures { IfOk result (λ values. values ≡ spec.at_indices (heap_of heap.now) object.index length 0) }
{
    let mut values = Items::new(alloc);
    for index in 0..length {
        values.push(at_index(alloc, heap, object, index)?)?;
    }
    Ok(values)
}

/// The property at an index.
fn at_index(alloc: Global, heap: &Heap, object: Object, index: u64) -> Result<Value, Memory>
    ensures { IfOk result (λ value. value ≡ spec.value_of_index (heap_of heap.now) object.index index) }
{
    let Ok(number) = i64::try_from(index) else {
        return Err(AllocError);
    };
    let key = show_number(alloc, number)?;
    match heap.get(object, &key) {
        Some(value) => value.copy(),
        None => Ok(Value::Primitive(Primitive::Undefined)),
    }
}

/// `Function.prototype.toString` (20.2.3.5).
pub fn function_to_string(heap: &Heap, this: &Value) -> Result<Deed, Halt>
    ensures { Does (spec.function_to_string this.now (heap_of heap.now)) result }
{
    if is_function(heap, this) {
        return Err(Halt::Refuse(Kind::Text));
    }
    Err(Halt::Throw(Complaint::WrongReceiver))
}
