// Members of values, and what operators see in objects (ECMA-262, 6.2.5.5, 6.2.5.6, 13.5.1.2, 13.5.3 and 13.10).

ghost use Rattle.std.specs.Prelude.{◌≡◌, IfOk, Ok};
ghost use Rattle.js_value.specs.Members as spec;
ghost use Rattle.js_value.specs.OnObjects.{or_undefined};
ghost use Rattle.js_value.specs.Realm.{text};
ghost use Rattle.js_heap.specs.Heap.{heap_of};
ghost use Rattle.js_data.specs.Does.{Does};
ghost use Rattle.js_host.specs.Halts.{HaltsAs};
ghost use Rattle.js_host.specs.private.Coerced.{coerced};
ghost use Rattle.js_host.specs.private.Elements.{natural, element_by};
ghost use Rattle.std.specs.Option.{option_copied};

use crate::copying::{write, write_element};
use crate::values::is_function;
use items::Memory;
use js_data::text;
use js_heap::{Delete, Heap};
use js_realm::object_at;
use js_value::{Complaint, Halt, Kind, Object, Place, Primitive, Str, Value, ascii, type_of};
use std::alloc::Global;

/// The property of a value by a key, its own or inherited, or undefined (6.2.5.5). The key is taken for a text once it is known
/// that there are properties, and not at all where it tells an element of an array.
pub fn get_member(alloc: Global, heap: &Heap, base: &Value, key: &Value) -> Result<Value, Halt>
    ensures { Does (spec.get_member (heap_of heap.now) base.now key.now) result }
{
    match element_of(heap, base, key)? {
        Some(element) => Ok(element),
        None => get_by_key(alloc, heap, base, key),
    }
}

/// The element of an array that a number tells.
fn element_of(heap: &Heap, base: &Value, key: &Value) -> Result<Option<Value>, Memory>
    ensures { IfOk result (λ element. element ≡ element_by (heap_of heap.now) base.now key.now) }
{
    match (base, index_by(key)) {
        (Value::Object(array), Some(index)) => copied(heap.element(*array, index)),
        _ => Ok(None),
    }
}

/// The number that is at least 0, where a key is one.
fn index_by(key: &Value) -> Option<u64>
    ensures { result ≡ natural key.now }
{
    match key {
        Value::Primitive(Primitive::Number(number)) => u64::try_from(*number).ok(),
        _ => None,
    }
}

/// The property of a value by a key, which is taken for a text.
fn get_by_key(alloc: Global, heap: &Heap, base: &Value, key: &Value) -> Result<Value, Halt>
    ensures { Does (spec.get_member (heap_of heap.now) base.now key.now) result }
{
    let key = member_key(alloc, base, key)?;
    Ok(value_of(heap, base, &key)?)
}

/// The same by a key that is a text.
pub fn get_named(heap: &Heap, base: &Value, key: &Str) -> Result<Value, Halt>
    ensures { Does (spec.get_member (heap_of heap.now) base.now (text key.now)) result }
{
    has_properties(base)?;
    Ok(value_of(heap, base, key)?)
}

/// Only undefined and null have no properties (7.2.1).
fn has_properties(base: &Value) -> Result<(), Halt>
    ensures { Does (coerced base.now) result }
{
    match base {
        Value::Primitive(Primitive::Undefined) => Err(Halt::Throw(Complaint::NoProperties)),
        Value::Primitive(Primitive::Null) => Err(Halt::Throw(Complaint::NoProperties)),
        _ => Ok(()),
    }
}

/// The key of a member, as a text.
fn member_key(alloc: Global, base: &Value, key: &Value) -> Result<Str, Halt>
    ensures { Does (spec.member_key base.now key.now) result }
{
    has_properties(base)?;
    text(alloc, key)
}

/// The property of a value by this key, or undefined.
fn value_of(heap: &Heap, base: &Value, key: &Str) -> Result<Value, Memory>
    ensures { IfOk result (λ value. value ≡ or_undefined (spec.get_of (heap_of heap.now) base.now key.now)) }
{
    match get_of(heap, base, key)? {
        Some(value) => Ok(value),
        None => Ok(Value::Primitive(Primitive::Undefined)),
    }
}

/// The property of a value by this key (7.3.3).
fn get_of(heap: &Heap, base: &Value, key: &Str) -> Result<Option<Value>, Memory>
    ensures { IfOk result (λ value. value ≡ spec.get_of (heap_of heap.now) base.now key.now) }
{
    match base {
        Value::Object(object) => copied(heap.get(*object, key)),
        Value::Primitive(Primitive::Text(units)) => heap.get_of_text(
            object_at(Place::StringPrototype),
            units,
            key,
        ),
        Value::Primitive(Primitive::Number(_)) => {
            copied(heap.get(object_at(Place::NumberPrototype), key))
        }
        Value::Primitive(Primitive::Boolean(_)) => {
            copied(heap.get(object_at(Place::BooleanPrototype), key))
        }
        Value::Primitive(Primitive::Undefined) => Ok(None),
        Value::Primitive(Primitive::Null) => Ok(None),
    }
}

/// A value that is lent once more.
fn copied(value: Option<&Value>) -> Result<Option<Value>, Memory>
    ensures { IfOk result (λ copy. copy ≡ option_copied value.entry) }
{
    match value {
        Some(value) => value.copy().map(Some),
        None => Ok(None),
    }
}

/// Writes a member of a value (6.2.5.6). An error is what stopped it. The key is not taken for a text where it tells an element of
/// an array that may be written, or one more at its end.
pub fn put_member(
    alloc: Global,
    heap: &mut Heap,
    base: &Value,
    key: &Value,
    value: Value,
) -> Result<(), Halt>
    ensures { HaltsAs (spec.put_member base.now key.now value (heap_of heap.old)) (heap_of heap.new) result }
{
    match (base, index_by(key)) {
        (Value::Object(object), Some(index)) if index < 0xFFFF_FFFF => {
            write_element(heap, *object, index, value)
        }
        _ => put_by_key(alloc, heap, base, key, value),
    }
}

/// Writes a member of a value by a key, which is taken for a text.
fn put_by_key(
    alloc: Global,
    heap: &mut Heap,
    base: &Value,
    key: &Value,
    value: Value,
) -> Result<(), Halt>
    ensures { HaltsAs (spec.put_member base.now key.now value (heap_of heap.old)) (heap_of heap.new) result }
{
    match member_key(alloc, base, key) {
        Ok(key) => put_key(heap, base, &key, value),
        Err(halt) => {
            drop(value);
            Err(halt)
        }
    }
}

/// Writes the property of this key: a primitive value takes none.
fn put_key(heap: &mut Heap, base: &Value, key: &Str, value: Value) -> Result<(), Halt>
    ensures { HaltsAs (spec.put_key base.now (Ok key.now) value (heap_of heap.old)) (heap_of heap.new) result }
{
    match base {
        Value::Object(object) => write(heap, *object, key, value),
        Value::Primitive(_) => {
            drop(value);
            Err(Halt::Throw(Complaint::ReadOnly))
        }
    }
}

/// Deletes a member of a value (13.5.1.2). An error is what stopped it.
pub fn delete_member(alloc: Global, heap: &mut Heap, base: &Value, key: &Value) -> Result<(), Halt>
    ensures { HaltsAs (spec.delete_member base.now key.now (heap_of heap.old)) (heap_of heap.new) result }
{
    match member_key(alloc, base, key) {
        Ok(key) => delete_key(heap, base, &key),
        Err(halt) => Err(halt),
    }
}

/// Deletes the property of this key.
fn delete_key(heap: &mut Heap, base: &Value, key: &Str) -> Result<(), Halt>
    ensures { HaltsAs (spec.delete_key base.now (Ok key.now) (heap_of heap.old)) (heap_of heap.new) result }
{
    match base {
        Value::Object(object) => match heap.delete(*object, key) {
            Delete::Done => Ok(()),
            Delete::Frozen => Err(Halt::Throw(Complaint::ReadOnly)),
            Delete::Sparse => Err(Halt::Refuse(Kind::Sparse)),
        },
        Value::Primitive(Primitive::Text(units)) => match heap.own_of_text(units, key)? {
            Some(_) => Err(Halt::Throw(Complaint::ReadOnly)),
            None => Ok(()),
        },
        Value::Primitive(_) => Ok(()),
    }
}

/// `in` (13.10.1): whether an object has a property of this key, its own or inherited.
pub fn is_in(alloc: Global, heap: &Heap, key: &Value, object: &Value) -> Result<bool, Halt>
    ensures { Does (spec.is_in (heap_of heap.now) key.now object.now) result }
{
    match object {
        Value::Primitive(_) => Err(Halt::Throw(Complaint::NotAnObject)),
        Value::Object(object) => {
            let key = text(alloc, key)?;
            Ok(heap.has(*object, &key))
        }
    }
}

/// `instanceof` (13.10.2): whether a value inherits from the `prototype` of a function.
pub fn is_instance(
    alloc: Global,
    heap: &Heap,
    value: &Value,
    function: &Value,
) -> Result<bool, Halt>
    ensures { Does (spec.is_instance (heap_of heap.now) value.now function.now) result }
{
    match function {
        Value::Object(object) if is_function(heap, function) => {
            let key = ascii(alloc, b"prototype")?;
            inherits_from(heap, value, heap.get(*object, &key))
        }
        _ => Err(Halt::Throw(Complaint::NotAFunction)),
    }
}

/// Whether a value inherits from an object; primitive values don't.
fn inherits_from(heap: &Heap, value: &Value, prototype: Option<&Value>) -> Result<bool, Halt>
    ensures { Does (spec.inherits_from (heap_of heap.now) value.now (option_copied prototype.entry)) result }
{
    match value {
        Value::Primitive(_) => Ok(false),
        Value::Object(object) => match prototype {
            Some(Value::Object(prototype)) => Ok(heap.inherits(*object, *prototype)),
            _ => Err(Halt::Throw(Complaint::NotAnObject)),
        },
    }
}

/// `typeof` (13.5.3).
pub fn type_in(alloc: Global, heap: &Heap, value: &Value) -> Result<Str, Memory>
    ensures { IfOk result (λ text. text ≡ spec.type_in (heap_of heap.now) value.now) }
{
    match value {
        Value::Primitive(primitive) => type_of(alloc, primitive),
        Value::Object(_) => {
            if is_function(heap, value) {
                ascii(alloc, b"function")
            } else {
                ascii(alloc, b"object")
            }
        }
    }
}
