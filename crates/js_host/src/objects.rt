// The built-in functions of objects (ECMA-262, 20.1.2 and 20.1.3).

ghost use Rattle.std.specs.Prelude.{◌≡◌, IfOk, is_some, drop};
ghost use Rattle.js_value.specs.OnObjects as spec;
ghost use Rattle.js_value.specs.Texts.{own_of_text};
ghost use Rattle.js_heap.specs.Heap.{heap_of};
ghost use Rattle.js_data.specs.Does.{Does};

use crate::values::{copies, first_object, is_array, truth, value_at};
use items::{Items, Memory};
use js_data::text_at;
use js_heap::Heap;
use js_value::{Complaint, Deed, Halt, Key, Kind, Object, Primitive, Str, Value};
use std::alloc::Global;

/// `Object.assign` (20.1.2.1).
pub fn assign(alloc: Global, arguments: &[Value]) -> Result<Deed, Halt>
    ensures { Does (spec.assign arguments.now) result }
{
    let target = first_object(arguments)?;
    let sources = rest_of(arguments);
    Ok(Deed::Copy(target, copies(alloc, sources)?))
}

/// The arguments after the first.
pub fn rest_of(arguments: &[Value]) -> &[Value]
    ensures { result.now ≡ drop 1 arguments.now }
{
    match arguments {
        [] => arguments,
        [_, rest @ ..] => rest,
    }
}

/// `Object.create` (20.1.2.2).
pub fn create(arguments: &[Value]) -> Result<Deed, Halt>
    ensures { Does (spec.create arguments.now) result }
{
    let parent = first_parent(arguments)?;
    plain_object(parent, arguments)
}

/// What a new object inherits from, by the first argument.
fn first_parent(arguments: &[Value]) -> Result<Option<Object>, Halt>
    ensures { Does (spec.parent_of (spec.value_at arguments.now 0)) result }
{
    match arguments {
        [Value::Object(object), ..] => Ok(Some(*object)),
        [Value::Primitive(Primitive::Null), ..] => Ok(None),
        _ => Err(Halt::Throw(Complaint::NotAnObject)),
    }
}

/// An object without properties, where the second argument asks for none.
fn plain_object(parent: Option<Object>, arguments: &[Value]) -> Result<Deed, Halt>
    ensures { Does (spec.plain_object parent (spec.value_at arguments.now 1)) result }
{
    match value_at(arguments, 1)? {
        Value::Primitive(Primitive::Undefined) => Ok(Deed::MakeObject(parent)),
        _ => Err(Halt::Refuse(Kind::Convert)),
    }
}

/// `Object.freeze` (20.1.2.6).
pub fn freeze(arguments: &[Value]) -> Result<Deed, Halt>
    ensures { Does (spec.freeze_it (spec.value_at arguments.now 0)) result }
{
    match arguments {
        [Value::Object(object), ..] => Ok(Deed::Freeze(*object)),
        _ => Ok(Deed::Give(value_at(arguments, 0)?)),
    }
}

/// `Object.getPrototypeOf` (20.1.2.12).
pub fn get_prototype_of(heap: &Heap, arguments: &[Value]) -> Result<Deed, Halt>
    ensures { Does (spec.get_prototype_of arguments.now (heap_of heap.now)) result }
{
    let object = first_object(arguments)?;
    Ok(Deed::Give(match heap.proto(object) {
        Some(prototype) => Value::Object(prototype),
        None => Value::Primitive(Primitive::Null),
    }))
}

/// `Object.isFrozen` (20.1.2.17).
pub fn is_frozen(heap: &Heap, arguments: &[Value]) -> Result<Deed, Halt>
    ensures { Does (spec.truth (spec.is_frozen_in (heap_of heap.now) (spec.value_at arguments.now 0))) result }
{
    match arguments {
        [Value::Object(object), ..] => Ok(truth(heap.is_frozen(*object))),
        _ => Ok(truth(true)),
    }
}

/// `Object.keys` (20.1.2.19).
pub fn keys(alloc: Global, heap: &Heap, arguments: &[Value]) -> Result<Deed, Halt>
    ensures { Does (spec.keys_of arguments.now (heap_of heap.now)) result }
{
    let object = first_object(arguments)?;
    let keys = heap.keys(object)?;
    Ok(Deed::MakeArray(enumerable(alloc, keys.as_slice())?))
}

/// The keys of enumerable properties, as texts.
fn enumerable(alloc: Global, keys: &[Key]) -> Result<Items<Value>, Memory>
    ensures { IfOk result (λ texts. texts ≡ spec.enumerable_texts keys.now) }
{
    let mut texts = Items::new(alloc);
    for key in keys {
        if key.enumerable {
            texts.push(Value::Primitive(Primitive::Text(key.key.copy()?)))?;
        }
    }
    Ok(texts)
}

/// `Object.prototype.hasOwnProperty` (20.1.3.2).
pub fn has_own_property(
    alloc: Global,
    heap: &Heap,
    this: &Value,
    arguments: &[Value],
) -> Result<Deed, Halt>
    ensures { Does (spec.has_own_property this.now arguments.now (heap_of heap.now)) result }
{
    let key = text_at(alloc, arguments, 0)?;
    Ok(truth(has_own(heap, this, &key)?))
}

/// Whether a value has a property of its own of this key.
fn has_own(heap: &Heap, value: &Value, key: &Str) -> Result<bool, Halt>
    ensures { Does (spec.has_own (heap_of heap.now) value.now key.now) result }
{
    match value {
        Value::Object(object) => Ok(heap.own(*object, key).is_some()),
        Value::Primitive(Primitive::Undefined | Primitive::Null) => Err(Halt::Throw(
            Complaint::NoProperties,
        )),
        Value::Primitive(Primitive::Text(text)) => Ok(text_has_own(heap, text, key)?),
        Value::Primitive(_) => Ok(false),
    }
}

/// Whether a text has a property of its own of this key.
fn text_has_own(heap: &Heap, text: &Str, key: &Str) -> Result<bool, Memory>
    ensures { IfOk result (λ has. has ≡ is_some (own_of_text text.now key.now)) }
{
    Ok(heap.own_of_text(text, key)?.is_some())
}

/// `Array.isArray` (23.1.2.2).
pub fn is_array_first(heap: &Heap, arguments: &[Value]) -> Result<Deed, Halt>
    ensures { Does (spec.truth (spec.is_array_in (heap_of heap.now) (spec.value_at arguments.now 0))) result }
{
    match arguments {
        [first, ..] => Ok(truth(is_array(heap, first))),
        [] => Ok(truth(false)),
    }
}
