// Own enumerable properties of objects, written to another one (ECMA-262, 20.1.2.1).

ghost use Rattle.std.specs.Prelude.{◌≡◌, ◌-◌, ◌^◌, ◌<◌, IfOk, Ok, Err, Some, None, pos};
ghost use Rattle.js_value.specs.Numbers.{decimal_text};
ghost use Rattle.js_value.specs.Copying as spec;
ghost use Rattle.js_heap.specs.Heap.{heap_of};
ghost use Rattle.js_data.specs.Does.{Does};
ghost use Rattle.js_host.specs.Halts.{HaltsAs};

use crate::values::is_length_of_array;
use items::Memory;
use js_data::number;
use js_heap::{Heap, Set};
use js_value::{Complaint, Halt, Key, Kind, Object, Primitive, Str, Value};

/// Writes to an object what the others have, one after another. An error is what stopped it, and what was written
/// before stays.
pub fn copy_values(heap: &mut Heap, target: Object, sources: &[Value]) -> Result<(), Halt>
    ensures { HaltsAs (spec.copy_values target.index sources.now (heap_of heap.old)) (heap_of heap.new) result }
{
    for source in sources {
        copy_value(heap, target, source)?;
    }
    Ok(())
}

/// Writes to an object what another has.
fn copy_value(heap: &mut Heap, target: Object, source: &Value) -> Result<(), Halt>
    ensures { HaltsAs (spec.copy_value target.index source.now (heap_of heap.old)) (heap_of heap.new) result }
{
    match source {
        Value::Object(object) => {
            let keys = heap.keys(*object)?;
            copy_keys(heap, target, *object, keys.as_slice())
        }
        Value::Primitive(Primitive::Undefined | Primitive::Null) => Ok(()),
        Value::Primitive(_) => Err(Halt::Refuse(Kind::Convert)),
    }
}

/// Writes to an object what another has of these keys.
fn copy_keys(heap: &mut Heap, target: Object, source: Object, keys: &[Key]) -> Result<(), Halt>
    ensures { HaltsAs (spec.copy_keys target.index source.index keys.now (heap_of heap.old)) (heap_of heap.new) result }
{
    for key in keys {
        copy_key(heap, target, source, &key.key)?;
    }
    Ok(())
}

/// Writes to an object what another has of this key, where it is enumerable.
fn copy_key(heap: &mut Heap, target: Object, source: Object, key: &Str) -> Result<(), Halt>
    ensures { HaltsAs (spec.copy_key target.index source.index key.now (heap_of heap.old)) (heap_of heap.new) result }
{
    match enumerable_value(heap, source, key)? {
        Some(value) => write(heap, target, key, value),
        None => Ok(()),
    }
}

/// The value of an object's own property of this key once more, where it is enumerable.
fn enumerable_value(heap: &Heap, object: Object, key: &Str) -> Result<Option<Value>, Memory>
    ensures { IfOk result (λ value. value ≡ spec.enumerable_value (heap_of heap.now) object.index key.now) }
{
    match heap.own(object, key) {
        Some((value, flags)) if flags.enumerable => Ok(Some(value.copy()?)),
        _ => Ok(None),
    }
}

/// Writes a property (7.3.4).
pub fn write(heap: &mut Heap, object: Object, key: &Str, value: Value) -> Result<(), Halt>
    ensures { HaltsAs (spec.write object.index key.now value (heap_of heap.old)) (heap_of heap.new) result }
{
    let value = taken(heap, object, key, value)?;
    write_taken(heap, object, key, value)
}

/// The same of the property of an index's key, without the key where that is an element of an array or one more at its end.
pub fn write_element(heap: &mut Heap, object: Object, index: u64, value: Value) -> Result<(), Halt>
    requires small { index < 2 ^ 32 - 1 }
    ensures { HaltsAs (spec.write object.index (decimal_text (pos index)) value (heap_of heap.old)) (heap_of heap.new) result }
{
    match heap.set_element(object, index, value)? {
        Set::Done => Ok(()),
        Set::ReadOnly => Err(Halt::Throw(Complaint::ReadOnly)),
        Set::Sparse => Err(Halt::Refuse(Kind::Sparse)),
        Set::BadLength => Err(Halt::Throw(Complaint::BadLength)),
    }
}

/// A value as it is written to a property: to the length of an array, a number (10.4.2.4).
fn taken(heap: &Heap, object: Object, key: &Str, value: Value) -> Result<Value, Halt>
    ensures { Does (spec.taken (heap_of heap.now) object.index key.now value) result }
{
    if is_length_of_array(heap, object, key) {
        return Ok(Value::Primitive(Primitive::Number(number(&value)?)));
    }
    Ok(value)
}

/// Writes a property.
fn write_taken(heap: &mut Heap, object: Object, key: &Str, value: Value) -> Result<(), Halt>
    ensures { HaltsAs (spec.write_taken object.index key.now (Ok value) (heap_of heap.old)) (heap_of heap.new) result }
{
    match heap.set(object, key, value)? {
        Set::Done => Ok(()),
        Set::ReadOnly => Err(Halt::Throw(Complaint::ReadOnly)),
        Set::Sparse => Err(Halt::Refuse(Kind::Sparse)),
        Set::BadLength => Err(Halt::Throw(Complaint::BadLength)),
    }
}
