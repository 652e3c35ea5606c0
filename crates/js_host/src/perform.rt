// Deeds: what is done to the heap, and what is answered.

ghost use Rattle.std.specs.Prelude.{◌≡◌, ◌++◌, IfOk, OnOk, codes};
ghost use Rattle.js_value.specs.Host as spec;
ghost use Rattle.js_heap.specs.Heap.{heap_of};
ghost use Rattle.js_host.specs.Native.{plain_native};

use crate::complaints::{error_of, message_of};
use crate::copying::copy_values;
use crate::native::Native;
use crate::values::count;
use items::{Items, Memory};
use js_heap::{Flags, Heap, ObjectKind};
use js_realm::{error_prototype, object_at};
use js_value::{Deed, ErrorKind, Halt, Object, Place, Primitive, Str, Value, ascii};
use std::alloc::{AllocError, Global};

/// A property that isn't enumerated and may be written.
const HIDDEN: Flags = Flags {
    enumerable: false,
    writable: true,
};

/// Does a deed. Only want of memory is an error.
pub fn perform(alloc: Global, heap: &mut Heap, deed: Deed) -> Result<Native, Memory>
    ensures answer { IfOk result (λ native. plain_native native ≡ spec.given_by deed (heap_of heap.old)) }
    ensures after { OnOk result (heap_of heap.new ≡ spec.after_deed deed (heap_of heap.old)) }
{
    match deed {
        Deed::Give(value) => Ok(Native::Value(value)),
        Deed::Line(text) => Ok(Native::Write(line(alloc, &text)?)),
        Deed::MakeArray(elements) => {
            let array = heap.array_of(object_at(Place::ArrayPrototype), elements)?;
            Ok(Native::Value(Value::Object(array)))
        }
        Deed::MakeObject(parent) => {
            let object = heap.object(ObjectKind::Plain, parent)?;
            Ok(Native::Value(Value::Object(object)))
        }
        Deed::MakeError(kind, message) => make_error(alloc, heap, kind, message),
        Deed::Append(array, more) => append(heap, array, more),
        Deed::Cut(array, size, value) => {
            heap.cut(array, size as usize);
            Ok(Native::Value(value))
        }
        Deed::Replace(array, elements, value) => {
            heap.replace(array, elements)?;
            Ok(Native::Value(value))
        }
        Deed::Freeze(object) => {
            heap.freeze(object);
            Ok(Native::Value(Value::Object(object)))
        }
        Deed::Copy(target, sources) => copy(alloc, heap, target, sources.as_slice()),
        Deed::Enter(function, this, arguments) => Ok(Native::Enter(function, this, arguments)),
        Deed::Require(text) => Ok(Native::Require(text)),
    }
}

/// A text and LF, in UTF-8.
fn line(alloc: Global, text: &Str) -> Result<Items<u8>, Memory>
    ensures { IfOk result (λ bytes. bytes ≡ spec.utf8_of text.now ++ codes "\n") }
{
    let mut line = String::from_utf16_lossy(alloc, text.as_slice())?;
    line.push('\n')?;
    Ok(Items::from_vec(line.into_bytes()))
}

/// Puts elements after those of an array.
fn append(heap: &mut Heap, array: Object, more: Items<Value>) -> Result<Native, Memory>
    ensures answer { IfOk result (λ native. plain_native native ≡ spec.given_by (Deed.Append array more) (heap_of heap.old)) }
    ensures after { OnOk result (heap_of heap.new ≡ spec.after_deed (Deed.Append array more) (heap_of heap.old)) }
{
    let before = heap.elements(array).len();
    let added = more.len();
    heap.append(array, more)?;
    match before.checked_add(added) {
        Some(length) => Ok(Native::Value(count(length)?)),
        None => Err(AllocError),
    }
}

/// Makes an error of this kind, with this message if there is one.
fn make_error(
    alloc: Global,
    heap: &mut Heap,
    kind: ErrorKind,
    message: Option<Str>,
) -> Result<Native, Memory>
    ensures answer { IfOk result (λ native. plain_native native ≡ spec.given_by (Deed.MakeError kind message) (heap_of heap.old)) }
    ensures after { OnOk result (heap_of heap.new ≡ spec.after_deed (Deed.MakeError kind message) (heap_of heap.old)) }
{
    let error = heap.object(ObjectKind::Error, Some(error_prototype(kind)))?;
    if let Some(message) = message {
        let key = ascii(alloc, b"message")?;
        heap.define(
            error,
            &key,
            Value::Primitive(Primitive::Text(message)),
            HIDDEN,
        )?;
    }
    Ok(Native::Value(Value::Object(error)))
}

/// Writes to an object what others have.
fn copy(alloc: Global, heap: &mut Heap, target: Object, sources: &[Value]) -> Result<Native, Memory>
    ensures answer { IfOk result (λ native. plain_native native ≡ spec.given_by (Deed.Copy target sources.now) (heap_of heap.old)) }
    ensures after { OnOk result (heap_of heap.new ≡ spec.after_deed (Deed.Copy target sources.now) (heap_of heap.old)) }
{
    match copy_values(heap, target, sources) {
        Ok(()) => Ok(Native::Value(Value::Object(target))),
        Err(Halt::Throw(complaint)) => Ok(Native::Throw(
            error_of(complaint),
            message_of(alloc, complaint)?,
        )),
        Err(Halt::Refuse(kind)) => Ok(Native::Refuse(kind)),
        Err(Halt::Memory) => Err(AllocError),
    }
}
