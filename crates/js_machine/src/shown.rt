// What is shown of a thrown value.

ghost use Rattle.std.specs.Prelude.{◌≡◌, ◌≢◌, IfOk, codes};
ghost use Rattle.std.specs.Option.{option_copied};
ghost use Rattle.js_value.specs.Objects.{kind_of, get};
ghost use Rattle.js_value.specs.Operators.{to_text as texted, Reads, NoText};
ghost use Rattle.js_value.specs.declared.value.Kind.{Kind};
ghost use Rattle.js_heap.specs.Object.{plain_kind};
ghost use Rattle.js_heap.specs.Heap.{heap_of};
ghost use Rattle.js_meaning.specs.World as spec;
ghost use Rattle.js_meaning.specs.World.{shown_kind, titled};

use items::Memory;
use js_heap::{Heap, ObjectKind};
use js_host::{ascii, utf8_of};
use js_meaning::Shown;
use js_value::{Object, OpFault, Str, Value, to_text};
use std::alloc::{AllocError, Global};

/// The bytes that are shown of a value: the text of a primitive, the word `object` or `function`, or
/// for an error its name and its message.
pub fn shown(alloc: Global, heap: &Heap, value: &Value) -> Result<Shown, Memory>
    ensures { IfOk result (λ bytes. bytes ≡ spec.shown (heap_of heap.now) value.now) }
{
    let units = shown_units(alloc, heap, value)?;
    utf8_of(alloc, units.as_slice())
}

// The same as 16-bit units.
fn shown_units(alloc: Global, heap: &Heap, value: &Value) -> Result<Str, Memory>
    ensures { IfOk result (λ units. units ≡ spec.shown_units (heap_of heap.now) value.now) }
{
    match value {
        Value::Primitive(_) => primitive_text(alloc, value),
        Value::Object(object) => shown_object(alloc, heap, *object),
    }
}

// What is shown of an object.
fn shown_object(alloc: Global, heap: &Heap, object: Object) -> Result<Str, Memory>
    ensures { IfOk result (λ units. units ≡ spec.shown_object (heap_of heap.now) object.index (kind_of (heap_of heap.now) object.index)) }
{
    match heap.kind(object) {
        ObjectKind::Error => shown_error(alloc, heap, object),
        kind => ascii(alloc, kind_word(kind)),
    }
}

// What is shown of an error: its name, and its message where that isn't empty.
fn shown_error(alloc: Global, heap: &Heap, object: Object) -> Result<Str, Memory>
    ensures { IfOk result (λ units. units ≡ titled (spec.shown_part (heap_of heap.now) (get (heap_of heap.now) object.index (codes "name")))
        (spec.shown_part (heap_of heap.now) (get (heap_of heap.now) object.index (codes "message")))) }
{
    let name = shown_named(alloc, heap, object, b"name")?;
    let message = shown_named(alloc, heap, object, b"message")?;
    title(alloc, &name, &message)
}

// What is shown of the part of an error with this name.
fn shown_named(alloc: Global, heap: &Heap, object: Object, name: &[u8]) -> Result<Str, Memory>
    ensures { IfOk result (λ units. units ≡ spec.shown_part (heap_of heap.now) (get (heap_of heap.now) object.index name.now)) }
{
    let key = ascii(alloc, name)?;
    shown_part(alloc, heap, heap.get(object, &key))
}

// What is shown of a part of an error.
fn shown_part(alloc: Global, heap: &Heap, part: Option<&Value>) -> Result<Str, Memory>
    ensures { IfOk result (λ units. units ≡ spec.shown_part (heap_of heap.now) (option_copied part.entry)) }
{
    match part {
        None => ascii(alloc, b"undefined"),
        Some(Value::Object(object)) => shown_word(alloc, heap, *object),
        Some(value) => primitive_text(alloc, value),
    }
}

// The word that is shown of an object that is a part of an error.
fn shown_word(alloc: Global, heap: &Heap, object: Object) -> Result<Str, Memory>
    ensures { IfOk result (λ units. units ≡ shown_kind (kind_of (heap_of heap.now) object.index)) }
{
    ascii(alloc, kind_word(heap.kind(object)))
}

// The word for an object of this kind.
fn kind_word(kind: &ObjectKind) -> &'static [u8]
    ensures { result.now ≡ shown_kind (plain_kind kind.now) }
{
    match kind {
        ObjectKind::BuiltIn(_) | ObjectKind::Written(_, _) => b"function",
        _ => b"object",
    }
}

// The text of a primitive value.
fn primitive_text(alloc: Global, value: &Value) -> Result<Str, Memory>
    requires { (kind : Kind) → texted value.now ≢ NoText kind }
    ensures { IfOk result (λ units. texted value.now ≡ Reads units) }
{
    match to_text(alloc, value) {
        Ok(text) => Ok(text),
        Err(OpFault::Refuse(_)) => unreachable!(),
        Err(OpFault::Memory) => Err(AllocError),
    }
}

// A name, and `: ` and a message where there is one.
fn title(alloc: Global, name: &Str, message: &Str) -> Result<Str, Memory>
    ensures { IfOk result (λ units. units ≡ titled name.now message.now) }
{
    if message.as_slice().is_empty() {
        return name.copy();
    }
    let mut units = Vec::from_slice(alloc, name.as_slice())?;
    units.push(u16::from(b':'))?;
    units.push(u16::from(b' '))?;
    units.extend_from_slice(message.as_slice())?;
    Str::from_vec(units)
}
