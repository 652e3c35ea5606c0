// Functions of a program as objects, and the objects that they make (ECMA-262, 10.1.13, 10.2.3, 10.2.5, 10.2.9 and 10.2.10).

ghost use Rattle.std.specs.Prelude.{◌≡◌, IfOk, OnOk};
ghost use Rattle.std.specs.Option.{option_copied};
ghost use Rattle.js_value.specs.Functions as spec;
ghost use Rattle.js_value.specs.Objects.{next_object};
ghost use Rattle.js_heap.specs.Heap.{heap_of};

use crate::values::count;
use items::Memory;
use js_heap::{Env, Flags, Heap, ObjectKind};
use js_realm::object_at;
use js_value::{Object, Place, Primitive, Str, Value, ascii};
use std::alloc::Global;

/// Of a property that is neither enumerated nor written.
const FIXED: Flags = Flags {
    enumerable: false,
    writable: false,
};

/// Of one that isn't enumerated and may be written.
const HIDDEN: Flags = Flags {
    enumerable: false,
    writable: true,
};

/// What is known of a function where it is made.
#[derive(Clone, Copy)]
pub struct Shape {
    /// Its number in the program.
    pub number: u64,
    /// How many arguments it expects.
    pub length: usize,
    /// Whether `new` may call it.
    pub constructs: bool,
}

/// Makes a function with this name in an environment. On want of memory the heap may hold a part of it.
pub fn make_function(
    alloc: Global,
    heap: &mut Heap,
    shape: Shape,
    name: &Str,
    environment: Env,
) -> Result<Object, Memory>
    ensures made { OnOk result (heap_of heap.new ≡ spec.closed
        (record { number = shape.number; length = shape.length; constructs = shape.constructs }) name.now environment.index (heap_of heap.old)) }
    ensures object { IfOk result (λ function. function.index ≡ next_object (heap_of heap.old)) }
{
    let function = bare_function(alloc, heap, shape, name, environment)?;
    if shape.constructs {
        give_prototype(alloc, heap, function)?;
    }
    Ok(function)
}

/// Makes a function without `prototype`.
fn bare_function(
    alloc: Global,
    heap: &mut Heap,
    shape: Shape,
    name: &Str,
    environment: Env,
) -> Result<Object, Memory>
    ensures made { OnOk result (heap_of heap.new ≡ spec.function_made shape.number environment.index name.now shape.length (heap_of heap.old)) }
    ensures object { IfOk result (λ function. function.index ≡ next_object (heap_of heap.old)) }
{
    let function = heap.object(
        ObjectKind::Written(shape.number, environment),
        Some(object_at(Place::FunctionPrototype)),
    )?;
    let length = ascii(alloc, b"length")?;
    heap.define(function, &length, count(shape.length)?, FIXED)?;
    let key = ascii(alloc, b"name")?;
    let name = Value::Primitive(Primitive::Text(name.copy()?));
    heap.define(function, &key, name, FIXED)?;
    Ok(function)
}

/// Gives a function the object that what it makes inherits from.
fn give_prototype(alloc: Global, heap: &mut Heap, function: Object) -> Result<(), Memory>
    ensures { OnOk result (heap_of heap.new ≡ spec.constructor_made function.index (heap_of heap.old)) }
{
    let prototype = heap.object(ObjectKind::Plain, Some(object_at(Place::ObjectPrototype)))?;
    let constructor = ascii(alloc, b"constructor")?;
    heap.define(prototype, &constructor, Value::Object(function), HIDDEN)?;
    let key = ascii(alloc, b"prototype")?;
    heap.define(function, &key, Value::Object(prototype), HIDDEN)
}

/// Makes the object that a construction by this function gives (10.1.13).
pub fn make_instance(alloc: Global, heap: &mut Heap, maker: Object) -> Result<Object, Memory>
    ensures made { OnOk result (heap_of heap.new ≡ spec.instance_made maker.index (heap_of heap.old)) }
    ensures object { IfOk result (λ object. object.index ≡ next_object (heap_of heap.old)) }
{
    let key = ascii(alloc, b"prototype")?;
    let prototype = prototype_or(heap.get(maker, &key));
    heap.object(ObjectKind::Plain, Some(prototype))
}

/// The object that a value is, or the prototype of plain objects (10.1.14).
fn prototype_or(value: Option<&Value>) -> Object
    ensures { result.index ≡ spec.prototype_or (option_copied value.entry) }
{
    match value {
        Some(Value::Object(prototype)) => *prototype,
        _ => object_at(Place::ObjectPrototype),
    }
}
