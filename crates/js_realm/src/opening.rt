ghost use Rattle.std.specs.Prelude.{◌≡◌, ◌≤◌, ◌<◌, ◌+◌, map, IfOk, OnOk, length, option_map};
ghost use Rattle.js_value.specs.State.{Plain};
ghost use Rattle.js_value.specs.Objects as objects;
ghost use Rattle.js_value.specs.Objects.{next_object, new_object};
ghost use Rattle.js_value.specs.Environments.{declare};
ghost use Rattle.js_value.specs.declared.built_in.TheConstants as tables;
ghost use Rattle.js_value.specs.Realm as spec;
ghost use Rattle.js_heap.specs.Object.{property_with};
ghost use Rattle.js_heap.specs.Heap.{heap_of};
ghost use Rattle.js_realm.specs.private.Opening.{row_seen, error_seen, named_seen};

use crate::places::{global_environment, object_at};
use items::Memory;
use js_heap::{Env, Flags, Heap, ObjectKind};
use js_names::SharedName;
use js_value::{
    BUILT_INS, BuiltIn, CONSTRUCTORS, Constructor, ERRORS, ErrorKind, FUNCTIONS, NAMED_OBJECTS,
    Object, PLACES, PROTOTYPES, Place, Primitive, Value, ascii,
};
use std::alloc::Global;

/// A property that isn't enumerated and may be written.
const HIDDEN: Flags = Flags {
    enumerable: false,
    writable: true,
};

/// A property that may neither be enumerated nor written.
const FIXED: Flags = Flags {
    enumerable: false,
    writable: false,
};

/// A row of the table of functions.
type FunctionRow = (BuiltIn, Option<Place>, &'static str, u8);

/// A row of the table of errors.
type ErrorRow = (Place, &'static str);

/// A row of the table of objects that have a name in every file.
type NamedRow = (&'static str, Place);

/// Makes the heap that stands when a program begins (ECMA-262, 9.3): the built-in objects, each at
/// its place, and the environment of the names that every file has. Only want of memory is an error.
pub fn realm(alloc: Global) -> Result<Heap, Memory>
    ensures { IfOk result (λ heap. heap_of heap ≡ spec.opening) }
{
    let mut heap = Heap::new(alloc);
    make_objects(&mut heap)?;
    make_functions(alloc, &mut heap, &BUILT_INS)?;
    hold_functions(alloc, &mut heap, &BUILT_INS)?;
    link(alloc, &mut heap, &CONSTRUCTORS)?;
    name_errors(alloc, &mut heap, &ERRORS)?;
    freeze_all(&mut heap);
    make_names(alloc, &mut heap)?;
    name_objects(alloc, &mut heap, &NAMED_OBJECTS)?;
    name_functions(alloc, &mut heap, &BUILT_INS)?;
    Ok(heap)
}

/// Makes the objects that aren't functions.
fn make_objects(heap: &mut Heap) -> Result<(), Memory>
    ensures { OnOk result (heap_of heap.new ≡ spec.each spec.make_object 0 tables.PROTOTYPES (heap_of heap.old)) }
{
    for row in &PROTOTYPES {
        make_object(heap, row.1)?;
    }
    Ok(())
}

/// Makes an object that inherits from the one at a place.
fn make_object(heap: &mut Heap, prototype: Option<Place>) -> Result<(), Memory>
    ensures { OnOk result (heap_of heap.new
        ≡ new_object Plain (option_map spec.number_of prototype) (heap_of heap.old)) }
{
    match prototype {
        None => heap.object(ObjectKind::Plain, None)?,
        Some(place) => heap.object(ObjectKind::Plain, Some(object_at(place)))?,
    };
    Ok(())
}

/// Makes the functions.
fn make_functions(alloc: Global, heap: &mut Heap, table: &[FunctionRow]) -> Result<(), Memory>
    requires { length table.now ≤ tables.FUNCTIONS }
    ensures { OnOk result (heap_of heap.new ≡ spec.each spec.make_function 0 (map row_seen table.now) (heap_of heap.old)) }
{
    for (number, row) in table.iter().enumerate() {
        make_row(alloc, heap, row.0, number as u32, row.2, row.3)?;
    }
    Ok(())
}

/// Makes a built-in function, of this number, name and length (10.3.4).
fn make_row(
    alloc: Global,
    heap: &mut Heap,
    function: BuiltIn,
    number: u32,
    name: &str,
    length: u8,
) -> Result<(), Memory>
    ensures { OnOk result (heap_of heap.new
        ≡ spec.function_made (spec.parent_of function) number name.now length (heap_of heap.old)) }
{
    make_function(alloc, heap, parent_of(function), number, name, length)
}

/// What a built-in function inherits from (10.3 and 20.5.6.2).
fn parent_of(function: BuiltIn) -> Place
    ensures { result ≡ spec.parent_of function }
{
    match function {
        BuiltIn::Constructor(Constructor::Error(kind)) if kind != ErrorKind::Error => Place::Error,
        _ => Place::FunctionPrototype,
    }
}

/// Makes a built-in function of this number, name and length, which inherits from the object at a place (10.3.4).
fn make_function(
    alloc: Global,
    heap: &mut Heap,
    parent: Place,
    number: u32,
    name: &str,
    length: u8,
) -> Result<(), Memory>
    ensures { OnOk result (heap_of heap.new ≡ spec.function_made parent number name.now length (heap_of heap.old)) }
{
    let object = make_plain_function(heap, parent, number)?;
    let length = Value::Primitive(Primitive::Number(i64::from(length)));
    define(alloc, heap, object, "length", length, FIXED)?;
    define(alloc, heap, object, "name", text(alloc, name)?, FIXED)
}

/// Makes a built-in function of this number, without properties.
fn make_plain_function(heap: &mut Heap, parent: Place, number: u32) -> Result<Object, Memory>
    ensures made { OnOk result (heap_of heap.new ≡ spec.plain_function parent number (heap_of heap.old)) }
    ensures object { IfOk result (λ made. made.index ≡ next_object (heap_of heap.old)) }
{
    heap.object(ObjectKind::BuiltIn(number), Some(object_at(parent)))
}

/// Makes each function a property of the object that holds it.
fn hold_functions(alloc: Global, heap: &mut Heap, table: &[FunctionRow]) -> Result<(), Memory>
    requires { length table.now ≤ tables.FUNCTIONS }
    ensures { OnOk result (heap_of heap.new ≡ spec.each spec.hold_function 0 (map row_seen table.now) (heap_of heap.old)) }
{
    for (number, row) in table.iter().enumerate() {
        hold(alloc, heap, number, row.2, row.1)?;
    }
    Ok(())
}

/// Makes the function of this number a property of the object that holds it, if one does.
fn hold(
    alloc: Global,
    heap: &mut Heap,
    number: usize,
    name: &str,
    holder: Option<Place>,
) -> Result<(), Memory>
    requires { number < tables.FUNCTIONS }
    ensures { OnOk result (heap_of heap.new ≡ spec.hold_in number name.now holder (heap_of heap.old)) }
{
    match holder {
        None => Ok(()),
        Some(holder) => {
            let function = Value::Object(function_at(number));
            define(alloc, heap, object_at(holder), name, function, HIDDEN)
        }
    }
}

/// The built-in function of this number.
fn function_at(number: usize) -> Object
    requires { number < tables.FUNCTIONS }
    ensures { result.index ≡ spec.first_function + number }
{
    Object::at((PLACES + number) as u64)
}

/// Gives each function that has one its `prototype`, and this its `constructor`.
fn link(alloc: Global, heap: &mut Heap, table: &[(Place, Place)]) -> Result<(), Memory>
    ensures { OnOk result (heap_of heap.new ≡ spec.each spec.link 0 table.now (heap_of heap.old)) }
{
    for pair in table {
        link_pair(alloc, heap, pair.0, pair.1)?;
    }
    Ok(())
}

/// Gives a function its `prototype`, and this its `constructor`.
fn link_pair(
    alloc: Global,
    heap: &mut Heap,
    function: Place,
    prototype: Place,
) -> Result<(), Memory>
    ensures { OnOk result (heap_of heap.new ≡ spec.linked_pair function prototype (heap_of heap.old)) }
{
    let function = object_at(function);
    let prototype = object_at(prototype);
    define(
        alloc,
        heap,
        function,
        "prototype",
        Value::Object(prototype),
        FIXED,
    )?;
    define(
        alloc,
        heap,
        prototype,
        "constructor",
        Value::Object(function),
        HIDDEN,
    )
}

/// Gives the objects that errors inherit from their name, and an empty message.
fn name_errors(alloc: Global, heap: &mut Heap, table: &[ErrorRow]) -> Result<(), Memory>
    ensures { OnOk result (heap_of heap.new ≡ spec.each spec.name_error 0 (map error_seen table.now) (heap_of heap.old)) }
{
    for pair in table {
        name_error(alloc, heap, pair.0, pair.1)?;
    }
    Ok(())
}

/// Gives an object that errors inherit from its name, and an empty message.
fn name_error(alloc: Global, heap: &mut Heap, prototype: Place, name: &str) -> Result<(), Memory>
    ensures { OnOk result (heap_of heap.new ≡ spec.error_named prototype name.now (heap_of heap.old)) }
{
    let prototype = object_at(prototype);
    define(alloc, heap, prototype, "name", text(alloc, name)?, HIDDEN)?;
    define(alloc, heap, prototype, "message", text(alloc, "")?, HIDDEN)
}

/// Freezes all objects but the global object.
fn freeze_all(heap: &mut Heap)
    ensures { heap_of heap.new ≡ spec.freeze_all spec.built_in_count 0 (heap_of heap.old) }
{
    for index in 0..(PLACES + FUNCTIONS) as u64 {
        freeze(heap, index);
    }
}

/// Freezes the object of this number, if it isn't the global object.
fn freeze(heap: &mut Heap, index: u64)
    ensures { heap_of heap.new ≡ spec.freeze_one index (heap_of heap.old) }
{
    if index != object_at(Place::Global).index() {
        heap.freeze(Object::at(index));
    }
}

/// The value that is this text.
fn text(alloc: Global, text: &str) -> Result<Value, Memory>
    ensures { IfOk result (λ value. value ≡ spec.text text.now) }
{
    Ok(Value::Primitive(Primitive::Text(ascii(alloc, text.as_bytes())?)))
}

/// Defines a property of an object.
fn define(
    alloc: Global,
    heap: &mut Heap,
    object: Object,
    key: &str,
    value: Value,
    flags: Flags,
) -> Result<(), Memory>
    ensures { OnOk result (heap_of heap.new
        ≡ objects.define object.index (property_with key.now value flags) (heap_of heap.old)) }
{
    let key = ascii(alloc, key.as_bytes())?;
    heap.define(object, &key, value, flags)
}

/// Makes the environment of the names that every file has, with those that are no function's.
fn make_names(alloc: Global, heap: &mut Heap) -> Result<(), Memory>
    ensures { OnOk result (heap_of heap.new ≡ spec.first_names (heap_of heap.old)) }
{
    heap.env(None)?;
    declare_constant(
        alloc,
        heap,
        global_environment(),
        "undefined",
        Value::Primitive(Primitive::Undefined),
    )
}

/// Declares the names of objects that aren't functions.
fn name_objects(alloc: Global, heap: &mut Heap, table: &[NamedRow]) -> Result<(), Memory>
    ensures { OnOk result (heap_of heap.new ≡ spec.each spec.name_object 0 (map named_seen table.now) (heap_of heap.old)) }
{
    for named in table {
        name_object(alloc, heap, named.0, named.1)?;
    }
    Ok(())
}

/// Declares the name of an object.
fn name_object(alloc: Global, heap: &mut Heap, name: &str, place: Place) -> Result<(), Memory>
    ensures { OnOk result (heap_of heap.new ≡ spec.object_named name.now place (heap_of heap.old)) }
{
    let object = Value::Object(object_at(place));
    declare_constant(alloc, heap, global_environment(), name, object)
}

/// Declares the names of functions.
fn name_functions(alloc: Global, heap: &mut Heap, table: &[FunctionRow]) -> Result<(), Memory>
    requires { length table.now ≤ tables.FUNCTIONS }
    ensures { OnOk result (heap_of heap.new ≡ spec.each spec.name_function 0 (map row_seen table.now) (heap_of heap.old)) }
{
    for (number, row) in table.iter().enumerate() {
        name_function(alloc, heap, number, row.2, row.1)?;
    }
    Ok(())
}

/// Declares the name of the function of this number, where no object holds it.
fn name_function(
    alloc: Global,
    heap: &mut Heap,
    number: usize,
    name: &str,
    holder: Option<Place>,
) -> Result<(), Memory>
    requires { number < tables.FUNCTIONS }
    ensures { OnOk result (heap_of heap.new ≡ spec.name_of number name.now holder (heap_of heap.old)) }
{
    match holder {
        Some(_) => Ok(()),
        None => {
            let function = Value::Object(function_at(number));
            declare_constant(alloc, heap, global_environment(), name, function)
        }
    }
}

/// Declares a constant of this name.
fn declare_constant(
    alloc: Global,
    heap: &mut Heap,
    env: Env,
    name: &str,
    value: Value,
) -> Result<(), Memory>
    ensures { OnOk result (heap_of heap.new
        ≡ declare env.index (spec.constant name.now value) (heap_of heap.old)) }
{
    heap.declare(env, &SharedName::new(alloc, name)?, Some(value), true)?;
    Ok(())
}
