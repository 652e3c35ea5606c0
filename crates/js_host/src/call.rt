ghost use Rattle.std.specs.Prelude.{◌≡◌, IfOk, OnOk, Ok, option_map, slice_get, map};
ghost use Rattle.js_value.specs.Host as spec;
ghost use Rattle.js_value.specs.Realm.{text};
ghost use Rattle.js_value.specs.OnObjects.{value_at};
ghost use Rattle.js_heap.specs.Heap.{heap_of};
ghost use Rattle.js_data.specs.Does.{Does};
ghost use Rattle.js_host.specs.Native.{plain_native};
ghost use Rattle.js_host.specs.private.Row.{row_seen};

use crate::complaints::{error_of, message_of};
use crate::constructors::of_constructor;
use crate::native::Native;
use crate::on_objects::of_objects;
use crate::perform::perform;
use items::{Items, Memory};
use js_data::of_data;
use js_heap::Heap;
use js_value::{
    BUILT_INS, BuiltIn, Complaint, Datum, Deed, FUNCTIONS, Halt, Place, Primitive, Str, Value,
};
use std::alloc::{AllocError, Global};

/// A row of the table of functions.
type FunctionRow = (BuiltIn, Option<Place>, &'static str, u8);

/// What the built-in function of this number answers to `this` and the arguments. A number that no
/// built-in function has is answered as a value that can't be called. Only want of memory is an
/// error; then nothing is said of the heap.
pub fn call_native(
    alloc: Global,
    heap: &mut Heap,
    id: u32,
    constructing: bool,
    this: &Value,
    arguments: &[Value],
) -> Result<Native, Memory>
    ensures answer { IfOk result (λ native. plain_native native
        ≡ spec.native_of id constructing this.now arguments.now (heap_of heap.old)) }
    ensures after { OnOk result (heap_of heap.new
        ≡ spec.native_heap id constructing this.now arguments.now (heap_of heap.old)) }
{
    match done_of(alloc, heap, id, constructing, this, arguments) {
        Ok(deed) => perform(alloc, heap, deed),
        Err(Halt::Throw(complaint)) => Ok(Native::Throw(
            error_of(complaint),
            message_of(alloc, complaint)?,
        )),
        Err(Halt::Refuse(kind)) => Ok(Native::Refuse(kind)),
        Err(Halt::Memory) => Err(AllocError),
    }
}

/// What the built-in function of this number does.
fn done_of(
    alloc: Global,
    heap: &Heap,
    id: u32,
    constructing: bool,
    this: &Value,
    arguments: &[Value],
) -> Result<Deed, Halt>
    ensures { Does (spec.done_of (spec.built_in id) constructing this.now arguments.now (heap_of heap.now)) result }
{
    match function_of(&BUILT_INS, id) {
        Some(function) => done_by(alloc, heap, function, constructing, this, arguments),
        None => Err(Halt::Throw(Complaint::NotAFunction)),
    }
}

/// The built-in function of this number, if one has it.
pub fn built_in(id: u32) -> Option<BuiltIn>
    ensures { result ≡ spec.built_in id }
{
    function_of(&BUILT_INS, id)
}

/// The function of this number: one of a table, or `require`.
fn function_of(table: &[FunctionRow], id: u32) -> Option<BuiltIn>
    ensures { result ≡ spec.listed_or (option_map (λ row. row.function) (slice_get (map row_seen table.now) id)) id }
{
    match row_of(table, id) {
        Some(function) => Some(function),
        None if id as usize == FUNCTIONS => Some(BuiltIn::Require),
        None => None,
    }
}

/// The function of this number in a table.
fn row_of(table: &[FunctionRow], id: u32) -> Option<BuiltIn>
    ensures { result ≡ option_map (λ row. row.function) (slice_get (map row_seen table.now) id) }
{
    if id as usize >= table.len() {
        return None;
    }
    Some(table[id as usize].0)
}

/// What the built-in function does for `this` and the arguments.
fn done_by(
    alloc: Global,
    heap: &Heap,
    function: BuiltIn,
    constructing: bool,
    this: &Value,
    arguments: &[Value],
) -> Result<Deed, Halt>
    ensures { Does (spec.done_by function constructing this.now arguments.now (heap_of heap.now)) result }
{
    match function {
        BuiltIn::Constructor(function) => of_constructor(alloc, function, constructing, arguments),
        _ if constructing => Err(Halt::Throw(Complaint::NotAConstructor)),
        BuiltIn::OnData(function) => deed_of(alloc, of_data(alloc, function, this, arguments)?),
        BuiltIn::OnObjects(function) => of_objects(alloc, heap, function, this, arguments),
        BuiltIn::Require => require(arguments),
    }
}

/// What is done for what a function on primitive values gives.
fn deed_of(alloc: Global, datum: Datum) -> Result<Deed, Halt>
    ensures { Does (Ok (spec.deed_of datum)) result }
{
    match datum {
        Datum::One(primitive) => Ok(Deed::Give(Value::Primitive(primitive))),
        Datum::Line(text) => Ok(Deed::Line(text)),
        Datum::Texts(texts) => Ok(Deed::MakeArray(values_of(alloc, texts.as_slice())?)),
    }
}

/// Texts as values.
fn values_of(alloc: Global, texts: &[Str]) -> Result<Items<Value>, Memory>
    ensures { IfOk result (λ values. values ≡ map text texts.now) }
{
    let mut values = Items::new(alloc);
    for text in texts {
        values.push(Value::Primitive(Primitive::Text(text.copy()?)))?;
    }
    Ok(values)
}

/// `require` of the first argument.
fn require(arguments: &[Value]) -> Result<Deed, Halt>
    ensures { Does (spec.require (value_at arguments.now 0)) result }
{
    match arguments {
        [Value::Primitive(Primitive::Text(text)), ..] => Ok(Deed::Require(text.copy()?)),
        _ => Err(Halt::Throw(Complaint::NotAText)),
    }
}
