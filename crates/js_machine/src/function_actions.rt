// Functions and objects are made, and functions are entered.

ghost use Rattle.std.specs.Prelude.{◌≡◌, ◌<◌, ◌∷◌, ◌++◌, [], IfOk, OnOk, Some, false, map};
ghost use Rattle.js_value.specs.Objects.{define, next_object};
ghost use Rattle.js_value.specs.Environments.{next_environment};
ghost use Rattle.js_value.specs.Functions.{closed};
ghost use Rattle.js_value.specs.Host.{error_made, error_of as error_told, message_of as message_told};
ghost use Rattle.js_heap.specs.Environment.{plain_binding};
ghost use Rattle.js_heap.specs.Heap.{heap_of};
ghost use Rattle.js_heap.specs.Object.{property_with};
ghost use Rattle.js_code.specs.Code.{reader};
ghost use Rattle.js_code.specs.Part.{as_code};
ghost use Rattle.js_meaning.specs.Files.{this_bound};
ghost use Rattle.js_meaning.specs.Scopes.{shape_of, call_made, param_names, params_of, uninitialized};
ghost use Rattle.js_machine.specs.private.Config.{form_code, is_ordinary, this_of_call};

use crate::names::Words;
use crate::parts::Form;
use crate::scopes::{make_scope, put_binding};
use items::{Items, Memory};
use js_code::{BodyScope, Code, Node};
use js_heap::{Binding, Env, Flags, Heap, ObjectKind};
use js_host::{Shape, ascii, error_of, error_prototype, make_function, message_of};
use js_names::SharedName;
use js_value::{Complaint, ErrorKind, Object, Primitive, Str, Value};
use std::alloc::Global;

/// Makes the function with its code at a place.
#[inline(never)]
pub fn close(
    alloc: Global,
    code: &Code,
    heap: &mut Heap,
    form: Form,
    function: usize,
    name: &Str,
    env: Env,
) -> Result<Object, Memory>
    ensures made { OnOk result (heap_of heap.new
        ≡ closed (shape_of (form_code form (as_code (reader code.now.nodes function)))) name.now env.index (heap_of heap.old)) }
    ensures object { IfOk result (λ object. object.index ≡ next_object (heap_of heap.old)) }
{
    let shape = shape_at(code, form, function);
    make_function(alloc, heap, shape, name, env)
}

// What is known of the function with its code at a place.
fn shape_at(code: &Code, form: Form, function: usize) -> Shape
    ensures { record { number = result.number; length = result.length; constructs = result.constructs }
        ≡ shape_of (form_code form (as_code (reader code.now.nodes function))) }
{
    match code.node(function) {
        Node::Function { number, length, .. } => shape(form, *number, *length),
        Node::ArrowExpression { number, length, .. } => shape(form, *number, *length),
        Node::ArrowBlock { number, length, .. } => shape(form, *number, *length),
        _ => shape(form, 0, 0),
    }
}

// Only ordinary functions may be called by `new`.
fn shape(form: Form, number: u64, length: usize) -> Shape
    ensures { result ≡ record { number = number; length = length; constructs = is_ordinary form } }
{
    Shape {
        number,
        length,
        constructs: matches!(form, Form::Ordinary),
    }
}

/// Makes the environment of a call: `this`, but in an arrow function, and the parameters.
#[inline(never)]
pub fn start_call(
    alloc: Global,
    code: &Code,
    words: &Words,
    heap: &mut Heap,
    this: Option<Value>,
    function: usize,
    env: Env,
) -> Result<Env, Memory>
    ensures made { OnOk result (heap_of heap.new
        ≡ call_made (this_of_call this) (param_names (params_of (as_code (reader code.now.nodes function)))) env.index (heap_of heap.old)) }
    ensures environment { IfOk result (λ inner. inner.index ≡ next_environment (heap_of heap.old)) }
{
    let mut names = this_names(alloc, words, this, names_of(code, function))?;
    put_params(code, function, &mut names)?;
    make_scope(heap, names, env)
}

// How many names a call makes besides `this`: a matter of memory alone.
fn names_of(code: &Code, function: usize) -> usize {
    match code.node(function) {
        Node::Function { scope, .. } => names_in(scope),
        Node::ArrowExpression { scope, .. } => names_in(scope),
        Node::ArrowBlock { scope, .. } => names_in(scope),
        _ => 0,
    }
}

// How many the parameters are, and what the body has beside them.
fn names_in(scope: &BodyScope) -> usize {
    let params = scope.params.len();
    if scope.apart {
        return params;
    }
    params
        .saturating_add(scope.variables.len())
        .saturating_add(scope.lexical.len())
}

// The name `this`, if there is one, with room for so many more.
fn this_names(
    alloc: Global,
    words: &Words,
    this: Option<Value>,
    more: usize,
) -> Result<Items<Binding>, Memory>
    ensures { IfOk result (λ names. map plain_binding names ≡ this_of_call this) }
{
    match this {
        None => Ok(Items::from_vec(Vec::with_capacity(alloc, more)?)),
        Some(this) => bound_this(alloc, words, this, more),
    }
}

// The name `this` with a value, with room for so many more.
fn bound_this(
    alloc: Global,
    words: &Words,
    this: Value,
    more: usize,
) -> Result<Items<Binding>, Memory>
    ensures { IfOk result (λ names. map plain_binding names ≡ this_bound this) }
{
    let mut names = Items::from_vec(Vec::with_capacity(alloc, more.saturating_add(1))?);
    put_binding(&mut names, words.this(), Some(this), true)?;
    Ok(names)
}

// Puts the names of a function's parameters at the end, not initialized yet.
fn put_params(code: &Code, function: usize, names: &mut Items<Binding>) -> Result<(), Memory>
    ensures { OnOk result (map plain_binding names.new
        ≡ map plain_binding names.old ++ map (uninitialized false) (param_names (params_of (as_code (reader code.now.nodes function))))) }
{
    match code.node(function) {
        Node::Function { scope, .. } => put_names(scope.params.as_slice(), names),
        Node::ArrowExpression { scope, .. } => put_names(scope.params.as_slice(), names),
        Node::ArrowBlock { scope, .. } => put_names(scope.params.as_slice(), names),
        _ => Ok(()),
    }
}

// Puts names at the end, not initialized yet.
fn put_names(more: &[SharedName], names: &mut Items<Binding>) -> Result<(), Memory>
    ensures { OnOk result (map plain_binding names.new ≡ map plain_binding names.old ++ map (uninitialized false) more.now) }
{
    for name in more {
        put_binding(names, name, None, false)?;
    }
    Ok(())
}

/// Puts a property with this name into an object.
pub fn define_named(
    alloc: Global,
    heap: &mut Heap,
    object: Object,
    name: &[u8],
    value: Value,
    flags: Flags,
) -> Result<(), Memory>
    ensures { OnOk result (heap_of heap.new ≡ define object.index (property_with name.now value flags) (heap_of heap.old)) }
{
    match ascii(alloc, name) {
        Ok(key) => heap.define(object, &key, value, flags),
        Err(failed) => {
            drop(value);
            Err(failed)
        }
    }
}

/// Makes an error with this message.
#[inline(never)]
pub fn make_error(
    alloc: Global,
    heap: &mut Heap,
    kind: ErrorKind,
    message: Str,
) -> Result<Object, Memory>
    ensures made { OnOk result (heap_of heap.new ≡ error_made kind (Some message) (heap_of heap.old)) }
    ensures object { IfOk result (λ object. object.index ≡ next_object (heap_of heap.old)) }
{
    let object = heap.object(ObjectKind::Error, Some(error_prototype(kind)))?;
    let flags = Flags {
        enumerable: false,
        writable: true,
    };
    let value = Value::Primitive(Primitive::Text(message));
    define_named(alloc, heap, object, b"message", value, flags)?;
    Ok(object)
}

/// Makes the error of a complaint.
#[inline(never)]
pub fn make_complaint(
    alloc: Global,
    heap: &mut Heap,
    complaint: Complaint,
) -> Result<Object, Memory>
    ensures made { OnOk result (heap_of heap.new
        ≡ error_made (error_told complaint) (Some (message_told complaint)) (heap_of heap.old)) }
    ensures object { IfOk result (λ object. object.index ≡ next_object (heap_of heap.old)) }
{
    let message = message_of(alloc, complaint)?;
    make_error(alloc, heap, error_of(complaint), message)
}
