// What stands when a program begins: the realm, and the methods of arrays that are written in the language itself.

ghost use Rattle.std.specs.Prelude.{◌≡◌, None, IfOk, OnOk};
ghost use Rattle.js_heap.specs.Heap.{heap_of};
ghost use Rattle.js_code.specs.Code.{reader};
ghost use Rattle.js_code.specs.Node.{function_of};
ghost use Rattle.js_code.specs.Part.{as_code, as_expr, as_properties, as_property, as_property_key, as_stmt, as_stmts};
ghost use Rattle.js_code.specs.Program.{IsCodeOf};
ghost use Rattle.js_tree.specs.Plain as P;
ghost use Rattle.js_meaning.specs.Prelude as spec;
ghost use Rattle.js_meaning.specs.Program.{Sources};
ghost use Rattle.js_machine.specs.private.Opening.{method_put};

use crate::function_actions::close;
use crate::lists::list_of;
use crate::names::{Words, no_units, units_at};
use crate::parts::Form;
use items::Memory;
use js_code::{Code, ListKind, Node};
use js_heap::{Flags, Heap};
use js_host::{global_environment, object_at, realm};
use js_value::{Place, Str, Value};
use std::alloc::Global;

/// The heap that stands when a program begins.
pub fn opening(alloc: Global, code: &Code, words: &Words) -> Result<Heap, Memory>
    ensures { IfOk result (λ heap. (p : Sources) → IsCodeOf p code.now → heap_of heap ≡ (spec.opening p).heap) }
{
    let mut heap = realm(alloc)?;
    make_statements(alloc, code, words, &mut heap)?;
    Ok(heap)
}

// Makes the methods of the statements of the prelude.
fn make_statements(alloc: Global, code: &Code, words: &Words, heap: &mut Heap) -> Result<(), Memory>
    ensures { OnOk result (heap_of heap.new ≡ spec.prelude_stmts (as_stmts (reader code.now.nodes code.now.prelude)) (heap_of heap.old)) }
{
    let mut list = code.prelude();
    'each: loop {
        match list_of(code.node(list), ListKind::Stmts) {
            Some((first, rest)) => {
                make_statement(alloc, code, words, heap, first)?;
                list = rest;
            }
            None => return Ok(()),
        }
    }
}

// Makes the methods of an expression statement.
fn make_statement(
    alloc: Global,
    code: &Code,
    words: &Words,
    heap: &mut Heap,
    statement: usize,
) -> Result<(), Memory>
    ensures { OnOk result (heap_of heap.new ≡ spec.prelude_stmt (as_stmt (reader code.now.nodes statement)) (heap_of heap.old)) }
{
    match code.node(statement) {
        Node::Expression { expression, .. } => make_literal(alloc, code, words, heap, *expression),
        _ => Ok(()),
    }
}

// Makes the methods of an object literal, parentheses notwithstanding.
fn make_literal(
    alloc: Global,
    code: &Code,
    words: &Words,
    heap: &mut Heap,
    expression: usize,
) -> Result<(), Memory>
    ensures { OnOk result (heap_of heap.new ≡ spec.literal_made (as_expr (reader code.now.nodes expression)) (heap_of heap.old)) }
{
    let mut place = expression;
    'each: loop {
        match code.node(place) {
            Node::Parenthesized { inner, .. } => place = *inner,
            Node::ObjectLiteral { properties, .. } => {
                return make_properties(alloc, code, words, heap, *properties);
            }
            _ => return Ok(()),
        }
    }
}

// Makes the methods of a list of properties.
fn make_properties(
    alloc: Global,
    code: &Code,
    words: &Words,
    heap: &mut Heap,
    properties: usize,
) -> Result<(), Memory>
    ensures { OnOk result (heap_of heap.new ≡ spec.properties_made (as_properties (reader code.now.nodes properties)) (heap_of heap.old)) }
{
    let mut list = properties;
    'each: loop {
        match list_of(code.node(list), ListKind::Properties) {
            Some((first, rest)) => {
                make_property(alloc, code, words, heap, first)?;
                list = rest;
            }
            None => return Ok(()),
        }
    }
}

// Makes a method of arrays.
fn make_property(
    alloc: Global,
    code: &Code,
    words: &Words,
    heap: &mut Heap,
    property: usize,
) -> Result<(), Memory>
    ensures { OnOk result (heap_of heap.new ≡ spec.property_made (as_property (reader code.now.nodes property)) (heap_of heap.old)) }
{
    match code.node(property) {
        Node::Method { key, function, .. } => {
            make_method(alloc, code, words, heap, *key, *function)
        }
        _ => Ok(()),
    }
}

// The same, where its key is a name.
fn make_method(
    alloc: Global,
    code: &Code,
    words: &Words,
    heap: &mut Heap,
    key: usize,
    function: usize,
) -> Result<(), Memory>
    ensures { OnOk result (heap_of heap.new
        ≡ spec.property_made (P.Method None (as_property_key (reader code.now.nodes key)) (function_of (as_code (reader code.now.nodes function)))) (heap_of heap.old)) }
{
    match code.node(key) {
        Node::NameKey { .. } => {
            let name = units_at(alloc, code, words, key)?;
            put_method(alloc, code, heap, function, &name)
        }
        Node::StringKey { .. } => Ok(()),
        Node::NumberKey { .. } => Ok(()),
        Node::ComputedKey { .. } => Ok(()),
        _ => {
            let name = no_units(alloc, words)?;
            put_method(alloc, code, heap, function, &name)
        }
    }
}

// Makes a method of arrays with this name, frozen and not enumerable.
fn put_method(
    alloc: Global,
    code: &Code,
    heap: &mut Heap,
    function: usize,
    name: &Str,
) -> Result<(), Memory>
    ensures { OnOk result (heap_of heap.new ≡ method_put name.now (function_of (as_code (reader code.now.nodes function))) (heap_of heap.old)) }
{
    let object = close(
        alloc,
        code,
        heap,
        Form::Method,
        function,
        name,
        global_environment(),
    )?;
    heap.freeze(object);
    let flags = Flags {
        enumerable: false,
        writable: true,
    };
    let prototype = object_at(Place::ArrayPrototype);
    heap.define(prototype, name, Value::Object(object), flags)
}
