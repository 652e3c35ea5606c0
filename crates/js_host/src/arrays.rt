// The built-in functions of arrays (ECMA-262, 23.1.3).

ghost use Rattle.std.specs.Prelude.{◌≡◌, ◌≤◌, ◌++◌, IfOk, OnOk, length, map, position, flat_map, reverse};
ghost use Rattle.js_value.specs.OnObjects as spec;
ghost use Rattle.js_value.specs.OnData as answers;
ghost use Rattle.js_value.specs.Arguments as arguments;
ghost use Rattle.js_value.specs.Equality as equality;
ghost use Rattle.js_heap.specs.Heap.{heap_of};
ghost use Rattle.js_data.specs.Does.{Does};

use crate::objects::rest_of;
use crate::values::{
    array_of, changes, copies, count, give_text, is_array, size, sum_of, truth, value_at,
};
use items::{Items, Memory};
use js_data::{number_at_or, relative, text};
use js_heap::Heap;
use js_value::{Deed, Halt, Object, Primitive, Str, Value, ascii, strictly_equal};
use std::alloc::Global;

/// `Array.prototype.concat` (23.1.3.2).
pub fn concat(alloc: Global, heap: &Heap, this: &Value, arguments: &[Value]) -> Result<Deed, Halt>
    ensures { Does (spec.concat this.now arguments.now (heap_of heap.now)) result }
{
    let array = array_of(heap, this)?;
    let mut elements = copies(alloc, heap.elements(array))?;
    spread_all(heap, &mut elements, arguments)?;
    Ok(Deed::MakeArray(elements))
}

/// Puts values after others: of an array its elements.
fn spread_all(heap: &Heap, elements: &mut Items<Value>, values: &[Value]) -> Result<(), Memory>
    ensures { OnOk result (elements.new ≡ elements.old ++ flat_map (spec.spread (heap_of heap.now)) values.now) }
{
    for value in values {
        spread(heap, elements, value)?;
    }
    Ok(())
}

/// Puts a value after others, or the elements of an array.
fn spread(heap: &Heap, elements: &mut Items<Value>, value: &Value) -> Result<(), Memory>
    ensures { OnOk result (elements.new ≡ elements.old ++ spec.spread (heap_of heap.now) value.now) }
{
    match value {
        Value::Object(object) if is_array(heap, value) => put_copies(
            elements,
            heap.elements(*object),
        ),
        _ => elements.push(value.copy()?),
    }
}

/// Puts values once more after others.
fn put_copies(elements: &mut Items<Value>, values: &[Value]) -> Result<(), Memory>
    ensures { OnOk result (elements.new ≡ elements.old ++ values.now) }
{
    for value in values {
        elements.push(value.copy()?)?;
    }
    Ok(())
}

/// `Array.prototype.includes` (23.1.3.16).
pub fn includes(heap: &Heap, this: &Value, arguments: &[Value]) -> Result<Deed, Halt>
    ensures { Does (spec.includes this.now arguments.now (heap_of heap.now)) result }
{
    let array = array_of(heap, this)?;
    let place = found_in(arguments, heap.elements(array))?;
    Ok(truth(place.is_some()))
}

/// `Array.prototype.indexOf` (23.1.3.17).
pub fn index_of(heap: &Heap, this: &Value, arguments: &[Value]) -> Result<Deed, Halt>
    ensures { Does (spec.index_of this.now arguments.now (heap_of heap.now)) result }
{
    let array = array_of(heap, this)?;
    let place = found_in(arguments, heap.elements(array))?;
    Ok(Deed::Give(place_or(place)?))
}

/// Where the first argument stands first among elements, from the place on that the second tells.
fn found_in(arguments: &[Value], elements: &[Value]) -> Result<Option<usize>, Halt>
    ensures { Does (spec.found_in arguments.now elements.now) result }
{
    match elements {
        [] => Ok(None),
        [_, ..] => {
            let from = number_at_or(0, arguments, 1)?;
            let search = value_at(arguments, 0)?;
            Ok(place_from(relative(elements.len(), from), &search, elements))
        }
    }
}

/// Where a value stands first among elements, from a place on.
fn place_from(from: usize, search: &Value, elements: &[Value]) -> Option<usize>
    requires { from ≤ length elements.now }
    ensures { result ≡ spec.place_from from search.now elements.now }
{
    match place_of(search, &elements[from..]) {
        Some(place) => Some(from + place),
        None => None,
    }
}

/// Where a value stands first among elements.
fn place_of(search: &Value, elements: &[Value]) -> Option<usize>
    ensures { result ≡ position (equality.strictly_equal search.now) elements.now }
{
    elements
        .iter()
        .position(|element| strictly_equal(search, element))
}

/// A place as a value: -1 where there is none.
fn place_or(place: Option<usize>) -> Result<Value, Memory>
    ensures { IfOk result (λ value. value ≡ spec.place_or place) }
{
    match place {
        Some(place) => count(place),
        None => Ok(Value::Primitive(Primitive::Number(-1))),
    }
}

/// `Array.prototype.join` (23.1.3.18).
pub fn join(alloc: Global, heap: &Heap, this: &Value, arguments: &[Value]) -> Result<Deed, Halt>
    ensures { Does (spec.join this.now arguments.now (heap_of heap.now)) result }
{
    let array = array_of(heap, this)?;
    let separator = separator(alloc, arguments)?;
    let text = joined(alloc, &separator, heap.elements(array))?;
    Ok(give_text(text))
}

/// The separator that the first argument is: a comma where it is undefined.
fn separator(alloc: Global, arguments: &[Value]) -> Result<Str, Halt>
    ensures { Does (spec.separator_of (spec.seen_at arguments.now 0)) result }
{
    match arguments {
        [] | [Value::Primitive(Primitive::Undefined), ..] => Ok(ascii(alloc, b",")?),
        [first, ..] => text(alloc, first),
    }
}

/// The texts of elements with a separator between two.
fn joined(alloc: Global, separator: &Str, elements: &[Value]) -> Result<Str, Halt>
    ensures { Does (answers.joined separator.now (map spec.joining elements.now)) result }
{
    match elements {
        [] => Ok(Str::from_vec(Vec::new(alloc))?),
        [first, rest @ ..] => {
            let first = joining(alloc, first)?;
            joined_after(alloc, &first, separator, rest)
        }
    }
}

/// The units before, and then the texts of elements, each after a separator.
fn joined_after(
    alloc: Global,
    before: &Str,
    separator: &Str,
    elements: &[Value],
) -> Result<Str, Halt>
    ensures { Does (answers.joined_after before.now separator.now (map spec.joining elements.now)) result }
{
    let mut units = Vec::from_slice(alloc, before.as_slice())?;
    for element in elements {
        let text = joining(alloc, element)?;
        append(&mut units, separator, &text)?;
    }
    Ok(Str::from_vec(units)?)
}

/// Puts a separator and a text after the units.
fn append(units: &mut Vec<u16>, separator: &Str, text: &Str) -> Result<(), Memory>
    ensures { OnOk result (units.new.items ≡ units.old.items ++ separator.now ++ text.now) }
{
    units.extend_from_slice(separator.as_slice())?;
    units.extend_from_slice(text.as_slice())
}

/// The text of an element: none where it is undefined or null.
fn joining(alloc: Global, element: &Value) -> Result<Str, Halt>
    ensures { Does (arguments.to_text (spec.joining element.now)) result }
{
    match element {
        Value::Primitive(Primitive::Undefined | Primitive::Null) => Ok(Str::from_vec(Vec::new(
            alloc,
        ))?),
        _ => text(alloc, element),
    }
}

/// `Array.prototype.pop` (23.1.3.22).
pub fn pop(heap: &Heap, this: &Value) -> Result<Deed, Halt>
    ensures { Does (spec.pop this.now (heap_of heap.now)) result }
{
    let array = array_of(heap, this)?;
    let elements = heap.elements(array);
    let left = elements.len().saturating_sub(1);
    let last = value_at(elements, left)?;
    changes(heap, array, Deed::Cut(array, left as u64, last))
}

/// `Array.prototype.push` (23.1.3.23).
pub fn push(alloc: Global, heap: &Heap, this: &Value, arguments: &[Value]) -> Result<Deed, Halt>
    ensures { Does (spec.push this.now arguments.now (heap_of heap.now)) result }
{
    let array = array_of(heap, this)?;
    changes(heap, array, Deed::Append(array, copies(alloc, arguments)?))
}

/// `Array.prototype.reverse` (23.1.3.26).
pub fn reverse(alloc: Global, heap: &Heap, this: &Value) -> Result<Deed, Halt>
    ensures { Does (spec.reverse_it this.now (heap_of heap.now)) result }
{
    let array = array_of(heap, this)?;
    reversed(alloc, heap, array, heap.elements(array))
}

/// The elements of an array in the other order, where there are two or more.
fn reversed(alloc: Global, heap: &Heap, array: Object, elements: &[Value]) -> Result<Deed, Halt>
    ensures { Does (spec.reversed (heap_of heap.now) array elements.now) result }
{
    if elements.len() < 2 {
        return Ok(Deed::Give(Value::Object(array)));
    }
    let elements = backward(alloc, elements)?;
    changes(
        heap,
        array,
        Deed::Replace(array, elements, Value::Object(array)),
    )
}

/// Values once more, in the other order.
fn backward(alloc: Global, values: &[Value]) -> Result<Items<Value>, Memory>
    ensures { IfOk result (λ copies. copies ≡ reverse values.now) }
{
    let mut copies = Items::new(alloc);
    let mut left = values.len();
    while left > 0 {
        left -= 1;
        copies.push(values[left].copy()?)?;
    }
    Ok(copies)
}

/// `Array.prototype.shift` (23.1.3.27).
pub fn shift(alloc: Global, heap: &Heap, this: &Value) -> Result<Deed, Halt>
    ensures { Does (spec.shift this.now (heap_of heap.now)) result }
{
    let array = array_of(heap, this)?;
    let first = value_at(heap.elements(array), 0)?;
    let rest = copies(alloc, rest_of(heap.elements(array)))?;
    changes(heap, array, Deed::Replace(array, rest, first))
}

/// `Array.prototype.slice` (23.1.3.28).
pub fn slice(alloc: Global, heap: &Heap, this: &Value, arguments: &[Value]) -> Result<Deed, Halt>
    ensures { Does (spec.slice this.now arguments.now (heap_of heap.now)) result }
{
    let array = array_of(heap, this)?;
    Ok(Deed::MakeArray(slice_of(alloc, heap.elements(array), arguments)?))
}

/// The elements between the places that the arguments tell.
fn slice_of(alloc: Global, elements: &[Value], arguments: &[Value]) -> Result<Items<Value>, Halt>
    ensures { Does (spec.slice_of elements.now arguments.now) result }
{
    let from = number_at_or(0, arguments, 0)?;
    slice_to(alloc, elements, relative(elements.len(), from), arguments)
}

/// The elements from a place on, up to the one that the second argument tells.
fn slice_to(
    alloc: Global,
    elements: &[Value],
    from: usize,
    arguments: &[Value],
) -> Result<Items<Value>, Halt>
    requires { from ≤ length elements.now }
    ensures { Does (spec.slice_part elements.now from arguments.now) result }
{
    let to = number_at_or(size(elements.len())?, arguments, 1)?;
    let to = relative(elements.len(), to);
    let part = if from < to {
        &elements[from..to]
    } else {
        &elements[..0]
    };
    Ok(copies(alloc, part)?)
}

/// `Array.prototype.unshift` (23.1.3.37).
pub fn unshift(alloc: Global, heap: &Heap, this: &Value, arguments: &[Value]) -> Result<Deed, Halt>
    ensures { Does (spec.unshift this.now arguments.now (heap_of heap.now)) result }
{
    let array = array_of(heap, this)?;
    let mut elements = copies(alloc, arguments)?;
    put_copies(&mut elements, heap.elements(array))?;
    let length = sum_of(arguments.len(), heap.elements(array).len())?;
    changes(heap, array, Deed::Replace(array, elements, length))
}
