ghost use Rattle.js_value.specs.OnObjects as spec;
ghost use Rattle.js_heap.specs.Heap.{heap_of};
ghost use Rattle.js_data.specs.Does.{Does};

use crate::arrays::{concat, includes, index_of, join, pop, push, reverse, shift, slice, unshift};
use crate::functions::{apply, call, function_to_string};
use crate::objects::{
    assign, create, freeze, get_prototype_of, has_own_property, is_array_first, is_frozen, keys,
};
use js_heap::Heap;
use js_value::{Deed, Halt, OnObjects, Value};
use std::alloc::Global;

/// What a built-in function that looks at objects does for `this` and the arguments.
pub fn of_objects(
    alloc: Global,
    heap: &Heap,
    function: OnObjects,
    this: &Value,
    arguments: &[Value],
) -> Result<Deed, Halt>
    ensures { Does (spec.of_objects function this.now arguments.now (heap_of heap.now)) result }
{
    match function {
        OnObjects::Assign => assign(alloc, arguments),
        OnObjects::Create => create(arguments),
        OnObjects::Freeze => freeze(arguments),
        OnObjects::GetPrototypeOf => get_prototype_of(heap, arguments),
        OnObjects::IsFrozen => is_frozen(heap, arguments),
        OnObjects::Keys => keys(alloc, heap, arguments),
        OnObjects::HasOwnProperty => has_own_property(alloc, heap, this, arguments),
        OnObjects::Apply => apply(alloc, heap, this, arguments),
        OnObjects::Call => call(alloc, heap, this, arguments),
        OnObjects::FunctionToString => function_to_string(heap, this),
        OnObjects::IsArray => is_array_first(heap, arguments),
        OnObjects::Concat => concat(alloc, heap, this, arguments),
        OnObjects::Includes => includes(heap, this, arguments),
        OnObjects::IndexOf => index_of(heap, this, arguments),
        OnObjects::Join => join(alloc, heap, this, arguments),
        OnObjects::Pop => pop(heap, this),
        OnObjects::Push => push(alloc, heap, this, arguments),
        OnObjects::Reverse => reverse(alloc, heap, this),
        OnObjects::Shift => shift(alloc, heap, this),
        OnObjects::Slice => slice(alloc, heap, this, arguments),
        OnObjects::Unshift => unshift(alloc, heap, this, arguments),
    }
}
