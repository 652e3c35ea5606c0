// Members are read, written and deleted.

ghost use Rattle.std.specs.Prelude.{◌≡◌, ◌<◌, IfOk, OnOk, true};
ghost use Rattle.js_value.specs.Members as members;
ghost use Rattle.js_value.specs.Objects as objects;
ghost use Rattle.js_value.specs.Realm.{text};
ghost use Rattle.js_heap.specs.Heap.{heap_of};
ghost use Rattle.js_meaning.specs.Meaning as M;
ghost use Rattle.js_machine.specs.private.Config.{View, control_comp, key_in};
ghost use Rattle.js_machine.specs.private.Weight.{Weights, control_weight};

use crate::data::Control;
use crate::names::{Words, units_at};
use crate::parts::MemberKey;
use crate::steps::halted;
use items::Memory;
use js_code::Code;
use js_heap::{Flags, Heap};
use js_host::{delete_member, get_member, get_named, put_member};
use js_meaning::Completion;
use js_value::{Object, Primitive, Str, Value};
use std::alloc::Global;

/// The value of a member.
#[inline(never)]
pub fn get(
    alloc: Global,
    code: &Code,
    words: &Words,
    heap: &Heap,
    base: &Value,
    key: MemberKey,
) -> Result<Control, Memory>
    ensures means { IfOk result (λ control. (t : View) → control_comp t control
        ≡ M.or_halt (members.get_member (heap_of heap.now) base.now (key_in code.now.nodes key)) M.give) }
    ensures less { IfOk result (λ control. (w : Weights) → control_weight w control < 2) }
{
    match key {
        MemberKey::Name(name) => {
            let units = units_at(alloc, code, words, name)?;
            get_by_name(heap, base, &units)
        }
        MemberKey::Value(key) => {
            let control = get_by_value(alloc, heap, base, &key);
            drop(key);
            control
        }
    }
}

// By a text.
fn get_by_name(heap: &Heap, base: &Value, units: &Str) -> Result<Control, Memory>
    ensures means { IfOk result (λ control. (t : View) → control_comp t control
        ≡ M.or_halt (members.get_member (heap_of heap.now) base.now (text units.now)) M.give) }
    ensures less { IfOk result (λ control. (w : Weights) → control_weight w control < 2) }
{
    match get_named(heap, base, units) {
        Ok(value) => Ok(Control::Give(Completion::Normal(value))),
        Err(halt) => halted(halt),
    }
}

// By a value.
fn get_by_value(alloc: Global, heap: &Heap, base: &Value, key: &Value) -> Result<Control, Memory>
    ensures means { IfOk result (λ control. (t : View) → control_comp t control
        ≡ M.or_halt (members.get_member (heap_of heap.now) base.now key.now) M.give) }
    ensures less { IfOk result (λ control. (w : Weights) → control_weight w control < 2) }
{
    match get_member(alloc, heap, base, key) {
        Ok(value) => Ok(Control::Give(Completion::Normal(value))),
        Err(halt) => halted(halt),
    }
}

/// The key of a member as a value.
#[inline(never)]
pub fn key_value(alloc: Global, code: &Code, words: &Words, key: MemberKey) -> Result<Value, Memory>
    ensures { IfOk result (λ value. value ≡ key_in code.now.nodes key) }
{
    match key {
        MemberKey::Name(name) => Ok(Value::Primitive(Primitive::Text(units_at(
            alloc, code, words, name,
        )?))),
        MemberKey::Value(value) => Ok(value),
    }
}

/// A value for a member.
#[inline(never)]
pub fn put(
    alloc: Global,
    heap: &mut Heap,
    base: &Value,
    key: &Value,
    value: Value,
) -> Result<Control, Memory>
    ensures after { OnOk result (heap_of heap.new ≡ (members.put_member base.now key.now value (heap_of heap.old)).heap) }
    ensures means { IfOk result (λ control. (t : View) → control_comp t control
        ≡ M.unless_halted (members.put_member base.now key.now value (heap_of heap.old)).halt (M.give value)) }
    ensures less { IfOk result (λ control. (w : Weights) → control_weight w control < 2) }
{
    let given = value.copy()?;
    match put_member(alloc, heap, base, key, value) {
        Ok(()) => Ok(Control::Give(Completion::Normal(given))),
        Err(halt) => {
            drop(given);
            halted(halt)
        }
    }
}

/// A value for a member by its key.
#[inline(never)]
pub fn put_by_key(
    alloc: Global,
    code: &Code,
    words: &Words,
    heap: &mut Heap,
    base: &Value,
    key: MemberKey,
    value: Value,
) -> Result<Control, Memory>
    ensures after { OnOk result (heap_of heap.new ≡ (members.put_member base.now (key_in code.now.nodes key) value (heap_of heap.old)).heap) }
    ensures means { IfOk result (λ control. (t : View) → control_comp t control
        ≡ M.unless_halted (members.put_member base.now (key_in code.now.nodes key) value (heap_of heap.old)).halt (M.give value)) }
    ensures less { IfOk result (λ control. (w : Weights) → control_weight w control < 2) }
{
    match key_value(alloc, code, words, key) {
        Ok(key) => {
            let control = put(alloc, heap, base, &key, value);
            drop(key);
            control
        }
        Err(failed) => {
            drop(value);
            Err(failed)
        }
    }
}

/// A member is deleted.
#[inline(never)]
pub fn delete(alloc: Global, heap: &mut Heap, base: &Value, key: &Value) -> Result<Control, Memory>
    ensures after { OnOk result (heap_of heap.new ≡ (members.delete_member base.now key.now (heap_of heap.old)).heap) }
    ensures means { IfOk result (λ control. (t : View) → control_comp t control
        ≡ M.unless_halted (members.delete_member base.now key.now (heap_of heap.old)).halt (M.truth true)) }
    ensures less { IfOk result (λ control. (w : Weights) → control_weight w control < 2) }
{
    match delete_member(alloc, heap, base, key) {
        Ok(()) => Ok(Control::Give(Completion::Normal(Value::Primitive(Primitive::Boolean(true))))),
        Err(halt) => halted(halt),
    }
}

/// A property is put into an object.
#[inline(never)]
pub fn define(heap: &mut Heap, object: Object, key: &Str, value: Value) -> Result<Control, Memory>
    ensures after { OnOk result (heap_of heap.new ≡ objects.define object.index (objects.assigned key.now value) (heap_of heap.old)) }
    ensures means { IfOk result (λ control. (t : View) → control_comp t control ≡ M.done) }
    ensures less { IfOk result (λ control. (w : Weights) → control_weight w control < 2) }
{
    let flags = Flags {
        enumerable: true,
        writable: true,
    };
    heap.define(object, key, value, flags)?;
    Ok(Control::Give(Completion::Normal(Value::Primitive(Primitive::Undefined))))
}
