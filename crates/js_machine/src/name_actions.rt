// Names are read and written.

ghost use Rattle.std.specs.Prelude.{◌≡◌, ◌<◌, IfOk, OnOk, Some};
ghost use Rattle.js_value.specs.Environments.{lookup, assign_name, init_name, name_answer};
ghost use Rattle.js_heap.specs.Environment.{plain_cell};
ghost use Rattle.js_heap.specs.Heap.{heap_of};
ghost use Rattle.js_meaning.specs.Meaning as M;
ghost use Rattle.js_machine.specs.private.Config.{View, control_comp, type_in_cell};
ghost use Rattle.js_machine.specs.private.Weight.{Weights, control_weight};

use crate::data::{Action, Control};
use items::Memory;
use js_heap::{Assign, Cell, Env, Heap};
use js_host::type_in;
use js_meaning::Completion;
use js_names::SharedName;
use js_value::{Complaint, Primitive, Value, ascii};
use std::alloc::Global;

/// The value of a name.
#[inline(never)]
pub fn read(heap: &Heap, name: &SharedName, env: Env) -> Result<Control, Memory>
    ensures means { IfOk result (λ control. (t : View) → control_comp t control
        ≡ M.value_in (heap_of heap.now) (lookup (heap_of heap.now) env.index name.now)) }
    ensures less { IfOk result (λ control. (w : Weights) → control_weight w control < 2) }
{
    match heap.lookup(env, name) {
        Some(cell) => match heap.value_of(cell) {
            Some(value) => Ok(Control::Give(Completion::Normal(value.copy()?))),
            None => Ok(Control::Do(Action::Throw(Complaint::NotInitialised))),
        },
        None => Ok(Control::Do(Action::Throw(Complaint::NotDefined))),
    }
}

/// A value for a name.
#[inline(never)]
pub fn write(heap: &mut Heap, name: &SharedName, env: Env, value: Value) -> Result<Control, Memory>
    ensures after { OnOk result (heap_of heap.new ≡ assign_name env.index name.now value (heap_of heap.old)) }
    ensures means { IfOk result (λ control. (t : View) → control_comp t control
        ≡ M.assigns value (name_answer (heap_of heap.old) env.index name.now)) }
    ensures less { IfOk result (λ control. (w : Weights) → control_weight w control < 2) }
{
    let given = value.copy()?;
    match heap.assign_name(env, name, value) {
        Some(Assign::Done) => Ok(Control::Give(Completion::Normal(given))),
        Some(Assign::Dead) => {
            drop(given);
            Ok(Control::Do(Action::Throw(Complaint::NotInitialised)))
        }
        Some(Assign::Constant) => {
            drop(given);
            Ok(Control::Do(Action::Throw(Complaint::NotAssignable)))
        }
        None => {
            drop(given);
            Ok(Control::Do(Action::Throw(Complaint::NotDefined)))
        }
    }
}

/// The first value of a name.
#[inline(never)]
pub fn initialize(
    heap: &mut Heap,
    name: &SharedName,
    env: Env,
    value: Value,
) -> Result<Control, Memory>
    ensures after { OnOk result (heap_of heap.new ≡ init_name env.index name.now value (heap_of heap.old)) }
    ensures means { IfOk result (λ control. (t : View) → control_comp t control
        ≡ M.initializes value (lookup (heap_of heap.old) env.index name.now)) }
    ensures less { IfOk result (λ control. (w : Weights) → control_weight w control < 2) }
{
    let given = value.copy()?;
    match heap.init_name(env, name, value) {
        Some(_) => Ok(Control::Give(Completion::Normal(given))),
        None => {
            drop(given);
            Ok(Control::Do(Action::Throw(Complaint::NotDefined)))
        }
    }
}

/// The type of a name's value, or of none.
#[inline(never)]
pub fn type_of_name(
    alloc: Global,
    heap: &Heap,
    name: &SharedName,
    env: Env,
) -> Result<Control, Memory>
    ensures means { IfOk result (λ control. (t : View) → control_comp t control
        ≡ type_in_cell (heap_of heap.now) (lookup (heap_of heap.now) env.index name.now)) }
    ensures less { IfOk result (λ control. (w : Weights) → control_weight w control < 2) }
{
    match heap.lookup(env, name) {
        Some(cell) => type_of_cell(alloc, heap, cell),
        None => Ok(Control::Give(Completion::Normal(Value::Primitive(Primitive::Text(ascii(
            alloc,
            b"undefined",
        )?))))),
    }
}

// The type of a cell's value.
fn type_of_cell(alloc: Global, heap: &Heap, cell: Cell) -> Result<Control, Memory>
    ensures means { IfOk result (λ control. (t : View) → control_comp t control
        ≡ type_in_cell (heap_of heap.now) (Some (plain_cell cell))) }
    ensures less { IfOk result (λ control. (w : Weights) → control_weight w control < 2) }
{
    match heap.value_of(cell) {
        Some(value) => Ok(Control::Give(Completion::Normal(Value::Primitive(Primitive::Text(type_in(
            alloc, heap, value,
        )?))))),
        None => Ok(Control::Do(Action::Throw(Complaint::NotInitialised))),
    }
}
