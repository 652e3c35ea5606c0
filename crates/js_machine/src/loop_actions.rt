// What loops with `in` and `of` go through.

ghost use Rattle.std.specs.Prelude.{◌≡◌, ◌<◌, ◌+◌, IfOk};
ghost use Rattle.js_value.specs.Iterations.{next_of, keys_of, iterated, Keys};
ghost use Rattle.js_heap.specs.Heap.{heap_of};
ghost use Rattle.js_host.specs.Iteration.{plain_iteration};
ghost use Rattle.js_meaning.specs.Meaning as M;
ghost use Rattle.js_machine.specs.private.Config.{View, control_comp, goes_through, takes_next_of};
ghost use Rattle.js_machine.specs.private.Weight.{Weights, control_weight};

use crate::data::{Action, Control, Task};
use crate::parts::Loop;
use crate::steps::halted;
use items::{Boxed, Memory};
use js_heap::Heap;
use js_host::{Iteration, iterate_items, iterate_keys, take_next};
use js_meaning::Completion;
use js_value::{Primitive, Value};
use std::alloc::Global;

/// The next key or item, or the end of the loop.
#[inline(never)]
pub fn go_through(
    alloc: Global,
    heap: &Heap,
    round: Boxed<Loop>,
    rest: Boxed<Iteration>,
) -> Result<Control, Memory>
    ensures means { IfOk result (λ control. (t : View) → control_comp t control
        ≡ takes_next_of t round (next_of (heap_of heap.now) (plain_iteration rest))) }
    ensures less { IfOk result (λ control. (w : Weights) → control_weight w control < w round.target + 1) }
{
    match take_next(alloc, heap, rest.into_inner())? {
        Some((value, rest)) => {
            match Boxed::new(alloc, rest) {
                Ok(rest) => Ok(Control::Begin(Task::Take { round, value, rest })),
                Err(failed) => {
                    drop(round);
                    drop(value);
                    Err(failed)
                }
            }
        }
        None => {
            drop(round);
            Ok(Control::Give(Completion::Normal(Value::Primitive(Primitive::Undefined))))
        }
    }
}

/// The keys of a value are found.
#[inline(never)]
pub fn go_through_keys(
    alloc: Global,
    heap: &Heap,
    round: Boxed<Loop>,
    value: Value,
) -> Result<Control, Memory>
    ensures means { IfOk result (λ control. (t : View) → control_comp t control
        ≡ goes_through t round (Keys value (keys_of (heap_of heap.now) value))) }
    ensures less { IfOk result (λ control. (w : Weights) → control_weight w control < w round.target + 2) }
{
    let keys = iterate_keys(alloc, heap, value)?;
    let rest = Boxed::new(alloc, keys)?;
    Ok(Control::Do(Action::GoThrough { round, rest }))
}

/// The items of a value are found.
#[inline(never)]
pub fn go_through_items(
    alloc: Global,
    heap: &Heap,
    round: Boxed<Loop>,
    value: &Value,
) -> Result<Control, Memory>
    ensures means { IfOk result (λ control. (t : View) → control_comp t control
        ≡ M.or_halt (iterated (heap_of heap.now) value.now) (goes_through t round)) }
    ensures less { IfOk result (λ control. (w : Weights) → control_weight w control < w round.target + 2) }
{
    match iterate_items(heap, value) {
        Ok(items) => {
            let rest = Boxed::new(alloc, items)?;
            Ok(Control::Do(Action::GoThrough { round, rest }))
        }
        Err(halt) => {
            drop(round);
            halted(halt)
        }
    }
}
