// What a run that came to rest ends like.

ghost use Rattle.std.specs.Prelude.{◌≡◌, IfOk};
ghost use Rattle.js_value.specs.State.{Store};
ghost use Rattle.js_heap.specs.Heap.{heap_of};
ghost use Rattle.js_meaning.specs.World.{end_of as end_of_outcome, end_of_completion as completion_end};
ghost use Rattle.js_machine.specs.private.Moves.{rest_control as control_of};
ghost use Rattle.js_machine.specs.private.Runs.{rest_outcome};
ghost use Rattle.js_machine.specs.private.State.{store_in};

use crate::data::{Control, Rest};
use crate::shown::shown;
use crate::state::State;
use items::Memory;
use js_meaning::{Completion, End};
use std::alloc::Global;

/// The end of a run that came to rest.
pub fn end_of(alloc: Global, state: &State, rest: &Rest) -> Result<End, Memory>
    ensures { IfOk result (λ end. (began : Store) → end ≡ end_of_outcome (rest_outcome rest.now) (store_in began state.now)) }
{
    match rest {
        Rest::Completed(completion) => end_of_completion(alloc, state, completion),
        Rest::Refused(kind) => Ok(End::Range(*kind)),
        Rest::Asks(_) => Ok(End::Going),
    }
}

// The end of a program that completed: an exception is shown, and all else is the same end.
fn end_of_completion(alloc: Global, state: &State, completion: &Completion) -> Result<End, Memory>
    ensures { IfOk result (λ end. end ≡ completion_end (heap_of state.now.heap) completion.now) }
{
    match completion {
        Completion::Throw(value) => Ok(End::Threw(shown(alloc, &state.heap, value)?)),
        _ => Ok(End::Done),
    }
}

/// From where a run that came to rest goes on.
pub fn rest_control(rest: Rest) -> Control
    ensures { result ≡ control_of rest }
{
    match rest {
        Rest::Completed(completion) => Control::Give(completion),
        Rest::Refused(kind) => Control::Refuse(kind),
        Rest::Asks(entry) => Control::Enter(entry),
    }
}
