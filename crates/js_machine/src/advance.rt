// From one place that asks for a step to the next.

ghost use Rattle.std.specs.Prelude.{◌≡◌, ◌+◌, IfOk};
ghost use Rattle.js_meaning.specs.Program.{Sources};
ghost use Rattle.js_machine.specs.private.Carries.{Carries};
ghost use Rattle.js_machine.specs.private.Config.{View, view_of, step_comp, control_comp, plug};
ghost use Rattle.js_machine.specs.private.Weight.{Weights, control_weight, frames_weight, step_weight};
ghost use Rattle.js_machine.specs.private.Moves.{here, Rests};

use crate::at_once::at_once;
use crate::begin::begin;
use crate::data::{Control, Frame, Rest, Step};
use crate::names::Words;
use crate::perform::perform;
use crate::resume::resume;
use crate::state::State;
use items::Memory;
use js_code::Code;
use std::alloc::Global;

/// Puts a frame on the others where a step has one, and gives what is next.
pub fn apply(frames: &mut Vec<Frame>, step: Step) -> Result<Control, Memory>
    ensures means { IfOk result (λ control. (t : View) → plug t frames.new.items (control_comp t control) ≡ plug t frames.old.items (step_comp t step)) }
    ensures weight { IfOk result (λ control. (w : Weights) → frames_weight w frames.new.items + control_weight w control ≡ frames_weight w frames.old.items + step_weight w step) }
{
    match step {
        Step::Go(control) => Ok(control),
        Step::Push(frame, control) => match frames.push(frame) {
            Ok(()) => Ok(control),
            Err(failed) => {
                drop(control);
                Err(failed.into())
            }
        },
    }
}

/// Goes on until a step is asked for, or there is nothing to do.
pub fn advance(
    alloc: Global,
    code: &Code,
    words: &Words,
    state: &mut State,
    frames: &mut Vec<Frame>,
    control: Control,
) -> Result<Rest, Memory>
    ensures { IfOk result (λ rest. (p : Sources) → Carries p code.now →
        Rests (view_of p code.now.nodes) (here frames.old.items control state.old) rest frames.new.items state.new) }
{
    let mut at = control;
    'transitions: loop {
        match at {
            Control::Begin(task) => match at_once(alloc, code, words, &mut state.heap, &task) {
                Ok(Some(control)) => {
                    drop(task);
                    at = control;
                }
                Ok(None) => at = begin(alloc, code, words, frames, task)?,
                Err(failed) => {
                    drop(task);
                    return Err(failed);
                }
            },
            Control::Give(completion) => match frames.pop() {
                None => return Ok(Rest::Completed(completion)),
                Some(frame) => at = resume(alloc, frames, frame, completion)?,
            },
            Control::Do(action) => at = perform(alloc, code, words, state, action)?,
            Control::Refuse(kind) => return Ok(Rest::Refused(kind)),
            Control::Enter(entry) => return Ok(Rest::Asks(entry)),
        }
    }
}
