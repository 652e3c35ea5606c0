// A run: as many stretches as there are steps, and one more.

ghost use Rattle.std.specs.Prelude.{IfOk};
ghost use Rattle.js_meaning.specs.Program.{Sources};
ghost use Rattle.js_machine.specs.private.Carries.{Carries};
ghost use Rattle.js_machine.specs.private.Config.{view_of};
ghost use Rattle.js_machine.specs.private.Moves.{here, rest_control};
ghost use Rattle.js_machine.specs.private.Runs.{Runs};

use crate::advance::{advance, apply};
use crate::data::{Control, Frame, Rest};
use crate::enter::enter;
use crate::names::Words;
use crate::state::State;
use items::Memory;
use js_code::Code;
use std::alloc::Global;

/// Goes on for so many steps, or until there is nothing to do: where that is.
pub fn run_on(
    alloc: Global,
    code: &Code,
    words: &Words,
    state: &mut State,
    frames: &mut Vec<Frame>,
    control: Control,
    steps: u64,
) -> Result<Rest, Memory>
    ensures { IfOk result (λ rest. (p : Sources) → Carries p code.now → Runs p (view_of p code.now.nodes) steps
        (here frames.old.items control state.old) rest (here frames.new.items (rest_control rest) state.new)) }
{
    let mut at = control;
    for _ in 0..steps {
        match advance(alloc, code, words, state, frames, at)? {
            Rest::Asks(entry) => {
                let step = enter(alloc, code, state, entry)?;
                at = apply(frames, step)?;
            }
            rest => return Ok(rest),
        }
    }
    advance(alloc, code, words, state, frames, at)
}
