// What waits, the nearest on top.

ghost use Rattle.std.specs.Prelude.{◌≡◌, ◌+◌, IfOk};
ghost use Rattle.js_meaning.specs.Effects.{Comp, handle};
ghost use Rattle.js_machine.specs.private.Config.{View, control_comp, frame_comp, plug};
ghost use Rattle.js_machine.specs.private.Weight.{Weights, control_weight, frame_weight, frames_weight};
ghost use Rattle.js_machine.specs.private.Frames.{ComesTo};

use crate::data::{Control, Frame};
use items::Memory;

// Puts a frame on the others.
fn push(frames: &mut Vec<Frame>, frame: Frame) -> Result<(), Memory>
    ensures means { IfOk result (λ done. (t : View) (c : Comp) → plug t frames.new.items c ≡ plug t frames.old.items (handle c (frame_comp t frame))) }
    ensures weight { IfOk result (λ done. (w : Weights) → frames_weight w frames.new.items ≡ frames_weight w frames.old.items + frame_weight w frame) }
{
    match frames.push(frame) {
        Ok(()) => Ok(()),
        Err(failed) => Err(failed.into()),
    }
}

/// What is next, under a frame that waits for it.
pub fn with_frame(frames: &mut Vec<Frame>, frame: Frame, next: Control) -> Result<Control, Memory>
    ensures means { IfOk result (λ control. (t : View) → ComesTo t frames.old.items (handle (control_comp t next) (frame_comp t frame)) frames.new.items control) }
    ensures weight { IfOk result (λ control. (w : Weights) → frames_weight w frames.new.items + control_weight w control ≡ frames_weight w frames.old.items + (frame_weight w frame + control_weight w next)) }
{
    push(frames, frame).and(Ok(next))
}
