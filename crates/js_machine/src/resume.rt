// How what waits goes on.

ghost use Rattle.std.specs.Prelude.{◌≡◌, ◌<◌, ◌+◌, ◌*◌, IfOk};
ghost use Rattle.js_meaning.specs.Files as F;
ghost use Rattle.js_machine.specs.private.Config.{View, frame_comp, control_comp};
ghost use Rattle.js_machine.specs.private.Weight.{Weights, frame_weight, pending_weight, control_weight};
ghost use Rattle.js_machine.specs.private.Frames.{ComesTo, Lighter};

use crate::data::{Action, Control, Frame, Pending, Task};
use crate::frames::with_frame;
use crate::parts::{Labels, Loop};
use crate::pending::go_on;
use crate::steps::undefined;
use items::{Boxed, Memory};
use js_heap::Env;
use js_host::Iteration;
use js_meaning::Completion;
use js_value::{Object, Value};
use std::alloc::Global;

/// What waits goes on with a completion.
#[inline(never)]
pub fn resume(
    alloc: Global,
    frames: &mut Vec<Frame>,
    frame: Frame,
    completion: Completion,
) -> Result<Control, Memory>
    ensures means { IfOk result (λ control. (t : View) → ComesTo t frames.old.items (frame_comp t frame completion) frames.new.items control) }
    ensures less { IfOk result (λ control. (w : Weights) → Lighter w frames.old.items (frame_weight w frame) frames.new.items control) }
{
    match frame {
        Frame::Value(pending) => go_on_with(alloc, frames, pending, completion),
        Frame::AfterTurn {
            statement,
            labels,
            env,
        } => { Ok(after_turn(statement, labels, env, completion)) }
        Frame::AfterPass { round, rest } => Ok(after_pass(round, rest, completion)),
        Frame::AfterLabel { label } => Ok(after_label(label, completion)),
        Frame::AfterSwitch => Ok(after_switch(completion)),
        Frame::Catch { catch, env } => Ok(caught(catch, env, completion)),
        Frame::Finally { block, env } => with_frame(
            frames,
            Frame::Value(Pending::Instead(completion)),
            Control::Do(Action::EnterBlock { block, env }),
        ),
        Frame::AfterCall => Ok(after_call(completion)),
        Frame::AfterConstruct { made } => Ok(after_construct(made, completion)),
        Frame::AfterStart { file } => Ok(after_start(file, completion)),
    }
}

// What waits for a value: any other completion passes it by.
fn go_on_with(
    alloc: Global,
    frames: &mut Vec<Frame>,
    pending: Pending,
    completion: Completion,
) -> Result<Control, Memory>
    ensures means { IfOk result (λ control. (t : View) → ComesTo t frames.old.items (frame_comp t (Frame.Value pending) completion) frames.new.items control) }
    ensures less { IfOk result (λ control. (w : Weights) → Lighter w frames.old.items (pending_weight w pending) frames.new.items control) }
{
    match completion {
        Completion::Normal(value) => go_on(alloc, frames, pending, value),
        Completion::Break(label) => Ok(pass_by(pending, Completion::Break(label))),
        Completion::Continue(label) => Ok(pass_by(pending, Completion::Continue(label))),
        Completion::Return(value) => Ok(pass_by(pending, Completion::Return(value))),
        Completion::Throw(value) => Ok(pass_by(pending, Completion::Throw(value))),
    }
}

// A completion that nothing waits for here.
fn pass_by(pending: Pending, completion: Completion) -> Control
    ensures means { result ≡ Control.Give completion }
    ensures less { (w : Weights) → 0 < pending_weight w pending }
{
    drop(pending);
    Control::Give(completion)
}

// After the body of a loop.
fn after_turn(statement: usize, labels: Labels, env: Env, completion: Completion) -> Control
    ensures means { (t : View) → control_comp t result ≡ frame_comp t (Frame.AfterTurn statement labels env) completion }
    ensures less { (w : Weights) → control_weight w result < 2 * w statement + 2 }
{
    match completion {
        Completion::Normal(value) => {
            drop(value);
            Control::Begin(Task::Again {
                statement,
                labels,
                env,
            })
        }
        Completion::Continue(None) => Control::Begin(Task::Again {
            statement,
            labels,
            env,
        }),
        Completion::Continue(Some(label)) => Control::Begin(Task::Continued {
            label,
            statement,
            labels,
            env,
        }),
        Completion::Break(None) => undefined(),
        Completion::Break(Some(label)) => { Control::Give(Completion::Break(Some(label))) }
        Completion::Return(value) => Control::Give(Completion::Return(value)),
        Completion::Throw(value) => Control::Give(Completion::Throw(value)),
    }
}

// After the body of a loop with `in` or `of`.
fn after_pass(round: Boxed<Loop>, rest: Boxed<Iteration>, completion: Completion) -> Control
    ensures means { (t : View) → control_comp t result ≡ frame_comp t (Frame.AfterPass round rest) completion }
    ensures less { (w : Weights) → control_weight w result < w round.target + 3 }
{
    match completion {
        Completion::Normal(value) => {
            drop(value);
            Control::Do(Action::GoThrough { round, rest })
        }
        Completion::Continue(None) => Control::Do(Action::GoThrough { round, rest }),
        Completion::Continue(Some(label)) => {
            Control::Begin(Task::ContinuedPass { label, round, rest })
        }
        Completion::Break(None) => undefined(),
        Completion::Break(Some(label)) => { Control::Give(Completion::Break(Some(label))) }
        Completion::Return(value) => Control::Give(Completion::Return(value)),
        Completion::Throw(value) => Control::Give(Completion::Throw(value)),
    }
}

// After a statement with a label.
fn after_label(label: usize, completion: Completion) -> Control
    ensures means { (t : View) → control_comp t result ≡ frame_comp t (Frame.AfterLabel label) completion }
    ensures less { (w : Weights) → control_weight w result < 2 }
{
    match completion {
        Completion::Break(Some(broken)) => Control::Begin(Task::Broken { label, broken }),
        Completion::Break(None) => Control::Give(Completion::Break(None)),
        Completion::Normal(value) => Control::Give(Completion::Normal(value)),
        Completion::Continue(label) => Control::Give(Completion::Continue(label)),
        Completion::Return(value) => Control::Give(Completion::Return(value)),
        Completion::Throw(value) => Control::Give(Completion::Throw(value)),
    }
}

// After the clauses of a `switch`.
fn after_switch(completion: Completion) -> Control
    ensures means { (t : View) → control_comp t result ≡ frame_comp t Frame.AfterSwitch completion }
    ensures less { (w : Weights) → control_weight w result ≡ 0 }
{
    match completion {
        Completion::Break(None) => undefined(),
        Completion::Break(Some(label)) => { Control::Give(Completion::Break(Some(label))) }
        Completion::Normal(value) => Control::Give(Completion::Normal(value)),
        Completion::Continue(label) => Control::Give(Completion::Continue(label)),
        Completion::Return(value) => Control::Give(Completion::Return(value)),
        Completion::Throw(value) => Control::Give(Completion::Throw(value)),
    }
}

// After a block with a `catch` clause.
fn caught(catch: usize, env: Env, completion: Completion) -> Control
    ensures means { (t : View) → control_comp t result ≡ frame_comp t (Frame.Catch catch env) completion }
    ensures less { (w : Weights) → control_weight w result < w catch + 1 }
{
    match completion {
        Completion::Throw(value) => Control::Begin(Task::Catch { catch, value, env }),
        Completion::Break(label) => Control::Give(Completion::Break(label)),
        Completion::Normal(value) => Control::Give(Completion::Normal(value)),
        Completion::Continue(label) => Control::Give(Completion::Continue(label)),
        Completion::Return(value) => Control::Give(Completion::Return(value)),
    }
}

// After the body of a function or of a file.
fn after_call(completion: Completion) -> Control
    ensures means { (t : View) → control_comp t result ≡ F.after_call completion }
    ensures less { (w : Weights) → control_weight w result ≡ 0 }
{
    match completion {
        Completion::Return(value) => Control::Give(Completion::Normal(value)),
        Completion::Throw(value) => Control::Give(Completion::Throw(value)),
        Completion::Normal(value) => {
            drop(value);
            undefined()
        }
        Completion::Break(label) => {
            drop(label);
            undefined()
        }
        Completion::Continue(label) => {
            drop(label);
            undefined()
        }
    }
}

// After the body of a constructor.
fn after_construct(made: Object, completion: Completion) -> Control
    ensures means { (t : View) → control_comp t result ≡ F.after_construct made.index completion }
    ensures less { (w : Weights) → control_weight w result ≡ 0 }
{
    match completion {
        Completion::Return(value) => object_or(made, value),
        Completion::Throw(value) => Control::Give(Completion::Throw(value)),
        Completion::Normal(value) => {
            drop(value);
            object(made)
        }
        Completion::Break(label) => {
            drop(label);
            object(made)
        }
        Completion::Continue(label) => {
            drop(label);
            object(made)
        }
    }
}

// An object for what waits.
fn object(made: Object) -> Control
    ensures { result ≡ Control.Give (Completion.Normal (Value.Object made)) }
{
    Control::Give(Completion::Normal(Value::Object(made)))
}

// The object that a value is, or else the one that was made.
fn object_or(made: Object, value: Value) -> Control
    ensures means { (t : View) → control_comp t result ≡ F.after_construct made.index (Completion.Return value) }
    ensures less { (w : Weights) → control_weight w result ≡ 0 }
{
    match value {
        Value::Object(returned) => object(returned),
        Value::Primitive(value) => {
            drop(value);
            object(made)
        }
    }
}

// After a file that was started by `require`.
fn after_start(file: usize, completion: Completion) -> Control
    ensures means { (t : View) → control_comp t result ≡ frame_comp t (Frame.AfterStart file) completion }
    ensures less { (w : Weights) → control_weight w result < 3 }
{
    match completion {
        Completion::Throw(thrown) => { Control::Do(Action::LeaveCache { file, thrown }) }
        Completion::Normal(value) => {
            drop(value);
            Control::Do(Action::Exports { file })
        }
        Completion::Break(label) => {
            drop(label);
            Control::Do(Action::Exports { file })
        }
        Completion::Continue(label) => {
            drop(label);
            Control::Do(Action::Exports { file })
        }
        Completion::Return(value) => {
            drop(value);
            Control::Do(Action::Exports { file })
        }
    }
}
