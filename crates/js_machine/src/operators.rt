// What is chosen or made by a value that is there.

ghost use Rattle.std.specs.Prelude.{◌≡◌, ◌<◌, ◌+◌, ◌++◌, IfOk, drop as dropped, if◌then◌else◌};
ghost use Rattle.js_value.specs.UnaryOperators.{stepped};
ghost use Rattle.js_meaning.specs.Effects.{handle};
ghost use Rattle.js_meaning.specs.Meaning as M;
ghost use Rattle.js_machine.specs.private.Config.{View, decides_right, pending_comp, reference_of, control_comp};
ghost use Rattle.js_machine.specs.private.Weight.{Weights, pending_weight, control_weight};
ghost use Rattle.js_machine.specs.private.Frames.{ComesTo, Lighter};

use crate::clauses::begin_from;
use crate::data::{Action, Control, Entry, Frame, Pending, Task};
use crate::frames::with_frame;
use crate::parts::{Keying, Labels, Loop, Reference, Title};
use crate::references::put;
use crate::steps::{halted, undefined};
use items::{Boxed, Items, Memory};
use js_data::text;
use js_heap::Env;
use js_host::Iteration;
use js_meaning::Completion;
use js_tree::{LogicalOperator, UpdateOperator};
use js_value::{Primitive, Str, Value, step, strictly_equal, to_boolean, to_number};
use std::alloc::Global;

/// One of two expressions.
#[inline(never)]
pub fn choose(holds: usize, fails: usize, env: Env, value: &Value) -> Control
    ensures means { (t : View) → control_comp t result ≡ pending_comp t (Pending.Conditional holds fails env) value.now }
    ensures less { (w : Weights) → control_weight w result < w holds + w fails + 1 }
{
    if to_boolean(value) {
        Control::Begin(Task::Evaluate { place: holds, env })
    } else {
        Control::Begin(Task::Evaluate { place: fails, env })
    }
}

/// One of two statements, of which the second may be missing.
#[inline(never)]
pub fn choose_statement(
    alloc: Global,
    holds: usize,
    fails: usize,
    env: Env,
    value: &Value,
) -> Control
    ensures means { (t : View) → control_comp t result ≡ pending_comp t (Pending.Choose holds fails env) value.now }
    ensures less { (w : Weights) → control_weight w result < w holds + w fails + 2 }
{
    if to_boolean(value) {
        Control::Begin(Task::Execute {
            place: holds,
            labels: Labels::new(alloc),
            env,
        })
    } else {
        Control::Begin(Task::ExecuteIf { place: fails, env })
    }
}

/// The right operand of a logical operator, or the left one.
#[inline(never)]
pub fn logical(operator: LogicalOperator, right: usize, env: Env, value: Value) -> Control
    ensures means { (t : View) → control_comp t result ≡ pending_comp t (Pending.Logical operator right env) value }
    ensures less { (w : Weights) → control_weight w result < w right + 1 }
{
    if goes_on(operator, &value) {
        Control::Begin(Task::Evaluate { place: right, env })
    } else {
        Control::Give(Completion::Normal(value))
    }
}

// Whether the right operand decides (13.13).
fn goes_on(operator: LogicalOperator, value: &Value) -> bool
    ensures { result ≡ decides_right operator value.now }
{
    match operator {
        LogicalOperator::And => to_boolean(value),
        LogicalOperator::Or => !to_boolean(value),
        LogicalOperator::Coalesce => is_nullish(value),
    }
}

// Whether a value is undefined or null.
fn is_nullish(value: &Value) -> bool
    ensures { result ≡ M.is_nullish value.now }
{
    match value {
        Value::Primitive(primitive) => is_nullish_primitive(primitive),
        Value::Object(_) => false,
    }
}

// The same of a primitive value.
fn is_nullish_primitive(primitive: &Primitive) -> bool
    ensures { result ≡ M.is_nullish (Value.Primitive primitive.now) }
{
    match primitive {
        Primitive::Undefined => true,
        Primitive::Null => true,
        Primitive::Boolean(_) => false,
        Primitive::Number(_) => false,
        Primitive::Text(_) => false,
    }
}

/// A turn of a loop, or its end.
#[inline(never)]
pub fn turn(statement: usize, labels: Labels, env: Env, value: &Value) -> Control
    ensures means { (t : View) → control_comp t result ≡ pending_comp t (Pending.Turn statement labels env) value.now }
    ensures less { (w : Weights) → control_weight w result ≡ 0 }
{
    if to_boolean(value) {
        Control::Enter(Entry::Turn {
            statement,
            labels,
            env,
        })
    } else {
        undefined()
    }
}

/// A number one more or one less, for a reference: the new number is given or the old one.
#[inline(never)]
pub fn update(
    frames: &mut Vec<Frame>,
    prefix: bool,
    operator: UpdateOperator,
    reference: Reference,
    env: Env,
    value: &Value,
) -> Result<Control, Memory>
    ensures means { IfOk result (λ control. (t : View) → ComesTo t frames.old.items (pending_comp t (Pending.Update prefix operator reference env) value.now) frames.new.items control) }
    ensures less { IfOk result (λ control. (w : Weights) → Lighter w frames.old.items 4 frames.new.items control) }
{
    match to_number(value) {
        Ok(old) => update_number(frames, prefix, operator, reference, env, old),
        Err(kind) => {
            drop(reference);
            Ok(Control::Refuse(kind))
        }
    }
}

// The same of a number.
fn update_number(
    frames: &mut Vec<Frame>,
    prefix: bool,
    operator: UpdateOperator,
    reference: Reference,
    env: Env,
    old: i64,
) -> Result<Control, Memory>
    ensures means { IfOk result (λ control. (t : View) → ComesTo t frames.old.items (M.numbered (stepped operator old) (λ new.
        handle (M.put_value env.index (reference_of t reference) (M.number_value new)) (M.with_value (λ w. M.give (M.number_value (if prefix then new else old)))))) frames.new.items control) }
    ensures less { IfOk result (λ control. (w : Weights) → Lighter w frames.old.items 4 frames.new.items control) }
{
    match step(operator, old) {
        Ok(new) => {
            let given = chosen(prefix, new, old);
            with_frame(
                frames,
                Frame::Value(Pending::Instead(Completion::Normal(given))),
                put(reference, env, Value::Primitive(Primitive::Number(new))),
            )
        }
        Err(kind) => {
            drop(reference);
            Ok(Control::Refuse(kind))
        }
    }
}

/// The new number or the old one.
pub fn chosen(prefix: bool, new: i64, old: i64) -> Value
    ensures { result ≡ M.number_value (if prefix then new else old) }
{
    if prefix {
        Value::Primitive(Primitive::Number(new))
    } else {
        Value::Primitive(Primitive::Number(old))
    }
}

/// A value as a text, before the text after it in a template.
#[inline(never)]
pub fn template_text(
    alloc: Global,
    part: usize,
    rest: usize,
    env: Env,
    units: Str,
    value: &Value,
) -> Result<Control, Memory>
    ensures means { IfOk result (λ control. (t : View) → control_comp t control ≡ pending_comp t (Pending.TemplatePart part rest env units) value.now) }
    ensures less { IfOk result (λ control. (w : Weights) → control_weight w control < w rest + 2) }
{
    match text(alloc, value) {
        Ok(inner) => Ok(Control::Begin(Task::TemplateText {
            part,
            rest,
            env,
            units: joined(alloc, &units, &inner)?,
        })),
        Err(halt) => halted(halt),
    }
}

/// Two texts as one.
#[inline(never)]
pub fn joined(alloc: Global, left: &Str, right: &Str) -> Result<Str, Memory>
    ensures { IfOk result (λ text. text ≡ left.now ++ right.now) }
{
    let mut units = Vec::from_slice(alloc, left.as_slice())?;
    units.extend_from_slice(right.as_slice())?;
    Str::from_vec(units)
}

/// A value as the key of a property.
#[inline(never)]
pub fn key_text(alloc: Global, next: Keying, env: Env, value: &Value) -> Result<Control, Memory>
    ensures means { IfOk result (λ control. (t : View) → control_comp t control ≡ pending_comp t (Pending.Key next env) value.now) }
    ensures less { IfOk result (λ control. (w : Weights) → control_weight w control < pending_weight w (Pending.Key next env)) }
{
    match text(alloc, value) {
        Ok(key) => Ok(Control::Begin(Task::Keyed {
            next,
            env,
            key: Title::Text(key),
        })),
        Err(halt) => {
            drop(next);
            halted(halt)
        }
    }
}

/// What a loop goes through is found.
#[inline(never)]
pub fn subject(keys: bool, round: Boxed<Loop>, value: Value) -> Control
    ensures means { (t : View) → control_comp t result ≡ pending_comp t (Pending.Subject keys round) value }
    ensures less { (w : Weights) → control_weight w result < w round.target + 3 }
{
    if keys {
        Control::Do(Action::GoThroughKeys { round, value })
    } else {
        Control::Do(Action::GoThroughItems { round, value })
    }
}

/// A turn of a loop whose target has taken its value.
#[inline(never)]
pub fn take_pass(round: Boxed<Loop>, inner: Env, rest: Boxed<Iteration>) -> Control
    ensures means { (t : View) (value : Value) → control_comp t result ≡ pending_comp t (Pending.Taken round inner rest) value }
    ensures less { (w : Weights) → control_weight w result ≡ 0 }
{
    let Loop {
        statement,
        target: _,
        labels,
        env,
    } = round.into_inner();
    Control::Enter(Entry::Pass {
        statement,
        labels,
        env,
        inner,
        rest,
    })
}

/// The clause whose test is there, or the clauses after it.
#[inline(never)]
pub fn tested(
    frames: &mut Vec<Frame>,
    statements: usize,
    rest: usize,
    all: usize,
    sought: Value,
    env: Env,
    value: &Value,
) -> Result<Control, Memory>
    ensures means { IfOk result (λ control. (t : View) → ComesTo t frames.old.items (pending_comp t (Pending.Tested statements rest all sought env) value.now) frames.new.items control) }
    ensures less { IfOk result (λ control. (w : Weights) → Lighter w frames.old.items (w statements + w rest + w all + 3) frames.new.items control) }
{
    if strictly_equal(&sought, value) {
        drop(sought);
        begin_from(frames, statements, rest, env)
    } else {
        Ok(Control::Begin(Task::Select {
            cases: rest,
            all,
            value: sought,
            env,
        }))
    }
}

/// The parameters after one that took its argument.
#[inline(never)]
pub fn next_param(rest: usize, arguments: Items<Value>, next: usize, env: Env) -> Control
    ensures means { (t : View) (value : Value) → control_comp t result ≡ pending_comp t (Pending.NextParam rest arguments next env) value }
    ensures less { (w : Weights) → control_weight w result < w rest + 1 }
{
    let next = next_place(&arguments, next);
    Control::Begin(Task::Bind {
        params: rest,
        arguments,
        next,
        env,
    })
}

/// The place of the next argument, if there is one more.
pub fn next_place(arguments: &Items<Value>, place: usize) -> usize
    ensures { dropped result arguments.now ≡ M.rest_of (dropped place arguments.now) }
{
    if place < arguments.len() {
        place + 1
    } else {
        place
    }
}
