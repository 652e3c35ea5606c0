// Functions: their parameters and their bodies.

ghost use Rattle.std.specs.Prelude.{◌≡◌, ◌<◌, ◌+◌, ◌*◌, Some, Option, IfOk, drop as dropped};
ghost use Rattle.js_terms.specs.declared.place.Loc.{Loc};
ghost use Rattle.js_tree.specs.Plain as P;
ghost use Rattle.js_code.specs.Node.{build, arrow_body};
ghost use Rattle.js_code.specs.Part.{as_code, as_params};
ghost use Rattle.js_meaning.specs.Effects.{handle};
ghost use Rattle.js_meaning.specs.Scopes.{params_of};
ghost use Rattle.js_meaning.specs.Meaning as M;
ghost use Rattle.js_machine.specs.private.Config.{View, body_comp, control_comp, expr_or, frame_comp, undefined_is};
ghost use Rattle.js_machine.specs.private.Weight.{Weights, control_weight, declarator_weight, frame_weight, frames_weight, node_weight};
ghost use Rattle.js_machine.specs.private.Frames.{ComesTo, Lighter};

use crate::data::{Action, Control, Frame, Pending, Task};
use crate::frames::with_frame;
use crate::lists::list_of;
use crate::parts::Title;
use crate::steps::undefined;
use items::{Items, Memory};
use js_code::{ListKind, Node};
use js_heap::Env;
use js_value::{Primitive, Value};

/// The parameters of a function begin, before its body.
#[inline(never)]
pub fn begin_parameters(
    frames: &mut Vec<Frame>,
    node: &Node,
    function: usize,
    arguments: Items<Value>,
    env: Env,
) -> Result<Control, Memory>
    ensures means { IfOk result (λ control. (t : View) → ComesTo t frames.old.items (handle (M.comp_params t.program (params_of (as_code (build t.tree node.now))) env.index arguments) (M.with_value (λ v. body_comp t function env.index))) frames.new.items control) }
    ensures less { IfOk result (λ control. (w : Weights) → Lighter w frames.old.items (node_weight w node.now + w function) frames.new.items control) }
{
    match node {
        Node::Function { params, .. } => bind_all(frames, *params, function, arguments, env),
        Node::ArrowExpression { params, .. } => bind_all(frames, *params, function, arguments, env),
        Node::ArrowBlock { params, .. } => bind_all(frames, *params, function, arguments, env),
        _ => {
            drop(arguments);
            Ok(Control::Do(Action::EnterBody { function, env }))
        }
    }
}

// All parameters take their arguments, before the body.
fn bind_all(
    frames: &mut Vec<Frame>,
    params: usize,
    function: usize,
    arguments: Items<Value>,
    env: Env,
) -> Result<Control, Memory>
    ensures means { IfOk result (λ control. (t : View) → ComesTo t frames.old.items (handle (control_comp t (Control.Begin (Task.Bind params arguments 0 env))) (frame_comp t (Frame.Value (Pending.Bound function env)))) frames.new.items control) }
    ensures weight { IfOk result (λ control. (w : Weights) → frames_weight w frames.new.items + control_weight w control ≡ frames_weight w frames.old.items + (frame_weight w (Frame.Value (Pending.Bound function env)) + control_weight w (Control.Begin (Task.Bind params arguments 0 env)))) }
{
    with_frame(
        frames,
        Frame::Value(Pending::Bound { function, env }),
        Control::Begin(Task::Bind {
            params,
            arguments,
            next: 0,
            env,
        }),
    )
}

/// The parameters that are left begin.
#[inline(never)]
pub fn begin_params(node: &Node, arguments: Items<Value>, next: usize, env: Env) -> Control
    ensures means { (t : View) → control_comp t result ≡ M.comp_params t.program (as_params (build t.tree node.now)) env.index (dropped next arguments) }
    ensures less { (w : Weights) → control_weight w result < node_weight w node.now }
{
    match list_of(node, ListKind::Params) {
        Some((first, rest)) => Control::Begin(Task::BindParam {
            param: first,
            rest,
            arguments,
            next,
            env,
        }),
        None => {
            drop(arguments);
            undefined()
        }
    }
}

/// A parameter takes its argument, or its default where that is undefined.
#[inline(never)]
pub fn begin_param(
    frames: &mut Vec<Frame>,
    name: usize,
    default: Option<usize>,
    rest: usize,
    arguments: Items<Value>,
    next: usize,
    env: Env,
) -> Result<Control, Memory>
    ensures means { IfOk result (λ control. (t : View) (loc name_loc : Option Loc) → ComesTo t frames.old.items (M.comp_params t.program
        (P.more_param (P.MakeParam loc (P.BindingIdentifier name_loc (t.name name)) (expr_or t default)) (as_params (t.tree rest))) env.index (dropped next arguments)) frames.new.items control) }
    ensures less { IfOk result (λ control. (w : Weights) → Lighter w frames.old.items (declarator_weight w default + w rest + 2) frames.new.items control) }
{
    let value = argument_at(&arguments, next)?;
    match default {
        Some(default) => begin_default(frames, name, default, rest, arguments, next, value, env),
        None => take_argument(frames, name, rest, arguments, next, value, env),
    }
}

/// The argument at a place, undefined where there is none.
pub fn argument_at(arguments: &Items<Value>, place: usize) -> Result<Value, Memory>
    ensures { IfOk result (λ value. value ≡ M.first_or_undefined (dropped place arguments.now)) }
{
    let values = arguments.as_slice();
    if place < values.len() {
        values[place].copy()
    } else {
        Ok(Value::Primitive(Primitive::Undefined))
    }
}

// A parameter takes its argument.
fn take_argument(
    frames: &mut Vec<Frame>,
    name: usize,
    rest: usize,
    arguments: Items<Value>,
    next: usize,
    value: Value,
    env: Env,
) -> Result<Control, Memory>
    ensures means { IfOk result (λ control. (t : View) → ComesTo t frames.old.items (handle (control_comp t (Control.Do (Action.Initialize name env value))) (frame_comp t (Frame.Value (Pending.NextParam rest arguments next env)))) frames.new.items control) }
    ensures weight { IfOk result (λ control. (w : Weights) → frames_weight w frames.new.items + control_weight w control ≡ frames_weight w frames.old.items + (frame_weight w (Frame.Value (Pending.NextParam rest arguments next env)) + control_weight w (Control.Do (Action.Initialize name env value)))) }
{
    with_frame(
        frames,
        Frame::Value(Pending::NextParam {
            rest,
            arguments,
            next,
            env,
        }),
        Control::Do(Action::Initialize { name, env, value }),
    )
}

// A parameter takes its default.
fn take_default(
    frames: &mut Vec<Frame>,
    name: usize,
    default: usize,
    rest: usize,
    arguments: Items<Value>,
    next: usize,
    env: Env,
) -> Result<Control, Memory>
    ensures means { IfOk result (λ control. (t : View) → ComesTo t frames.old.items
        (handle (control_comp t (Control.Begin (Task.EvaluateNamed (Title.Name name) default env))) (frame_comp t (Frame.Value (Pending.Param name rest arguments next env)))) frames.new.items control) }
    ensures weight { IfOk result (λ control. (w : Weights) → frames_weight w frames.new.items + control_weight w control ≡ frames_weight w frames.old.items + (2 * w default + w rest + 6)) }
{
    with_frame(
        frames,
        Frame::Value(Pending::Param {
            param: name,
            rest,
            arguments,
            next,
            env,
        }),
        Control::Begin(Task::EvaluateNamed {
            title: Title::Name(name),
            place: default,
            env,
        }),
    )
}

// A parameter with a default takes its argument, or the default where that is undefined.
fn begin_default(
    frames: &mut Vec<Frame>,
    name: usize,
    default: usize,
    rest: usize,
    arguments: Items<Value>,
    next: usize,
    value: Value,
    env: Env,
) -> Result<Control, Memory>
    ensures means { IfOk result (λ control. (t : View) → ComesTo t frames.old.items (handle (M.comp_argument t.program (t.name name) (expr_or t (Some default)) env.index value) (M.with_value (λ v.
        handle (M.initialize (t.name name) env.index v) (M.with_value (λ u. M.comp_params t.program (as_params (t.tree rest)) env.index (M.rest_of (dropped next arguments))))))) frames.new.items control) }
    ensures less { IfOk result (λ control. (w : Weights) → Lighter w frames.old.items (2 * w default + w rest + 7) frames.new.items control) }
{
    if is_undefined(&value) {
        drop(value);
        take_default(frames, name, default, rest, arguments, next, env)
    } else {
        take_argument(frames, name, rest, arguments, next, value, env)
    }
}

// Whether a value is undefined.
fn is_undefined(value: &Value) -> bool
    ensures { result ≡ undefined_is value.now }
{
    match value {
        Value::Primitive(primitive) => is_undefined_primitive(primitive),
        Value::Object(_) => false,
    }
}

// The same of a primitive value.
fn is_undefined_primitive(primitive: &Primitive) -> bool
    ensures { result ≡ undefined_is (Value.Primitive primitive.now) }
{
    match primitive {
        Primitive::Undefined => true,
        Primitive::Null => false,
        Primitive::Boolean(_) => false,
        Primitive::Number(_) => false,
        Primitive::Text(_) => false,
    }
}

/// The body of a function begins.
#[inline(never)]
pub fn begin_body(frames: &mut Vec<Frame>, node: &Node, env: Env) -> Result<Control, Memory>
    ensures means { IfOk result (λ control. (t : View) → ComesTo t frames.old.items (M.comp_concise t.program (arrow_body (as_code (build t.tree node.now))) env.index) frames.new.items control) }
    ensures less { IfOk result (λ control. (w : Weights) → Lighter w frames.old.items (node_weight w node.now) frames.new.items control) }
{
    match node {
        Node::Function { body, .. } => Ok(Control::Begin(Task::ExecuteAll { place: *body, env })),
        Node::ArrowBlock { body, .. } => Ok(Control::Begin(Task::ExecuteAll { place: *body, env })),
        Node::ArrowExpression { value, .. } => with_frame(
            frames,
            Frame::Value(Pending::Return),
            Control::Begin(Task::Evaluate { place: *value, env }),
        ),
        _ => Ok(undefined()),
    }
}
