// Parameters without defaults, which take their arguments without what waits (ECMA-262, 10.2.11).

ghost use Rattle.std.specs.Prelude.{◌≡◌, ◌<◌, ◌+◌, ◌*◌, true, false, Ok, None, IfOk, IfSome, if◌then◌else◌, drop as dropped};
ghost use Rattle.js_tree.specs.Plain.{Params, more_param};
ghost use Rattle.js_value.specs.declared.deed.Complaint.TheVariants.{NotDefined};
ghost use Rattle.js_code.specs.Code.{reader};
ghost use Rattle.js_code.specs.Part.{as_param, as_params};
ghost use Rattle.js_heap.specs.Heap.{heap_of};
ghost use Rattle.js_meaning.specs.Effects.{handle};
ghost use Rattle.js_meaning.specs.Meaning as M;
ghost use Rattle.js_meaning.specs.Program.{Sources};
ghost use Rattle.js_machine.specs.declared.data.Task.TheVariants as task;
ghost use Rattle.js_machine.specs.private.AtOnce.{are_plain, is_plain, param_name};
ghost use Rattle.js_machine.specs.private.Config.{view_of, action_comp, body_comp, control_comp, task_comp};
ghost use Rattle.js_machine.specs.private.State.{Turns};
ghost use Rattle.js_machine.specs.private.Weight.{place_weight, control_weight};

use crate::bodies::enter_function;
use crate::data::{Action, Control, Task};
use crate::function_actions::start_call;
use crate::functions::argument_at;
use crate::lists::list_of;
use crate::names::Words;
use crate::operators::next_place;
use items::{Items, Memory};
use js_code::{Code, ListKind, Node};
use js_heap::{Env, Heap};
use js_names::SharedName;
use js_value::{Complaint, Value};
use std::alloc::Global;

/// A call of the function with its code at a place begins: its environment is made; and where no parameter has a default, they take
/// their arguments, and its body begins.
pub fn start_function(
    alloc: Global,
    code: &Code,
    words: &Words,
    heap: &mut Heap,
    this: Option<Value>,
    function: usize,
    env: Env,
    arguments: Items<Value>,
) -> Result<Control, Memory>
    ensures means { IfOk result (λ control. (p : Sources) →
        Turns (action_comp (view_of p code.now.nodes) (Action.StartCall this function env arguments)) heap.old (control_comp (view_of p code.now.nodes) control) heap.new) }
    ensures less { IfOk result (λ control. control_weight place_weight control < 2 * place_weight function + 5) }
{
    let inner = start_call(alloc, code, words, heap, this, function, env)?;
    match bind_parameters(alloc, code, words, heap, function, &arguments, inner)? {
        Some(control) => {
            drop(arguments);
            Ok(control)
        }
        None => Ok(Control::Begin(Task::BindAll {
            function,
            arguments,
            env: inner,
        })),
    }
}

// The parameters of the function with its code at a place take their arguments, where none has a default, and its body begins.
fn bind_parameters(
    alloc: Global,
    code: &Code,
    words: &Words,
    heap: &mut Heap,
    function: usize,
    arguments: &Items<Value>,
    env: Env,
) -> Result<Option<Control>, Memory>
    ensures turns { IfOk result (λ found. IfSome found (λ control. (p : Sources) →
        Turns (task_comp (view_of p code.now.nodes) (task.BindAll function arguments.now env)) heap.old (control_comp (view_of p code.now.nodes) control) heap.new)) }
    ensures less { IfOk result (λ found. IfSome found (λ control. control_weight place_weight control < place_weight function + 2)) }
    ensures none { result ≡ Ok None → heap_of heap.new ≡ heap_of heap.old }
{
    match code.node(function) {
        Node::Function { params, .. } => bind(
            alloc, code, words, heap, *params, function, arguments, env,
        ),
        Node::ArrowExpression { params, .. } => {
            bind(alloc, code, words, heap, *params, function, arguments, env)
        }
        Node::ArrowBlock { params, .. } => {
            bind(alloc, code, words, heap, *params, function, arguments, env)
        }
        _ => Ok(None),
    }
}

// The same of a list of parameters.
fn bind(
    alloc: Global,
    code: &Code,
    words: &Words,
    heap: &mut Heap,
    params: usize,
    function: usize,
    arguments: &Items<Value>,
    env: Env,
) -> Result<Option<Control>, Memory>
    ensures turns { IfOk result (λ found. IfSome found (λ control. (p : Sources) →
        Turns (handle (M.comp_params p (as_params (reader code.now.nodes params)) env.index arguments.now) (M.with_value (λ v. body_comp (view_of p code.now.nodes) function env.index))) heap.old
        (control_comp (view_of p code.now.nodes) control) heap.new)) }
    ensures less { IfOk result (λ found. IfSome found (λ control. control_weight place_weight control < place_weight function + 2)) }
    ensures none { result ≡ Ok None → heap_of heap.new ≡ heap_of heap.old }
{
    if !all_plain(code, params) {
        return Ok(None);
    }
    if take_arguments(code, words, heap, params, arguments, env)? {
        let control = enter_function(alloc, code, heap, function, env)?;
        Ok(Some(control))
    } else {
        Ok(Some(Control::Do(Action::Throw(Complaint::NotDefined))))
    }
}

// Whether no parameter of a list has a default.
fn all_plain(code: &Code, params: usize) -> bool
    ensures { result ≡ are_plain (as_params (reader code.now.nodes params)) }
{
    let mut at = params;
    'params: loop {
        match list_of(code.node(at), ListKind::Params) {
            Some((first, rest)) => {
                if !plain(code, first) {
                    return false;
                }
                at = rest;
            }
            None => return true,
        }
    }
}

// Whether a parameter has no default.
fn plain(code: &Code, param: usize) -> bool
    ensures { result ≡ is_plain (as_param (reader code.now.nodes param)) }
{
    match code.node(param) {
        Node::Param { default, .. } => is_missing(code.node(*default)),
        _ => true,
    }
}

// Whether a node is a part that is missing.
fn is_missing(node: &Node) -> bool
    ensures missing { result ≡ true → node.now ≡ Node.Missing }
    ensures there { result ≡ false → node.now ≡ Node.Missing → ⊥ }
{
    matches!(node, Node::Missing)
}

// Parameters take their arguments, one after another; where the name of one isn't there, no more do.
fn take_arguments(
    code: &Code,
    words: &Words,
    heap: &mut Heap,
    params: usize,
    arguments: &Items<Value>,
    env: Env,
) -> Result<bool, Memory>
    requires plain { are_plain (as_params (reader code.now.nodes params)) ≡ true }
    ensures { IfOk result (λ taken. (p : Sources) →
        Turns (M.comp_params p (as_params (reader code.now.nodes params)) env.index arguments.now) heap.old (if taken then M.done else M.complain NotDefined) heap.new) }
{
    let mut at = params;
    let mut next = 0;
    'params: loop {
        match list_of(code.node(at), ListKind::Params) {
            Some((first, rest)) => {
                if !take_argument(code, words, heap, first, arguments, next, env)? {
                    return Ok(false);
                }
                next = next_place(arguments, next);
                at = rest;
            }
            None => return Ok(true),
        }
    }
}

// A parameter takes the argument at a place, where its name is there.
fn take_argument(
    code: &Code,
    words: &Words,
    heap: &mut Heap,
    param: usize,
    arguments: &Items<Value>,
    next: usize,
    env: Env,
) -> Result<bool, Memory>
    requires plain { is_plain (as_param (reader code.now.nodes param)) ≡ true }
    ensures { IfOk result (λ taken. (p : Sources) (xs : Params) →
        Turns (M.comp_params p (more_param (as_param (reader code.now.nodes param)) xs) env.index (dropped next arguments.now)) heap.old
        (if taken then M.comp_params p xs env.index (M.rest_of (dropped next arguments.now)) else M.complain NotDefined) heap.new) }
{
    let value = argument_at(arguments, next)?;
    match heap.init_name(env, name_of_param(code, words, param), value) {
        Some(_) => Ok(true),
        None => Ok(false),
    }
}

// The name of a parameter.
fn name_of_param<'a>(code: &'a Code, words: &'a Words, param: usize) -> &'a SharedName
    ensures { result.now ≡ param_name (as_param (reader code.now.nodes param)) }
{
    match code.node(param) {
        Node::Param { name, .. } => name,
        _ => words.nameless(),
    }
}
