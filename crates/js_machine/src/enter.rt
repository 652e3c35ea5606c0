// What a step is for.

ghost use Rattle.std.specs.Prelude.{◌≡◌, IfOk, option_map};
ghost use Rattle.js_value.specs.State.{Store};
ghost use Rattle.js_value.specs.Objects.{kind_of};
ghost use Rattle.js_value.specs.Running.{write as written};
ghost use Rattle.js_heap.specs.Heap.{heap_of};
ghost use Rattle.js_host.specs.Native.{plain_native};
ghost use Rattle.js_code.specs.Code.{reader};
ghost use Rattle.js_code.specs.Part.{as_code};
ghost use Rattle.js_code.specs.Program.{IsCodeOf};
ghost use Rattle.js_meaning.specs.Effects.{act, handle};
ghost use Rattle.js_meaning.specs.Files as F;
ghost use Rattle.js_meaning.specs.Meaning as M;
ghost use Rattle.js_meaning.specs.Program.{Sources, function_at};
ghost use Rattle.js_machine.specs.private.Carries.{Carries};
ghost use Rattle.js_machine.specs.private.Config.{View, view_of, entry_of, frame_comp, own_this, step_comp};
ghost use Rattle.js_machine.specs.private.State.{store_in, Becomes};

use crate::built_ins::is_handing;
use crate::call_actions::not_a_function;
use crate::data::{Action, Control, Entry, Frame, Step};
use crate::file_actions::require;
use crate::function_actions::make_error;
use crate::state::State;
use crate::steps::undefined;
use crate::turns::{begin_pass, begin_turn};
use items::{Items, Memory};
use js_code::{Code, Node};
use js_heap::{Env, ObjectKind};
use js_host::{Native, call_native, make_instance};
use js_meaning::Completion;
use js_value::{Object, Primitive, Value};
use std::alloc::Global;

/// Takes a step that is asked for.
#[inline(never)]
pub fn enter(alloc: Global, code: &Code, state: &mut State, entry: Entry) -> Result<Step, Memory>
    ensures { IfOk result (λ step. (p : Sources) (base : Store) → Carries p code.now →
        Becomes (F.inside p (entry_of (view_of p code.now.nodes) entry)) (store_in base state.old) (step_comp (view_of p code.now.nodes) step) (store_in base state.new)) }
{
    match entry {
        Entry::Turn {
            statement,
            labels,
            env,
        } => { Ok(begin_turn(alloc, code.node(statement), statement, labels, env)) }
        Entry::Pass {
            statement,
            labels,
            env,
            inner,
            rest,
        } => begin_pass(
            alloc,
            code.node(statement),
            statement,
            labels,
            env,
            inner,
            rest,
        ),
        Entry::Call {
            code: number,
            environment,
            this,
            arguments,
        } => Ok(call_function(code, number, environment, this, arguments, Frame::AfterCall)),
        Entry::New {
            maker,
            code: number,
            environment,
            arguments,
        } => {
            let made = make_instance(alloc, &mut state.heap, maker)?;
            Ok(call_function(
                code,
                number,
                environment,
                Value::Object(made),
                arguments,
                Frame::AfterConstruct { made },
            ))
        }
        Entry::CallBuiltIn {
            callee,
            function,
            maker,
            this,
            arguments,
        } => {
            let step = call_built_in(
                alloc,
                code,
                state,
                callee,
                function,
                maker,
                &this,
                arguments.as_slice(),
            );
            drop(this);
            drop(arguments);
            step
        }
    }
}

// A call of a built-in function, or a construction by one.
fn call_built_in(
    alloc: Global,
    code: &Code,
    state: &mut State,
    callee: Object,
    function: u32,
    maker: Option<Object>,
    this: &Value,
    arguments: &[Value],
) -> Result<Step, Memory>
    ensures { IfOk result (λ step. (p : Sources) (base : Store) → Carries p code.now →
        Becomes (F.call_native p (F.hand_on p) callee.index function (option_map (λ o. o.index) maker) this.now arguments.now) (store_in base state.old)
        (step_comp (view_of p code.now.nodes) step) (store_in base state.new)) }
{
    let constructing = maker.is_some();
    let native = call_native(
        alloc,
        &mut state.heap,
        function,
        constructing,
        this,
        arguments,
    )?;
    answer(alloc, code, state, callee, native)
}

// A call of the function with a number, before what waits for its completion.
fn call_function(
    code: &Code,
    number: u64,
    env: Env,
    this: Value,
    arguments: Items<Value>,
    frame: Frame,
) -> Step
    ensures { (p : Sources) → IsCodeOf p code.now → step_comp (view_of p code.now.nodes) result
        ≡ handle (F.comp_coded p (function_at p number) env.index this arguments) (frame_comp (view_of p code.now.nodes) frame) }
{
    match code.function(number) {
        Some(function) => {
            let this = this_of(code, function, this);
            Step::Push(
                frame,
                Control::Do(Action::StartCall {
                    this,
                    function,
                    env,
                    arguments,
                }),
            )
        }
        None => {
            drop(this);
            drop(arguments);
            Step::Push(
                frame,
                Control::Give(Completion::Normal(Value::Primitive(Primitive::Undefined))),
            )
        }
    }
}

// What is `this` in a function: an arrow function has none of its own.
fn this_of(code: &Code, function: usize, this: Value) -> Option<Value>
    ensures { result ≡ own_this (as_code (reader code.now.nodes function)) this }
{
    match code.node(function) {
        Node::ArrowExpression { .. } => {
            drop(this);
            None
        }
        Node::ArrowBlock { .. } => {
            drop(this);
            None
        }
        Node::Function { .. } => Some(this),
        _ => Some(this),
    }
}

// What a built-in function answers; `call` and `apply` hand on control within the step.
fn answer(
    alloc: Global,
    code: &Code,
    state: &mut State,
    callee: Object,
    native: Native,
) -> Result<Step, Memory>
    ensures { IfOk result (λ step. (p : Sources) (base : Store) → Carries p code.now →
        Becomes (F.native p (F.hand_on p) callee.index (plain_native native)) (store_in base state.old) (step_comp (view_of p code.now.nodes) step) (store_in base state.new)) }
{
    match native {
        Native::Enter(function, this, arguments) => {
            hand_on(alloc, code, state, function, this, arguments)
        }
        native => answer_directly(alloc, code, state, callee, native),
    }
}

// The same of one that hands on no control.
fn answer_directly(
    alloc: Global,
    code: &Code,
    state: &mut State,
    callee: Object,
    native: Native,
) -> Result<Step, Memory>
    ensures { IfOk result (λ step. (p : Sources) (base : Store) → Carries p code.now →
        Becomes (F.native p (λ f t vs. M.done) callee.index (plain_native native)) (store_in base state.old) (step_comp (view_of p code.now.nodes) step) (store_in base state.new)) }
{
    match native {
        Native::Value(value) => Ok(Step::Go(Control::Give(Completion::Normal(value)))),
        Native::Throw(kind, message) => {
            let error = make_error(alloc, &mut state.heap, kind, message)?;
            Ok(Step::Go(Control::Give(Completion::Throw(Value::Object(error)))))
        }
        Native::Refuse(kind) => Ok(Step::Go(Control::Refuse(kind))),
        Native::Write(bytes) => write(state, bytes.as_slice()),
        Native::Require(units) => require(alloc, code, state, callee, &units),
        Native::Enter(function, this, arguments) => {
            drop(function);
            drop(this);
            drop(arguments);
            Ok(Step::Go(undefined()))
        }
    }
}

// Bytes are printed.
fn write(state: &mut State, bytes: &[u8]) -> Result<Step, Memory>
    ensures { IfOk result (λ step. (t : View) (base : Store) →
        Becomes (act (written bytes.now) (λ s. M.done)) (store_in base state.old) (step_comp t step) (store_in base state.new)) }
{
    state.output.extend_from_slice(bytes)?;
    Ok(Step::Go(undefined()))
}

// A call takes the place of another one.
fn hand_on(
    alloc: Global,
    code: &Code,
    state: &mut State,
    function: Value,
    this: Value,
    arguments: Items<Value>,
) -> Result<Step, Memory>
    ensures { IfOk result (λ step. (p : Sources) (base : Store) → Carries p code.now →
        Becomes (F.hand_on p function this arguments) (store_in base state.old) (step_comp (view_of p code.now.nodes) step) (store_in base state.new)) }
{
    match function {
        Value::Object(callee) => hand_object(alloc, code, state, callee, this, arguments),
        Value::Primitive(value) => {
            drop(value);
            Ok(Step::Go(not_a_function(this, arguments)))
        }
    }
}

// A call of an object takes the place of another one.
fn hand_object(
    alloc: Global,
    code: &Code,
    state: &mut State,
    callee: Object,
    this: Value,
    arguments: Items<Value>,
) -> Result<Step, Memory>
    ensures { IfOk result (λ step. (p : Sources) (base : Store) → Carries p code.now →
        Becomes (F.hand_kind p (kind_of (heap_of state.old.heap) callee.index) callee.index this arguments) (store_in base state.old)
        (step_comp (view_of p code.now.nodes) step) (store_in base state.new)) }
{
    match state.heap.kind(callee) {
        ObjectKind::Written(number, environment) => {
            let number = *number;
            let environment = *environment;
            Ok(call_function(code, number, environment, this, arguments, Frame::AfterCall))
        }
        ObjectKind::BuiltIn(function) => {
            let function = *function;
            hand_built_in(alloc, code, state, callee, function, this, arguments)
        }
        ObjectKind::Plain => Ok(Step::Go(not_a_function(this, arguments))),
        ObjectKind::Array => Ok(Step::Go(not_a_function(this, arguments))),
        ObjectKind::Error => Ok(Step::Go(not_a_function(this, arguments))),
        ObjectKind::RegExp => Ok(Step::Go(not_a_function(this, arguments))),
    }
}

// A call of a built-in function takes the place of another one: one that hands on control itself asks for a step.
fn hand_built_in(
    alloc: Global,
    code: &Code,
    state: &mut State,
    callee: Object,
    function: u32,
    this: Value,
    arguments: Items<Value>,
) -> Result<Step, Memory>
    ensures { IfOk result (λ step. (p : Sources) (base : Store) → Carries p code.now →
        Becomes (F.hand_built_in p callee.index function this arguments) (store_in base state.old) (step_comp (view_of p code.now.nodes) step) (store_in base state.new)) }
{
    if is_handing(function) {
        return Ok(Step::Go(Control::Enter(Entry::CallBuiltIn {
            callee,
            function,
            maker: None,
            this,
            arguments,
        })));
    }
    let native = call_native(
        alloc,
        &mut state.heap,
        function,
        false,
        &this,
        arguments.as_slice(),
    );
    drop(this);
    drop(arguments);
    let native = native?;
    answer_directly(alloc, code, state, callee, native)
}
