// What is done to the store.

ghost use Rattle.std.specs.Prelude.{◌≡◌, ◌<◌, Some, IfOk, OnOk};
ghost use Rattle.js_value.specs.Functions.{closed};
ghost use Rattle.js_value.specs.Host.{error_made, error_of, message_of};
ghost use Rattle.js_value.specs.Objects.{next_object};
ghost use Rattle.js_value.specs.Realm.{object as object_of};
ghost use Rattle.js_heap.specs.Heap.{heap_of};
ghost use Rattle.js_code.specs.Code.{reader};
ghost use Rattle.js_code.specs.Part.{as_code};
ghost use Rattle.js_meaning.specs.Scopes.{shape_of};
ghost use Rattle.js_value.specs.State.{Store};
ghost use Rattle.js_code.specs.Program.{IsCodeOf};
ghost use Rattle.js_meaning.specs.Program.{Sources};
ghost use Rattle.js_machine.specs.private.Config.{View, view_of, action_comp, control_comp, form_code, title_in};
ghost use Rattle.js_machine.specs.private.State.{store_in, Becomes, Turns};
ghost use Rattle.js_machine.specs.private.Weight.{Weights, place_weight, action_weight, control_weight};

use crate::bodies::enter_function;
use crate::call_actions::{call, construct};
use crate::data::{Action, Control, Task};
use crate::file_actions::{exports, leave_cache, path_at};
use crate::function_actions::{close, make_complaint};
use crate::loop_actions::{go_through, go_through_items, go_through_keys};
use crate::member_actions::{define, delete, get, key_value, put_by_key};
use crate::name_actions::{initialize, read, type_of_name, write};
use crate::names::{Words, name_at, text_of};
use crate::operator_actions::{operate, operate_unary};
use crate::parameters::start_function;
use crate::parts::{Form, Gathering, Reference, Title};
use crate::scope_actions::{
    catch_name, enter_block, enter_loop, enter_switch, make_anew, own_name,
};
use crate::state::State;
use items::{Items, Memory};
use js_code::Code;
use js_heap::{Env, Heap, ObjectKind};
use js_host::object_at;
use js_meaning::Completion;
use js_value::{Complaint, Object, Place, Primitive, Value};
use std::alloc::Global;

/// Does what needs the store.
pub fn perform(
    alloc: Global,
    code: &Code,
    words: &Words,
    state: &mut State,
    action: Action,
) -> Result<Control, Memory>
    ensures becomes { IfOk result (λ control. (p : Sources) (base : Store) → IsCodeOf p code.now →
        Becomes (action_comp (view_of p code.now.nodes) action) (store_in base state.old)
        (control_comp (view_of p code.now.nodes) control) (store_in base state.new)) }
    ensures less { IfOk result (λ control. control_weight place_weight control < action_weight place_weight action) }
{
    match action {
        Action::Read { name, env } => read(&state.heap, name_at(code, words, name), env),
        Action::Write { name, env, value } => {
            write(&mut state.heap, name_at(code, words, name), env, value)
        }
        Action::Initialize { name, env, value } => {
            initialize(&mut state.heap, name_at(code, words, name), env, value)
        }
        Action::GetMember { base, key } => {
            let control = get(alloc, code, words, &state.heap, &base, key);
            drop(base);
            control
        }
        Action::PutMember { base, key, value } => {
            let control = put_by_key(alloc, code, words, &mut state.heap, &base, key, value);
            drop(base);
            control
        }
        Action::Delete(reference) => delete_reference(
            alloc,
            code,
            words,
            &mut state.heap,
            reference,
        ),
        Action::Operate {
            operator,
            left,
            right,
        } => {
            let control = operate(alloc, &state.heap, operator, &left, &right);
            drop(left);
            drop(right);
            control
        }
        Action::OperateUnary { operator, value } => {
            let control = operate_unary(alloc, &state.heap, operator, &value);
            drop(value);
            control
        }
        Action::TypeOfName { name, env } => {
            type_of_name(alloc, &state.heap, name_at(code, words, name), env)
        }
        Action::Throw(complaint) => throw(alloc, &mut state.heap, complaint),
        Action::Close {
            form,
            function,
            title,
            env,
        } => close_titled(
            alloc,
            code,
            words,
            &mut state.heap,
            form,
            function,
            title,
            env,
        ),
        Action::MakeRegExp => make_reg_exp(&mut state.heap),
        Action::MakeObject { properties, env } => make_object(&mut state.heap, properties, env),
        Action::Define { object, key, value } => define_titled(
            alloc,
            code,
            words,
            &mut state.heap,
            object,
            key,
            value,
        ),
        Action::Gathered { gathering, values } => gathered(
            code,
            &mut state.heap,
            gathering,
            values,
        ),
        Action::EnterBlock { block, env } => enter_block(alloc, code, &mut state.heap, block, env),
        Action::EnterSwitch { cases, value, env } => {
            enter_switch(alloc, code, &mut state.heap, cases, value, env)
        }
        Action::EnterLoop { next, env } => {
            enter_loop(alloc, code, words, &mut state.heap, next, env)
        }
        Action::Anew { init, next, env } => make_anew(code, &mut state.heap, init, next, env),
        Action::Caught {
            name,
            value,
            block,
            env,
        } => {
            let name = name_at(code, words, name);
            catch_name(alloc, &mut state.heap, name, value, block, env)
        }
        Action::OwnName {
            name,
            function,
            env,
        } => {
            let own = name_at(code, words, name);
            own_name(alloc, &mut state.heap, own, name, function, env)
        }
        Action::GoThrough { round, rest } => go_through(alloc, &state.heap, round, rest),
        Action::GoThroughKeys { round, value } => {
            go_through_keys(alloc, &state.heap, round, value)
        }
        Action::GoThroughItems { round, value } => {
            let control = go_through_items(alloc, &state.heap, round, &value);
            drop(value);
            control
        }
        Action::StartCall {
            this,
            function,
            env,
            arguments,
        } => {
            start_function(
                alloc,
                code,
                words,
                &mut state.heap,
                this,
                function,
                env,
                arguments,
            )
        }
        Action::EnterBody { function, env } => {
            enter_function(alloc, code, &mut state.heap, function, env)
        }
        Action::Exports { file } => exports(alloc, state, path_at(code, file)),
        Action::LeaveCache { file, thrown } => {
            leave_cache(state, path_at(code, file));
            Ok(Control::Give(Completion::Throw(thrown)))
        }
    }
}

// An object for what waits.
fn give_object(object: Object) -> Control
    ensures { result ≡ Control.Give (Completion.Normal (Value.Object object)) }
{
    Control::Give(Completion::Normal(Value::Object(object)))
}

// Makes a regular expression.
fn make_reg_exp(heap: &mut Heap) -> Result<Control, Memory>
    ensures means { IfOk result (λ control. (t : View) → Turns (action_comp t Action.MakeRegExp) heap.old (control_comp t control) heap.new) }
    ensures less { IfOk result (λ control. (w : Weights) → control_weight w control < 2) }
{
    let parent = Some(object_at(Place::RegExpPrototype));
    Ok(give_object(heap.object(ObjectKind::RegExp, parent)?))
}

// Makes an object, for its properties.
fn make_object(heap: &mut Heap, properties: usize, env: Env) -> Result<Control, Memory>
    ensures means { IfOk result (λ control. (t : View) → Turns (action_comp t (Action.MakeObject properties env)) heap.old (control_comp t control) heap.new) }
    ensures less { IfOk result (λ control. (w : Weights) → control_weight w control ≡ w properties) }
{
    let parent = Some(object_at(Place::ObjectPrototype));
    let object = heap.object(ObjectKind::Plain, parent)?;
    Ok(Control::Begin(Task::DefineAll {
        properties,
        env,
        object,
    }))
}

// Puts a property with this key into an object.
fn define_titled(
    alloc: Global,
    code: &Code,
    words: &Words,
    heap: &mut Heap,
    object: Object,
    key: Title,
    value: Value,
) -> Result<Control, Memory>
    ensures means { IfOk result (λ control. (p : Sources) →
        Turns (action_comp (view_of p code.now.nodes) (Action.Define object key value)) heap.old (control_comp (view_of p code.now.nodes) control) heap.new) }
    ensures less { IfOk result (λ control. (w : Weights) → control_weight w control < 2) }
{
    let key = text_of(alloc, code, words, key)?;
    define(heap, object, &key, value)
}

// Makes the function with its code at a place, of this name.
fn close_titled(
    alloc: Global,
    code: &Code,
    words: &Words,
    heap: &mut Heap,
    form: Form,
    function: usize,
    title: Title,
    env: Env,
) -> Result<Control, Memory>
    ensures after { OnOk result (heap_of heap.new
        ≡ closed (shape_of (form_code form (as_code (reader code.now.nodes function)))) (title_in code.now.nodes title) env.index (heap_of heap.old)) }
    ensures control { IfOk result (λ control. control ≡ Control.Give (Completion.Normal (object_of (next_object (heap_of heap.old))))) }
{
    let name = text_of(alloc, code, words, title)?;
    let object = close(alloc, code, heap, form, function, &name, env)?;
    Ok(give_object(object))
}

// Makes the error of a complaint and throws it.
fn throw(alloc: Global, heap: &mut Heap, complaint: Complaint) -> Result<Control, Memory>
    ensures after { OnOk result (heap_of heap.new ≡ error_made (error_of complaint) (Some (message_of complaint)) (heap_of heap.old)) }
    ensures control { IfOk result (λ control. control ≡ Control.Give (Completion.Throw (object_of (next_object (heap_of heap.old))))) }
{
    let error = make_complaint(alloc, heap, complaint)?;
    Ok(Control::Give(Completion::Throw(Value::Object(error))))
}

// A reference is deleted: a name may not be.
fn delete_reference(
    alloc: Global,
    code: &Code,
    words: &Words,
    heap: &mut Heap,
    reference: Reference,
) -> Result<Control, Memory>
    ensures means { IfOk result (λ control. (p : Sources) →
        Turns (action_comp (view_of p code.now.nodes) (Action.Delete reference)) heap.old (control_comp (view_of p code.now.nodes) control) heap.new) }
    ensures less { IfOk result (λ control. (w : Weights) → control_weight w control < 2) }
{
    match reference {
        Reference::Name(_) => Ok(Control::Give(Completion::Normal(Value::Primitive(
            Primitive::Boolean(false),
        )))),
        Reference::Member { base, key } => match key_value(alloc, code, words, key) {
            Ok(key) => {
                let control = delete(alloc, heap, &base, &key);
                drop(base);
                drop(key);
                control
            }
            Err(failed) => {
                drop(base);
                Err(failed)
            }
        },
    }
}

// What is done with the values of a list.
fn gathered(
    code: &Code,
    heap: &mut Heap,
    gathering: Gathering,
    values: Items<Value>,
) -> Result<Control, Memory>
    ensures means { IfOk result (λ control. (p : Sources) → IsCodeOf p code.now →
        Turns (action_comp (view_of p code.now.nodes) (Action.Gathered gathering values)) heap.old (control_comp (view_of p code.now.nodes) control) heap.new) }
    ensures less { IfOk result (λ control. (w : Weights) → control_weight w control < 2) }
{
    match gathering {
        Gathering::Call { callee, this } => Ok(call(heap, callee, this, values)),
        Gathering::Construct { maker } => Ok(construct(code, heap, maker, values)),
        Gathering::Array => {
            let array = heap.array_of(object_at(Place::ArrayPrototype), values)?;
            Ok(give_object(array))
        }
    }
}
