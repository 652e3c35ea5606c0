// Calls and constructions.

ghost use Rattle.std.specs.Prelude.{◌≡◌, ◌<◌};
ghost use Rattle.js_tree.specs.Codes.{is_constructor as is_constructor_code};
ghost use Rattle.js_value.specs.Objects.{kind_of};
ghost use Rattle.js_value.specs.State.{BuiltIn, Written};
ghost use Rattle.js_heap.specs.Heap.{heap_of};
ghost use Rattle.js_code.specs.Code.{reader};
ghost use Rattle.js_code.specs.Part.{as_code};
ghost use Rattle.js_code.specs.Program.{IsCodeOf};
ghost use Rattle.js_meaning.specs.Meaning as M;
ghost use Rattle.js_meaning.specs.Program as program;
ghost use Rattle.js_meaning.specs.Program.{Sources};
ghost use Rattle.js_machine.specs.private.Config.{View, called_in, constructed_in, control_comp, view_of};
ghost use Rattle.js_machine.specs.private.Weight.{Weights, control_weight};

use crate::built_ins::constructs;
use crate::data::{Action, Control, Entry};
use items::Items;
use js_code::{Code, Node};
use js_heap::{Env, Heap, ObjectKind};
use js_value::{Complaint, Object, Primitive, Value};

/// A call: a step is asked for once the callee is found callable.
#[inline(never)]
pub fn call(heap: &Heap, callee: Value, this: Value, arguments: Items<Value>) -> Control
    ensures means { (t : View) → control_comp t result ≡ called_in (heap_of heap.now) callee this arguments }
    ensures less { (w : Weights) → control_weight w result < 2 }
{
    match callee {
        Value::Object(callee) => call_object(heap, callee, this, arguments),
        Value::Primitive(value) => {
            drop(value);
            not_a_function(this, arguments)
        }
    }
}

// A call of an object.
fn call_object(heap: &Heap, callee: Object, this: Value, arguments: Items<Value>) -> Control
    ensures means { (t : View) → control_comp t result ≡ M.call_kind (kind_of (heap_of heap.now) callee.index) callee.index this arguments }
    ensures less { (w : Weights) → control_weight w result < 2 }
{
    match heap.kind(callee) {
        ObjectKind::BuiltIn(function) => Control::Enter(Entry::CallBuiltIn {
            callee,
            function: *function,
            maker: None,
            this,
            arguments,
        }),
        ObjectKind::Written(code, environment) => Control::Enter(Entry::Call {
            code: *code,
            environment: *environment,
            this,
            arguments,
        }),
        ObjectKind::Plain => not_a_function(this, arguments),
        ObjectKind::Array => not_a_function(this, arguments),
        ObjectKind::Error => not_a_function(this, arguments),
        ObjectKind::RegExp => not_a_function(this, arguments),
    }
}

/// The error that what is called is no function, in place of a call.
pub fn not_a_function(this: Value, arguments: Items<Value>) -> Control
    ensures { result ≡ Control.Do (Action.Throw Complaint.NotAFunction) }
{
    drop(this);
    drop(arguments);
    Control::Do(Action::Throw(Complaint::NotAFunction))
}

/// A construction: a step is asked for once the maker is found to be a constructor.
#[inline(never)]
pub fn construct(code: &Code, heap: &Heap, maker: Value, arguments: Items<Value>) -> Control
    ensures means { (p : Sources) → IsCodeOf p code.now →
        control_comp (view_of p code.now.nodes) result ≡ constructed_in p (heap_of heap.now) maker arguments }
    ensures less { (w : Weights) → control_weight w result < 2 }
{
    match maker {
        Value::Object(maker) => construct_object(code, heap, maker, arguments),
        Value::Primitive(value) => {
            drop(value);
            not_a_constructor(arguments)
        }
    }
}

// A construction by an object.
fn construct_object(code: &Code, heap: &Heap, maker: Object, arguments: Items<Value>) -> Control
    ensures means { (p : Sources) → IsCodeOf p code.now →
        control_comp (view_of p code.now.nodes) result ≡ M.construct_kind p (kind_of (heap_of heap.now) maker.index) maker.index arguments }
    ensures less { (w : Weights) → control_weight w result < 2 }
{
    match heap.kind(maker) {
        ObjectKind::BuiltIn(function) => construct_built_in(maker, *function, arguments),
        ObjectKind::Written(number, environment) => {
            construct_written(code, maker, *number, *environment, arguments)
        }
        ObjectKind::Plain => not_a_constructor(arguments),
        ObjectKind::Array => not_a_constructor(arguments),
        ObjectKind::Error => not_a_constructor(arguments),
        ObjectKind::RegExp => not_a_constructor(arguments),
    }
}

// The error that what is called by `new` is no constructor, in place of a construction.
fn not_a_constructor(arguments: Items<Value>) -> Control
    ensures { result ≡ Control.Do (Action.Throw Complaint.NotAConstructor) }
{
    drop(arguments);
    Control::Do(Action::Throw(Complaint::NotAConstructor))
}

// A construction by a built-in function.
fn construct_built_in(maker: Object, function: u32, arguments: Items<Value>) -> Control
    ensures means { (t : View) → control_comp t result ≡ M.construct_kind t.program (BuiltIn function) maker.index arguments }
    ensures less { (w : Weights) → control_weight w result < 2 }
{
    if constructs(function) {
        Control::Enter(Entry::CallBuiltIn {
            callee: maker,
            function,
            maker: Some(maker),
            this: Value::Primitive(Primitive::Undefined),
            arguments,
        })
    } else {
        not_a_constructor(arguments)
    }
}

// A construction by a function of the program.
fn construct_written(
    code: &Code,
    maker: Object,
    number: u64,
    environment: Env,
    arguments: Items<Value>,
) -> Control
    ensures means { (p : Sources) → IsCodeOf p code.now →
        control_comp (view_of p code.now.nodes) result ≡ M.construct_kind p (Written number environment.index) maker.index arguments }
    ensures less { (w : Weights) → control_weight w result < 2 }
{
    if is_constructor(code, number) {
        Control::Enter(Entry::New {
            maker,
            code: number,
            environment,
            arguments,
        })
    } else {
        not_a_constructor(arguments)
    }
}

// Whether `new` may call the function with a number.
fn is_constructor(code: &Code, number: u64) -> bool
    ensures { (p : Sources) → IsCodeOf p code.now → result ≡ program.constructs p number }
{
    match code.function(number) {
        Some(place) => constructs_at(code, place),
        None => false,
    }
}

// Whether `new` may call the function with its code at a place.
fn constructs_at(code: &Code, place: usize) -> bool
    ensures { result ≡ is_constructor_code (as_code (reader code.now.nodes place)) }
{
    match code.node(place) {
        Node::Function { is_method, .. } => !*is_method,
        Node::ArrowExpression { .. } => false,
        Node::ArrowBlock { .. } => false,
        _ => true,
    }
}
