// References: what an expression is that can be read and assigned to, and what is done with it.

ghost use Rattle.std.specs.Prelude.{◌≡◌, ◌<◌, ◌+◌, ◌*◌, None, Option, IfOk};
ghost use Rattle.js_terms.specs.declared.place.Loc.{Loc};
ghost use Rattle.js_tree.specs.Plain.{FunctionExpression};
ghost use Rattle.js_terms.specs.declared.operators.UnaryOperator.TheVariants as unary_operator;
ghost use Rattle.js_code.specs.Node.{build, function_of};
ghost use Rattle.js_code.specs.Part.{as_code, as_expr};
ghost use Rattle.js_meaning.specs.Effects.{handle};
ghost use Rattle.js_meaning.specs.Meaning as M;
ghost use Rattle.js_machine.specs.private.Config.{View, name_of, control_comp, reference_of, referred, otherwise, units_of, expr_at};
ghost use Rattle.js_machine.specs.private.Weight.{Weights, node_weight, referring_weight, control_weight};
ghost use Rattle.js_machine.specs.private.Frames.{ComesTo, Lighter};

use crate::copies::copy_reference;
use crate::data::{Action, Control, Frame, Pending, Task};
use crate::frames::with_frame;
use crate::parts::{Form, Reference, Referring, Title};
use items::Memory;
use js_code::{Node, SharedIdentifier};
use js_heap::Env;
use js_tree::{BinaryOperator, UnaryOperator};
use js_value::{Complaint, Primitive, Value};

/// The expression at a place begins, for the reference that it is.
#[inline(never)]
pub fn begin_reference(
    frames: &mut Vec<Frame>,
    node: &Node,
    place: usize,
    env: Env,
    next: Referring,
) -> Result<Control, Memory>
    ensures means { IfOk result (λ control. (t : View) → t.name place ≡ name_of node.now → t.tree place ≡ build t.tree node.now →
        ComesTo t frames.old.items (M.comp_reference t.program (as_expr (build t.tree node.now)) env.index (otherwise t next (as_expr (build t.tree node.now)) env.index) (referred t next env.index)) frames.new.items control) }
    ensures less { IfOk result (λ control. (w : Weights) → Lighter w frames.old.items (w place + node_weight w node.now + referring_weight w next) frames.new.items control) }
{
    match node {
        Node::IdentifierReference { .. } => Ok(Control::Begin(Task::Referred {
            next,
            env,
            reference: Reference::Name(place),
        })),
        Node::NamedMember { object, .. } => with_frame(
            frames,
            Frame::Value(Pending::ReferNamed {
                name: place,
                env,
                next,
            }),
            Control::Begin(Task::Evaluate {
                place: *object,
                env,
            }),
        ),
        Node::ComputedMember { object, key, .. } => with_frame(
            frames,
            Frame::Value(Pending::ReferObject {
                key: *key,
                env,
                next,
            }),
            Control::Begin(Task::Evaluate {
                place: *object,
                env,
            }),
        ),
        Node::Parenthesized { inner, .. } => Ok(Control::Begin(Task::Refer {
            place: *inner,
            env,
            next,
        })),
        _ => no_reference(frames, next, place, env),
    }
}

// Where an expression is no reference.
fn no_reference(
    frames: &mut Vec<Frame>,
    next: Referring,
    place: usize,
    env: Env,
) -> Result<Control, Memory>
    ensures means { IfOk result (λ control. (t : View) → ComesTo t frames.old.items (otherwise t next (expr_at t place) env.index) frames.new.items control) }
    ensures less { IfOk result (λ control. (w : Weights) → Lighter w frames.old.items (w place + referring_weight w next) frames.new.items control) }
{
    match next {
        Referring::Call { arguments } => with_frame(
            frames,
            Frame::Value(Pending::Callee {
                arguments,
                env,
                this: Value::Primitive(Primitive::Undefined),
            }),
            Control::Begin(Task::Evaluate { place, env }),
        ),
        Referring::Delete => with_frame(
            frames,
            Frame::Value(Pending::Operand {
                operator: UnaryOperator::Delete,
            }),
            Control::Begin(Task::Evaluate { place, env }),
        ),
        Referring::Update { .. } => Ok(not_assignable()),
        Referring::Assign { .. } => Ok(not_assignable()),
        Referring::Take { .. } => Ok(not_assignable()),
    }
}

// The error that nothing can be assigned to what is no reference.
fn not_assignable() -> Control
    ensures { result ≡ Control.Do (Action.Throw Complaint.NotAssignable) }
{
    Control::Do(Action::Throw(Complaint::NotAssignable))
}

/// A reference is there.
#[inline(never)]
pub fn begin_referred(
    frames: &mut Vec<Frame>,
    next: Referring,
    env: Env,
    reference: Reference,
) -> Result<Control, Memory>
    ensures means { IfOk result (λ control. (t : View) → ComesTo t frames.old.items (referred t next env.index (reference_of t reference)) frames.new.items control) }
    ensures less { IfOk result (λ control. (w : Weights) → Lighter w frames.old.items (referring_weight w next) frames.new.items control) }
{
    match next {
        Referring::Call { arguments } => call_reference(frames, arguments, env, reference),
        Referring::Update { prefix, operator } => {
            match copy_reference(&reference) {
                Ok(same) => with_frame(
                    frames,
                    Frame::Value(Pending::Update {
                        prefix,
                        operator,
                        reference: same,
                        env,
                    }),
                    get(reference, env),
                ),
                Err(failed) => {
                    drop(reference);
                    Err(failed)
                }
            }
        }
        Referring::Delete => Ok(Control::Do(Action::Delete(reference))),
        Referring::Assign { operator, value } => assign(frames, operator, value, env, reference),
        Referring::Take { value, round, rest } => with_frame(
            frames,
            Frame::Value(Pending::Taken {
                round,
                inner: env,
                rest,
            }),
            put(reference, env, value.into_inner()),
        ),
    }
}

// A reference is read for a call, whose `this` is the object of a member.
fn call_reference(
    frames: &mut Vec<Frame>,
    arguments: usize,
    env: Env,
    reference: Reference,
) -> Result<Control, Memory>
    ensures means { IfOk result (λ control. (t : View) → ComesTo t frames.old.items (referred t (Referring.Call arguments) env.index (reference_of t reference)) frames.new.items control) }
    ensures less { IfOk result (λ control. (w : Weights) → Lighter w frames.old.items (w arguments + 5) frames.new.items control) }
{
    match reference {
        Reference::Name(name) => with_frame(
            frames,
            Frame::Value(Pending::Callee {
                arguments,
                env,
                this: Value::Primitive(Primitive::Undefined),
            }),
            Control::Do(Action::Read { name, env }),
        ),
        Reference::Member { base, key } => {
            match base.copy() {
                Ok(this) => with_frame(
                    frames,
                    Frame::Value(Pending::Callee {
                        arguments,
                        env,
                        this,
                    }),
                    Control::Do(Action::GetMember { base, key }),
                ),
                Err(failed) => {
                    drop(base);
                    drop(key);
                    Err(failed)
                }
            }
        }
    }
}

// An assignment: by an operator the old value is read first.
fn assign(
    frames: &mut Vec<Frame>,
    operator: Option<BinaryOperator>,
    value: usize,
    env: Env,
    reference: Reference,
) -> Result<Control, Memory>
    ensures means { IfOk result (λ control. (t : View) → ComesTo t frames.old.items (referred t (Referring.Assign operator value) env.index (reference_of t reference)) frames.new.items control) }
    ensures less { IfOk result (λ control. (w : Weights) → Lighter w frames.old.items (2 * w value + 10) frames.new.items control) }
{
    match operator {
        None => assign_plainly(frames, value, env, reference),
        Some(operator) => {
            match copy_reference(&reference) {
                Ok(same) => with_frame(
                    frames,
                    Frame::Value(Pending::Old {
                        operator,
                        value,
                        reference: same,
                        env,
                    }),
                    get(reference, env),
                ),
                Err(failed) => {
                    drop(reference);
                    Err(failed)
                }
            }
        }
    }
}

// An assignment without an operator: a name names its value.
fn assign_plainly(
    frames: &mut Vec<Frame>,
    value: usize,
    env: Env,
    reference: Reference,
) -> Result<Control, Memory>
    ensures means { IfOk result (λ control. (t : View) → ComesTo t frames.old.items (referred t (Referring.Assign None value) env.index (reference_of t reference)) frames.new.items control) }
    ensures less { IfOk result (λ control. (w : Weights) → Lighter w frames.old.items (2 * w value + 10) frames.new.items control) }
{
    match reference {
        Reference::Name(name) => with_frame(
            frames,
            Frame::Value(Pending::Put {
                reference: Reference::Name(name),
                env,
            }),
            Control::Begin(Task::EvaluateNamed {
                title: Title::Name(name),
                place: value,
                env,
            }),
        ),
        Reference::Member { base, key } => with_frame(
            frames,
            Frame::Value(Pending::Put {
                reference: Reference::Member { base, key },
                env,
            }),
            Control::Begin(Task::Evaluate { place: value, env }),
        ),
    }
}

/// The value of a reference.
#[inline(never)]
pub fn get(reference: Reference, env: Env) -> Control
    ensures means { (t : View) → control_comp t result ≡ M.get_value env.index (reference_of t reference) }
    ensures less { (w : Weights) → control_weight w result ≡ 2 }
{
    match reference {
        Reference::Name(name) => Control::Do(Action::Read { name, env }),
        Reference::Member { base, key } => Control::Do(Action::GetMember { base, key }),
    }
}

/// A value for a reference.
#[inline(never)]
pub fn put(reference: Reference, env: Env, value: Value) -> Control
    ensures means { (t : View) → control_comp t result ≡ M.put_value env.index (reference_of t reference) value }
    ensures less { (w : Weights) → control_weight w result ≡ 2 }
{
    match reference {
        Reference::Name(name) => Control::Do(Action::Write { name, env, value }),
        Reference::Member { base, key } => Control::Do(Action::PutMember { base, key, value }),
    }
}

/// The expression at a place begins, where a name is given to it.
#[inline(never)]
pub fn begin_named(node: &Node, title: Title, place: usize, env: Env) -> Control
    ensures means { (t : View) → t.tree place ≡ build t.tree node.now →
        control_comp t result ≡ M.named (units_of t title) (as_expr (build t.tree node.now)) env.index (M.comp_expr t.program (as_expr (build t.tree node.now)) env.index) }
    ensures less { (w : Weights) → control_weight w result < w place + node_weight w node.now }
{
    match node {
        Node::FunctionExpression { name, function, .. } => {
            begin_function_named(name, *function, title, place, env)
        }
        Node::ArrowFunction { function, .. } => Control::Do(Action::Close {
            form: Form::Arrow,
            function: *function,
            title,
            env,
        }),
        Node::Parenthesized { inner, .. } => Control::Begin(Task::EvaluateNamed {
            title,
            place: *inner,
            env,
        }),
        _ => {
            drop(title);
            Control::Begin(Task::Evaluate { place, env })
        }
    }
}

// A function gets the name where it has none of its own.
fn begin_function_named(
    own: &Option<SharedIdentifier>,
    function: usize,
    title: Title,
    place: usize,
    env: Env,
) -> Control
    ensures means { (t : View) (loc : Option Loc) → expr_at t place ≡ FunctionExpression loc own.now (function_of (as_code (t.tree function))) →
        control_comp t result ≡ M.named (units_of t title) (FunctionExpression loc own.now (function_of (as_code (t.tree function)))) env.index
        (M.comp_expr t.program (FunctionExpression loc own.now (function_of (as_code (t.tree function)))) env.index) }
    ensures less { (w : Weights) → control_weight w result < w place + 8 }
{
    match own {
        None => Control::Do(Action::Close {
            form: Form::Ordinary,
            function,
            title,
            env,
        }),
        Some(_) => {
            drop(title);
            Control::Begin(Task::Evaluate { place, env })
        }
    }
}

/// The expression at a place begins, for its type: it may be a name that is not there.
#[inline(never)]
pub fn begin_type_of(
    frames: &mut Vec<Frame>,
    node: &Node,
    place: usize,
    env: Env,
) -> Result<Control, Memory>
    ensures means { IfOk result (λ control. (t : View) → t.name place ≡ name_of node.now → t.tree place ≡ build t.tree node.now →
        ComesTo t frames.old.items (M.if_there (M.name_of (as_expr (build t.tree node.now))) env.index
        (handle (M.comp_expr t.program (as_expr (build t.tree node.now)) env.index) (M.with_value (M.operated_unary unary_operator.TypeOf)))) frames.new.items control) }
    ensures less { IfOk result (λ control. (w : Weights) → Lighter w frames.old.items (w place + node_weight w node.now + 4) frames.new.items control) }
{
    match node {
        Node::IdentifierReference { .. } => {
            Ok(Control::Do(Action::TypeOfName { name: place, env }))
        }
        Node::Parenthesized { inner, .. } => Ok(Control::Begin(Task::TypeOf {
            place: *inner,
            env,
        })),
        _ => with_frame(
            frames,
            Frame::Value(Pending::Operand {
                operator: UnaryOperator::TypeOf,
            }),
            Control::Begin(Task::Evaluate { place, env }),
        ),
    }
}
