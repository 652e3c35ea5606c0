// What is done at once, without what waits: statements and assignments whose parts are operands.

ghost use Rattle.std.specs.Prelude.{◌≡◌, ◌<◌, ◌≤◌, ◌+◌, ℕ, List, Ok, None, IfOk, IfSome};
ghost use Rattle.js_heap.specs.Heap.{heap_of};
ghost use Rattle.js_meaning.specs.Effects.{handle};
ghost use Rattle.js_meaning.specs.Meaning as M;
ghost use Rattle.js_meaning.specs.Program.{Sources};
ghost use Rattle.js_machine.specs.private.Config.{View, view_of, control_comp, expr_at, expr_if, labels_of, reference_of, referred, stmt_at, stmts_at, task_comp};
ghost use Rattle.js_machine.specs.private.AtOnce.{done_comp};
ghost use Rattle.js_machine.specs.private.State.{Turns};
ghost use Rattle.js_machine.specs.private.Weight.{Weights, place_weight, referring_weight, task_weight, control_weight};

use crate::assignments::{assign, update, update_reference};
use crate::choices::{choose_expression, choose_one, choose_operand, choose_turn, return_operand};
use crate::copies::copy_reference;
use crate::data::{Action, Control, Task};
use crate::expressions::operator_of;
use crate::lists::{list_of, there};
use crate::names::Words;
use crate::operand_calls::call_of_operands;
use crate::operands::{LEVELS, operand};
use crate::parts::{Labels, Reference, Referring};
use crate::scope_actions::enter_block;
use crate::steps::undefined;
use items::Memory;
use js_code::{Code, ListKind, Node};
use js_heap::{Env, Heap};
use js_meaning::Completion;
use js_value::{Complaint, Kind, Value};
use std::alloc::Global;

/// What came of what was done at once.
#[derive(Drop)]
pub enum Done {
    /// A value.
    Gives(Value),
    /// An error that is to be made and thrown.
    Throws(Complaint),
    /// A refusal.
    Refuses(Kind),
}

/// Does what a task stands for, or the first of it, where that needs nothing that waits. Any other is left as it is: nothing was
/// done for it.
#[inline(never)]
pub fn at_once(
    alloc: Global,
    code: &Code,
    words: &Words,
    heap: &mut Heap,
    task: &Task,
) -> Result<Option<Control>, Memory>
    ensures turns { IfOk result (λ found. IfSome found (λ control. (p : Sources) →
        Turns (task_comp (view_of p code.now.nodes) task.now) heap.old (control_comp (view_of p code.now.nodes) control) heap.new)) }
    ensures less { IfOk result (λ found. IfSome found (λ control. control_weight place_weight control < task_weight place_weight task.now)) }
    ensures none { result ≡ Ok None → heap_of heap.new ≡ heap_of heap.old }
{
    match expression_of(code, task) {
        Some((place, env)) => evaluate_task(alloc, code, words, heap, place, env),
        None => other_task(alloc, code, words, heap, task),
    }
}

// The place of the expression whose value a task is to find.
fn expression_of(code: &Code, task: &Task) -> Option<(usize, Env)>
    ensures means { IfSome result (λ found. (p : Sources) →
        task_comp (view_of p code.now.nodes) task.now ≡ M.comp_expr p (expr_at (view_of p code.now.nodes) found.0) found.1.index) }
    ensures less { IfSome result (λ found. place_weight found.0 ≤ task_weight place_weight task.now) }
{
    match task {
        Task::Evaluate { place, env } => Some((*place, *env)),
        Task::EvaluateIf { place, env } => match there(code, *place) {
            Some(place) => Some((place, *env)),
            None => None,
        },
        _ => None,
    }
}

// Any other task.
fn other_task(
    alloc: Global,
    code: &Code,
    words: &Words,
    heap: &mut Heap,
    task: &Task,
) -> Result<Option<Control>, Memory>
    ensures turns { IfOk result (λ found. IfSome found (λ control. (p : Sources) →
        Turns (task_comp (view_of p code.now.nodes) task.now) heap.old (control_comp (view_of p code.now.nodes) control) heap.new)) }
    ensures less { IfOk result (λ found. IfSome found (λ control. control_weight place_weight control < task_weight place_weight task.now)) }
    ensures none { result ≡ Ok None → heap_of heap.new ≡ heap_of heap.old }
{
    match task {
        Task::EvaluateNamed { place, env, .. } => named_task(
            alloc, code, words, heap, *place, *env,
        ),
        Task::Execute { place, labels, env } => {
            execute_task(alloc, code, words, heap, *place, labels, *env)
        }
        Task::ExecuteAll { place, env } => first_task(alloc, code, words, heap, *place, *env),
        Task::Test {
            test,
            statement,
            labels,
            env,
        } => test_task(alloc, code, words, heap, *test, *statement, labels, *env),
        Task::Referred {
            next,
            env,
            reference,
        } => referred_task(alloc, code, words, heap, next, reference, *env),
        _ => Ok(None),
    }
}

// What is done with a reference that is there: a number that it is becomes one more or one less.
fn referred_task(
    alloc: Global,
    code: &Code,
    words: &Words,
    heap: &mut Heap,
    next: &Referring,
    reference: &Reference,
    env: Env,
) -> Result<Option<Control>, Memory>
    ensures turns { IfOk result (λ found. IfSome found (λ control. (p : Sources) →
        Turns (referred (view_of p code.now.nodes) next.now env.index (reference_of (view_of p code.now.nodes) reference.now)) heap.old (control_comp (view_of p code.now.nodes) control) heap.new)) }
    ensures less { IfOk result (λ found. IfSome found (λ control. (w : Weights) → control_weight w control < referring_weight w next.now)) }
    ensures none { result ≡ Ok None → heap_of heap.new ≡ heap_of heap.old }
{
    match next {
        Referring::Update { prefix, operator } => {
            let same = copy_reference(reference)?;
            match update_reference(alloc, code, words, heap, *prefix, *operator, same, env)? {
                Some(done) => Ok(Some(given(done))),
                None => Ok(None),
            }
        }
        _ => Ok(None),
    }
}

// An expression: a call of operands, a choice by one, or what needs no more than they do.
fn evaluate_task(
    alloc: Global,
    code: &Code,
    words: &Words,
    heap: &mut Heap,
    place: usize,
    env: Env,
) -> Result<Option<Control>, Memory>
    ensures turns { IfOk result (λ found. IfSome found (λ control. (p : Sources) →
        Turns (M.comp_expr p (expr_at (view_of p code.now.nodes) place) env.index) heap.old (control_comp (view_of p code.now.nodes) control) heap.new)) }
    ensures less { IfOk result (λ found. IfSome found (λ control. control_weight place_weight control < place_weight place)) }
    ensures none { result ≡ Ok None → heap_of heap.new ≡ heap_of heap.old }
{
    match code.node(place) {
        Node::Call {
            callee,
            arguments,
            ..
        } => call_of_operands(alloc, code, words, heap, *callee, *arguments, env),
        Node::Conditional {
            test,
            holds,
            fails,
            ..
        } => choose_expression(alloc, code, words, heap, *test, *holds, *fails, env),
        Node::Logical {
            operator,
            left,
            right,
            ..
        } => choose_operand(alloc, code, words, heap, *operator, *left, *right, env),
        _ => give(alloc, code, words, heap, place, env),
    }
}

// An expression that is an operand, or an assignment.
fn give(
    alloc: Global,
    code: &Code,
    words: &Words,
    heap: &mut Heap,
    place: usize,
    env: Env,
) -> Result<Option<Control>, Memory>
    ensures turns { IfOk result (λ found. IfSome found (λ control. (p : Sources) →
        Turns (M.comp_expr p (expr_at (view_of p code.now.nodes) place) env.index) heap.old (control_comp (view_of p code.now.nodes) control) heap.new)) }
    ensures less { IfOk result (λ found. IfSome found (λ control. (w : Weights) → control_weight w control < 2)) }
    ensures none { result ≡ Ok None → heap_of heap.new ≡ heap_of heap.old }
{
    match evaluate(alloc, code, words, heap, place, env)? {
        Some(done) => Ok(Some(given(done))),
        None => Ok(None),
    }
}

// What came of it is given.
fn given(done: Done) -> Control
    ensures means { (t : View) → control_comp t result ≡ done_comp done }
    ensures less { (w : Weights) → control_weight w result < 2 }
{
    match done {
        Done::Gives(value) => Control::Give(Completion::Normal(value)),
        Done::Throws(complaint) => Control::Do(Action::Throw(complaint)),
        Done::Refuses(kind) => Control::Refuse(kind),
    }
}

// An expression where a name is given to it, which changes nothing in an operand.
fn named_task(
    alloc: Global,
    code: &Code,
    words: &Words,
    heap: &Heap,
    place: usize,
    env: Env,
) -> Result<Option<Control>, Memory>
    ensures turns { IfOk result (λ found. IfSome found (λ control. (p : Sources) (name : List ℕ) →
        Turns (M.named name (expr_at (view_of p code.now.nodes) place) env.index (M.comp_expr p (expr_at (view_of p code.now.nodes) place) env.index)) heap.now
        (control_comp (view_of p code.now.nodes) control) heap.now)) }
    ensures less { IfOk result (λ found. IfSome found (λ control. (w : Weights) → control_weight w control < 2)) }
{
    match operand(alloc, code, words, heap, place, env, LEVELS)? {
        Some(value) => Ok(Some(Control::Give(Completion::Normal(value)))),
        None => Ok(None),
    }
}

// A statement: a block, what an operand chooses, or an expression.
fn execute_task(
    alloc: Global,
    code: &Code,
    words: &Words,
    heap: &mut Heap,
    place: usize,
    labels: &Labels,
    env: Env,
) -> Result<Option<Control>, Memory>
    ensures turns { IfOk result (λ found. IfSome found (λ control. (p : Sources) →
        Turns (M.comp_stmt p (stmt_at (view_of p code.now.nodes) place) (labels_of (view_of p code.now.nodes) labels.now) env.index) heap.old (control_comp (view_of p code.now.nodes) control) heap.new)) }
    ensures less { IfOk result (λ found. IfSome found (λ control. control_weight place_weight control < place_weight place)) }
    ensures none { result ≡ Ok None → heap_of heap.new ≡ heap_of heap.old }
{
    match code.node(place) {
        Node::Block { statements, .. } => {
            Ok(Some(enter_block(alloc, code, heap, *statements, env)?))
        }
        Node::If {
            test,
            holds,
            fails,
            ..
        } => choose_one(alloc, code, words, heap, *test, *holds, *fails, env),
        Node::While { test, .. } => choose_turn(
            alloc, code, words, heap, *test, place, labels, env,
        ),
        Node::Return { value, .. } => return_task(alloc, code, words, heap, *value, env),
        _ => execute_expression(alloc, code, words, heap, place, env),
    }
}

// What a function returns.
fn return_task(
    alloc: Global,
    code: &Code,
    words: &Words,
    heap: &Heap,
    value: usize,
    env: Env,
) -> Result<Option<Control>, Memory>
    ensures turns { IfOk result (λ found. IfSome found (λ control. (p : Sources) →
        Turns (M.returned p (expr_if (view_of p code.now.nodes) value) env.index) heap.now (control_comp (view_of p code.now.nodes) control) heap.now)) }
    ensures less { IfOk result (λ found. IfSome found (λ control. (w : Weights) → control_weight w control ≡ 0)) }
{
    match there(code, value) {
        Some(value) => return_operand(alloc, code, words, heap, value, env),
        None => Ok(None),
    }
}

// The test of a loop, before a turn.
fn test_task(
    alloc: Global,
    code: &Code,
    words: &Words,
    heap: &Heap,
    test: usize,
    statement: usize,
    labels: &Labels,
    env: Env,
) -> Result<Option<Control>, Memory>
    ensures turns { IfOk result (λ found. IfSome found (λ control. (p : Sources) →
        Turns (M.turn_if p (expr_if (view_of p code.now.nodes) test) (stmt_at (view_of p code.now.nodes) statement) (labels_of (view_of p code.now.nodes) labels.now) env.index) heap.now
        (control_comp (view_of p code.now.nodes) control) heap.now)) }
    ensures less { IfOk result (λ found. IfSome found (λ control. (w : Weights) → control_weight w control ≡ 0)) }
{
    match there(code, test) {
        Some(test) => choose_turn(alloc, code, words, heap, test, statement, labels, env),
        None => Ok(None),
    }
}

// A statement that is an expression.
fn execute_expression(
    alloc: Global,
    code: &Code,
    words: &Words,
    heap: &mut Heap,
    place: usize,
    env: Env,
) -> Result<Option<Control>, Memory>
    ensures turns { IfOk result (λ found. IfSome found (λ control. (p : Sources) (labels : List (List ℕ)) →
        Turns (M.comp_stmt p (stmt_at (view_of p code.now.nodes) place) labels env.index) heap.old (control_comp (view_of p code.now.nodes) control) heap.new)) }
    ensures less { IfOk result (λ found. IfSome found (λ control. (w : Weights) → control_weight w control < 2)) }
    ensures none { result ≡ Ok None → heap_of heap.new ≡ heap_of heap.old }
{
    match execute(alloc, code, words, heap, place, env)? {
        Some(done) => Ok(Some(before(done, undefined()))),
        None => Ok(None),
    }
}

// After what was done comes what is next, where it gave a value.
fn before(done: Done, next: Control) -> Control
    ensures means { (t : View) → control_comp t result ≡ handle (done_comp done) (M.with_value (λ value. control_comp t next)) }
    ensures less { (w : Weights) → control_weight w result ≤ 1 + control_weight w next }
{
    match done {
        Done::Gives(value) => {
            drop(value);
            next
        }
        Done::Throws(complaint) => {
            drop(next);
            Control::Do(Action::Throw(complaint))
        }
        Done::Refuses(kind) => {
            drop(next);
            Control::Refuse(kind)
        }
    }
}

// The first of a list of statements; the others are next.
fn first_task(
    alloc: Global,
    code: &Code,
    words: &Words,
    heap: &mut Heap,
    place: usize,
    env: Env,
) -> Result<Option<Control>, Memory>
    ensures turns { IfOk result (λ found. IfSome found (λ control. (p : Sources) →
        Turns (M.comp_stmts p (stmts_at (view_of p code.now.nodes) place) env.index) heap.old (control_comp (view_of p code.now.nodes) control) heap.new)) }
    ensures less { IfOk result (λ found. IfSome found (λ control. control_weight place_weight control < place_weight place)) }
    ensures none { result ≡ Ok None → heap_of heap.new ≡ heap_of heap.old }
{
    match list_of(code.node(place), ListKind::Stmts) {
        Some((first, rest)) => match execute(alloc, code, words, heap, first, env)? {
            Some(done) => Ok(Some(before(
                done,
                Control::Begin(Task::ExecuteAll { place: rest, env }),
            ))),
            None => Ok(None),
        },
        None => Ok(None),
    }
}

// A statement that is an expression.
fn execute(
    alloc: Global,
    code: &Code,
    words: &Words,
    heap: &mut Heap,
    place: usize,
    env: Env,
) -> Result<Option<Done>, Memory>
    ensures turns { IfOk result (λ found. IfSome found (λ done. (p : Sources) (labels : List (List ℕ)) →
        Turns (M.comp_stmt p (stmt_at (view_of p code.now.nodes) place) labels env.index) heap.old (handle (done_comp done) (M.with_value (λ value. M.done))) heap.new)) }
    ensures none { result ≡ Ok None → heap_of heap.new ≡ heap_of heap.old }
{
    match code.node(place) {
        Node::Expression { expression, .. } => evaluate(alloc, code, words, heap, *expression, env),
        _ => Ok(None),
    }
}

/// Does an expression: an assignment of operands, or one that is an operand.
pub fn evaluate(
    alloc: Global,
    code: &Code,
    words: &Words,
    heap: &mut Heap,
    place: usize,
    env: Env,
) -> Result<Option<Done>, Memory>
    ensures turns { IfOk result (λ found. IfSome found (λ done. (p : Sources) →
        Turns (M.comp_expr p (expr_at (view_of p code.now.nodes) place) env.index) heap.old (done_comp done) heap.new)) }
    ensures none { result ≡ Ok None → heap_of heap.new ≡ heap_of heap.old }
{
    match code.node(place) {
        Node::Assignment {
            operator,
            target,
            value,
            ..
        } => assign(
            alloc,
            code,
            words,
            heap,
            operator_of(*operator),
            *target,
            *value,
            env,
        ),
        Node::PostfixUpdate {
            operator,
            target,
            ..
        } => { update(alloc, code, words, heap, false, *operator, *target, env) }
        Node::PrefixUpdate {
            operator,
            target,
            ..
        } => { update(alloc, code, words, heap, true, *operator, *target, env) }
        _ => give_operand(alloc, code, words, heap, place, env),
    }
}

// The value of an operand.
fn give_operand(
    alloc: Global,
    code: &Code,
    words: &Words,
    heap: &Heap,
    place: usize,
    env: Env,
) -> Result<Option<Done>, Memory>
    ensures { IfOk result (λ found. IfSome found (λ done. (p : Sources) →
        Turns (M.comp_expr p (expr_at (view_of p code.now.nodes) place) env.index) heap.now (done_comp done) heap.now)) }
{
    match operand(alloc, code, words, heap, place, env, LEVELS)? {
        Some(value) => Ok(Some(Done::Gives(value))),
        None => Ok(None),
    }
}
