// The parts of the code begin, each by the node at its place.

ghost use Rattle.std.specs.Prelude.{◌≡◌, ◌<◌, ◌≤◌, ◌+◌, ◌*◌, IfOk};
ghost use Rattle.js_meaning.specs.Meaning.{comp_expr_if, comp_stmt_if};
ghost use Rattle.js_meaning.specs.Program.{Sources};
ghost use Rattle.js_machine.specs.private.Config.{View, view_of, expr_or, stmt_or, task_comp, control_comp};
ghost use Rattle.js_machine.specs.private.Weight.{Weights, clause_weight, place_weight, task_weight, control_weight};
ghost use Rattle.js_machine.specs.private.Frames.{ComesTo, Lighter};

use crate::clauses::{
    begin_clause, begin_clauses, begin_default, begin_default_case, begin_select, begin_select_case,
};
use crate::data::{Action, Control, Frame, Task};
use crate::expressions::begin_expression;
use crate::frames::with_frame;
use crate::functions::{begin_body, begin_param, begin_parameters, begin_params};
use crate::lists::{list_of, there};
use crate::literals::{
    begin_key, begin_keyed, begin_list, begin_properties, begin_property, begin_template,
    begin_template_part,
};
use crate::loops::{begin_again, begin_take, begin_test, begin_within};
use crate::names::{Words, is_name, stands_in};
use crate::operators::joined;
use crate::parts::{Labels, Loop};
use crate::references::{begin_named, begin_reference, begin_referred, begin_type_of};
use crate::statements::{
    begin_catch, begin_declarator, begin_declarators, begin_init, begin_statement,
    begin_statements, begin_try,
};
use crate::steps::{NOWHERE, undefined};
use items::{Boxed, Items, Memory};
use js_code::{Code, ListKind, Node};
use js_heap::Env;
use js_host::Iteration;
use js_meaning::Completion;
use js_tree::{Name, VariableKind};
use js_value::{Str, Value};
use std::alloc::Global;

/// A part of the code begins.
pub fn begin(
    alloc: Global,
    code: &Code,
    words: &Words,
    frames: &mut Vec<Frame>,
    task: Task,
) -> Result<Control, Memory>
    ensures means { IfOk result (λ control. (p : Sources) → ComesTo (view_of p code.now.nodes) frames.old.items (task_comp (view_of p code.now.nodes) task) frames.new.items control) }
    ensures less { IfOk result (λ control. Lighter place_weight frames.old.items (task_weight place_weight task) frames.new.items control) }
{
    match task {
        Task::Evaluate { place, env } => begin_expression(
            alloc,
            frames,
            code.node(place),
            place,
            env,
        ),
        Task::EvaluateNamed { title, place, env } => {
            Ok(begin_named(code.node(place), title, place, env))
        }
        Task::EvaluateIf { place, env } => Ok(evaluate_if(there(code, place), env)),
        Task::TypeOf { place, env } => begin_type_of(frames, code.node(place), place, env),
        Task::Refer { place, env, next } => begin_reference(
            frames,
            code.node(place),
            place,
            env,
            next,
        ),
        Task::Referred {
            next,
            env,
            reference,
        } => begin_referred(frames, next, env, reference),
        Task::Gather {
            place,
            env,
            values,
            gathering,
        } => begin_list(frames, code.node(place), env, values, gathering),
        Task::Template { parts, env, units } => Ok(begin_template(code.node(parts), env, units)),
        Task::TemplatePart {
            part,
            rest,
            env,
            units,
        } => begin_template_part(frames, code.node(part), part, rest, env, units),
        Task::TemplateText {
            part,
            rest,
            env,
            units,
        } => template_text(alloc, code, part, rest, env, units),
        Task::DefineAll {
            properties,
            env,
            object,
        } => begin_properties(frames, code.node(properties), env, object),
        Task::DefineOne {
            property,
            env,
            object,
        } => begin_property(frames, code.node(property), property, env, object),
        Task::Key { key, env, next } => begin_key(alloc, frames, code.node(key), key, env, next),
        Task::Keyed { next, env, key } => begin_keyed(frames, next, env, key),
        Task::Declare {
            kind,
            declarators,
            env,
        } => begin_declarators(frames, code.node(declarators), kind, env),
        Task::DeclareOne {
            kind,
            declarator,
            env,
        } => declare(code, frames, kind, declarator, env),
        Task::Execute { place, labels, env } => {
            begin_statement(alloc, frames, code.node(place), place, labels, env)
        }
        Task::ExecuteIf { place, env } => Ok(execute_if(alloc, there(code, place), env)),
        Task::ExecuteAll { place, env } => execute_all(alloc, code, frames, place, env),
        Task::Try { block, catch, env } => begin_try(frames, block, catch, env),
        Task::Select {
            cases,
            all,
            value,
            env,
        } => Ok(begin_select(code.node(cases), all, value, env)),
        Task::SelectCase {
            case,
            rest,
            all,
            value,
            env,
        } => select_case(code, frames, case, rest, all, value, env),
        Task::Default { cases, env } => Ok(begin_default(code.node(cases), env)),
        Task::DefaultCase { case, rest, env } => default_case(code, frames, case, rest, env),
        Task::Fall { cases, env } => begin_clauses(frames, code.node(cases), env),
        Task::ExecuteCase { case, env } => Ok(begin_clause(code.node(case), env)),
        Task::Catch { catch, value, env } => Ok(begin_catch(code.node(catch), catch, value, env)),
        Task::Start { init, env } => Ok(begin_init(code.node(init), env)),
        Task::Test {
            test,
            statement,
            labels,
            env,
        } => begin_test(frames, there(code, test), statement, labels, env),
        Task::Again {
            statement,
            labels,
            env,
        } => begin_again(frames, code.node(statement), statement, labels, env),
        Task::Continued {
            label,
            statement,
            labels,
            env,
        } => Ok(continued(code, words, label, statement, labels, env)),
        Task::ContinuedPass { label, round, rest } => {
            Ok(continued_pass(code, words, label, round, rest))
        }
        Task::Broken { label, broken } => Ok(broken_at(code, words, label, broken)),
        Task::Take { round, value, rest } => {
            let target = round.get().target;
            begin_take(alloc, code.node(target), round, value, rest)
        }
        Task::BindAll {
            function,
            arguments,
            env,
        } => begin_parameters(frames, code.node(function), function, arguments, env),
        Task::Bind {
            params,
            arguments,
            next,
            env,
        } => Ok(begin_params(code.node(params), arguments, next, env)),
        Task::BindParam {
            param,
            rest,
            arguments,
            next,
            env,
        } => bind_param(code, frames, param, rest, arguments, next, env),
        Task::Run { function, env } => begin_body(frames, code.node(function), env),
        Task::RunFile { statements, env } => with_frame(
            frames,
            Frame::AfterCall,
            Control::Begin(Task::ExecuteAll {
                place: statements,
                env,
            }),
        ),
        Task::Within { next, env } => begin_within(frames, next, env),
    }
}

// An expression, if it is there.
fn evaluate_if(place: Option<usize>, env: Env) -> Control
    ensures means { (t : View) → control_comp t result ≡ comp_expr_if t.program (expr_or t place) env.index }
    ensures less { (w : Weights) → control_weight w result ≤ clause_weight w place }
{
    match place {
        None => undefined(),
        Some(place) => Control::Begin(Task::Evaluate { place, env }),
    }
}

// A statement, if it is there.
fn execute_if(alloc: Global, place: Option<usize>, env: Env) -> Control
    ensures means { (t : View) → control_comp t result ≡ comp_stmt_if t.program (stmt_or t place) env.index }
    ensures less { (w : Weights) → control_weight w result ≤ clause_weight w place }
{
    match place {
        None => undefined(),
        Some(place) => Control::Begin(Task::Execute {
            place,
            labels: Labels::new(alloc),
            env,
        }),
    }
}

// The text after a part of a template, and the parts after it.
fn template_text(
    alloc: Global,
    code: &Code,
    part: usize,
    rest: usize,
    env: Env,
    units: Str,
) -> Result<Control, Memory>
    ensures means { IfOk result (λ control. (p : Sources) → control_comp (view_of p code.now.nodes) control ≡ task_comp (view_of p code.now.nodes) (Task.TemplateText part rest env units)) }
    ensures less { IfOk result (λ control. (w : Weights) → control_weight w control < w rest + 1) }
{
    match code.node(part) {
        Node::TemplatePart { text, .. } => Ok(Control::Begin(Task::Template {
            parts: rest,
            env,
            units: joined(alloc, &units, &text.units)?,
        })),
        _ => Ok(Control::Begin(Task::Template {
            parts: rest,
            env,
            units,
        })),
    }
}

// A declarator.
fn declare(
    code: &Code,
    frames: &mut Vec<Frame>,
    kind: VariableKind,
    declarator: usize,
    env: Env,
) -> Result<Control, Memory>
    ensures means { IfOk result (λ control. (p : Sources) → ComesTo (view_of p code.now.nodes) frames.old.items (task_comp (view_of p code.now.nodes) (Task.DeclareOne kind declarator env)) frames.new.items control) }
    ensures less { IfOk result (λ control. Lighter place_weight frames.old.items (place_weight declarator) frames.new.items control) }
{
    match code.node(declarator) {
        Node::Declarator { initializer, .. } => {
            begin_declarator(frames, kind, declarator, there(code, *initializer), env)
        }
        _ => begin_declarator(frames, kind, NOWHERE, None, env),
    }
}

// A list of statements.
fn execute_all(
    alloc: Global,
    code: &Code,
    frames: &mut Vec<Frame>,
    place: usize,
    env: Env,
) -> Result<Control, Memory>
    ensures means { IfOk result (λ control. (p : Sources) → ComesTo (view_of p code.now.nodes) frames.old.items (task_comp (view_of p code.now.nodes) (Task.ExecuteAll place env)) frames.new.items control) }
    ensures less { IfOk result (λ control. Lighter place_weight frames.old.items (place_weight place) frames.new.items control) }
{
    match list_of(code.node(place), ListKind::Stmts) {
        Some((first, rest)) => begin_statements(
            alloc,
            frames,
            code.node(first),
            first,
            rest,
            code.node(rest),
            env,
        ),
        None => Ok(undefined()),
    }
}

// A clause of a `switch`, and those after it.
fn select_case(
    code: &Code,
    frames: &mut Vec<Frame>,
    case: usize,
    rest: usize,
    all: usize,
    value: Value,
    env: Env,
) -> Result<Control, Memory>
    ensures means { IfOk result (λ control. (p : Sources) → ComesTo (view_of p code.now.nodes) frames.old.items (task_comp (view_of p code.now.nodes) (Task.SelectCase case rest all value env)) frames.new.items control) }
    ensures less { IfOk result (λ control. Lighter place_weight frames.old.items (place_weight case + place_weight rest + place_weight all + 2) frames.new.items control) }
{
    match code.node(case) {
        Node::Case {
            test,
            statements,
            ..
        } => begin_select_case(
            frames,
            there(code, *test),
            *statements,
            rest,
            all,
            value,
            env,
        ),
        _ => Ok(Control::Begin(Task::Select {
            cases: rest,
            all,
            value,
            env,
        })),
    }
}

// A clause, and those after it, for `default`.
fn default_case(
    code: &Code,
    frames: &mut Vec<Frame>,
    case: usize,
    rest: usize,
    env: Env,
) -> Result<Control, Memory>
    ensures means { IfOk result (λ control. (p : Sources) → ComesTo (view_of p code.now.nodes) frames.old.items (task_comp (view_of p code.now.nodes) (Task.DefaultCase case rest env)) frames.new.items control) }
    ensures less { IfOk result (λ control. Lighter place_weight frames.old.items (place_weight case + place_weight rest) frames.new.items control) }
{
    match code.node(case) {
        Node::Case {
            test,
            statements,
            ..
        } => { begin_default_case(frames, there(code, *test), *statements, rest, env) }
        _ => Ok(fall_on(rest, env)),
    }
}

// The clauses after one that has no statements.
fn fall_on(rest: usize, env: Env) -> Control
    ensures { result ≡ Control.Begin (Task.Fall rest env) }
{
    Control::Begin(Task::Fall { cases: rest, env })
}

// A parameter and those after it.
fn bind_param(
    code: &Code,
    frames: &mut Vec<Frame>,
    param: usize,
    rest: usize,
    arguments: Items<Value>,
    next: usize,
    env: Env,
) -> Result<Control, Memory>
    ensures means { IfOk result (λ control. (p : Sources) → ComesTo (view_of p code.now.nodes) frames.old.items (task_comp (view_of p code.now.nodes) (Task.BindParam param rest arguments next env)) frames.new.items control) }
    ensures less { IfOk result (λ control. Lighter place_weight frames.old.items (place_weight param + place_weight rest) frames.new.items control) }
{
    match code.node(param) {
        Node::Param { default, .. } => {
            begin_param(
                frames,
                param,
                there(code, *default),
                rest,
                arguments,
                next,
                env,
            )
        }
        _ => begin_param(frames, NOWHERE, None, rest, arguments, next, env),
    }
}

// A loop after a `continue` with a label.
fn continued(
    code: &Code,
    words: &Words,
    label: Name,
    statement: usize,
    labels: Labels,
    env: Env,
) -> Control
    ensures means { (p : Sources) → control_comp (view_of p code.now.nodes) result ≡ task_comp (view_of p code.now.nodes) (Task.Continued label statement labels env) }
    ensures less { (w : Weights) → control_weight w result < 2 * w statement + 1 }
{
    if stands_in(code, words, labels.as_slice(), &label) {
        drop(label);
        Control::Begin(Task::Again {
            statement,
            labels,
            env,
        })
    } else {
        Control::Give(Completion::Continue(Some(label)))
    }
}

// A loop with `in` or `of` after a `continue` with a label.
fn continued_pass(
    code: &Code,
    words: &Words,
    label: Name,
    round: Boxed<Loop>,
    rest: Boxed<Iteration>,
) -> Control
    ensures means { (p : Sources) → control_comp (view_of p code.now.nodes) result ≡ task_comp (view_of p code.now.nodes) (Task.ContinuedPass label round rest) }
    ensures less { (w : Weights) → control_weight w result < w round.target + 2 }
{
    if stands_in(code, words, round.get().labels.as_slice(), &label) {
        drop(label);
        Control::Do(Action::GoThrough { round, rest })
    } else {
        Control::Give(Completion::Continue(Some(label)))
    }
}

// A statement with a label, after a `break` with one.
fn broken_at(code: &Code, words: &Words, label: usize, broken: Name) -> Control
    ensures means { (p : Sources) → control_comp (view_of p code.now.nodes) result ≡ task_comp (view_of p code.now.nodes) (Task.Broken label broken) }
    ensures less { (w : Weights) → control_weight w result ≡ 0 }
{
    if is_name(code, words, label, &broken) {
        drop(broken);
        undefined()
    } else {
        Control::Give(Completion::Break(Some(broken)))
    }
}
