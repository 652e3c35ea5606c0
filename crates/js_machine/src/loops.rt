// Loops: their tests, what they do after a turn, and what is done in their scopes.

ghost use Rattle.std.specs.Prelude.{◌≡◌, ◌<◌, ◌+◌, ◌*◌, IfOk};
ghost use Rattle.js_code.specs.Node.{build};
ghost use Rattle.js_code.specs.Part.{as_for_target, as_stmt};
ghost use Rattle.js_host.specs.Iteration.{plain_iteration};
ghost use Rattle.js_meaning.specs.Meaning as M;
ghost use Rattle.js_machine.specs.private.Config.{View, name_of, labels_of, expr_or, stmt_at, again, pass, scoped_comp, control_comp};
ghost use Rattle.js_machine.specs.private.Weight.{Weights, node_weight, scoped_weight, test_weight, control_weight};
ghost use Rattle.js_machine.specs.private.Frames.{ComesTo, Lighter};

use crate::data::{Action, Control, Entry, Frame, Pending, Task};
use crate::frames::with_frame;
use crate::parts::{Form, Labels, Loop, Referring, Scoped, Title};
use crate::statements::bind_to;
use items::{Boxed, Memory};
use js_code::Node;
use js_heap::Env;
use js_host::Iteration;
use js_value::{Complaint, Value};
use std::alloc::Global;

/// The test of a loop begins: without one there is always another turn.
#[inline(never)]
pub fn begin_test(
    frames: &mut Vec<Frame>,
    test: Option<usize>,
    statement: usize,
    labels: Labels,
    env: Env,
) -> Result<Control, Memory>
    ensures means { IfOk result (λ control. (t : View) → ComesTo t frames.old.items (M.turn_if t.program (expr_or t test) (stmt_at t statement) (labels_of t labels) env.index) frames.new.items control) }
    ensures less { IfOk result (λ control. (w : Weights) → Lighter w frames.old.items (test_weight w test) frames.new.items control) }
{
    match test {
        None => Ok(Control::Enter(Entry::Turn {
            statement,
            labels,
            env,
        })),
        Some(test) => with_frame(
            frames,
            Frame::Value(Pending::Turn {
                statement,
                labels,
                env,
            }),
            Control::Begin(Task::Evaluate { place: test, env }),
        ),
    }
}

/// A loop goes on after a turn.
#[inline(never)]
pub fn begin_again(
    frames: &mut Vec<Frame>,
    node: &Node,
    statement: usize,
    labels: Labels,
    env: Env,
) -> Result<Control, Memory>
    ensures means { IfOk result (λ control. (t : View) → t.tree statement ≡ build t.tree node.now →
        ComesTo t frames.old.items (again t (as_stmt (build t.tree node.now)) (labels_of t labels) env.index) frames.new.items control) }
    ensures less { IfOk result (λ control. (w : Weights) → Lighter w frames.old.items (w statement + node_weight w node.now) frames.new.items control) }
{
    match node {
        Node::DoWhile { test, .. } => with_frame(
            frames,
            Frame::Value(Pending::Turn {
                statement,
                labels,
                env,
            }),
            Control::Begin(Task::Evaluate { place: *test, env }),
        ),
        Node::For {
            init,
            test,
            update,
            ..
        } => Ok(Control::Do(Action::Anew {
            init: *init,
            next: Scoped::Update {
                update: *update,
                test: *test,
                statement,
                labels,
            },
            env,
        })),
        _ => Ok(Control::Begin(Task::Execute {
            place: statement,
            labels,
            env,
        })),
    }
}

/// The target of a loop takes the next value.
#[inline(never)]
pub fn begin_take(
    alloc: Global,
    node: &Node,
    round: Boxed<Loop>,
    value: Value,
    rest: Boxed<Iteration>,
) -> Result<Control, Memory>
    ensures means { IfOk result (λ control. (t : View) → t.name round.target ≡ name_of node.now →
        control_comp t control ≡ M.takes t.program (as_for_target (build t.tree node.now)) round.env.index value (λ inner. pass t round inner (plain_iteration rest))) }
    ensures less { IfOk result (λ control. (w : Weights) → control_weight w control < node_weight w node.now) }
{
    let env = round.get().env;
    match node {
        Node::TargetDeclaration { kind, .. } => {
            let name = round.get().target;
            Ok(Control::Do(Action::EnterLoop {
                next: Scoped::Target {
                    kind: *kind,
                    name,
                    value,
                    round,
                    rest,
                },
                env,
            }))
        }
        Node::TargetExpression { expression } => {
            let value = Boxed::new(alloc, value)?;
            Ok(Control::Begin(Task::Refer {
                place: *expression,
                env,
                next: Referring::Take { value, round, rest },
            }))
        }
        _ => {
            drop(value);
            Ok(Control::Do(Action::Throw(Complaint::NotAssignable)))
        }
    }
}

/// What is done in an environment begins.
#[inline(never)]
pub fn begin_within(frames: &mut Vec<Frame>, next: Scoped, env: Env) -> Result<Control, Memory>
    ensures means { IfOk result (λ control. (t : View) → ComesTo t frames.old.items (scoped_comp t next env.index) frames.new.items control) }
    ensures less { IfOk result (λ control. (w : Weights) → Lighter w frames.old.items (scoped_weight w next) frames.new.items control) }
{
    match next {
        Scoped::For {
            init,
            test,
            statement,
            labels,
        } => with_frame(
            frames,
            Frame::Value(Pending::Started {
                init,
                test,
                statement,
                labels,
                env,
            }),
            Control::Begin(Task::Start { init, env }),
        ),
        Scoped::Subject {
            keys,
            subject,
            round,
        } => with_frame(
            frames,
            Frame::Value(Pending::Subject { keys, round }),
            Control::Begin(Task::Evaluate {
                place: subject,
                env,
            }),
        ),
        Scoped::Target {
            kind,
            name,
            value,
            round,
            rest,
        } => with_frame(
            frames,
            Frame::Value(Pending::Taken {
                round,
                inner: env,
                rest,
            }),
            bind_to(kind, name, env, value),
        ),
        Scoped::Turn {
            test,
            statement,
            labels,
        } => Ok(Control::Begin(Task::Test {
            test,
            statement,
            labels,
            env,
        })),
        Scoped::Update {
            update,
            test,
            statement,
            labels,
        } => with_frame(
            frames,
            Frame::Value(Pending::Updated {
                test,
                statement,
                labels,
                env,
            }),
            Control::Begin(Task::EvaluateIf { place: update, env }),
        ),
        Scoped::Switch { cases, value } => with_frame(
            frames,
            Frame::AfterSwitch,
            Control::Begin(Task::Select {
                cases,
                all: cases,
                value,
                env,
            }),
        ),
        Scoped::Block { block } => Ok(Control::Do(Action::EnterBlock { block, env })),
        Scoped::OwnName { name, function } => with_frame(
            frames,
            Frame::Value(Pending::OwnName { name, env }),
            Control::Do(Action::Close {
                form: Form::Ordinary,
                function,
                title: Title::Name(name),
                env,
            }),
        ),
    }
}
