// Turns of loops.

ghost use Rattle.std.specs.Prelude.{◌≡◌, [], IfOk};
ghost use Rattle.js_code.specs.Node.{build};
ghost use Rattle.js_code.specs.Part.{as_stmt};
ghost use Rattle.js_host.specs.Iteration.{plain_iteration};
ghost use Rattle.js_meaning.specs.Meaning as M;
ghost use Rattle.js_machine.specs.private.Config.{View, labels_of, step_comp};

use crate::data::{Control, Frame, Step, Task};
use crate::parts::{Labels, Loop};
use crate::steps::undefined;
use items::{Boxed, Memory};
use js_code::Node;
use js_heap::Env;
use js_host::Iteration;
use std::alloc::Global;

/// A turn of the loop at a place begins with its body.
#[inline(never)]
pub fn begin_turn(alloc: Global, node: &Node, statement: usize, labels: Labels, env: Env) -> Step
    ensures { (t : View) → t.tree statement ≡ build t.tree node.now →
        step_comp t result ≡ M.comp_turn t.program (as_stmt (build t.tree node.now)) (labels_of t labels) env.index }
{
    match node {
        Node::DoWhile { body, .. } => round_body(alloc, *body, statement, labels, env),
        Node::While { body, .. } => round_body(alloc, *body, statement, labels, env),
        Node::For { body, .. } => round_body(alloc, *body, statement, labels, env),
        _ => Step::Go(undefined()),
    }
}

// The body of a loop, and then the loop.
fn round_body(alloc: Global, body: usize, statement: usize, labels: Labels, env: Env) -> Step
    ensures { result ≡ Step.Push (Frame.AfterTurn statement labels env) (Control.Begin (Task.Execute body [] env)) }
{
    Step::Push(
        Frame::AfterTurn {
            statement,
            labels,
            env,
        },
        Control::Begin(Task::Execute {
            place: body,
            labels: Labels::new(alloc),
            env,
        }),
    )
}

/// A turn of a loop with `in` or `of` begins with its body, in the environment where its target took the last value.
#[inline(never)]
pub fn begin_pass(
    alloc: Global,
    node: &Node,
    statement: usize,
    labels: Labels,
    env: Env,
    inner: Env,
    rest: Boxed<Iteration>,
) -> Result<Step, Memory>
    ensures { IfOk result (λ step. (t : View) → t.tree statement ≡ build t.tree node.now →
        step_comp t step ≡ M.comp_pass t.program (as_stmt (build t.tree node.now)) (labels_of t labels) env.index inner.index (plain_iteration rest)) }
{
    match node {
        Node::ForIn { target, body, .. } => {
            let round = Loop {
                statement,
                target: *target,
                labels,
                env,
            };
            pass_body(alloc, *body, round, inner, rest)
        }
        Node::ForOf { target, body, .. } => {
            let round = Loop {
                statement,
                target: *target,
                labels,
                env,
            };
            pass_body(alloc, *body, round, inner, rest)
        }
        _ => Ok(Step::Go(undefined())),
    }
}

// The body of such a loop, and then the loop.
fn pass_body(
    alloc: Global,
    body: usize,
    round: Loop,
    inner: Env,
    rest: Boxed<Iteration>,
) -> Result<Step, Memory>
    ensures { IfOk result (λ step. step ≡ Step.Push (Frame.AfterPass round rest) (Control.Begin (Task.Execute body [] inner))) }
{
    let round = Boxed::new(alloc, round)?;
    Ok(Step::Push(
        Frame::AfterPass { round, rest },
        Control::Begin(Task::Execute {
            place: body,
            labels: Labels::new(alloc),
            env: inner,
        }),
    ))
}
