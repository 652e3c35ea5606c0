// What is chosen by an operand, without what waits: one of two parts, another turn of a loop, or what a function returns.

ghost use Rattle.std.specs.Prelude.{◌≡◌, ◌<◌, ◌+◌, IfOk, IfSome};
ghost use Rattle.js_meaning.specs.declared.outcome.Completion.TheVariants as completion;
ghost use Rattle.js_meaning.specs.Effects.{handle, ret};
ghost use Rattle.js_meaning.specs.Meaning as M;
ghost use Rattle.js_meaning.specs.Program.{Sources};
ghost use Rattle.js_machine.specs.private.Config.{view_of, control_comp, expr_at, labels_of, pending_comp, stmt_at};
ghost use Rattle.js_machine.specs.declared.data.Pending.TheVariants as pending;
ghost use Rattle.js_machine.specs.private.State.{Turns};
ghost use Rattle.js_machine.specs.private.Weight.{Weights, control_weight};

use crate::copies::copy_labels;
use crate::data::Control;
use crate::names::Words;
use crate::operands::{LEVELS, operand};
use crate::operators::{choose, choose_statement, logical, turn};
use crate::parts::Labels;
use items::Memory;
use js_code::Code;
use js_heap::{Env, Heap};
use js_meaning::Completion;
use js_tree::LogicalOperator;
use std::alloc::Global;

/// One of two expressions (ECMA-262, 13.14).
pub fn choose_expression(
    alloc: Global,
    code: &Code,
    words: &Words,
    heap: &Heap,
    test: usize,
    holds: usize,
    fails: usize,
    env: Env,
) -> Result<Option<Control>, Memory>
    ensures turns { IfOk result (λ found. IfSome found (λ control. (p : Sources) →
        Turns (handle (M.comp_expr p (expr_at (view_of p code.now.nodes) test) env.index) (M.with_value (pending_comp (view_of p code.now.nodes) (pending.Conditional holds fails env)))) heap.now
        (control_comp (view_of p code.now.nodes) control) heap.now)) }
    ensures less { IfOk result (λ found. IfSome found (λ control. (w : Weights) → control_weight w control < w holds + w fails + 1)) }
{
    match operand(alloc, code, words, heap, test, env, LEVELS)? {
        Some(value) => {
            let control = choose(holds, fails, env, &value);
            drop(value);
            Ok(Some(control))
        }
        None => Ok(None),
    }
}

/// The right operand of a logical operator, or the value of the left one (13.13).
pub fn choose_operand(
    alloc: Global,
    code: &Code,
    words: &Words,
    heap: &Heap,
    operator: LogicalOperator,
    left: usize,
    right: usize,
    env: Env,
) -> Result<Option<Control>, Memory>
    ensures turns { IfOk result (λ found. IfSome found (λ control. (p : Sources) →
        Turns (handle (M.comp_expr p (expr_at (view_of p code.now.nodes) left) env.index) (M.with_value (pending_comp (view_of p code.now.nodes) (pending.Logical operator right env)))) heap.now
        (control_comp (view_of p code.now.nodes) control) heap.now)) }
    ensures less { IfOk result (λ found. IfSome found (λ control. (w : Weights) → control_weight w control < w right + 1)) }
{
    match operand(alloc, code, words, heap, left, env, LEVELS)? {
        Some(value) => Ok(Some(logical(operator, right, env, value))),
        None => Ok(None),
    }
}

/// One of two statements, of which the second may be missing (14.6).
pub fn choose_one(
    alloc: Global,
    code: &Code,
    words: &Words,
    heap: &Heap,
    test: usize,
    holds: usize,
    fails: usize,
    env: Env,
) -> Result<Option<Control>, Memory>
    ensures turns { IfOk result (λ found. IfSome found (λ control. (p : Sources) →
        Turns (handle (M.comp_expr p (expr_at (view_of p code.now.nodes) test) env.index) (M.with_value (pending_comp (view_of p code.now.nodes) (pending.Choose holds fails env)))) heap.now
        (control_comp (view_of p code.now.nodes) control) heap.now)) }
    ensures less { IfOk result (λ found. IfSome found (λ control. (w : Weights) → control_weight w control < w holds + w fails + 2)) }
{
    match operand(alloc, code, words, heap, test, env, LEVELS)? {
        Some(value) => {
            let control = choose_statement(alloc, holds, fails, env, &value);
            drop(value);
            Ok(Some(control))
        }
        None => Ok(None),
    }
}

/// Another turn of a loop, or its end (14.7).
pub fn choose_turn(
    alloc: Global,
    code: &Code,
    words: &Words,
    heap: &Heap,
    test: usize,
    statement: usize,
    labels: &Labels,
    env: Env,
) -> Result<Option<Control>, Memory>
    ensures turns { IfOk result (λ found. IfSome found (λ control. (p : Sources) →
        Turns (handle (M.comp_expr p (expr_at (view_of p code.now.nodes) test) env.index)
        (M.with_value (M.turn (stmt_at (view_of p code.now.nodes) statement) (labels_of (view_of p code.now.nodes) labels.now) env.index))) heap.now
        (control_comp (view_of p code.now.nodes) control) heap.now)) }
    ensures less { IfOk result (λ found. IfSome found (λ control. (w : Weights) → control_weight w control ≡ 0)) }
{
    match operand(alloc, code, words, heap, test, env, LEVELS)? {
        Some(value) => {
            match copy_labels(alloc, labels) {
                Ok(labels) => {
                    let control = turn(statement, labels, env, &value);
                    drop(value);
                    Ok(Some(control))
                }
                Err(failed) => {
                    drop(value);
                    Err(failed)
                }
            }
        }
        None => Ok(None),
    }
}

/// What a function returns (14.10).
pub fn return_operand(
    alloc: Global,
    code: &Code,
    words: &Words,
    heap: &Heap,
    value: usize,
    env: Env,
) -> Result<Option<Control>, Memory>
    ensures turns { IfOk result (λ found. IfSome found (λ control. (p : Sources) →
        Turns (handle (M.comp_expr p (expr_at (view_of p code.now.nodes) value) env.index) (M.with_value (λ v. ret (completion.Return v)))) heap.now
        (control_comp (view_of p code.now.nodes) control) heap.now)) }
    ensures less { IfOk result (λ found. IfSome found (λ control. (w : Weights) → control_weight w control ≡ 0)) }
{
    match operand(alloc, code, words, heap, value, env, LEVELS)? {
        Some(value) => Ok(Some(Control::Give(Completion::Return(value)))),
        None => Ok(None),
    }
}
