// Calls whose callee and arguments are operands, without what waits (ECMA-262, 13.3.6).

ghost use Rattle.std.specs.Prelude.{◌≡◌, ◌<◌, [], List, IfOk, IfSome};
ghost use Rattle.js_code.specs.declared.node.Node.{Node};
ghost use Rattle.js_code.specs.Code.{reader};
ghost use Rattle.js_code.specs.Part.{as_exprs};
ghost use Rattle.js_meaning.specs.Effects.{Comp};
ghost use Rattle.js_meaning.specs.Meaning as M;
ghost use Rattle.js_meaning.specs.Program.{Sources};
ghost use Rattle.js_machine.specs.private.Config.{view_of, control_comp, expr_at, reference_of};
ghost use Rattle.js_machine.specs.private.AtOnce.{calls};
ghost use Rattle.js_machine.specs.private.State.{Turns};
ghost use Rattle.js_machine.specs.private.Weight.{Weights, control_weight};

use crate::assignments::{get, refer};
use crate::call_actions::call;
use crate::data::Control;
use crate::lists::list_of;
use crate::names::Words;
use crate::operands::{LEVELS, operand};
use crate::parts::Reference;
use items::{Items, Memory};
use js_code::{Code, ListKind};
use js_heap::{Env, Heap};
use js_value::{Primitive, Value};
use std::alloc::Global;

/// A call, with the values of its callee and of its arguments.
pub fn call_of_operands(
    alloc: Global,
    code: &Code,
    words: &Words,
    heap: &Heap,
    callee: usize,
    arguments: usize,
    env: Env,
) -> Result<Option<Control>, Memory>
    ensures turns { IfOk result (λ found. IfSome found (λ control. (p : Sources) (otherwise : Comp) →
        Turns (M.comp_reference p (expr_at (view_of p code.now.nodes) callee) env.index otherwise (calls (view_of p code.now.nodes) arguments env.index)) heap.now
        (control_comp (view_of p code.now.nodes) control) heap.now)) }
    ensures less { IfOk result (λ found. IfSome found (λ control. (w : Weights) → control_weight w control < 2)) }
{
    let Some(reference) = refer(alloc, code, words, heap, callee, env)? else {
        return Ok(None);
    };
    match get(alloc, code, words, heap, &reference, env) {
        Ok(Some(callee)) => {
            let this = this_of(reference);
            match operands(alloc, code, words, heap, arguments, env) {
                Ok(Some(values)) => Ok(Some(call(heap, callee, this, values))),
                Ok(None) => {
                    drop(callee);
                    drop(this);
                    Ok(None)
                }
                Err(failed) => {
                    drop(callee);
                    drop(this);
                    Err(failed)
                }
            }
        }
        Ok(None) => {
            drop(reference);
            Ok(None)
        }
        Err(failed) => {
            drop(reference);
            Err(failed)
        }
    }
}

// The `this` of a call of a reference: the object of a member (13.3.6.2, 1).
fn this_of(reference: Reference) -> Value
    ensures { (p : Sources) (nodes : List Node) → result ≡ M.this_of (reference_of (view_of p nodes) reference) }
{
    match reference {
        Reference::Name(_) => Value::Primitive(Primitive::Undefined),
        Reference::Member { base, key } => {
            drop(key);
            base
        }
    }
}

// The values of a list of expressions, where all are operands.
fn operands(
    alloc: Global,
    code: &Code,
    words: &Words,
    heap: &Heap,
    place: usize,
    env: Env,
) -> Result<Option<Items<Value>>, Memory>
    ensures { IfOk result (λ found. IfSome found (λ values. (p : Sources) (next : List Value → Comp) →
        Turns (M.comp_values p (as_exprs (reader code.now.nodes place)) env.index [] next) heap.now (next values) heap.now)) }
{
    let mut values = Items::new(alloc);
    let mut at = place;
    'values: loop {
        match list_of(code.node(at), ListKind::Exprs) {
            Some((first, rest)) => {
                let Some(value) = operand(alloc, code, words, heap, first, env, LEVELS)? else {
                    return Ok(None);
                };
                values.push(value)?;
                at = rest;
            }
            None => return Ok(Some(values)),
        }
    }
}
