// Operands: expressions of few operators of names, literals and members, whose values need nothing that waits.

ghost use Rattle.std.specs.Prelude.{◌≡◌, IfOk, IfSome, IsTrue};
ghost use Rattle.js_value.specs.Environments.{lookup};
ghost use Rattle.js_value.specs.Members as members;
ghost use Rattle.js_value.specs.Operators as spec;
ghost use Rattle.js_value.specs.Operators.{has_answer};
ghost use Rattle.js_value.specs.Realm.{text};
ghost use Rattle.js_heap.specs.declared.heap.Heap.{Heap};
ghost use Rattle.js_heap.specs.Heap.{heap_of};
ghost use Rattle.js_meaning.specs.Meaning as M;
ghost use Rattle.js_meaning.specs.Program.{Sources};
ghost use Rattle.js_machine.specs.private.Config.{view_of};
ghost use Rattle.js_machine.specs.private.AtOnce.{HasValue};
ghost use Rattle.js_machine.specs.private.State.{Turns};

use crate::names::{Words, name_at};
use items::Memory;
use js_code::{Code, Node};
use js_heap::{Env, Heap};
use js_host::{get_member, get_named};
use js_names::SharedName;
use js_tree::BinaryOperator;
use js_value::{Halt, OpFault, Primitive, Str, Value, binary};
use std::alloc::{AllocError, Global};

/// How many parts inside each other an operand may have.
pub const LEVELS: u8 = 4;

/// The value of the expression at a place, where it is an operand of no more than so many parts inside each other, and has one.
/// Any other is left to what waits: nothing was done for it.
#[inline(never)]
pub fn operand(
    alloc: Global,
    code: &Code,
    words: &Words,
    heap: &Heap,
    place: usize,
    env: Env,
    levels: u8,
) -> Result<Option<Value>, Memory>
    ensures { IfOk result (λ found. IfSome found (λ value. (p : Sources) → HasValue (view_of p code.now.nodes) place env.index heap.now value)) }
{
    if levels == 0 {
        return Ok(None);
    }
    match code.node(place) {
        Node::IdentifierReference { name, .. } => value_of_name(heap, name, env),
        Node::This { .. } => value_of_name(heap, name_at(code, words, place), env),
        Node::NullLiteral { .. } => Ok(Some(Value::Primitive(Primitive::Null))),
        Node::BooleanLiteral { value, .. } => {
            Ok(Some(Value::Primitive(Primitive::Boolean(*value))))
        }
        Node::NumericLiteral { numeral, .. } => Ok(number(numeral.value())),
        Node::StringLiteral { literal, .. } => Ok(Some(Value::Primitive(Primitive::Text(
            literal.units.copy()?,
        )))),
        Node::Parenthesized { inner, .. } => {
            operand(alloc, code, words, heap, *inner, env, levels - 1)
        }
        Node::Binary {
            operator,
            left,
            right,
            ..
        } => {
            let Some(first) = operand(alloc, code, words, heap, *left, env, levels - 1)? else {
                return Ok(None);
            };
            let Some(second) = operand(alloc, code, words, heap, *right, env, levels - 1)? else {
                return Ok(None);
            };
            operated(alloc, *operator, &first, &second)
        }
        Node::NamedMember { object, name, .. } => {
            let Some(base) = operand(alloc, code, words, heap, *object, env, levels - 1)? else {
                return Ok(None);
            };
            named_member(heap, &base, name.units())
        }
        Node::ComputedMember { object, key, .. } => {
            let Some(base) = operand(alloc, code, words, heap, *object, env, levels - 1)? else {
                return Ok(None);
            };
            let Some(key) = operand(alloc, code, words, heap, *key, env, levels - 1)? else {
                return Ok(None);
            };
            member(alloc, heap, &base, &key)
        }
        _ => Ok(None),
    }
}

/// The value of a name, where it has one.
pub fn value_of_name(heap: &Heap, name: &SharedName, env: Env) -> Result<Option<Value>, Memory>
    ensures { IfOk result (λ found. IfSome found (λ value. M.value_in (heap_of heap.now) (lookup (heap_of heap.now) env.index name.now) ≡ M.give value)) }
{
    match heap.lookup(env, name) {
        Some(cell) => match heap.value_of(cell) {
            Some(value) => Ok(Some(value.copy()?)),
            None => Ok(None),
        },
        None => Ok(None),
    }
}

// A number as a value.
fn number(number: Option<i64>) -> Option<Value>
    ensures { IfSome result (λ value. M.number number ≡ M.give value) }
{
    match number {
        Some(number) => Some(Value::Primitive(Primitive::Number(number))),
        None => None,
    }
}

/// What a binary operator makes of two values, where that is a value and the operator looks into no object.
pub fn operated(
    alloc: Global,
    operator: BinaryOperator,
    left: &Value,
    right: &Value,
) -> Result<Option<Value>, Memory>
    ensures { IfOk result (λ found. IfSome found (λ value. (heap : Heap) → Turns (M.operated operator left.now right.now) heap (M.give value) heap)) }
{
    match operator {
        BinaryOperator::In => Ok(None),
        BinaryOperator::InstanceOf => Ok(None),
        _ => calculated(alloc, operator, left, right),
    }
}

// The same of an operator that looks at no object.
fn calculated(
    alloc: Global,
    operator: BinaryOperator,
    left: &Value,
    right: &Value,
) -> Result<Option<Value>, Memory>
    requires { IsTrue (has_answer operator) }
    ensures { IfOk result (λ found. IfSome found (λ value. M.answered (spec.binary operator left.now right.now) ≡ M.give value)) }
{
    match binary(alloc, operator, left, right) {
        Ok(value) => Ok(Some(value)),
        Err(OpFault::Refuse(_)) => Ok(None),
        Err(OpFault::Memory) => Err(AllocError),
    }
}

/// The value of a member, where it has properties.
pub fn member(
    alloc: Global,
    heap: &Heap,
    base: &Value,
    key: &Value,
) -> Result<Option<Value>, Memory>
    ensures { IfOk result (λ found. IfSome found (λ value. M.or_halt (members.get_member (heap_of heap.now) base.now key.now) M.give ≡ M.give value)) }
{
    match get_member(alloc, heap, base, key) {
        Ok(value) => Ok(Some(value)),
        Err(Halt::Memory) => Err(AllocError),
        Err(_) => Ok(None),
    }
}

/// The same by a key that is a text.
pub fn named_member(heap: &Heap, base: &Value, key: &Str) -> Result<Option<Value>, Memory>
    ensures { IfOk result (λ found. IfSome found (λ value. M.or_halt (members.get_member (heap_of heap.now) base.now (text key.now)) M.give ≡ M.give value)) }
{
    match get_named(heap, base, key) {
        Ok(value) => Ok(Some(value)),
        Err(Halt::Memory) => Err(AllocError),
        Err(_) => Ok(None),
    }
}
