// Assignments of operands to names and members, without what waits (ECMA-262, 13.15.2 and 13.4).

ghost use Rattle.std.specs.Prelude.{◌≡◌, ℤ, Ok, None, IfOk, IfSome, if◌then◌else◌};
ghost use Rattle.js_value.specs.Conversions.{to_number as number_told};
ghost use Rattle.js_value.specs.Members.{put_member as put_told};
ghost use Rattle.js_heap.specs.Heap.{heap_of};
ghost use Rattle.js_meaning.specs.Effects.{Comp, handle};
ghost use Rattle.js_meaning.specs.Meaning as M;
ghost use Rattle.js_meaning.specs.Program.{Sources};
ghost use Rattle.js_machine.specs.private.Config.{view_of, expr_at, key_of, reference_of};
ghost use Rattle.js_machine.specs.private.AtOnce.{done_comp};
ghost use Rattle.js_machine.specs.private.State.{Turns};

use crate::at_once::Done;
use crate::member_actions::key_value;
use crate::names::{Words, name_at};
use crate::operands::{LEVELS, member, named_member, operand, operated, value_of_name};
use crate::operators::chosen;
use crate::parts::{MemberKey, Reference};
use items::Memory;
use js_code::{Code, Node};
use js_heap::{Assign, Env, Heap};
use js_host::put_member;
use js_names::SharedName;
use js_tree::{BinaryOperator, UpdateOperator};
use js_value::{Complaint, Halt, Primitive, Value, step, to_number};
use std::alloc::{AllocError, Global};

/// An assignment, by an operator or without.
pub fn assign(
    alloc: Global,
    code: &Code,
    words: &Words,
    heap: &mut Heap,
    operator: Option<BinaryOperator>,
    target: usize,
    value: usize,
    env: Env,
) -> Result<Option<Done>, Memory>
    ensures turns { IfOk result (λ found. IfSome found (λ done. (p : Sources) (otherwise : Comp) →
        Turns (M.comp_reference p (expr_at (view_of p code.now.nodes) target) env.index otherwise
        (λ r. M.assigning operator r (expr_at (view_of p code.now.nodes) value) env.index (M.comp_expr p (expr_at (view_of p code.now.nodes) value) env.index)))
        heap.old (done_comp done) heap.new)) }
    ensures none { result ≡ Ok None → heap_of heap.new ≡ heap_of heap.old }
{
    let Some(reference) = refer(alloc, code, words, heap, target, env)? else {
        return Ok(None);
    };
    match new_value(alloc, code, words, heap, operator, &reference, value, env) {
        Ok(Some(value)) => {
            let done = put(alloc, code, words, heap, reference, env, value)?;
            Ok(Some(done))
        }
        Ok(None) => {
            drop(reference);
            Ok(None)
        }
        Err(failed) => {
            drop(reference);
            Err(failed)
        }
    }
}

/// The reference that an expression is, where it is a name, or a member of operands.
pub fn refer(
    alloc: Global,
    code: &Code,
    words: &Words,
    heap: &Heap,
    place: usize,
    env: Env,
) -> Result<Option<Reference>, Memory>
    ensures { IfOk result (λ found. IfSome found (λ reference. (p : Sources) (otherwise : Comp) (next : M.Reference → Comp) →
        Turns (M.comp_reference p (expr_at (view_of p code.now.nodes) place) env.index otherwise next) heap.now
        (next (reference_of (view_of p code.now.nodes) reference)) heap.now)) }
{
    match code.node(place) {
        Node::IdentifierReference { .. } => Ok(Some(Reference::Name(place))),
        Node::NamedMember { object, .. } => {
            let Some(base) = operand(alloc, code, words, heap, *object, env, LEVELS)? else {
                return Ok(None);
            };
            Ok(Some(Reference::Member {
                base,
                key: MemberKey::Name(place),
            }))
        }
        Node::ComputedMember { object, key, .. } => {
            let Some(base) = operand(alloc, code, words, heap, *object, env, LEVELS)? else {
                return Ok(None);
            };
            match operand(alloc, code, words, heap, *key, env, LEVELS) {
                Ok(Some(key)) => Ok(Some(Reference::Member {
                    base,
                    key: MemberKey::Value(key),
                })),
                Ok(None) => {
                    drop(base);
                    Ok(None)
                }
                Err(failed) => {
                    drop(base);
                    Err(failed)
                }
            }
        }
        _ => Ok(None),
    }
}

// The value that a reference gets: an operand, or what an operator makes of the old value and of that.
fn new_value(
    alloc: Global,
    code: &Code,
    words: &Words,
    heap: &Heap,
    operator: Option<BinaryOperator>,
    reference: &Reference,
    value: usize,
    env: Env,
) -> Result<Option<Value>, Memory>
    ensures { IfOk result (λ found. IfSome found (λ new. (p : Sources) →
        Turns (M.assigning operator (reference_of (view_of p code.now.nodes) reference.now) (expr_at (view_of p code.now.nodes) value) env.index
        (M.comp_expr p (expr_at (view_of p code.now.nodes) value) env.index)) heap.now
        (M.put_value env.index (reference_of (view_of p code.now.nodes) reference.now) new) heap.now)) }
{
    match operator {
        None => operand(alloc, code, words, heap, value, env, LEVELS),
        Some(operator) => {
            let Some(old) = get(alloc, code, words, heap, reference, env)? else {
                return Ok(None);
            };
            match operand(alloc, code, words, heap, value, env, LEVELS) {
                Ok(Some(right)) => {
                    let new = operated(alloc, operator, &old, &right);
                    drop(old);
                    drop(right);
                    new
                }
                Ok(None) => {
                    drop(old);
                    Ok(None)
                }
                Err(failed) => {
                    drop(old);
                    Err(failed)
                }
            }
        }
    }
}

/// The value of a reference, where it has one.
pub fn get(
    alloc: Global,
    code: &Code,
    words: &Words,
    heap: &Heap,
    reference: &Reference,
    env: Env,
) -> Result<Option<Value>, Memory>
    ensures { IfOk result (λ found. IfSome found (λ value. (p : Sources) →
        Turns (M.get_value env.index (reference_of (view_of p code.now.nodes) reference.now)) heap.now (M.give value) heap.now)) }
{
    match reference {
        Reference::Name(name) => value_of_name(heap, name_at(code, words, *name), env),
        Reference::Member { base, key } => get_by_key(alloc, code, heap, base, key),
    }
}

// The value of a member by its key.
fn get_by_key(
    alloc: Global,
    code: &Code,
    heap: &Heap,
    base: &Value,
    key: &MemberKey,
) -> Result<Option<Value>, Memory>
    ensures { IfOk result (λ found. IfSome found (λ value. (p : Sources) →
        Turns (M.get_member_of base.now (key_of (view_of p code.now.nodes) key.now)) heap.now (M.give value) heap.now)) }
{
    match key {
        MemberKey::Name(name) => match code.node(*name) {
            Node::NamedMember { name, .. } => named_member(heap, base, name.units()),
            _ => Ok(None),
        },
        MemberKey::Value(key) => member(alloc, heap, base, key),
    }
}

/// A number one more or one less, for the reference that an expression is.
pub fn update(
    alloc: Global,
    code: &Code,
    words: &Words,
    heap: &mut Heap,
    prefix: bool,
    operator: UpdateOperator,
    target: usize,
    env: Env,
) -> Result<Option<Done>, Memory>
    ensures turns { IfOk result (λ found. IfSome found (λ done. (p : Sources) (otherwise : Comp) →
        Turns (M.comp_reference p (expr_at (view_of p code.now.nodes) target) env.index otherwise (M.updates prefix operator env.index)) heap.old (done_comp done) heap.new)) }
    ensures none { result ≡ Ok None → heap_of heap.new ≡ heap_of heap.old }
{
    match refer(alloc, code, words, heap, target, env)? {
        Some(reference) => update_reference(
            alloc, code, words, heap, prefix, operator, reference, env,
        ),
        None => Ok(None),
    }
}

/// A number one more or one less, for a reference: the new number is given or the old one.
pub fn update_reference(
    alloc: Global,
    code: &Code,
    words: &Words,
    heap: &mut Heap,
    prefix: bool,
    operator: UpdateOperator,
    reference: Reference,
    env: Env,
) -> Result<Option<Done>, Memory>
    ensures turns { IfOk result (λ found. IfSome found (λ done. (p : Sources) →
        Turns (M.updates prefix operator env.index (reference_of (view_of p code.now.nodes) reference)) heap.old (done_comp done) heap.new)) }
    ensures none { result ≡ Ok None → heap_of heap.new ≡ heap_of heap.old }
{
    match get_number(alloc, code, words, heap, &reference, env) {
        Ok(Some(old)) => match step(operator, old) {
            Ok(new) => {
                let value = Value::Primitive(Primitive::Number(new));
                let done = put(alloc, code, words, heap, reference, env, value)?;
                Ok(Some(before_number(done, prefix, new, old)))
            }
            Err(_) => {
                drop(reference);
                Ok(None)
            }
        },
        Ok(None) => {
            drop(reference);
            Ok(None)
        }
        Err(failed) => {
            drop(reference);
            Err(failed)
        }
    }
}

// The number that a reference is, where it is one.
fn get_number(
    alloc: Global,
    code: &Code,
    words: &Words,
    heap: &Heap,
    reference: &Reference,
    env: Env,
) -> Result<Option<i64>, Memory>
    ensures { IfOk result (λ found. IfSome found (λ old. (p : Sources) (next : ℤ → Comp) →
        Turns (handle (M.get_value env.index (reference_of (view_of p code.now.nodes) reference.now)) (M.with_value (λ v. M.numbered (number_told v) next))) heap.now (next old) heap.now)) }
{
    match get(alloc, code, words, heap, reference, env)? {
        Some(value) => {
            let number = to_number(&value);
            drop(value);
            match number {
                Ok(number) => Ok(Some(number)),
                Err(_) => Ok(None),
            }
        }
        None => Ok(None),
    }
}

// After what was done, where it gave a value, comes the new number or the old one.
fn before_number(done: Done, prefix: bool, new: i64, old: i64) -> Done
    ensures { done_comp result ≡ handle (done_comp done) (M.with_value (λ value. M.give (M.number_value (if prefix then new else old)))) }
{
    match done {
        Done::Gives(value) => {
            drop(value);
            Done::Gives(chosen(prefix, new, old))
        }
        Done::Throws(complaint) => Done::Throws(complaint),
        Done::Refuses(kind) => Done::Refuses(kind),
    }
}

/// A value for a reference.
pub fn put(
    alloc: Global,
    code: &Code,
    words: &Words,
    heap: &mut Heap,
    reference: Reference,
    env: Env,
    value: Value,
) -> Result<Done, Memory>
    ensures { IfOk result (λ done. (p : Sources) →
        Turns (M.put_value env.index (reference_of (view_of p code.now.nodes) reference) value) heap.old (done_comp done) heap.new) }
{
    match reference {
        Reference::Name(name) => put_name(heap, name_at(code, words, name), env, value),
        Reference::Member { base, key } => {
            let done = put_by_key(alloc, code, words, heap, &base, key, value);
            drop(base);
            done
        }
    }
}

// For a name.
fn put_name(heap: &mut Heap, name: &SharedName, env: Env, value: Value) -> Result<Done, Memory>
    ensures { IfOk result (λ done. Turns (M.write name.now env.index value) heap.old (done_comp done) heap.new) }
{
    let given = value.copy()?;
    match heap.assign_name(env, name, value) {
        Some(Assign::Done) => Ok(Done::Gives(given)),
        Some(Assign::Dead) => {
            drop(given);
            Ok(Done::Throws(Complaint::NotInitialised))
        }
        Some(Assign::Constant) => {
            drop(given);
            Ok(Done::Throws(Complaint::NotAssignable))
        }
        None => {
            drop(given);
            Ok(Done::Throws(Complaint::NotDefined))
        }
    }
}

// For a member by its key.
fn put_by_key(
    alloc: Global,
    code: &Code,
    words: &Words,
    heap: &mut Heap,
    base: &Value,
    key: MemberKey,
    value: Value,
) -> Result<Done, Memory>
    ensures { IfOk result (λ done. (p : Sources) → Turns (M.changes (put_told base.now (key_of (view_of p code.now.nodes) key) value) value) heap.old (done_comp done) heap.new) }
{
    match key_value(alloc, code, words, key) {
        Ok(key) => {
            let done = put_value(alloc, heap, base, &key, value);
            drop(key);
            done
        }
        Err(failed) => {
            drop(value);
            Err(failed)
        }
    }
}

// For a member.
fn put_value(
    alloc: Global,
    heap: &mut Heap,
    base: &Value,
    key: &Value,
    value: Value,
) -> Result<Done, Memory>
    ensures { IfOk result (λ done. Turns (M.changes (put_told base.now key.now value) value) heap.old (done_comp done) heap.new) }
{
    let given = value.copy()?;
    match put_member(alloc, heap, base, key, value) {
        Ok(()) => Ok(Done::Gives(given)),
        Err(Halt::Throw(complaint)) => {
            drop(given);
            Ok(Done::Throws(complaint))
        }
        Err(Halt::Refuse(kind)) => {
            drop(given);
            Ok(Done::Refuses(kind))
        }
        Err(Halt::Memory) => {
            drop(given);
            Err(AllocError)
        }
    }
}
