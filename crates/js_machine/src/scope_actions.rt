// Scopes are entered.

ghost use Rattle.std.specs.Prelude.{◌≡◌, ◌<◌, ◌+◌, ◌*◌, ◌∷◌, [], IfOk, map};
ghost use Rattle.js_heap.specs.Environment.{plain_binding};
ghost use Rattle.js_code.specs.Code.{reader};
ghost use Rattle.js_code.specs.Part.{as_for_init, as_for_target};
ghost use Rattle.js_meaning.specs.Program.{Sources};
ghost use Rattle.js_meaning.specs.Meaning as M;
ghost use Rattle.js_meaning.specs.Scopes as S;
ghost use Rattle.js_meaning.specs.Scopes.{init_scope, is_fresh as is_anew, lexical_names, target_scope, uninitialized};
ghost use Rattle.js_machine.specs.private.Config.{View, view_of, action_comp, block_comp, code_of, control_comp, scope_of, scoped_comp};
ghost use Rattle.js_machine.specs.declared.data.Action.TheVariants as action;
ghost use Rattle.js_machine.specs.declared.parts.Form.TheVariants as form;
ghost use Rattle.js_machine.specs.private.State.{Turns};
ghost use Rattle.js_machine.specs.private.Weight.{Weights, control_weight, place_weight, scoped_weight};

use crate::data::{Control, Task};
use crate::names::{Words, name_at};
use crate::parts::Scoped;
use crate::scopes::{bindings, enter_scope, make_name, make_scope, put_binding};
use crate::steps::undefined;
use items::{Items, Memory};
use js_code::{Code, Node};
use js_heap::{Binding, Env, Heap};
use js_names::SharedName;
use js_tree::VariableKind;
use js_value::Value;
use std::alloc::Global;

/// A block is entered.
#[inline(never)]
pub fn enter_block(
    alloc: Global,
    code: &Code,
    heap: &mut Heap,
    block: usize,
    env: Env,
) -> Result<Control, Memory>
    ensures means { IfOk result (λ control. (p : Sources) →
        Turns (action_comp (view_of p code.now.nodes) (action.EnterBlock block env)) heap.old (control_comp (view_of p code.now.nodes) control) heap.new) }
    ensures less { IfOk result (λ control. control_weight place_weight control < place_weight block + 1) }
{
    match code.node(block) {
        Node::Scope { scope, statements } => {
            let inner = enter_scope(alloc, heap, scope, env)?;
            Ok(Control::Begin(Task::ExecuteAll {
                place: *statements,
                env: inner,
            }))
        }
        _ => Ok(undefined()),
    }
}

/// The clauses of a `switch` are entered.
#[inline(never)]
pub fn enter_switch(
    alloc: Global,
    code: &Code,
    heap: &mut Heap,
    cases: usize,
    value: Value,
    env: Env,
) -> Result<Control, Memory>
    ensures means { IfOk result (λ control. (p : Sources) →
        Turns (action_comp (view_of p code.now.nodes) (action.EnterSwitch cases value env)) heap.old (control_comp (view_of p code.now.nodes) control) heap.new) }
    ensures less { IfOk result (λ control. control_weight place_weight control < 2 * place_weight cases + 5) }
{
    match code.node(cases) {
        Node::CaseScope { scope, cases } => {
            let inner = enter_scope(alloc, heap, scope, env)?;
            Ok(Control::Begin(Task::Within {
                next: Scoped::Switch {
                    cases: *cases,
                    value,
                },
                env: inner,
            }))
        }
        _ => {
            drop(value);
            Ok(undefined())
        }
    }
}

/// The scope of a loop is entered.
#[inline(never)]
pub fn enter_loop(
    alloc: Global,
    code: &Code,
    words: &Words,
    heap: &mut Heap,
    next: Scoped,
    env: Env,
) -> Result<Control, Memory>
    ensures means { IfOk result (λ control. (p : Sources) →
        Turns (action_comp (view_of p code.now.nodes) (action.EnterLoop next env)) heap.old (control_comp (view_of p code.now.nodes) control) heap.new) }
    ensures less { IfOk result (λ control. (w : Weights) → control_weight w control ≡ scoped_weight w next) }
{
    match loop_scope(alloc, code, words, heap, &next, env) {
        Ok(inner) => Ok(Control::Begin(Task::Within { next, env: inner })),
        Err(failed) => {
            drop(next);
            Err(failed)
        }
    }
}

// The environment of a loop's scope: where it declares nothing, none is made.
fn loop_scope(
    alloc: Global,
    code: &Code,
    words: &Words,
    heap: &mut Heap,
    next: &Scoped,
    env: Env,
) -> Result<Env, Memory>
    ensures { IfOk result (λ inner. (p : Sources) →
        Turns (action_comp (view_of p code.now.nodes) (action.EnterLoop next.now env)) heap.old (scoped_comp (view_of p code.now.nodes) next.now inner.index) heap.new) }
{
    let names = loop_names(alloc, code, words, next)?;
    if names.is_empty() {
        drop(names);
        return Ok(env);
    }
    make_scope(heap, names, env)
}

// The names that the scope of a loop declares.
fn loop_names(
    alloc: Global,
    code: &Code,
    words: &Words,
    next: &Scoped,
) -> Result<Items<Binding>, Memory>
    ensures { IfOk result (λ names. (p : Sources) → map plain_binding names ≡ (scope_of (view_of p code.now.nodes) next.now).lexical) }
{
    match next {
        Scoped::For { init, .. } => init_names(alloc, code, *init),
        Scoped::Subject { round, .. } => target_names(alloc, code, words, round.get().target),
        Scoped::Target { kind, name, .. } => kind_names(alloc, *kind, name_at(code, words, *name)),
        Scoped::Turn { .. } => Ok(Items::new(alloc)),
        Scoped::Update { .. } => Ok(Items::new(alloc)),
        Scoped::Switch { .. } => Ok(Items::new(alloc)),
        Scoped::Block { .. } => Ok(Items::new(alloc)),
        Scoped::OwnName { .. } => Ok(Items::new(alloc)),
    }
}

// The names that the first part of a `for` declares.
fn init_names(alloc: Global, code: &Code, init: usize) -> Result<Items<Binding>, Memory>
    ensures { IfOk result (λ names. map plain_binding names ≡ (init_scope (as_for_init (reader code.now.nodes init))).lexical) }
{
    match code.node(init) {
        Node::InitDeclaration { names, .. } => bindings(alloc, names.as_slice()),
        _ => Ok(Items::new(alloc)),
    }
}

// The names that the target of a loop declares.
fn target_names(
    alloc: Global,
    code: &Code,
    words: &Words,
    target: usize,
) -> Result<Items<Binding>, Memory>
    ensures { IfOk result (λ names. map plain_binding names ≡ (target_scope (as_for_target (reader code.now.nodes target))).lexical) }
{
    match code.node(target) {
        Node::TargetDeclaration { kind, name, .. } => kind_names(alloc, *kind, name),
        _ => Ok(Items::new(alloc)),
    }
}

// A name as it is declared by a word: a variable is declared elsewhere.
fn kind_names(
    alloc: Global,
    kind: VariableKind,
    name: &SharedName,
) -> Result<Items<Binding>, Memory>
    ensures { IfOk result (λ names. map plain_binding names ≡ lexical_names kind (name.now ∷ [])) }
{
    match kind {
        VariableKind::Var => Ok(Items::new(alloc)),
        VariableKind::Let => one_name(alloc, name, false),
        VariableKind::Const => one_name(alloc, name, true),
    }
}

// A name that is not initialized yet.
fn one_name(alloc: Global, name: &SharedName, constant: bool) -> Result<Items<Binding>, Memory>
    ensures { IfOk result (λ names. map plain_binding names ≡ uninitialized constant name.now ∷ []) }
{
    let mut names = Items::from_vec(Vec::with_capacity(alloc, 1)?);
    put_binding(&mut names, name, None, constant)?;
    Ok(names)
}

/// The names of a `let` are made anew.
#[inline(never)]
pub fn make_anew(
    code: &Code,
    heap: &mut Heap,
    init: usize,
    next: Scoped,
    env: Env,
) -> Result<Control, Memory>
    ensures means { IfOk result (λ control. (p : Sources) →
        Turns (action_comp (view_of p code.now.nodes) (action.Anew init next env)) heap.old (control_comp (view_of p code.now.nodes) control) heap.new) }
    ensures less { IfOk result (λ control. (w : Weights) → control_weight w control ≡ scoped_weight w next) }
{
    if is_fresh(code, init) {
        return match heap.copy_env(env) {
            Ok(inner) => Ok(Control::Begin(Task::Within { next, env: inner })),
            Err(failed) => {
                drop(next);
                Err(failed)
            }
        };
    }
    Ok(Control::Begin(Task::Within { next, env }))
}

// Whether the names of the first part of a `for` are fresh in each turn.
fn is_fresh(code: &Code, init: usize) -> bool
    ensures { result ≡ is_anew (as_for_init (reader code.now.nodes init)) }
{
    match code.node(init) {
        Node::InitDeclaration { fresh, .. } => *fresh,
        _ => false,
    }
}

/// The name of a `catch` gets the exception.
#[inline(never)]
pub fn catch_name(
    alloc: Global,
    heap: &mut Heap,
    name: &SharedName,
    value: Value,
    block: usize,
    env: Env,
) -> Result<Control, Memory>
    ensures means { IfOk result (λ control. (t : View) →
        Turns (M.within (S.scope_made (S.variable_of value name.now ∷ []) env.index) (block_comp t block)) heap.old (control_comp t control) heap.new) }
    ensures less { IfOk result (λ control. (w : Weights) → control_weight w control ≡ w block + 2) }
{
    let inner = make_name(alloc, heap, name, Some(value), false, env)?;
    Ok(Control::Begin(Task::Within {
        next: Scoped::Block { block },
        env: inner,
    }))
}

/// A function that sees its own name gets an environment for it.
#[inline(never)]
pub fn own_name(
    alloc: Global,
    heap: &mut Heap,
    own: &SharedName,
    name: usize,
    function: usize,
    env: Env,
) -> Result<Control, Memory>
    ensures means { IfOk result (λ control. (t : View) → own.now ≡ t.name name →
        Turns (M.own_named (t.name name) (code_of t form.Ordinary function) env.index) heap.old (control_comp t control) heap.new) }
    ensures less { IfOk result (λ control. (w : Weights) → control_weight w control ≡ 6) }
{
    let inner = make_name(alloc, heap, own, None, true, env)?;
    Ok(Control::Begin(Task::Within {
        next: Scoped::OwnName { name, function },
        env: inner,
    }))
}
