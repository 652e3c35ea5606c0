// Environments are made for scopes.

ghost use Rattle.std.specs.Prelude.{◌≡◌, ◌∷◌, ◌++◌, [], IfOk, OnOk, map};
ghost use Rattle.std.specs.Option.{option_copied};
ghost use Rattle.js_value.specs.Environments.{next_environment, declare_all};
ghost use Rattle.js_heap.specs.Environment.{plain_binding};
ghost use Rattle.js_heap.specs.Heap.{heap_of};
ghost use Rattle.js_meaning.specs.Scopes.{first_value, hoisted, scope_made, stands_in, value_or, variable_of};
ghost use Rattle.js_value.specs.Realm.{undefined};
ghost use Rattle.js_machine.specs.private.Scopes.{Enters, EntersBody, apart_body, beside_body};

use items::{Items, Memory};
use js_code::{BlockScope, BodyScope, Hoisted, NewName};
use js_heap::{Binding, Env, Heap};
use js_host::{Shape, make_function};
use js_names::SharedName;
use js_value::{Primitive, Value};
use std::alloc::Global;

/// Enters a scope: where it declares nothing, no environment is made.
pub fn enter_scope(
    alloc: Global,
    heap: &mut Heap,
    scope: &BlockScope,
    env: Env,
) -> Result<Env, Memory>
    ensures { IfOk result (λ inner. Enters scope.now.names scope.now.functions env.index (heap_of heap.old) inner.index (heap_of heap.new)) }
{
    if scope.names.is_empty() {
        return Ok(env);
    }
    let names = bindings(alloc, scope.names.as_slice())?;
    let inner = make_scope(heap, names, env)?;
    hoist(alloc, heap, scope.functions.as_slice(), inner)?;
    Ok(inner)
}

/// Makes an environment of these names.
pub fn make_scope(heap: &mut Heap, names: Items<Binding>, env: Env) -> Result<Env, Memory>
    ensures made { OnOk result (heap_of heap.new ≡ scope_made (map plain_binding names) env.index (heap_of heap.old)) }
    ensures environment { IfOk result (λ inner. inner.index ≡ next_environment (heap_of heap.old)) }
{
    heap.scope(Some(env), names)
}

/// Puts a name with its first value at the end.
pub fn put_binding(
    names: &mut Items<Binding>,
    name: &SharedName,
    value: Option<Value>,
    constant: bool,
) -> Result<(), Memory>
    ensures { OnOk result (names.new ≡ names.old ++ record { name = name.now; value = value; constant = constant } ∷ []) }
{
    match name.copy() {
        Ok(name) => names.push(Binding {
            name,
            value,
            constant,
        }),
        Err(failed) => {
            drop(value);
            Err(failed)
        }
    }
}

/// Names as they are made.
pub fn bindings(alloc: Global, names: &[NewName]) -> Result<Items<Binding>, Memory>
    ensures { IfOk result (λ made. map plain_binding made ≡ names.now) }
{
    let mut made = Items::from_vec(Vec::with_capacity(alloc, names.len())?);
    for name in names {
        put_binding(&mut made, name.name(), name.value(), name.is_constant())?;
    }
    Ok(made)
}

/// Makes functions, which their names take, in their order.
pub fn hoist(alloc: Global, heap: &mut Heap, functions: &[Hoisted], env: Env) -> Result<(), Memory>
    ensures { OnOk result (heap_of heap.new ≡ hoisted functions.now env.index (heap_of heap.old)) }
{
    for function in functions {
        hoist_one(alloc, heap, function, env)?;
    }
    Ok(())
}

// Makes a function, which its name takes.
fn hoist_one(alloc: Global, heap: &mut Heap, function: &Hoisted, env: Env) -> Result<(), Memory>
    ensures { OnOk result (heap_of heap.new ≡ hoisted (function.now ∷ []) env.index (heap_of heap.old)) }
{
    let shape = Shape {
        number: function.number(),
        length: function.length(),
        constructs: function.constructs(),
    };
    let object = make_function(alloc, heap, shape, function.name().units(), env)?;
    heap.assign_name(env, function.name().name(), Value::Object(object));
    Ok(())
}

/// Makes an environment of one name with a value.
pub fn make_name(
    alloc: Global,
    heap: &mut Heap,
    name: &SharedName,
    value: Option<Value>,
    constant: bool,
    env: Env,
) -> Result<Env, Memory>
    ensures made { OnOk result (heap_of heap.new
        ≡ scope_made (record { name = name.now; value = value; constant = constant } ∷ []) env.index (heap_of heap.old)) }
    ensures environment { IfOk result (λ inner. inner.index ≡ next_environment (heap_of heap.old)) }
{
    let mut names = Items::new(alloc);
    put_binding(&mut names, name, value, constant)?;
    make_scope(heap, names, env)
}

/// Makes the names of a function's body, beside its parameters or in an environment of their own.
pub fn enter_body(
    alloc: Global,
    heap: &mut Heap,
    scope: &BodyScope,
    env: Env,
) -> Result<Env, Memory>
    ensures { IfOk result (λ inner. EntersBody scope.now env.index (heap_of heap.old) inner.index (heap_of heap.new)) }
{
    if scope.apart {
        enter_apart(alloc, heap, scope, env)
    } else {
        enter_beside(alloc, heap, scope, env)
    }
}

// Beside the parameters.
fn enter_beside(alloc: Global, heap: &mut Heap, scope: &BodyScope, env: Env) -> Result<Env, Memory>
    ensures made { OnOk result (heap_of heap.new ≡ beside_body scope.now env.index (heap_of heap.old)) }
    ensures environment { IfOk result (λ inner. inner.index ≡ env.index) }
{
    declare_variables(heap, scope.variables.as_slice(), env)?;
    declare_lexical(heap, scope.lexical.as_slice(), env)?;
    hoist(alloc, heap, scope.functions.as_slice(), env)?;
    Ok(env)
}

// Declares variables, whose value is undefined at first.
fn declare_variables(heap: &mut Heap, names: &[SharedName], env: Env) -> Result<(), Memory>
    ensures { OnOk result (heap_of heap.new ≡ declare_all env.index (map (variable_of undefined) names.now) (heap_of heap.old)) }
{
    for name in names {
        let value = Some(Value::Primitive(Primitive::Undefined));
        heap.declare(env, name, value, false)?;
    }
    Ok(())
}

// Declares names.
fn declare_lexical(heap: &mut Heap, names: &[NewName], env: Env) -> Result<(), Memory>
    ensures { OnOk result (heap_of heap.new ≡ declare_all env.index names.now (heap_of heap.old)) }
{
    for name in names {
        heap.declare(env, name.name(), name.value(), name.is_constant())?;
    }
    Ok(())
}

// In an environment of their own: a variable that is a parameter's begins with its value.
fn enter_apart(alloc: Global, heap: &mut Heap, scope: &BodyScope, env: Env) -> Result<Env, Memory>
    ensures made { OnOk result (heap_of heap.new ≡ apart_body scope.now env.index (heap_of heap.old)) }
    ensures environment { IfOk result (λ inner. inner.index ≡ next_environment (heap_of heap.old)) }
{
    let mut names = Items::new(alloc);
    put_variables(
        heap,
        scope.params.as_slice(),
        scope.variables.as_slice(),
        env,
        &mut names,
    )?;
    put_lexical(scope.lexical.as_slice(), &mut names)?;
    let inner = make_scope(heap, names, env)?;
    hoist(alloc, heap, scope.functions.as_slice(), inner)?;
    Ok(inner)
}

// Puts variables with their first values at the end.
fn put_variables(
    heap: &Heap,
    params: &[SharedName],
    variables: &[SharedName],
    env: Env,
    names: &mut Items<Binding>,
) -> Result<(), Memory>
    ensures { OnOk result (map plain_binding names.new ≡ map plain_binding names.old
        ++ map (λ name. variable_of (first_value params.now env.index (heap_of heap.now) name) name) variables.now) }
{
    for name in variables {
        let value = first_value_of(heap, params, name, env)?;
        put_binding(names, name, Some(value), false)?;
    }
    Ok(())
}

// Puts names at the end.
fn put_lexical(more: &[NewName], names: &mut Items<Binding>) -> Result<(), Memory>
    ensures { OnOk result (map plain_binding names.new ≡ map plain_binding names.old ++ more.now) }
{
    for name in more {
        put_binding(names, name.name(), name.value(), name.is_constant())?;
    }
    Ok(())
}

// The value that a variable of a body begins with.
fn first_value_of(
    heap: &Heap,
    params: &[SharedName],
    name: &SharedName,
    env: Env,
) -> Result<Value, Memory>
    ensures { IfOk result (λ value. value ≡ first_value params.now env.index (heap_of heap.now) name.now) }
{
    if !stands_among(params, name) {
        return Ok(Value::Primitive(Primitive::Undefined));
    }
    match heap.lookup(env, name) {
        Some(cell) => value_or_undefined(heap.value_of(cell)),
        None => Ok(Value::Primitive(Primitive::Undefined)),
    }
}

// A value that may be missing, or undefined.
fn value_or_undefined(value: Option<&Value>) -> Result<Value, Memory>
    ensures { IfOk result (λ copy. copy ≡ value_or undefined (option_copied value.entry)) }
{
    match value {
        Some(value) => value.copy(),
        None => Ok(Value::Primitive(Primitive::Undefined)),
    }
}

// Whether a name is one of some.
fn stands_among(names: &[SharedName], name: &SharedName) -> bool
    ensures { result ≡ stands_in name.now names.now }
{
    for other in names {
        if name.is(other) {
            return true;
        }
    }
    false
}
