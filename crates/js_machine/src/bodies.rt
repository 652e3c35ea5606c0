// The bodies of functions (ECMA-262, 10.2.1.3 and 10.2.11).

ghost use Rattle.std.specs.Prelude.{◌≡◌, ◌<◌, ◌≤◌, ◌+◌, IfOk};
ghost use Rattle.js_tree.specs.Plain as P;
ghost use Rattle.js_code.specs.Code.{reader};
ghost use Rattle.js_code.specs.Node.{arrow_body};
ghost use Rattle.js_code.specs.Part.{as_code};
ghost use Rattle.js_code.specs.Scopes.{code_names};
ghost use Rattle.js_meaning.specs.Files.{in_body};
ghost use Rattle.js_meaning.specs.Meaning.{comp_concise, comp_stmts};
ghost use Rattle.js_meaning.specs.Program.{Sources};
ghost use Rattle.js_meaning.specs.Scopes.{body_scope};
ghost use Rattle.js_machine.specs.declared.data.Action.TheVariants as action;
ghost use Rattle.js_machine.specs.private.Config.{view_of, action_comp, code_at, control_comp, stmts_at};
ghost use Rattle.js_machine.specs.private.State.{Turns};
ghost use Rattle.js_machine.specs.private.Weight.{place_weight, control_weight};

use crate::data::{Control, Task};
use crate::lists::list_of;
use crate::scopes::enter_body;
use crate::statements::execute;
use items::Memory;
use js_code::{BodyScope, Code, ListKind, Node};
use js_heap::{Env, Heap};
use std::alloc::Global;

/// The names of a function's body are made, and it begins.
#[inline(never)]
pub fn enter_function(
    alloc: Global,
    code: &Code,
    heap: &mut Heap,
    function: usize,
    env: Env,
) -> Result<Control, Memory>
    ensures means { IfOk result (λ control. (p : Sources) →
        Turns (action_comp (view_of p code.now.nodes) (action.EnterBody function env)) heap.old (control_comp (view_of p code.now.nodes) control) heap.new) }
    ensures less { IfOk result (λ control. control_weight place_weight control < place_weight function + 1) }
{
    match code.node(function) {
        Node::Function { scope, .. } => enter_code(alloc, code, heap, scope, function, env),
        Node::ArrowExpression { scope, .. } => {
            enter_code(alloc, code, heap, scope, function, env)
        }
        Node::ArrowBlock { scope, .. } => enter_code(alloc, code, heap, scope, function, env),
        _ => Ok(Control::Begin(Task::Run { function, env })),
    }
}

// The same, of this scope.
fn enter_code(
    alloc: Global,
    code: &Code,
    heap: &mut Heap,
    scope: &BodyScope,
    function: usize,
    env: Env,
) -> Result<Control, Memory>
    ensures means { IfOk result (λ control. (p : Sources) (params : P.Params) (xs : P.Stmts) → scope.now ≡ code_names params xs →
        Turns (in_body params (body_scope xs) env.index (comp_concise p (arrow_body (as_code (reader code.now.nodes function))))) heap.old
        (control_comp (view_of p code.now.nodes) control) heap.new) }
    ensures less { IfOk result (λ control. control_weight place_weight control < place_weight function + 1) }
{
    let inner = enter_body(alloc, heap, scope, env)?;
    Ok(run(alloc, code, function, inner))
}

// A function's body: its statements, where it has such.
fn run(alloc: Global, code: &Code, function: usize, env: Env) -> Control
    ensures means { (p : Sources) →
        control_comp (view_of p code.now.nodes) result ≡ comp_concise p (arrow_body (code_at (view_of p code.now.nodes) function)) env.index }
    ensures less { control_weight place_weight result ≤ place_weight function }
{
    match code.node(function) {
        Node::Function { body, .. } => execute_all(alloc, code, *body, env),
        Node::ArrowBlock { body, .. } => execute_all(alloc, code, *body, env),
        _ => Control::Begin(Task::Run { function, env }),
    }
}

// Statements: the only one of a list begins by itself.
fn execute_all(alloc: Global, code: &Code, place: usize, env: Env) -> Control
    ensures means { (p : Sources) →
        control_comp (view_of p code.now.nodes) result ≡ comp_stmts p (stmts_at (view_of p code.now.nodes) place) env.index }
    ensures less { control_weight place_weight result ≤ place_weight place }
{
    match list_of(code.node(place), ListKind::Stmts) {
        Some((first, rest)) => match list_of(code.node(rest), ListKind::Stmts) {
            Some(_) => Control::Begin(Task::ExecuteAll { place, env }),
            None => execute(alloc, first, env),
        },
        None => Control::Begin(Task::ExecuteAll { place, env }),
    }
}
