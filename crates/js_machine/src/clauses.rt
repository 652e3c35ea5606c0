// The clauses of a `switch`.

ghost use Rattle.std.specs.Prelude.{◌≡◌, ◌<◌, ◌+◌, Option, None, IfOk};
ghost use Rattle.js_terms.specs.declared.place.Loc.{Loc};
ghost use Rattle.js_tree.specs.Plain as P;
ghost use Rattle.js_code.specs.Node.{build};
ghost use Rattle.js_code.specs.Part.{as_case, as_cases};
ghost use Rattle.js_meaning.specs.Effects.{handle};
ghost use Rattle.js_meaning.specs.Meaning as M;
ghost use Rattle.js_machine.specs.private.Config.{View, expr_or, stmts_at, control_comp};
ghost use Rattle.js_machine.specs.private.Weight.{Weights, node_weight, clause_weight, control_weight};
ghost use Rattle.js_machine.specs.private.Frames.{ComesTo, Lighter};

use crate::data::{Control, Frame, Pending, Task};
use crate::frames::with_frame;
use crate::lists::list_of;
use crate::steps::undefined;
use items::Memory;
use js_code::{ListKind, Node};
use js_heap::Env;
use js_value::Value;

/// The clauses that are left begin, for one whose test is equal to the value: where there is none, `default` begins.
#[inline(never)]
pub fn begin_select(node: &Node, all: usize, value: Value, env: Env) -> Control
    ensures means { (t : View) → control_comp t result
        ≡ M.comp_select t.program (as_cases (build t.tree node.now)) env.index value (M.comp_default t.program (as_cases (t.tree all)) env.index) }
    ensures less { (w : Weights) → control_weight w result < node_weight w node.now + w all }
{
    match list_of(node, ListKind::Cases) {
        Some((first, rest)) => Control::Begin(Task::SelectCase {
            case: first,
            rest,
            all,
            value,
            env,
        }),
        None => {
            drop(value);
            Control::Begin(Task::Default { cases: all, env })
        }
    }
}

/// A clause begins with its test; `default` has none.
#[inline(never)]
pub fn begin_select_case(
    frames: &mut Vec<Frame>,
    test: Option<usize>,
    statements: usize,
    rest: usize,
    all: usize,
    value: Value,
    env: Env,
) -> Result<Control, Memory>
    ensures means { IfOk result (λ control. (t : View) (loc : Option Loc) → ComesTo t frames.old.items (M.comp_select t.program (P.more_case (P.MakeCase loc (expr_or t test) (stmts_at t statements)) (as_cases (t.tree rest))) env.index value
        (M.comp_default t.program (as_cases (t.tree all)) env.index)) frames.new.items control) }
    ensures less { IfOk result (λ control. (w : Weights) → Lighter w frames.old.items (clause_weight w test + w statements + w rest + w all + 4) frames.new.items control) }
{
    match test {
        None => Ok(Control::Begin(Task::Select {
            cases: rest,
            all,
            value,
            env,
        })),
        Some(test) => with_frame(
            frames,
            Frame::Value(Pending::Tested {
                statements,
                rest,
                all,
                value,
                env,
            }),
            Control::Begin(Task::Evaluate { place: test, env }),
        ),
    }
}

/// The clauses from `default` on begin.
#[inline(never)]
pub fn begin_default(node: &Node, env: Env) -> Control
    ensures means { (t : View) → control_comp t result ≡ M.comp_default t.program (as_cases (build t.tree node.now)) env.index }
    ensures less { (w : Weights) → control_weight w result < node_weight w node.now }
{
    match list_of(node, ListKind::Cases) {
        Some((first, rest)) => Control::Begin(Task::DefaultCase {
            case: first,
            rest,
            env,
        }),
        None => undefined(),
    }
}

/// A clause begins, if it is `default`, and else those after it.
#[inline(never)]
pub fn begin_default_case(
    frames: &mut Vec<Frame>,
    test: Option<usize>,
    statements: usize,
    rest: usize,
    env: Env,
) -> Result<Control, Memory>
    ensures means { IfOk result (λ control. (t : View) (loc : Option Loc) → ComesTo t frames.old.items (M.comp_default t.program (P.more_case (P.MakeCase loc (expr_or t test) (stmts_at t statements)) (as_cases (t.tree rest))) env.index) frames.new.items control) }
    ensures less { IfOk result (λ control. (w : Weights) → Lighter w frames.old.items (w statements + w rest + 2) frames.new.items control) }
{
    match test {
        None => begin_from(frames, statements, rest, env),
        Some(_) => Ok(Control::Begin(Task::Default { cases: rest, env })),
    }
}

/// The statements of a clause begin, before the clauses after it.
pub fn begin_from(
    frames: &mut Vec<Frame>,
    statements: usize,
    rest: usize,
    env: Env,
) -> Result<Control, Memory>
    ensures means { IfOk result (λ control. (t : View) → ComesTo t frames.old.items
        (handle (M.comp_stmts t.program (stmts_at t statements) env.index) (M.with_value (λ v. M.comp_cases t.program (as_cases (t.tree rest)) env.index))) frames.new.items control) }
    ensures less { IfOk result (λ control. (w : Weights) → Lighter w frames.old.items (w statements + w rest + 2) frames.new.items control) }
{
    with_frame(
        frames,
        Frame::Value(Pending::Fallen { rest, env }),
        Control::Begin(Task::ExecuteAll {
            place: statements,
            env,
        }),
    )
}

/// Clauses begin, one after another.
#[inline(never)]
pub fn begin_clauses(frames: &mut Vec<Frame>, node: &Node, env: Env) -> Result<Control, Memory>
    ensures means { IfOk result (λ control. (t : View) → ComesTo t frames.old.items (M.comp_cases t.program (as_cases (build t.tree node.now)) env.index) frames.new.items control) }
    ensures less { IfOk result (λ control. (w : Weights) → Lighter w frames.old.items (node_weight w node.now) frames.new.items control) }
{
    match list_of(node, ListKind::Cases) {
        Some((first, rest)) => with_frame(
            frames,
            Frame::Value(Pending::Fallen { rest, env }),
            Control::Begin(Task::ExecuteCase { case: first, env }),
        ),
        None => Ok(undefined()),
    }
}

/// The statements of a clause begin.
#[inline(never)]
pub fn begin_clause(node: &Node, env: Env) -> Control
    ensures means { (t : View) → control_comp t result ≡ M.comp_case t.program (as_case (build t.tree node.now)) env.index }
    ensures less { (w : Weights) → control_weight w result < node_weight w node.now }
{
    match node {
        Node::Case { statements, .. } => Control::Begin(Task::ExecuteAll {
            place: *statements,
            env,
        }),
        _ => undefined(),
    }
}
