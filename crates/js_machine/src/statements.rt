// What a statement begins with.

ghost use Rattle.std.specs.Prelude.{◌≡◌, ◌<◌, ◌≤◌, ◌+◌, ◌*◌, [], ◌∷◌, Option, IfOk, option_map};
ghost use Rattle.js_tree.specs.Plain as P;
ghost use Rattle.js_code.specs.Node.{build};
ghost use Rattle.js_code.specs.Part.{as_catch, as_declarators, as_for_init, as_stmt};
ghost use Rattle.js_meaning.specs.Effects.{Comp, handle};
ghost use Rattle.js_meaning.specs.Meaning as M;
ghost use Rattle.js_machine.specs.private.Config.{View, name_of, labels_of, expr_or, stmt_at, stmts_at, control_comp, frame_comp};
ghost use Rattle.js_machine.specs.private.Weight.{Weights, node_weight, control_weight, declarator_weight, frame_weight, frames_weight};
ghost use Rattle.js_machine.specs.private.Frames.{ComesTo, Lighter};

use crate::copies::label_first;
use crate::data::{Action, Control, Entry, Frame, Pending, Task};
use crate::frames::with_frame;
use crate::lists::list_of;
use crate::parts::{Labels, Loop, Scoped, Title};
use crate::steps::undefined;
use items::{Boxed, Memory};
use js_code::{ListKind, Node, SharedIdentifier};
use js_heap::Env;
use js_meaning::Completion;
use js_tree::{Name, VariableKind};
use js_value::{Primitive, Value};
use std::alloc::Global;

/// The statement at a place begins.
#[inline(never)]
pub fn begin_statement(
    alloc: Global,
    frames: &mut Vec<Frame>,
    node: &Node,
    place: usize,
    labels: Labels,
    env: Env,
) -> Result<Control, Memory>
    ensures means { IfOk result (λ control. (t : View) → t.name place ≡ name_of node.now → t.tree place ≡ build t.tree node.now →
        ComesTo t frames.old.items (M.comp_stmt t.program (as_stmt (build t.tree node.now)) (labels_of t labels) env.index) frames.new.items control) }
    ensures less { IfOk result (λ control. (w : Weights) → Lighter w frames.old.items (node_weight w node.now) frames.new.items control) }
{
    match node {
        Node::Block { statements, .. } => Ok(Control::Do(Action::EnterBlock {
            block: *statements,
            env,
        })),
        Node::VariableDeclaration {
            kind,
            declarators,
            ..
        } => Ok(Control::Begin(Task::Declare {
            kind: *kind,
            declarators: *declarators,
            env,
        })),
        Node::Expression { expression, .. } => with_frame(
            frames,
            Frame::Value(Pending::Discard),
            Control::Begin(Task::Evaluate {
                place: *expression,
                env,
            }),
        ),
        Node::If {
            test,
            holds,
            fails,
            ..
        } => with_frame(
            frames,
            Frame::Value(Pending::Choose {
                holds: *holds,
                fails: *fails,
                env,
            }),
            Control::Begin(Task::Evaluate { place: *test, env }),
        ),
        Node::DoWhile { .. } => Ok(Control::Enter(Entry::Turn {
            statement: place,
            labels,
            env,
        })),
        Node::While { test, .. } => with_frame(
            frames,
            Frame::Value(Pending::Turn {
                statement: place,
                labels,
                env,
            }),
            Control::Begin(Task::Evaluate { place: *test, env }),
        ),
        Node::For { init, test, .. } => Ok(Control::Do(Action::EnterLoop {
            next: Scoped::For {
                init: *init,
                test: *test,
                statement: place,
                labels,
            },
            env,
        })),
        Node::ForIn { target, object, .. } => begin_round(
            alloc,
            true,
            *object,
            Loop {
                statement: place,
                target: *target,
                labels,
                env,
            },
        ),
        Node::ForOf {
            target,
            iterable,
            ..
        } => begin_round(
            alloc,
            false,
            *iterable,
            Loop {
                statement: place,
                target: *target,
                labels,
                env,
            },
        ),
        Node::Continue { label, .. } => {
            Ok(Control::Give(Completion::Continue(copied(alloc, label)?)))
        }
        Node::Break { label, .. } => { Ok(Control::Give(Completion::Break(copied(alloc, label)?))) }
        Node::Return { value, .. } => with_frame(
            frames,
            Frame::Value(Pending::Return),
            Control::Begin(Task::EvaluateIf { place: *value, env }),
        ),
        Node::Switch { value, cases, .. } => with_frame(
            frames,
            Frame::Value(Pending::Switch { cases: *cases, env }),
            Control::Begin(Task::Evaluate { place: *value, env }),
        ),
        Node::Labelled { body, .. } => {
            let labels = label_first(alloc, place, &labels)?;
            with_frame(
                frames,
                Frame::AfterLabel { label: place },
                Control::Begin(Task::Execute {
                    place: *body,
                    labels,
                    env,
                }),
            )
        }
        Node::Throw { value, .. } => with_frame(
            frames,
            Frame::Value(Pending::Throw),
            Control::Begin(Task::Evaluate { place: *value, env }),
        ),
        Node::TryCatch { block, catch, .. } => begin_try(frames, *block, *catch, env),
        Node::TryFinally { block, last, .. } => with_frame(
            frames,
            Frame::Finally { block: *last, env },
            Control::Do(Action::EnterBlock { block: *block, env }),
        ),
        Node::TryCatchFinally {
            block,
            catch,
            last,
            ..
        } => with_frame(
            frames,
            Frame::Finally { block: *last, env },
            Control::Begin(Task::Try {
                block: *block,
                catch: *catch,
                env,
            }),
        ),
        _ => Ok(undefined()),
    }
}

// A `for` with `in` or `of`: what it goes through is evaluated in the scope of its target.
fn begin_round(alloc: Global, keys: bool, subject: usize, round: Loop) -> Result<Control, Memory>
    ensures { IfOk result (λ control. control ≡ Control.Do (Action.EnterLoop (Scoped.Subject keys subject round) round.env)) }
{
    let env = round.env;
    let round = Boxed::new(alloc, round)?;
    Ok(Control::Do(Action::EnterLoop {
        next: Scoped::Subject {
            keys,
            subject,
            round,
        },
        env,
    }))
}

/// A block before a `catch` clause begins.
#[inline(never)]
pub fn begin_try(
    frames: &mut Vec<Frame>,
    block: usize,
    catch: usize,
    env: Env,
) -> Result<Control, Memory>
    ensures means { IfOk result (λ control. (t : View) → ComesTo t frames.old.items (handle (control_comp t (Control.Do (Action.EnterBlock block env))) (frame_comp t (Frame.Catch catch env))) frames.new.items control) }
    ensures weight { IfOk result (λ control. (w : Weights) → frames_weight w frames.new.items + control_weight w control ≡ frames_weight w frames.old.items + (frame_weight w (Frame.Catch catch env) + control_weight w (Control.Do (Action.EnterBlock block env)))) }
{
    with_frame(
        frames,
        Frame::Catch { catch, env },
        Control::Do(Action::EnterBlock { block, env }),
    )
}

// The name of a label that may be missing.
fn copied(alloc: Global, label: &Option<SharedIdentifier>) -> Result<Option<Name>, Memory>
    ensures { IfOk result (λ name. name ≡ option_map (λ l. l.name) label.now) }
{
    match label {
        None => Ok(None),
        Some(label) => Ok(Some(Name::from_str(alloc, label.name().as_str())?)),
    }
}

/// Statements begin, before what stands after the first of them: the only one of a list begins by itself.
#[inline(never)]
pub fn begin_statements(
    alloc: Global,
    frames: &mut Vec<Frame>,
    node: &Node,
    first: usize,
    rest: usize,
    after: &Node,
    env: Env,
) -> Result<Control, Memory>
    ensures means { IfOk result (λ control. (t : View) → t.tree first ≡ build t.tree node.now → t.tree rest ≡ build t.tree after.now →
        ComesTo t frames.old.items (M.comp_stmts t.program (P.more_stmt (stmt_at t first) (stmts_at t rest)) env.index) frames.new.items control) }
    ensures less { IfOk result (λ control. (w : Weights) → node_weight w node.now < w first → Lighter w frames.old.items (w first + w rest + 2) frames.new.items control) }
{
    match list_of(after, ListKind::Stmts) {
        Some(_) => with_frame(
            frames,
            Frame::Value(Pending::Statement { rest, env }),
            begin_first(alloc, node, first, env),
        ),
        None => Ok(execute(alloc, first, env)),
    }
}

// A statement that others follow, which don't look at its value: an expression begins by itself.
fn begin_first(alloc: Global, node: &Node, place: usize, env: Env) -> Control
    ensures means { (t : View) (rest : Comp) → t.tree place ≡ build t.tree node.now →
        handle (control_comp t result) (M.with_value (λ v. rest)) ≡ handle (M.comp_stmt t.program (stmt_at t place) [] env.index) (M.with_value (λ v. rest)) }
    ensures less { (w : Weights) → node_weight w node.now < w place → control_weight w result ≤ w place }
{
    match node {
        Node::Expression { expression, .. } => Control::Begin(Task::Evaluate {
            place: *expression,
            env,
        }),
        _ => execute(alloc, place, env),
    }
}

/// A statement without labels begins.
pub fn execute(alloc: Global, place: usize, env: Env) -> Control
    ensures { result ≡ Control.Begin (Task.Execute place [] env) }
{
    Control::Begin(Task::Execute {
        place,
        labels: Labels::new(alloc),
        env,
    })
}

/// The declarators that are left begin.
#[inline(never)]
pub fn begin_declarators(
    frames: &mut Vec<Frame>,
    node: &Node,
    kind: VariableKind,
    env: Env,
) -> Result<Control, Memory>
    ensures means { IfOk result (λ control. (t : View) → ComesTo t frames.old.items (M.comp_declarators t.program kind (as_declarators (build t.tree node.now)) env.index) frames.new.items control) }
    ensures less { IfOk result (λ control. (w : Weights) → Lighter w frames.old.items (node_weight w node.now) frames.new.items control) }
{
    match list_of(node, ListKind::Declarators) {
        Some((first, rest)) => with_frame(
            frames,
            Frame::Value(Pending::Declarator { kind, rest, env }),
            Control::Begin(Task::DeclareOne {
                kind,
                declarator: first,
                env,
            }),
        ),
        None => Ok(undefined()),
    }
}

/// A declarator begins: without an initializer a variable keeps its value.
#[inline(never)]
pub fn begin_declarator(
    frames: &mut Vec<Frame>,
    kind: VariableKind,
    name: usize,
    initializer: Option<usize>,
    env: Env,
) -> Result<Control, Memory>
    ensures means { IfOk result (λ control. (t : View) → ComesTo t frames.old.items (M.declares t.program kind (t.name name) (expr_or t initializer) env.index) frames.new.items control) }
    ensures less { IfOk result (λ control. (w : Weights) → Lighter w frames.old.items (declarator_weight w initializer) frames.new.items control) }
{
    match initializer {
        None => Ok(declare_only(kind, name, env)),
        Some(value) => with_frame(
            frames,
            Frame::Value(Pending::BindTo { kind, name, env }),
            Control::Begin(Task::EvaluateNamed {
                title: Title::Name(name),
                place: value,
                env,
            }),
        ),
    }
}

// A name without an initializer.
fn declare_only(kind: VariableKind, name: usize, env: Env) -> Control
    ensures means { (t : View) → control_comp t result ≡ M.binds_none kind (t.name name) env.index }
    ensures less { (w : Weights) → control_weight w result < 3 }
{
    match kind {
        VariableKind::Var => undefined(),
        VariableKind::Let => initialize_undefined(name, env),
        VariableKind::Const => initialize_undefined(name, env),
    }
}

// The first value of a name is undefined.
fn initialize_undefined(name: usize, env: Env) -> Control
    ensures { result ≡ Control.Do (Action.Initialize name env (Value.Primitive Primitive.Undefined)) }
{
    Control::Do(Action::Initialize {
        name,
        env,
        value: Value::Primitive(Primitive::Undefined),
    })
}

/// The value of a name that is declared.
#[inline(never)]
pub fn bind_to(kind: VariableKind, name: usize, env: Env, value: Value) -> Control
    ensures means { (t : View) → control_comp t result ≡ M.binds kind (t.name name) env.index value }
    ensures less { (w : Weights) → control_weight w result ≡ 2 }
{
    match kind {
        VariableKind::Var => Control::Do(Action::Write { name, env, value }),
        VariableKind::Let => Control::Do(Action::Initialize { name, env, value }),
        VariableKind::Const => Control::Do(Action::Initialize { name, env, value }),
    }
}

/// The first part of a `for` begins.
#[inline(never)]
pub fn begin_init(node: &Node, env: Env) -> Control
    ensures means { (t : View) → control_comp t result ≡ M.comp_for_init t.program (as_for_init (build t.tree node.now)) env.index }
    ensures less { (w : Weights) → control_weight w result < node_weight w node.now }
{
    match node {
        Node::InitDeclaration {
            kind,
            declarators,
            ..
        } => Control::Begin(Task::Declare {
            kind: *kind,
            declarators: *declarators,
            env,
        }),
        Node::InitExpression { expression } => Control::Begin(Task::Evaluate {
            place: *expression,
            env,
        }),
        _ => undefined(),
    }
}

/// A `catch` clause begins.
#[inline(never)]
pub fn begin_catch(node: &Node, place: usize, value: Value, env: Env) -> Control
    ensures means { (t : View) → t.name place ≡ name_of node.now →
        control_comp t result ≡ M.comp_catch t.program (as_catch (build t.tree node.now)) env.index value }
    ensures less { (w : Weights) → control_weight w result < node_weight w node.now }
{
    match node {
        Node::Catch { statements } => {
            drop(value);
            Control::Do(Action::EnterBlock {
                block: *statements,
                env,
            })
        }
        Node::CatchName { statements, .. } => Control::Do(Action::Caught {
            name: place,
            value,
            block: *statements,
            env,
        }),
        _ => {
            drop(value);
            undefined()
        }
    }
}
