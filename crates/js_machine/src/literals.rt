// Lists of expressions, templates, and the properties of objects.

ghost use Rattle.std.specs.Prelude.{◌≡◌, ◌<◌, ◌+◌, ◌*◌, [], ◌∷◌, IfOk};
ghost use Rattle.js_tree.specs.Plain as P;
ghost use Rattle.js_code.specs.Node.{build};
ghost use Rattle.js_code.specs.Part.{as_exprs, as_properties, as_property, as_property_key, as_template_part, as_template_parts};
ghost use Rattle.js_meaning.specs.Meaning as M;
ghost use Rattle.js_machine.specs.private.Config.{View, name_of, control_comp, gathered, keyed, units_of};
ghost use Rattle.js_machine.specs.private.Weight.{Weights, node_weight, keying_weight, control_weight};
ghost use Rattle.js_machine.specs.private.Frames.{ComesTo, Lighter};

use crate::copies::copy_title;
use crate::data::{Action, Control, Frame, Pending, Task};
use crate::frames::with_frame;
use crate::lists::list_of;
use crate::parts::{Form, Gathering, Keying, Title};
use crate::steps::NOWHERE;
use items::{Items, Memory};
use js_code::{ListKind, Node};
use js_heap::Env;
use js_meaning::Completion;
use js_value::{Kind, Object, Primitive, Str, Value, show_number};
use std::alloc::Global;

/// The expressions of a list that are left begin, or what is done with their values.
#[inline(never)]
pub fn begin_list(
    frames: &mut Vec<Frame>,
    node: &Node,
    env: Env,
    values: Items<Value>,
    gathering: Gathering,
) -> Result<Control, Memory>
    ensures means { IfOk result (λ control. (t : View) → ComesTo t frames.old.items (M.comp_values t.program (as_exprs (build t.tree node.now)) env.index values (gathered t gathering)) frames.new.items control) }
    ensures less { IfOk result (λ control. (w : Weights) → Lighter w frames.old.items (node_weight w node.now) frames.new.items control) }
{
    match list_of(node, ListKind::Exprs) {
        Some((first, rest)) => with_frame(
            frames,
            Frame::Value(Pending::Item {
                rest,
                env,
                values,
                gathering,
            }),
            Control::Begin(Task::Evaluate { place: first, env }),
        ),
        None => Ok(Control::Do(Action::Gathered { gathering, values })),
    }
}

/// The parts of a template that are left begin, or the whole text is there.
#[inline(never)]
pub fn begin_template(node: &Node, env: Env, units: Str) -> Control
    ensures means { (t : View) → control_comp t result ≡ M.comp_template_parts t.program (as_template_parts (build t.tree node.now)) env.index units }
    ensures less { (w : Weights) → control_weight w result < node_weight w node.now }
{
    match list_of(node, ListKind::TemplateParts) {
        Some((first, rest)) => Control::Begin(Task::TemplatePart {
            part: first,
            rest,
            env,
            units,
        }),
        None => Control::Give(Completion::Normal(Value::Primitive(Primitive::Text(units)))),
    }
}

/// A part of a template begins.
#[inline(never)]
pub fn begin_template_part(
    frames: &mut Vec<Frame>,
    node: &Node,
    part: usize,
    rest: usize,
    env: Env,
    units: Str,
) -> Result<Control, Memory>
    ensures means { IfOk result (λ control. (t : View) → t.tree part ≡ build t.tree node.now →
        ComesTo t frames.old.items (M.comp_template_parts t.program (P.more_template_part (as_template_part (build t.tree node.now)) (as_template_parts (t.tree rest))) env.index units) frames.new.items control) }
    ensures less { IfOk result (λ control. (w : Weights) → Lighter w frames.old.items (node_weight w node.now + w rest) frames.new.items control) }
{
    let pending = Pending::TemplatePart {
        part,
        rest,
        env,
        units,
    };
    match node {
        Node::TemplatePart { value, .. } => with_frame(
            frames,
            Frame::Value(pending),
            Control::Begin(Task::Evaluate { place: *value, env }),
        ),
        _ => with_frame(
            frames,
            Frame::Value(pending),
            Control::Give(Completion::Normal(Value::Primitive(Primitive::Null))),
        ),
    }
}

/// The properties of an object that are left begin, or the object is given.
#[inline(never)]
pub fn begin_properties(
    frames: &mut Vec<Frame>,
    node: &Node,
    env: Env,
    object: Object,
) -> Result<Control, Memory>
    ensures means { IfOk result (λ control. (t : View) → ComesTo t frames.old.items (M.comp_properties t.program (as_properties (build t.tree node.now)) env.index object.index) frames.new.items control) }
    ensures less { IfOk result (λ control. (w : Weights) → Lighter w frames.old.items (node_weight w node.now) frames.new.items control) }
{
    match list_of(node, ListKind::Properties) {
        Some((first, rest)) => with_frame(
            frames,
            Frame::Value(Pending::Property { rest, env, object }),
            Control::Begin(Task::DefineOne {
                property: first,
                env,
                object,
            }),
        ),
        None => Ok(Control::Give(Completion::Normal(Value::Object(object)))),
    }
}

/// A property begins.
#[inline(never)]
pub fn begin_property(
    frames: &mut Vec<Frame>,
    node: &Node,
    place: usize,
    env: Env,
    object: Object,
) -> Result<Control, Memory>
    ensures means { IfOk result (λ control. (t : View) → t.name place ≡ name_of node.now → t.name NOWHERE ≡ [] →
        ComesTo t frames.old.items (M.comp_property t.program (as_property (build t.tree node.now)) env.index object.index) frames.new.items control) }
    ensures less { IfOk result (λ control. (w : Weights) → Lighter w frames.old.items (node_weight w node.now) frames.new.items control) }
{
    match node {
        Node::Shorthand { .. } => with_frame(
            frames,
            Frame::Value(Pending::As {
                object,
                key: Title::Name(place),
            }),
            Control::Do(Action::Read { name: place, env }),
        ),
        Node::KeyValue { key, value, .. } => Ok(Control::Begin(Task::Key {
            key: *key,
            env,
            next: Keying::Value {
                value: *value,
                object,
            },
        })),
        Node::Method { key, function, .. } => Ok(Control::Begin(Task::Key {
            key: *key,
            env,
            next: Keying::Method {
                function: *function,
                object,
            },
        })),
        _ => with_frame(
            frames,
            Frame::Value(Pending::As {
                object,
                key: Title::Name(NOWHERE),
            }),
            Control::Do(Action::Read { name: NOWHERE, env }),
        ),
    }
}

/// The key of a property begins.
#[inline(never)]
pub fn begin_key(
    alloc: Global,
    frames: &mut Vec<Frame>,
    node: &Node,
    place: usize,
    env: Env,
    next: Keying,
) -> Result<Control, Memory>
    ensures means { IfOk result (λ control. (t : View) → t.name place ≡ name_of node.now → t.name NOWHERE ≡ [] →
        ComesTo t frames.old.items (M.comp_key t.program (as_property_key (build t.tree node.now)) env.index (keyed t next env.index)) frames.new.items control) }
    ensures less { IfOk result (λ control. (w : Weights) → Lighter w frames.old.items (node_weight w node.now + keying_weight w next) frames.new.items control) }
{
    match node {
        Node::NameKey { .. } => Ok(Control::Begin(Task::Keyed {
            next,
            env,
            key: Title::Name(place),
        })),
        Node::StringKey { literal } => Ok(Control::Begin(Task::Keyed {
            next,
            env,
            key: Title::Text(literal.units.copy()?),
        })),
        Node::NumberKey { numeral } => begin_number_key(alloc, numeral.value(), env, next),
        Node::ComputedKey { value } => with_frame(
            frames,
            Frame::Value(Pending::Key { next, env }),
            Control::Begin(Task::Evaluate { place: *value, env }),
        ),
        _ => Ok(Control::Begin(Task::Keyed {
            next,
            env,
            key: Title::Name(NOWHERE),
        })),
    }
}

// A key that is a number.
fn begin_number_key(
    alloc: Global,
    number: Option<i64>,
    env: Env,
    next: Keying,
) -> Result<Control, Memory>
    ensures means { IfOk result (λ control. (t : View) → control_comp t control ≡ M.number_key number (keyed t next env.index)) }
    ensures less { IfOk result (λ control. (w : Weights) → control_weight w control < 20 + keying_weight w next) }
{
    match number {
        None => {
            drop(next);
            Ok(Control::Refuse(Kind::Number))
        }
        Some(number) => Ok(Control::Begin(Task::Keyed {
            next,
            env,
            key: Title::Text(show_number(alloc, number)?),
        })),
    }
}

/// What a key is for begins.
#[inline(never)]
pub fn begin_keyed(
    frames: &mut Vec<Frame>,
    next: Keying,
    env: Env,
    key: Title,
) -> Result<Control, Memory>
    ensures means { IfOk result (λ control. (t : View) → ComesTo t frames.old.items (keyed t next env.index (units_of t key)) frames.new.items control) }
    ensures less { IfOk result (λ control. (w : Weights) → Lighter w frames.old.items (keying_weight w next) frames.new.items control) }
{
    let title = copy_title(&key)?;
    match next {
        Keying::Value { value, object } => with_frame(
            frames,
            Frame::Value(Pending::As { object, key }),
            Control::Begin(Task::EvaluateNamed {
                title,
                place: value,
                env,
            }),
        ),
        Keying::Method { function, object } => with_frame(
            frames,
            Frame::Value(Pending::As { object, key }),
            Control::Do(Action::Close {
                form: Form::Method,
                function,
                title,
                env,
            }),
        ),
    }
}
