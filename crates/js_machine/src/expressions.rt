// What an expression begins with.

ghost use Rattle.std.specs.Prelude.{◌≡◌, ◌<◌, ◌+◌, ◌*◌, Option, IfOk};
ghost use Rattle.js_terms.specs.declared.place.Loc.{Loc};
ghost use Rattle.js_tree.specs.Plain.{FunctionExpression, Unary};
ghost use Rattle.js_code.specs.Node.{build, function_of};
ghost use Rattle.js_code.specs.Part.{as_code, as_expr};
ghost use Rattle.js_meaning.specs.Meaning.{comp_expr, operator_of as operator_told};
ghost use Rattle.js_machine.specs.private.Config.{View, name_of, own_name, control_comp};
ghost use Rattle.js_machine.specs.private.Weight.{Weights, node_weight, control_weight};
ghost use Rattle.js_machine.specs.private.Frames.{ComesTo, Lighter};

use crate::data::{Action, Control, Frame, Pending, Task};
use crate::frames::with_frame;
use crate::parts::{Form, Gathering, Referring, Title};
use crate::steps::{number, primitive};
use items::{Items, Memory};
use js_code::{Node, SharedIdentifier};
use js_heap::Env;
use js_tree::{AssignmentOperator, BinaryOperator, UnaryOperator};
use js_value::Primitive;
use std::alloc::Global;

/// The expression at a place begins.
#[inline(never)]
pub fn begin_expression(
    alloc: Global,
    frames: &mut Vec<Frame>,
    node: &Node,
    place: usize,
    env: Env,
) -> Result<Control, Memory>
    ensures means { IfOk result (λ control. (t : View) → t.name place ≡ name_of node.now →
        ComesTo t frames.old.items (comp_expr t.program (as_expr (build t.tree node.now)) env.index) frames.new.items control) }
    ensures less { IfOk result (λ control. (w : Weights) → Lighter w frames.old.items (node_weight w node.now) frames.new.items control) }
{
    match node {
        Node::IdentifierReference { .. } => { Ok(Control::Do(Action::Read { name: place, env })) }
        Node::This { .. } => Ok(Control::Do(Action::Read { name: place, env })),
        Node::NullLiteral { .. } => Ok(primitive(Primitive::Null)),
        Node::BooleanLiteral { value, .. } => Ok(primitive(Primitive::Boolean(*value))),
        Node::NumericLiteral { numeral, .. } => Ok(number(numeral.value())),
        Node::StringLiteral { literal, .. } => Ok(primitive(Primitive::Text(
            literal.units.copy()?,
        ))),
        Node::ArrayLiteral { items, .. } => Ok(Control::Begin(Task::Gather {
            place: *items,
            env,
            values: Items::new(alloc),
            gathering: Gathering::Array,
        })),
        Node::ObjectLiteral { properties, .. } => Ok(Control::Do(Action::MakeObject {
            properties: *properties,
            env,
        })),
        Node::FunctionExpression { name, function, .. } => {
            Ok(begin_function(name, *function, place, env))
        }
        Node::ArrowFunction { function, .. } => Ok(Control::Do(Action::Close {
            form: Form::Arrow,
            function: *function,
            title: Title::Empty,
            env,
        })),
        Node::RegularExpressionLiteral { .. } => Ok(Control::Do(Action::MakeRegExp)),
        Node::TemplateLiteral { text, parts, .. } => Ok(Control::Begin(Task::Template {
            parts: *parts,
            env,
            units: text.units.copy()?,
        })),
        Node::Parenthesized { inner, .. } => Ok(Control::Begin(Task::Evaluate {
            place: *inner,
            env,
        })),
        Node::NamedMember { object, .. } => with_frame(
            frames,
            Frame::Value(Pending::NamedMember { name: place }),
            Control::Begin(Task::Evaluate {
                place: *object,
                env,
            }),
        ),
        Node::ComputedMember { object, key, .. } => with_frame(
            frames,
            Frame::Value(Pending::MemberObject { key: *key, env }),
            Control::Begin(Task::Evaluate {
                place: *object,
                env,
            }),
        ),
        Node::New {
            constructor,
            arguments,
            ..
        } => with_frame(
            frames,
            Frame::Value(Pending::Constructor {
                arguments: *arguments,
                env,
            }),
            Control::Begin(Task::Evaluate {
                place: *constructor,
                env,
            }),
        ),
        Node::Call {
            callee,
            arguments,
            ..
        } => Ok(Control::Begin(Task::Refer {
            place: *callee,
            env,
            next: Referring::Call {
                arguments: *arguments,
            },
        })),
        Node::PostfixUpdate {
            operator,
            target,
            ..
        } => Ok(Control::Begin(Task::Refer {
            place: *target,
            env,
            next: Referring::Update {
                prefix: false,
                operator: *operator,
            },
        })),
        Node::PrefixUpdate {
            operator,
            target,
            ..
        } => Ok(Control::Begin(Task::Refer {
            place: *target,
            env,
            next: Referring::Update {
                prefix: true,
                operator: *operator,
            },
        })),
        Node::Unary {
            operator,
            operand,
            ..
        } => begin_unary(frames, *operator, *operand, env),
        Node::Binary {
            operator,
            left,
            right,
            ..
        } => with_frame(
            frames,
            Frame::Value(Pending::Left {
                operator: *operator,
                right: *right,
                env,
            }),
            Control::Begin(Task::Evaluate { place: *left, env }),
        ),
        Node::Logical {
            operator,
            left,
            right,
            ..
        } => with_frame(
            frames,
            Frame::Value(Pending::Logical {
                operator: *operator,
                right: *right,
                env,
            }),
            Control::Begin(Task::Evaluate { place: *left, env }),
        ),
        Node::Conditional {
            test,
            holds,
            fails,
            ..
        } => with_frame(
            frames,
            Frame::Value(Pending::Conditional {
                holds: *holds,
                fails: *fails,
                env,
            }),
            Control::Begin(Task::Evaluate { place: *test, env }),
        ),
        Node::Assignment {
            operator,
            target,
            value,
            ..
        } => Ok(Control::Begin(Task::Refer {
            place: *target,
            env,
            next: Referring::Assign {
                operator: operator_of(*operator),
                value: *value,
            },
        })),
        Node::Comma { left, right, .. } => with_frame(
            frames,
            Frame::Value(Pending::Comma { right: *right, env }),
            Control::Begin(Task::Evaluate { place: *left, env }),
        ),
        _ => Ok(primitive(Primitive::Null)),
    }
}

// A function, which may have a name of its own, that of its node.
fn begin_function(
    own: &Option<SharedIdentifier>,
    function: usize,
    place: usize,
    env: Env,
) -> Control
    ensures means { (t : View) (loc : Option Loc) → t.name place ≡ own_name own.now →
        control_comp t result ≡ comp_expr t.program (FunctionExpression loc own.now (function_of (as_code (t.tree function)))) env.index }
    ensures less { (w : Weights) → control_weight w result < 8 }
{
    match own {
        None => Control::Do(Action::Close {
            form: Form::Ordinary,
            function,
            title: Title::Empty,
            env,
        }),
        Some(_) => Control::Do(Action::OwnName {
            name: place,
            function,
            env,
        }),
    }
}

// A unary operator: `delete` is about a reference, and `typeof` may be of a name that is not there.
fn begin_unary(
    frames: &mut Vec<Frame>,
    operator: UnaryOperator,
    operand: usize,
    env: Env,
) -> Result<Control, Memory>
    ensures means { IfOk result (λ control. (t : View) (loc : Option Loc) → ComesTo t frames.old.items (comp_expr t.program (Unary loc operator (as_expr (t.tree operand))) env.index) frames.new.items control) }
    ensures less { IfOk result (λ control. (w : Weights) → Lighter w frames.old.items (2 * w operand + 20) frames.new.items control) }
{
    match operator {
        UnaryOperator::Delete => Ok(Control::Begin(Task::Refer {
            place: operand,
            env,
            next: Referring::Delete,
        })),
        UnaryOperator::TypeOf => Ok(Control::Begin(Task::TypeOf {
            place: operand,
            env,
        })),
        _ => with_frame(
            frames,
            Frame::Value(Pending::Operand { operator }),
            Control::Begin(Task::Evaluate {
                place: operand,
                env,
            }),
        ),
    }
}

/// The operator that an assignment performs.
pub fn operator_of(operator: AssignmentOperator) -> Option<BinaryOperator>
    ensures { result ≡ operator_told operator }
{
    match operator {
        AssignmentOperator::Assign => None,
        AssignmentOperator::ExponentiateAssign => Some(BinaryOperator::Exponentiate),
        AssignmentOperator::MultiplyAssign => Some(BinaryOperator::Multiply),
        AssignmentOperator::DivideAssign => Some(BinaryOperator::Divide),
        AssignmentOperator::RemainderAssign => Some(BinaryOperator::Remainder),
        AssignmentOperator::AddAssign => Some(BinaryOperator::Add),
        AssignmentOperator::SubtractAssign => Some(BinaryOperator::Subtract),
        AssignmentOperator::LeftShiftAssign => Some(BinaryOperator::LeftShift),
        AssignmentOperator::SignedRightShiftAssign => Some(BinaryOperator::SignedRightShift),
        AssignmentOperator::UnsignedRightShiftAssign => Some(BinaryOperator::UnsignedRightShift),
        AssignmentOperator::BitwiseAndAssign => Some(BinaryOperator::BitwiseAnd),
        AssignmentOperator::BitwiseXorAssign => Some(BinaryOperator::BitwiseXor),
        AssignmentOperator::BitwiseOrAssign => Some(BinaryOperator::BitwiseOr),
    }
}
