// How what waits for a value goes on with it.

ghost use Rattle.std.specs.Prelude.{IfOk};
ghost use Rattle.js_machine.specs.private.Config.{View, pending_comp};
ghost use Rattle.js_machine.specs.private.Weight.{Weights, pending_weight};
ghost use Rattle.js_machine.specs.private.Frames.{ComesTo, Lighter};

use crate::data::{Action, Control, Frame, Pending, Task};
use crate::frames::with_frame;
use crate::operators::{
    choose, choose_statement, key_text, logical, next_param, subject, take_pass, template_text,
    tested, turn, update,
};
use crate::parts::{Gathering, MemberKey, Reference, Scoped};
use crate::references::put;
use crate::statements::bind_to;
use crate::steps::undefined;
use items::{Items, Memory};
use js_meaning::Completion;
use js_value::Value;
use std::alloc::Global;

/// What waits for a value goes on with it.
#[inline(never)]
pub fn go_on(
    alloc: Global,
    frames: &mut Vec<Frame>,
    pending: Pending,
    value: Value,
) -> Result<Control, Memory>
    ensures means { IfOk result (λ control. (t : View) → ComesTo t frames.old.items (pending_comp t pending value) frames.new.items control) }
    ensures less { IfOk result (λ control. (w : Weights) → Lighter w frames.old.items (pending_weight w pending) frames.new.items control) }
{
    match pending {
        Pending::NamedMember { name } => Ok(Control::Do(Action::GetMember {
            base: value,
            key: MemberKey::Name(name),
        })),
        Pending::MemberObject { key, env } => with_frame(
            frames,
            Frame::Value(Pending::MemberKey { base: value }),
            Control::Begin(Task::Evaluate { place: key, env }),
        ),
        Pending::MemberKey { base } => Ok(Control::Do(Action::GetMember {
            base,
            key: MemberKey::Value(value),
        })),
        Pending::Constructor { arguments, env } => Ok(Control::Begin(Task::Gather {
            place: arguments,
            env,
            values: Items::new(alloc),
            gathering: Gathering::Construct { maker: value },
        })),
        Pending::Callee {
            arguments,
            env,
            this,
        } => Ok(Control::Begin(Task::Gather {
            place: arguments,
            env,
            values: Items::new(alloc),
            gathering: Gathering::Call {
                callee: value,
                this,
            },
        })),
        Pending::Item {
            rest,
            env,
            mut values,
            gathering,
        } => {
            values.push(value)?;
            Ok(Control::Begin(Task::Gather {
                place: rest,
                env,
                values,
                gathering,
            }))
        }
        Pending::Operand { operator } => {
            Ok(Control::Do(Action::OperateUnary { operator, value }))
        }
        Pending::Left {
            operator,
            right,
            env,
        } => with_frame(
            frames,
            Frame::Value(Pending::Right {
                operator,
                left: value,
            }),
            Control::Begin(Task::Evaluate { place: right, env }),
        ),
        Pending::Right { operator, left } => Ok(Control::Do(Action::Operate {
            operator,
            left,
            right: value,
        })),
        Pending::Logical {
            operator,
            right,
            env,
        } => Ok(logical(operator, right, env, value)),
        Pending::Conditional { holds, fails, env } => {
            let control = choose(holds, fails, env, &value);
            drop(value);
            Ok(control)
        }
        Pending::Comma { right, env } => {
            drop(value);
            Ok(Control::Begin(Task::Evaluate { place: right, env }))
        }
        Pending::ReferNamed { name, env, next } => Ok(Control::Begin(Task::Referred {
            next,
            env,
            reference: Reference::Member {
                base: value,
                key: MemberKey::Name(name),
            },
        })),
        Pending::ReferObject { key, env, next } => with_frame(
            frames,
            Frame::Value(Pending::ReferKey {
                base: value,
                env,
                next,
            }),
            Control::Begin(Task::Evaluate { place: key, env }),
        ),
        Pending::ReferKey { base, env, next } => Ok(Control::Begin(Task::Referred {
            next,
            env,
            reference: Reference::Member {
                base,
                key: MemberKey::Value(value),
            },
        })),
        Pending::Put { reference, env } => Ok(put(reference, env, value)),
        Pending::Old {
            operator,
            value: right,
            reference,
            env,
        } => with_frame(
            frames,
            Frame::Value(Pending::New {
                operator,
                left: value,
                reference,
                env,
            }),
            Control::Begin(Task::Evaluate { place: right, env }),
        ),
        Pending::New {
            operator,
            left,
            reference,
            env,
        } => with_frame(
            frames,
            Frame::Value(Pending::Put { reference, env }),
            Control::Do(Action::Operate {
                operator,
                left,
                right: value,
            }),
        ),
        Pending::Update {
            prefix,
            operator,
            reference,
            env,
        } => {
            let control = update(frames, prefix, operator, reference, env, &value);
            drop(value);
            control
        }
        Pending::Instead(completion) => {
            drop(value);
            Ok(Control::Give(completion))
        }
        Pending::TemplatePart {
            part,
            rest,
            env,
            units,
        } => {
            let control = template_text(alloc, part, rest, env, units, &value);
            drop(value);
            control
        }
        Pending::Property { rest, env, object } => {
            drop(value);
            Ok(Control::Begin(Task::DefineAll {
                properties: rest,
                env,
                object,
            }))
        }
        Pending::As { object, key } => { Ok(Control::Do(Action::Define { object, key, value })) }
        Pending::Key { next, env } => {
            let control = key_text(alloc, next, env, &value);
            drop(value);
            control
        }
        Pending::BindTo { kind, name, env } => Ok(bind_to(kind, name, env, value)),
        Pending::Declarator { kind, rest, env } => {
            drop(value);
            Ok(Control::Begin(Task::Declare {
                kind,
                declarators: rest,
                env,
            }))
        }
        Pending::Discard => {
            drop(value);
            Ok(undefined())
        }
        Pending::Statement { rest, env } => {
            drop(value);
            Ok(Control::Begin(Task::ExecuteAll { place: rest, env }))
        }
        Pending::Choose { holds, fails, env } => {
            let control = choose_statement(alloc, holds, fails, env, &value);
            drop(value);
            Ok(control)
        }
        Pending::Turn {
            statement,
            labels,
            env,
        } => {
            let control = turn(statement, labels, env, &value);
            drop(value);
            Ok(control)
        }
        Pending::Started {
            init,
            test,
            statement,
            labels,
            env,
        } => {
            drop(value);
            Ok(Control::Do(Action::Anew {
                init,
                next: Scoped::Turn {
                    test,
                    statement,
                    labels,
                },
                env,
            }))
        }
        Pending::Updated {
            test,
            statement,
            labels,
            env,
        } => {
            drop(value);
            Ok(Control::Begin(Task::Test {
                test,
                statement,
                labels,
                env,
            }))
        }
        Pending::Subject { keys, round } => Ok(subject(keys, round, value)),
        Pending::Taken { round, inner, rest } => {
            drop(value);
            Ok(take_pass(round, inner, rest))
        }
        Pending::Switch { cases, env } => {
            Ok(Control::Do(Action::EnterSwitch { cases, value, env }))
        }
        Pending::Tested {
            statements,
            rest,
            all,
            value: sought,
            env,
        } => {
            let control = tested(frames, statements, rest, all, sought, env, &value);
            drop(value);
            control
        }
        Pending::Fallen { rest, env } => {
            drop(value);
            Ok(Control::Begin(Task::Fall { cases: rest, env }))
        }
        Pending::Return => Ok(Control::Give(Completion::Return(value))),
        Pending::Throw => Ok(Control::Give(Completion::Throw(value))),
        Pending::OwnName { name, env } => {
            Ok(Control::Do(Action::Initialize { name, env, value }))
        }
        Pending::Param {
            param,
            rest,
            arguments,
            next,
            env,
        } => with_frame(
            frames,
            Frame::Value(Pending::NextParam {
                rest,
                arguments,
                next,
                env,
            }),
            Control::Do(Action::Initialize {
                name: param,
                env,
                value,
            }),
        ),
        Pending::NextParam {
            rest,
            arguments,
            next,
            env,
        } => {
            drop(value);
            Ok(next_param(rest, arguments, next, env))
        }
        Pending::Bound { function, env } => {
            drop(value);
            Ok(Control::Do(Action::EnterBody { function, env }))
        }
    }
}
