// What is next where nothing of the code begins.

ghost use Rattle.std.specs.Prelude.{◌≡◌, ◌<◌, IfOk, IsErr};
ghost use Rattle.js_meaning.specs.Meaning.{halted as halted_comp, number as number_comp};
ghost use Rattle.js_machine.specs.private.Config.{View, control_comp};
ghost use Rattle.js_machine.specs.private.Weight.{Weights, control_weight};

use crate::data::{Action, Control};
use items::Memory;
use js_meaning::Completion;
use js_value::{Halt, Kind, Primitive, Value};
use std::alloc::AllocError;

/// The place of no node, which has no name.
pub const NOWHERE: usize = usize::MAX;

/// A primitive value for what waits.
pub fn primitive(primitive: Primitive) -> Control
    ensures { result ≡ Control.Give (Completion.Normal (Value.Primitive primitive)) }
{
    Control::Give(Completion::Normal(Value::Primitive(primitive)))
}

/// The value undefined for what waits.
pub fn undefined() -> Control
    ensures { result ≡ Control.Give (Completion.Normal (Value.Primitive Primitive.Undefined)) }
{
    primitive(Primitive::Undefined)
}

/// A number, or the refusal of one that is out of range.
pub fn number(number: Option<i64>) -> Control
    ensures means { (t : View) → control_comp t result ≡ number_comp number }
    ensures less { (w : Weights) → control_weight w result ≡ 0 }
{
    match number {
        Some(number) => primitive(Primitive::Number(number)),
        None => Control::Refuse(Kind::Number),
    }
}

/// What is done in place of a value.
pub fn halted(halt: Halt) -> Result<Control, Memory>
    ensures means { IfOk result (λ control. (t : View) → control_comp t control ≡ halted_comp halt) }
    ensures less { IfOk result (λ control. (w : Weights) → control_weight w control < 2) }
    ensures memory { halt ≡ Halt.Memory → IsErr result }
{
    match halt {
        Halt::Throw(complaint) => Ok(Control::Do(Action::Throw(complaint))),
        Halt::Refuse(kind) => Ok(Control::Refuse(kind)),
        Halt::Memory => Err(AllocError),
    }
}
