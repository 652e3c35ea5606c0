// Operators whose answer may stand in the heap.

ghost use Rattle.std.specs.Prelude.{◌≡◌, ◌<◌, IfOk, IsTrue};
ghost use Rattle.js_value.specs.Operators as spec;
ghost use Rattle.js_value.specs.Operators.{has_answer};
ghost use Rattle.js_value.specs.UnaryOperators.{has_unary_answer, unary as unary_answer};
ghost use Rattle.js_heap.specs.Heap.{heap_of};
ghost use Rattle.js_meaning.specs.Meaning as M;
ghost use Rattle.js_machine.specs.private.Config.{View, control_comp, operated_on, operated_unary_on};
ghost use Rattle.js_machine.specs.private.Weight.{Weights, control_weight};

use crate::data::Control;
use crate::steps::halted;
use items::Memory;
use js_heap::Heap;
use js_host::{is_in, is_instance, type_in};
use js_meaning::Completion;
use js_tree::{BinaryOperator, UnaryOperator};
use js_value::{OpFault, Primitive, Value, binary, unary};
use std::alloc::{AllocError, Global};

/// A binary operator of two values.
#[inline(never)]
pub fn operate(
    alloc: Global,
    heap: &Heap,
    operator: BinaryOperator,
    left: &Value,
    right: &Value,
) -> Result<Control, Memory>
    ensures means { IfOk result (λ control. (t : View) → control_comp t control ≡ operated_on (heap_of heap.now) operator left.now right.now) }
    ensures less { IfOk result (λ control. (w : Weights) → control_weight w control < 2) }
{
    match operator {
        BinaryOperator::In => match is_in(alloc, heap, left, right) {
            Ok(holds) => Ok(truth(holds)),
            Err(halt) => halted(halt),
        },
        BinaryOperator::InstanceOf => match is_instance(alloc, heap, left, right) {
            Ok(holds) => Ok(truth(holds)),
            Err(halt) => halted(halt),
        },
        _ => calculate(alloc, operator, left, right),
    }
}

// `true` or `false` for what waits.
fn truth(holds: bool) -> Control
    ensures { result ≡ Control.Give (Completion.Normal (Value.Primitive (Primitive.Boolean holds))) }
{
    Control::Give(Completion::Normal(Value::Primitive(Primitive::Boolean(holds))))
}

// A binary operator that looks at no object.
fn calculate(
    alloc: Global,
    operator: BinaryOperator,
    left: &Value,
    right: &Value,
) -> Result<Control, Memory>
    requires { IsTrue (has_answer operator) }
    ensures means { IfOk result (λ control. (t : View) → control_comp t control ≡ M.answered (spec.binary operator left.now right.now)) }
    ensures less { IfOk result (λ control. (w : Weights) → control_weight w control ≡ 0) }
{
    match binary(alloc, operator, left, right) {
        Ok(value) => Ok(Control::Give(Completion::Normal(value))),
        Err(OpFault::Refuse(kind)) => Ok(Control::Refuse(kind)),
        Err(OpFault::Memory) => Err(AllocError),
    }
}

/// A unary operator of a value.
#[inline(never)]
pub fn operate_unary(
    alloc: Global,
    heap: &Heap,
    operator: UnaryOperator,
    value: &Value,
) -> Result<Control, Memory>
    ensures means { IfOk result (λ control. (t : View) → control_comp t control ≡ operated_unary_on (heap_of heap.now) operator value.now) }
    ensures less { IfOk result (λ control. (w : Weights) → control_weight w control ≡ 0) }
{
    match operator {
        UnaryOperator::Delete => Ok(truth(true)),
        UnaryOperator::Void => Ok(Control::Give(Completion::Normal(Value::Primitive(
            Primitive::Undefined,
        )))),
        UnaryOperator::TypeOf => Ok(Control::Give(Completion::Normal(Value::Primitive(
            Primitive::Text(type_in(alloc, heap, value)?),
        )))),
        _ => Ok(calculate_unary(operator, value)),
    }
}

// A unary operator that looks at no object.
fn calculate_unary(operator: UnaryOperator, value: &Value) -> Control
    requires { IsTrue (has_unary_answer operator) }
    ensures means { (t : View) → control_comp t result ≡ M.answered (unary_answer operator value.now) }
    ensures less { (w : Weights) → control_weight w result ≡ 0 }
{
    match unary(operator, value) {
        Ok(value) => Control::Give(Completion::Normal(value)),
        Err(kind) => Control::Refuse(kind),
    }
}
