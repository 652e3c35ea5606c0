ghost use Rattle.std.specs.Prelude.{◌≡◌, ◌++◌, ◌↔◌, IfOk, IsTrue};
ghost use Rattle.js_value.specs.Operators as spec;
ghost use Rattle.js_value.specs.Operators.{Refuses};

use crate::arithmetic::{difference, power, product, quotient, remainder, sum};
use crate::bits::{
    bitwise_and, bitwise_or, bitwise_xor, left_shift, signed_right_shift, unsigned_right_shift,
};
use crate::conversions::{number_of_primitive, text_of_primitive, to_number};
use crate::equality::{loosely_equal, strictly_equal};
use crate::order::compare_values;
use crate::value::{Kind, OpFault, Primitive, Str, Value};
use items::Memory;
use js_terms::BinaryOperator;
use std::alloc::Global;

/// A binary operator of two values (ECMA-262, 13.6 to 13.12), but for `in` and `instanceof`, which look
/// into the heap: the primitive value that it gives, the kind of its refusal, or want of memory, for a
/// text alone.
pub fn binary(
    alloc: Global,
    operator: BinaryOperator,
    left: &Value,
    right: &Value,
) -> Result<Value, OpFault>
    requires { IsTrue (spec.has_answer operator) }
    ensures ok { IfOk result (λ value. spec.given (spec.binary operator left.now right.now) ≡ Some value) }
    ensures refused { (kind : Kind) → (result ≡ Err (OpFault.Refuse kind))
        ↔ (spec.binary operator left.now right.now ≡ Refuses kind) }
    ensures memory { result ≡ Err OpFault.Memory → IsTrue (spec.gives_text (spec.binary operator left.now right.now)) }
{
    answer(alloc, operator, left, right)
}

/// The same, where a result is told by one relation.
fn answer(
    alloc: Global,
    operator: BinaryOperator,
    left: &Value,
    right: &Value,
) -> Result<Value, OpFault>
    requires { IsTrue (spec.has_answer operator) }
    ensures { spec.Answers (spec.binary operator left.now right.now) result }
{
    match operator {
        BinaryOperator::Add => add(alloc, left, right),
        BinaryOperator::LessThan => Ok(truth(compare_values(left, right)?.is_lt())),
        BinaryOperator::GreaterThan => Ok(truth(compare_values(left, right)?.is_gt())),
        BinaryOperator::LessThanOrEqual => Ok(truth(compare_values(left, right)?.is_le())),
        BinaryOperator::GreaterThanOrEqual => Ok(truth(compare_values(left, right)?.is_ge())),
        BinaryOperator::Equal => Ok(truth(loosely_equal(left, right)?)),
        BinaryOperator::NotEqual => Ok(truth(!loosely_equal(left, right)?)),
        BinaryOperator::StrictEqual => Ok(truth(strictly_equal(left, right))),
        BinaryOperator::StrictNotEqual => Ok(truth(!strictly_equal(left, right))),
        BinaryOperator::In | BinaryOperator::InstanceOf => unreachable!(),
        _ => numeric(operator, left, right),
    }
}

/// `true` or `false`.
pub(crate) fn truth(value: bool) -> Value
    ensures { spec.given (spec.truth value) ≡ Some result }
{
    Value::Primitive(Primitive::Boolean(value))
}

/// `+`: a reference on either side refuses Convert.
fn add(alloc: Global, left: &Value, right: &Value) -> Result<Value, OpFault>
    ensures { spec.Answers (spec.add left.now right.now) result }
{
    match (left, right) {
        (Value::Primitive(left), Value::Primitive(right)) => add_primitives(alloc, left, right),
        _ => Err(OpFault::Refuse(Kind::Convert)),
    }
}

/// `+` of two primitive values: where one is a text, both are joined as texts.
fn add_primitives(alloc: Global, left: &Primitive, right: &Primitive) -> Result<Value, OpFault>
    ensures { spec.Answers (spec.add_primitives left.now right.now) result }
{
    if is_text(left) || is_text(right) {
        let text = joined(alloc, left, right)?;
        return Ok(Value::Primitive(Primitive::Text(text)));
    }
    let left = number_of_primitive(left)?;
    let right = number_of_primitive(right)?;
    number_answer(sum(left, right))
}

/// Whether a primitive value is a text.
fn is_text(primitive: &Primitive) -> bool
    ensures { result ≡ spec.is_text primitive.now }
{
    matches!(primitive, Primitive::Text(_))
}

/// The texts of two primitive values, joined, or want of memory.
fn joined(alloc: Global, left: &Primitive, right: &Primitive) -> Result<Str, Memory>
    ensures { IfOk result (λ text. text ≡ spec.text_of_primitive left.now ++ spec.text_of_primitive right.now) }
{
    let left = text_of_primitive(alloc, left)?;
    let right = text_of_primitive(alloc, right)?;
    let mut units = Vec::from_slice(alloc, left.as_slice())?;
    units.extend_from_slice(right.as_slice())?;
    Str::from_vec(units)
}

/// An operator on numbers; a refusal of the left operand comes first.
fn numeric(operator: BinaryOperator, left: &Value, right: &Value) -> Result<Value, OpFault>
    ensures { spec.Answers (spec.numeric operator (spec.to_number left.now) (spec.to_number right.now)) result }
{
    let left = to_number(left)?;
    let right = to_number(right)?;
    number_answer(calculated(operator, left, right))
}

/// A number as an answer: where there is none, Number is refused.
pub(crate) fn number_answer(number: Option<i64>) -> Result<Value, OpFault>
    ensures { spec.Answers (spec.number_answer number) result }
{
    match number {
        Some(number) => Ok(Value::Primitive(Primitive::Number(number))),
        None => Err(OpFault::Refuse(Kind::Number)),
    }
}

/// What an operator makes of two numbers, where that is whole and in range.
fn calculated(operator: BinaryOperator, left: i64, right: i64) -> Option<i64>
    ensures { result ≡ spec.calculated operator left right }
{
    match operator {
        BinaryOperator::Exponentiate => power(left, right),
        BinaryOperator::Multiply => product(left, right),
        BinaryOperator::Divide => quotient(left, right),
        BinaryOperator::Remainder => remainder(left, right),
        BinaryOperator::Add => sum(left, right),
        BinaryOperator::Subtract => difference(left, right),
        BinaryOperator::LeftShift => Some(left_shift(left, right)),
        BinaryOperator::SignedRightShift => Some(signed_right_shift(left, right)),
        BinaryOperator::UnsignedRightShift => Some(unsigned_right_shift(left, right)),
        BinaryOperator::BitwiseAnd => Some(bitwise_and(left, right)),
        BinaryOperator::BitwiseXor => Some(bitwise_xor(left, right)),
        BinaryOperator::BitwiseOr => Some(bitwise_or(left, right)),
        _ => None,
    }
}
