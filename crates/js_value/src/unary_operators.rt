ghost use Rattle.std.specs.Prelude.{◌≡◌, IfOk, IfErr, IsTrue};
ghost use Rattle.js_value.specs.Conversions.{Refuses, Is, NoNumber, given};
ghost use Rattle.js_value.specs.Numbers.{ranged};
ghost use Rattle.js_value.specs.UnaryOperators as spec;

use crate::bits::bitwise_not;
use crate::conversions::{to_boolean, to_number};
use crate::digits::in_range;
use crate::numbers::ascii;
use crate::value::{Kind, Primitive, Str, Value};
use items::Memory;
use js_terms::{UnaryOperator, UpdateOperator};
use std::alloc::Global;

/// A unary operator of a value (ECMA-262, 13.5), but for `delete`, `void` and `typeof`: the primitive
/// value that it gives, or the kind of its refusal. It takes no memory.
pub fn unary(operator: UnaryOperator, operand: &Value) -> Result<Value, Kind>
    requires { IsTrue (spec.has_unary_answer operator) }
    ensures ok { IfOk result (λ value. given (spec.unary operator operand.now) ≡ Some value) }
    ensures refused { IfErr result (λ kind. spec.unary operator operand.now ≡ Refuses kind) }
{
    if let UnaryOperator::LogicalNot = operator {
        return Ok(Value::Primitive(Primitive::Boolean(!to_boolean(operand))));
    }
    match calculated(operator, to_number(operand)?) {
        Some(number) => Ok(Value::Primitive(Primitive::Number(number))),
        None => Err(Kind::Number),
    }
}

/// What an operator makes of a number, where that is in range.
fn calculated(operator: UnaryOperator, number: i64) -> Option<i64>
    ensures { result ≡ spec.calculated_unary operator number }
{
    match operator {
        UnaryOperator::Plus => in_range(number),
        UnaryOperator::Minus => in_range(number.checked_neg()?),
        UnaryOperator::BitwiseNot => Some(bitwise_not(number)),
        _ => None,
    }
}

/// `typeof` of a primitive value (13.5.3), or want of memory.
pub fn type_of(alloc: Global, primitive: &Primitive) -> Result<Str, Memory>
    ensures { IfOk result (λ text. text ≡ spec.type_of primitive.now) }
{
    match primitive {
        Primitive::Undefined => ascii(alloc, b"undefined"),
        Primitive::Null => ascii(alloc, b"object"),
        Primitive::Boolean(_) => ascii(alloc, b"boolean"),
        Primitive::Number(_) => ascii(alloc, b"number"),
        Primitive::Text(_) => ascii(alloc, b"string"),
    }
}

/// What `++` or `--` makes of the number that ToNumber answered (13.4): one more or one less, or the
/// kind of the refusal. It takes no memory.
pub fn step(operator: UpdateOperator, number: i64) -> Result<i64, Kind>
    ensures ok { IfOk result (λ next. spec.stepped operator number ≡ Is next) }
    ensures refused { IfErr result (λ kind. spec.stepped operator number ≡ NoNumber kind) }
{
    match next(operator, number) {
        Some(next) => Ok(next),
        None => Err(Kind::Number),
    }
}

/// One more, or one less, where that is in range.
fn next(operator: UpdateOperator, number: i64) -> Option<i64>
    ensures { result ≡ ranged (spec.next operator number) }
{
    match operator {
        UpdateOperator::Increment => in_range(number.checked_add(1)?),
        UpdateOperator::Decrement => in_range(number.checked_sub(1)?),
    }
}
