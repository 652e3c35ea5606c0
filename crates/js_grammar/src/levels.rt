ghost use Rattle.std.specs.Prelude.{◌≡◌};
ghost use Rattle.js_reading.specs.Level as spec;
ghost use Rattle.js_reading.specs.Productions as productions;

use js_reading::Form;
use js_tree::{BinaryOperator, LogicalOperator};

/// The level of what a production makes of the expression that it goes on with, 0 where there is none (ECMA-262, 13).
pub fn strength(form: Option<Form>) -> u8
    ensures { result ≡ productions.strength form }
{
    match form {
        Some(form) => form_level(form),
        None => 0,
    }
}

fn form_level(form: Form) -> u8
    ensures { result ≡ productions.form_level form }
{
    match form {
        Form::Call => 20,
        Form::Dot | Form::Member => 21,
        Form::Postfix(_) => 17,
        Form::Binary(operator) => binary_level(operator),
        Form::Logical(operator) => logical_level(operator),
        Form::Conditional => 3,
        Form::Assignment(_) | Form::ArrowOfName => 2,
        Form::Comma => 1,
        _ => 0,
    }
}

/// The least level of the expression that a production goes on with, 0 where there is none.
pub fn wants(form: Option<Form>) -> u8
    ensures { result ≡ productions.wants form }
{
    match form {
        Some(form) => first_level(form),
        None => 0,
    }
}

fn first_level(form: Form) -> u8
    ensures { result ≡ productions.first_level (productions.slots form) }
{
    match form {
        Form::Call | Form::Dot | Form::Member | Form::Postfix(_) | Form::Assignment(_) => 20,
        Form::Binary(BinaryOperator::Exponentiate) => 17,
        Form::Binary(operator) => binary_level(operator),
        Form::Logical(operator) => logical_level(operator),
        Form::Conditional => 4,
        Form::ArrowOfName | Form::Labelled => 22,
        Form::Comma | Form::Expression => 1,
        _ => 0,
    }
}

/// The level of a binary operator's expression.
fn binary_level(operator: BinaryOperator) -> u8
    ensures { result ≡ spec.binary_level operator }
{
    match operator {
        BinaryOperator::Exponentiate => 15,
        BinaryOperator::Multiply | BinaryOperator::Divide | BinaryOperator::Remainder => 14,
        BinaryOperator::Add | BinaryOperator::Subtract => 13,
        BinaryOperator::LeftShift
        | BinaryOperator::SignedRightShift
        | BinaryOperator::UnsignedRightShift => 12,
        BinaryOperator::LessThan
        | BinaryOperator::GreaterThan
        | BinaryOperator::LessThanOrEqual
        | BinaryOperator::GreaterThanOrEqual
        | BinaryOperator::InstanceOf
        | BinaryOperator::In => 11,
        BinaryOperator::Equal
        | BinaryOperator::NotEqual
        | BinaryOperator::StrictEqual
        | BinaryOperator::StrictNotEqual => 10,
        BinaryOperator::BitwiseAnd => 9,
        BinaryOperator::BitwiseXor => 8,
        BinaryOperator::BitwiseOr => 7,
    }
}

/// The level of a logical operator's expression.
fn logical_level(operator: LogicalOperator) -> u8
    ensures { result ≡ spec.logical_level operator }
{
    match operator {
        LogicalOperator::And => 6,
        LogicalOperator::Or => 5,
        LogicalOperator::Coalesce => 4,
    }
}
