ghost use Rattle.std.specs.Prelude.{◌≡◌};
ghost use Rattle.js_reading.specs.Level as spec;
ghost use Rattle.js_build.specs.Measures as measure;

use js_tree::{BinaryOperator, LogicalOperator};

/// The level of a binary operator's expression.
pub(crate) fn binary_level(operator: BinaryOperator) -> u8
    ensures { result ≡ spec.binary_level operator }
{
    match operator {
        BinaryOperator::Exponentiate => 15,
        BinaryOperator::Multiply | BinaryOperator::Divide | BinaryOperator::Remainder => 14,
        BinaryOperator::Add | BinaryOperator::Subtract => 13,
        BinaryOperator::LeftShift
        | BinaryOperator::SignedRightShift
        | BinaryOperator::UnsignedRightShift => 12,
        BinaryOperator::LessThan
        | BinaryOperator::GreaterThan
        | BinaryOperator::LessThanOrEqual
        | BinaryOperator::GreaterThanOrEqual
        | BinaryOperator::InstanceOf
        | BinaryOperator::In => 11,
        BinaryOperator::Equal
        | BinaryOperator::NotEqual
        | BinaryOperator::StrictEqual
        | BinaryOperator::StrictNotEqual => 10,
        BinaryOperator::BitwiseAnd => 9,
        BinaryOperator::BitwiseXor => 8,
        BinaryOperator::BitwiseOr => 7,
    }
}

/// The level of a logical operator's expression.
pub(crate) fn logical_level(operator: LogicalOperator) -> u8
    ensures { result ≡ spec.logical_level operator }
{
    match operator {
        LogicalOperator::And => 6,
        LogicalOperator::Or => 5,
        LogicalOperator::Coalesce => 4,
    }
}

/// Whether a binary operator's expression has a bare `in`, by its operands.
pub(crate) fn has_bare_in(operator: BinaryOperator, left: bool, right: bool) -> bool
    ensures { result ≡ measure.bare_in_binary operator left right }
{
    match operator {
        BinaryOperator::In => true,
        _ => left || right,
    }
}
