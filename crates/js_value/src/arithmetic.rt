ghost use Rattle.std.specs.Prelude.{◌≡◌, ◌<◌, option_and_then, unsigned_abs};
ghost use Rattle.std.specs.Int.{int_pow};
ghost use Rattle.js_value.specs.Numbers as numbers;
ghost use Rattle.js_value.specs.Arithmetic as spec;

use crate::digits::in_range;

/// The product of two numbers (ECMA-262, 6.1.6.1.4), where it is in range.
pub(crate) fn product(left: i64, right: i64) -> Option<i64>
    ensures { result ≡ option_and_then numbers.ranged (spec.product left right) }
{
    in_range(left.checked_mul(right)?)
}

/// The quotient (6.1.6.1.5), where it is whole and in range.
pub(crate) fn quotient(left: i64, right: i64) -> Option<i64>
    ensures { result ≡ option_and_then numbers.ranged (spec.quotient left right) }
{
    if right == 0 || left.wrapping_rem(right) != 0 {
        return None;
    }
    in_range(left.checked_div(right)?)
}

/// The remainder, with the dividend's sign (6.1.6.1.6), where there is one in range.
pub(crate) fn remainder(left: i64, right: i64) -> Option<i64>
    ensures { result ≡ option_and_then numbers.ranged (spec.remainder left right) }
{
    if right == 0 {
        return None;
    }
    in_range(left.wrapping_rem(right))
}

/// The sum (6.1.6.1.7), where it is in range.
pub(crate) fn sum(left: i64, right: i64) -> Option<i64>
    ensures { result ≡ option_and_then numbers.ranged (spec.sum left right) }
{
    in_range(left.checked_add(right)?)
}

/// The difference (6.1.6.1.8), where it is in range.
pub(crate) fn difference(left: i64, right: i64) -> Option<i64>
    ensures { result ≡ option_and_then numbers.ranged (spec.difference left right) }
{
    in_range(left.checked_sub(right)?)
}

/// The power (6.1.6.1.3), where it is whole and in range.
pub(crate) fn power(base: i64, exponent: i64) -> Option<i64>
    ensures { result ≡ option_and_then numbers.ranged (spec.power base exponent) }
{
    if exponent >= 0 {
        return natural_power(base, exponent.unsigned_abs());
    }
    if base.unsigned_abs() != 1 {
        return None;
    }
    natural_power(base, exponent.unsigned_abs())
}

/// The power with a natural exponent, where it is in range.
fn natural_power(base: i64, exponent: u64) -> Option<i64>
    ensures { result ≡ numbers.ranged (int_pow base exponent) }
{
    if base.unsigned_abs() < 2 {
        return Some(small_power(base, exponent));
    }
    // with each turn the magnitude doubles at least
    if exponent > 52 {
        return None;
    }
    in_range(base.checked_pow(exponent as u32)?)
}

/// The power of -1, 0 or 1.
fn small_power(base: i64, exponent: u64) -> i64
    requires { unsigned_abs base < 2 }
    ensures { result ≡ int_pow base exponent }
{
    if exponent == 0 {
        return 1;
    }
    if base >= 0 {
        return base;
    }
    if exponent % 2 == 0 { 1 } else { -1 }
}
