ghost use Rattle.std.specs.Prelude.{◌≡◌, ◌<◌, ◌≤◌, ◌^◌, option_map, IfSome};
ghost use Rattle.source_map.specs.Vlq as exact;
ghost use Rattle.source_map.specs.private.Numbers as spec;

use crate::digit::digit_of;

/// A number is below it: a sign, and a difference of two numbers below 2^32.
const LIMIT: u64 = 1 << 33;

// A number so far and the five bits of a digit more; none from the limit on.
fn with_bits(value: u64, weight: u64, bits: u8) -> Option<u64>
    requires low { value < 2 ^ 33 }
    requires light { weight < 2 ^ 40 }
    requires five { bits < 32 }
    ensures value { result ≡ spec.with_bits value weight bits }
    ensures below { IfSome result (λ more. more < 2 ^ 33) }
{
    if bits == 0 {
        return Some(value);
    }
    if weight >= LIMIT {
        return None;
    }
    let more = value + weight * u64::from(bits);
    if more < LIMIT { Some(more) } else { None }
}

// What the next digit weighs.
fn heavier(weight: u64) -> u64
    requires { weight < 2 ^ 40 }
    ensures value { result ≡ spec.heavier weight }
    ensures below { result < 2 ^ 40 }
{
    if weight < LIMIT { weight * 32 } else { weight }
}

// The first number, and the bytes after it; none where a byte of it is no digit, where it is cut, or
// where it is from the limit on.
fn take_digits(bytes: &[u8]) -> Option<(u64, &[u8])>
    ensures value { option_map (λ found. (found.0, found.1.now)) result ≡ spec.taken 0 1 bytes.now }
    ensures below { IfSome result (λ found. found.0 < 2 ^ 33) }
{
    let mut rest = bytes;
    let mut value = 0u64;
    let mut weight = 1u64;
    'digits: while let Some((byte, after)) = rest.split_first() {
        let digit = digit_of(*byte)?;
        value = with_bits(value, weight, digit % 32)?;
        if digit < 32 {
            return Some((value, after));
        }
        weight = heavier(weight);
        rest = after;
    }
    None
}

// The first number, and the bytes after it; none where it has no such form, or is from the limit on.
#[tactic(auto, using(crate::proofs::NumbersLemmas::taken_first))]
pub(crate) fn take_number(bytes: &[u8]) -> Option<(u64, &[u8])>
    ensures value { option_map (λ found. (found.0, found.1.now)) result ≡ spec.first bytes.now }
    ensures below { IfSome result (λ found. found.0 < 2 ^ 33) }
{
    take_digits(bytes)
}

// What was `last`, moved by a number whose lowest bit is its sign; none outside the bound.
pub(crate) fn moved(bound: u64, last: u32, number: u64) -> Option<u32>
    requires wide { bound ≤ 2 ^ 32 }
    requires low { number < 2 ^ 33 }
    ensures value { result ≡ exact.moved bound last number }
    ensures below { IfSome result (λ value. value < bound) }
{
    let last = u64::from(last);
    let by = number / 2;
    let value = if number % 2 == 0 {
        last + by
    } else if by <= last {
        last - by
    } else {
        return None;
    };
    if value < bound {
        Some(value as u32)
    } else {
        None
    }
}
