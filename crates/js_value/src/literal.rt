ghost use Rattle.std.specs.Prelude.{◌≡◌, ◌∷◌, [], ◌==◌, ◌++◌, ◌≤◌, ℕ, IsTrue, MatchOption, None, length, take, drop, take_while, option_map, pos, neg_ℤ, ◌-ℤ◌};
ghost use Rattle.std.specs.Char as char;
ghost use Rattle.std.specs.List.{list_all, prefix_len};
ghost use Rattle.std.specs.Str.Parse.{digits_value, digits_value_after};
ghost use Rattle.js_text.specs.Character as character;
ghost use Rattle.js_text.specs.Lex.{past};
ghost use Rattle.js_text.specs.Number.{after_sign};
ghost use Rattle.js_value.specs.private.Capped.{capped, IsCapped};
ghost use Rattle.js_value.specs.private.Separated.{is_separator, is_spaced};
ghost use Rattle.js_value.specs.Numbers as spec;
ghost use Rattle.js_value.specs.Numbers.{without_separators};

use crate::digits::{digit_value, ranged, with_zeros};
use crate::text_number::Exponent;

/// The number of a numeric literal (ECMA-262, 12.9.3.3): its value, exactly, where that is whole and at
/// most 2^53 - 1. It takes no memory, and time in proportion to the text.
pub fn number_of(text: &str) -> Option<i64>
    ensures { result ≡ spec.literal_number text.now }
{
    let value = literal_value(text.as_bytes())?;
    ranged(false, value)
}

/// The value of a literal, where it is whole, up to 2^64 - 1.
fn literal_value(bytes: &[u8]) -> Option<u64>
    ensures { result ≡ option_map capped (spec.literal_value (spec.prefix_base bytes.now) bytes.now) }
{
    match prefix_base(bytes) {
        Some(base) => based_value(base, &bytes[2..]),
        None => decimal_value(bytes),
    }
}

/// The base that a literal says by its prefix, if it says one.
fn prefix_base(bytes: &[u8]) -> Option<u16>
    ensures base { result ≡ spec.prefix_base bytes.now }
{
    match bytes {
        [b'0', b'x' | b'X', ..] => Some(16),
        [b'0', b'o' | b'O', ..] => Some(8),
        [b'0', b'b' | b'B', ..] => Some(2),
        _ => None,
    }
}

/// The number that digits of this base spell, up to 2^64 - 1.
fn based_value(base: u16, bytes: &[u8]) -> Option<u64>
    ensures { result ≡ option_map capped (spec.digits_number base (without_separators bytes.now)) }
{
    if are_digits(base, bytes) {
        Some(digits_after(base, 0, bytes))
    } else {
        None
    }
}

/// The value of a decimal literal, where it is whole, up to 2^64 - 1.
fn decimal_value(bytes: &[u8]) -> Option<u64>
    ensures { result ≡ option_map capped (spec.decimal_value (without_separators bytes.now)) }
{
    let (whole, after) = split_digits(bytes);
    let (fraction, rest) = split_fraction(after);
    if count_digits(whole) == 0 && count_digits(fraction) == 0 {
        return None;
    }
    let exponent = exponent_part(rest)?;
    if exponent.negative {
        moved_left(whole, fraction, exponent.size)
    } else {
        moved_right(whole, fraction, exponent.size)
    }
}

// ---- bytes between which separators are passed over

/// How many separators there are at the start.
fn separators_at_start(bytes: &[u8]) -> usize
    ensures count { result ≡ prefix_len is_separator bytes.now }
    ensures within { result ≤ length bytes.now }
{
    bytes.iter().take_while(|byte| **byte == b'_').count()
}

/// The first byte that is no separator, and what stands after it.
fn first(bytes: &[u8]) -> Option<(u8, &[u8])>
    ensures { MatchOption result (without_separators bytes.now ≡ []) (λ found. without_separators bytes.now ≡ found.0 ∷ without_separators found.1.now) }
{
    match bytes.split_at(separators_at_start(bytes)).1 {
        [] => None,
        [byte, rest @ ..] => Some((*byte, rest)),
    }
}

/// How many bytes are no separators.
fn count_digits(bytes: &[u8]) -> usize
    ensures count { result ≡ length (without_separators bytes.now) }
    ensures within { result ≤ length bytes.now }
{
    bytes.iter().filter(|byte| **byte != b'_').count()
}

/// Whether these are digits of this base, at least one.
fn are_digits(base: u16, bytes: &[u8]) -> bool
    ensures { result ≡ spec.are_digits base (without_separators bytes.now) }
{
    count_digits(bytes) > 0 && all_digits(base, bytes)
}

/// Whether these are all digits of this base.
fn all_digits(base: u16, bytes: &[u8]) -> bool
    ensures { result ≡ list_all (λ c. char.is_digit c base) (without_separators bytes.now) }
{
    bytes
        .iter()
        .filter(|byte| **byte != b'_')
        .all(|byte| digit_value(u16::from(*byte)) < base)
}

/// Whether these are all `0`.
fn are_zeros(bytes: &[u8]) -> bool
    ensures { result ≡ list_all (λ c. c == 0x30) (without_separators bytes.now) }
{
    bytes
        .iter()
        .filter(|byte| **byte != b'_')
        .all(|byte| *byte == b'0')
}

/// The number that digits of this base spell when they follow those of another number, up to 2^64 - 1.
fn digits_after(base: u16, before: u64, bytes: &[u8]) -> u64
    ensures { result ≡ capped (digits_value_after base before (without_separators bytes.now)) }
{
    let mut total = before;
    for byte in bytes {
        if *byte != b'_' {
            total = total
                .saturating_mul(u64::from(base))
                .saturating_add(u64::from(digit_value(u16::from(*byte))));
        }
    }
    total
}

/// The longest run of digits at the start, and what stands after it.
fn split_digits(bytes: &[u8]) -> (&[u8], &[u8])
    ensures digits { without_separators result.0.now ≡ take_while character.is_digit (without_separators bytes.now) }
    ensures rest { without_separators result.1.now ≡ past character.is_digit (without_separators bytes.now) }
    ensures all { IsTrue (list_all character.is_digit (without_separators result.0.now)) }
{
    bytes.split_at(spaced_at_start(bytes))
}

/// How many digits and separators there are at the start.
fn spaced_at_start(bytes: &[u8]) -> usize
    ensures count { result ≡ prefix_len is_spaced bytes.now }
    ensures within { result ≤ length bytes.now }
{
    bytes.iter().take_while(|byte| is_spaced(**byte)).count()
}

/// Whether a byte is a decimal digit or a separator.
#[tactic(auto, unfolding(js_text::specs::Character::is_digit))]
fn is_spaced(byte: u8) -> bool
    ensures { result ≡ is_spaced byte }
{
    matches!(byte, b'0'..=b'9' | b'_')
}

/// The first so many digits, and what stands after them.
fn split_at_digit(bytes: &[u8], digits: usize) -> (&[u8], &[u8])
    ensures kept { without_separators result.0.now ≡ take digits (without_separators bytes.now) }
    ensures cut { without_separators result.1.now ≡ drop digits (without_separators bytes.now) }
{
    bytes.split_at(place_of_digit(bytes, digits))
}

/// The place before which so many digits stand; the end where there are fewer.
fn place_of_digit(bytes: &[u8], digits: usize) -> usize
    ensures within { result ≤ length bytes.now }
    ensures kept { without_separators (take result bytes.now) ≡ take digits (without_separators bytes.now) }
    ensures cut { without_separators (drop result bytes.now) ≡ drop digits (without_separators bytes.now) }
{
    let mut left = digits;
    let mut place = 0;
    for byte in bytes {
        if *byte != b'_' {
            if left == 0 {
                return place;
            }
            left -= 1;
        }
        place += 1;
    }
    place
}

// ---- the parts of a decimal literal

/// The digits that stand after a `.` here, and what stands after them; no digits where there is no `.`.
fn split_fraction(bytes: &[u8]) -> (&[u8], &[u8])
    ensures digits { without_separators result.0.now ≡ spec.fraction_of (without_separators bytes.now) }
    ensures rest { without_separators result.1.now ≡ spec.after_fraction (without_separators bytes.now) }
    ensures all { IsTrue (list_all character.is_digit (without_separators result.0.now)) }
{
    match first(bytes) {
        Some((b'.', rest)) => split_digits(rest),
        Some(_) => bytes.split_at(0),
        None => bytes.split_at(0),
    }
}

/// What an exponent part says; 0 where nothing is left.
fn exponent_part(bytes: &[u8]) -> Option<Exponent>
    ensures { MatchOption result (spec.exponent_of (without_separators bytes.now) ≡ None) (IsCapped (spec.exponent_of (without_separators bytes.now))) }
{
    match first(bytes) {
        None => Some(Exponent {
            negative: false,
            size: 0,
        }),
        Some((b'e' | b'E', number)) => signed_exponent(number),
        Some(_) => None,
    }
}

/// The whole number that an optional sign and digits spell.
fn signed_exponent(bytes: &[u8]) -> Option<Exponent>
    ensures { MatchOption result (spec.signed_number (without_separators bytes.now) ≡ None) (IsCapped (spec.signed_number (without_separators bytes.now))) }
{
    let digits = without_sign(bytes);
    if !are_digits(10, digits) {
        return None;
    }
    Some(Exponent {
        negative: is_negative(bytes),
        size: digits_after(10, 0, digits),
    })
}

/// Whether `-` stands first.
fn is_negative(bytes: &[u8]) -> bool
    ensures { result ≡ spec.begins_with_minus (without_separators bytes.now) }
{
    match first(bytes) {
        Some((byte, _)) => byte == b'-',
        None => false,
    }
}

/// What stands after an optional sign.
fn without_sign(bytes: &[u8]) -> &[u8]
    ensures { without_separators result.now ≡ after_sign (without_separators bytes.now) }
{
    match first(bytes) {
        Some((b'+' | b'-', rest)) => rest,
        Some(_) => bytes,
        None => bytes,
    }
}

// ---- a point that is moved

/// The number of digits before and after a decimal point that is moved to the left, where it is whole,
/// up to 2^64 - 1.
fn moved_left(whole: &[u8], fraction: &[u8], places: u64) -> Option<u64>
    requires whole_digits { IsTrue (list_all character.is_digit (without_separators whole.now)) }
    requires fraction_digits { IsTrue (list_all character.is_digit (without_separators fraction.now)) }
    ensures { (size : ℕ) → capped size ≡ places
        → result ≡ option_map capped (spec.scaled (digits_value 10 (without_separators whole.now ++ without_separators fraction.now))
        (neg_ℤ (pos size) -ℤ pos (length (without_separators fraction.now)))) }
{
    let point = (count_digits(whole) as u64).saturating_sub(places) as usize;
    let (kept, cut) = split_at_digit(whole, point);
    if are_zeros(cut) && are_zeros(fraction) {
        Some(digits_after(10, 0, kept))
    } else {
        None
    }
}

/// The same of one that is moved to the right.
fn moved_right(whole: &[u8], fraction: &[u8], places: u64) -> Option<u64>
    requires whole_digits { IsTrue (list_all character.is_digit (without_separators whole.now)) }
    requires fraction_digits { IsTrue (list_all character.is_digit (without_separators fraction.now)) }
    ensures { (size : ℕ) → capped size ≡ places
        → result ≡ option_map capped (spec.scaled (digits_value 10 (without_separators whole.now ++ without_separators fraction.now))
        (pos size -ℤ pos (length (without_separators fraction.now)))) }
{
    let shift = places.min(count_digits(fraction) as u64);
    let (kept, cut) = split_at_digit(fraction, shift as usize);
    if !are_zeros(cut) {
        return None;
    }
    let digits = digits_after(10, digits_after(10, 0, whole), kept);
    Some(with_zeros(digits, places - shift))
}
