ghost use Rattle.std.specs.Prelude.{◌≡◌, IsTrue};
ghost use Rattle.js_value.specs.Bits as spec;
ghost use Rattle.js_value.specs.Numbers.{in_range};

/// ToUint32 (ECMA-262, 7.1.7): the number modulo 2^32.
fn to_uint32(number: i64) -> u32
    ensures { result ≡ spec.to_uint32 number }
{
    number.rem_euclid(1 << 32) as u32
}

/// The number that 32 bits stand for in two's complement.
fn number_of_bits(bits: u32) -> i64
    ensures number { result ≡ spec.number_of_bits bits }
    ensures range { IsTrue (in_range result) }
{
    i64::from(bits.cast_signed())
}

/// ToInt32 (7.1.6).
fn to_int32(number: i64) -> i64
    ensures { result ≡ spec.to_int32 number }
{
    number_of_bits(to_uint32(number))
}

/// By how many bits a number shifts another.
fn shift_count(number: i64) -> u32
    ensures { result ≡ spec.shift_count number }
{
    to_uint32(number) % 32
}

/// `~` (6.1.6.1.2).
pub(crate) fn bitwise_not(number: i64) -> i64
    ensures { result ≡ spec.bitwise_not number }
{
    number_of_bits(!to_uint32(number))
}

/// `<<` (6.1.6.1.9).
pub(crate) fn left_shift(left: i64, right: i64) -> i64
    ensures { result ≡ spec.left_shift left right }
{
    number_of_bits(to_uint32(left) << shift_count(right))
}

/// `>>` (6.1.6.1.10): copies of the sign come in.
pub(crate) fn signed_right_shift(left: i64, right: i64) -> i64
    ensures { result ≡ spec.signed_right_shift left right }
{
    to_int32(left) >> shift_count(right)
}

/// `>>>` (6.1.6.1.11): zeros come in.
pub(crate) fn unsigned_right_shift(left: i64, right: i64) -> i64
    ensures { result ≡ spec.unsigned_right_shift left right }
{
    i64::from(to_uint32(left) >> shift_count(right))
}

/// `&` (6.1.6.1.17).
pub(crate) fn bitwise_and(left: i64, right: i64) -> i64
    ensures { result ≡ spec.bitwise_and left right }
{
    number_of_bits(to_uint32(left) & to_uint32(right))
}

/// `^` (6.1.6.1.18).
pub(crate) fn bitwise_xor(left: i64, right: i64) -> i64
    ensures { result ≡ spec.bitwise_xor left right }
{
    number_of_bits(to_uint32(left) ^ to_uint32(right))
}

/// `|` (6.1.6.1.19).
pub(crate) fn bitwise_or(left: i64, right: i64) -> i64
    ensures number { result ≡ spec.bitwise_or left right }
    ensures range { IsTrue (in_range result) }
{
    number_of_bits(to_uint32(left) | to_uint32(right))
}
