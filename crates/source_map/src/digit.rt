ghost use Rattle.std.specs.Prelude.{◌≡◌, ◌<◌, IfSome};
ghost use Rattle.source_map.specs.Vlq as spec;

// What a byte stands for as a digit.
pub(crate) fn digit_of(byte: u8) -> Option<u8>
    ensures value { result ≡ spec.digit_of byte }
    ensures below { IfSome result (λ digit. digit < 64) }
{
    match byte {
        b'A'..=b'Z' => Some(byte - b'A'),
        b'a'..=b'z' => Some(byte - b'a' + 26),
        b'0'..=b'9' => Some(byte - b'0' + 52),
        b'+' => Some(62),
        b'/' => Some(63),
        _ => None,
    }
}

// The byte of a digit.
pub(crate) fn byte_of(digit: u8) -> u8
    requires { digit < 64 }
    ensures { result ≡ spec.byte_of digit }
{
    match digit {
        0..=25 => b'A' + digit,
        26..=51 => b'a' + (digit - 26),
        52..=61 => b'0' + (digit - 52),
        62 => b'+',
        _ => b'/',
    }
}
