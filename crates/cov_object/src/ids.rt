ghost use Rattle.std.specs.Prelude.{◌≡◌};
ghost use Rattle.cov_object.specs.Read as spec;

// The id that a key writes: a decimal numeral below 2^32, with no 0 before another digit.
pub(crate) fn id_of(key: &str) -> Option<u64>
    ensures { result ≡ spec.id_of key.now }
{
    let digits = key.as_bytes();
    if digits.is_empty() || digits.len() > 1 && digits[0] == b'0' {
        return None;
    }
    id_after(digits)
}

// The number that digits write, below 2^32.
fn id_after(digits: &[u8]) -> Option<u64>
    ensures { result ≡ spec.id_after 0 digits.now }
{
    let mut id = 0u64;
    for digit in digits {
        if !digit.is_ascii_digit() {
            return None;
        }
        id = id * 10 + (*digit - b'0') as u64;
        if id >= 1 << 32 {
            return None;
        }
    }
    Some(id)
}
