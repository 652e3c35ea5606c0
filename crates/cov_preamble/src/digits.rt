ghost use Rattle.std.specs.Prelude.{◌≡◌, ◌<◌, ◌++◌, ◌∷◌, [], string_bytes, OnOk};
ghost use Rattle.cov_preamble.specs.Name as spec;
ghost use Rattle.cov_preamble.specs.Digits.{three};

use items::Memory;

// The number that the first six bytes of a digest are, which are its first twelve hexadecimal digits.
#[tactic(auto, using(crate::proofs::Base36::six_bytes))]
pub(crate) fn number_of(digest: [u8; 20]) -> u64
    ensures { result ≡ spec.number_of digest }
{
    let first = three_bytes(digest[0], digest[1], digest[2]);
    let last = three_bytes(digest[3], digest[4], digest[5]);
    first * 0x100_0000 + last
}

// The number that three bytes are.
fn three_bytes(first: u8, second: u8, third: u8) -> u64
    ensures number { result ≡ three first second third }
    ensures below { result < 0x1000000 }
{
    u64::from(first) * 0x1_0000 + u64::from(second) * 0x100 + u64::from(third)
}

// Writes a number in base 36 at the end of `out`, with at most so many digits more than one.
#[tactic(auto, using(crate::proofs::Base36::digits_short, crate::proofs::Base36::digits_long))]
pub(crate) fn push_in_base_36(out: &mut String, more: u8, number: u64) -> Result<(), Memory>
    ensures { OnOk result (string_bytes out.new ≡ string_bytes out.old ++ spec.digits_of more number) }
{
    if more == 0 || number < 36 {
        return push_digit(out, number % 36);
    }
    push_in_base_36(out, more - 1, number / 36)?;
    push_digit(out, number % 36)
}

// Writes the digit of a value below 36 at the end of `out`.
fn push_digit(out: &mut String, value: u64) -> Result<(), Memory>
    requires { value < 36 }
    ensures { OnOk result (string_bytes out.new ≡ string_bytes out.old ++ spec.digit value ∷ []) }
{
    out.push(char::from(digit(value)))
}

// The digit of a value below 36.
fn digit(value: u64) -> u8
    requires { value < 36 }
    ensures digit { result ≡ spec.digit value }
    ensures ascii { result < 128 }
{
    if value < 10 {
        (value + 48) as u8
    } else {
        (value + 87) as u8
    }
}
