ghost use Rattle.std.specs.Prelude.{◌≡◌, ◌++◌, decimal, string_bytes, IfOk, OnOk};

use items::Memory;
use itoa::Buffer;
use std::alloc::Global;

// Writes a number in decimal at the end of `out`.
pub(crate) fn push_digits(out: &mut Vec<u8>, number: u64) -> Result<(), Memory>
    ensures { OnOk result (out.new.items ≡ out.old.items ++ decimal number) }
{
    let mut buffer = Buffer::new();
    out.extend_from_slice(buffer.format(number).as_bytes())
}

// A number in decimal.
pub(crate) fn digits(alloc: Global, number: u64) -> Result<String, Memory>
    ensures { IfOk result (λ digits. string_bytes digits ≡ decimal number) }
{
    let mut buffer = Buffer::new();
    String::from_str(alloc, buffer.format(number))
}
