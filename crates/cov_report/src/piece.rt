ghost use Rattle.std.specs.Prelude.{◌≡◌, ◌++◌, decimal, OnOk};
ghost use Rattle.json.specs.Print.{quoted};
ghost use Rattle.cov_report.specs.Piece as spec;

use cov_object::Location;
use items::Memory;
use serde_json::Value;
use std::alloc::Global;

// Pieces of a report, each written at the end of `out`, which after an error has what fitted.

// Writes a text as it is.
pub(crate) fn push_text(out: &mut Vec<u8>, text: &str) -> Result<(), Memory>
    ensures { OnOk result (out.new.items ≡ out.old.items ++ text.now) }
{
    out.extend_from_slice(text.as_bytes())
}

// Writes a number in decimal.
pub(crate) fn push_number(alloc: Global, out: &mut Vec<u8>, number: u64) -> Result<(), Memory>
    ensures { OnOk result (out.new.items ≡ out.old.items ++ decimal number) }
{
    let digits = format!(in alloc; "{number}")?;
    push_text(out, digits.as_str())
}

// Writes a path or a name, with a space for each LF and CR in it.
pub(crate) fn push_printed(out: &mut Vec<u8>, text: &str) -> Result<(), Memory>
    ensures { OnOk result (out.new.items ≡ out.old.items ++ spec.printed text.now) }
{
    let bytes = text.as_bytes();
    for byte in bytes {
        out.push(printed_byte(*byte))?;
    }
    Ok(())
}

fn printed_byte(byte: u8) -> u8
    ensures { result ≡ spec.printed_byte byte }
{
    if byte == b'\n' || byte == b'\r' {
        b' '
    } else {
        byte
    }
}

// Writes a text in quotes, with JSON's escapes.
pub(crate) fn push_quoted(alloc: Global, out: &mut Vec<u8>, text: &str) -> Result<(), Memory>
    ensures { OnOk result (out.new.items ≡ out.old.items ++ quoted text.now) }
{
    let json = Value::try_from_str(alloc, text)?.to_vec(alloc)?;
    out.extend_from_slice(&json)
}

// The line on which a part of a file starts: 0 where it has none.
pub(crate) fn start_line(location: Location) -> u64
    ensures { result ≡ spec.start_line location }
{
    match location.start {
        Some(start) => start.line.get() as u64,
        None => 0,
    }
}
