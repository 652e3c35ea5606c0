ghost use Rattle.std.specs.Prelude.{◌≡◌};
ghost use Rattle.std.specs.List.{list_any};
ghost use Rattle.cov_object.specs.private.Escapes as spec;

// Whether a JSON string has an escape for some byte of the text.
pub(crate) fn has_escapes(text: &[u8]) -> bool
    ensures { result ≡ list_any spec.is_escaped text.now }
{
    for byte in text {
        if is_escaped(*byte) {
            return true;
        }
    }
    false
}

// Whether it has one for this byte.
fn is_escaped(byte: u8) -> bool
    ensures { result ≡ spec.is_escaped byte }
{
    byte < b' ' || byte == b'"' || byte == b'\\'
}
