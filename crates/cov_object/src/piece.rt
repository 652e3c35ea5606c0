ghost use Rattle.std.specs.Prelude.{◌≡◌, [], ◌∷◌, ◌++◌, true, OnOk};
ghost use Rattle.serde_json.specs.Data.{string};
ghost use Rattle.serde_json.specs.Written.{comma_if, compact_text};
ghost use Rattle.cov_object.specs.private.Piece.{key_text, member_text};

use crate::escapes::has_escapes;
use items::Memory;
use serde_json::Value;
use std::alloc::Global;

// Pieces of JSON, each written at the end of `out`, which after an error has what fitted.

// Writes a comma, where something stands before.
pub(crate) fn push_comma(out: &mut Vec<u8>, later: bool) -> Result<(), Memory>
    ensures { OnOk result (out.new.items ≡ out.old.items ++ comma_if later) }
{
    if later {
        out.push(b',')?;
    }
    Ok(())
}

// Writes a text in quotes, with its escapes. Most have none, and need no value of their own.
pub(crate) fn push_string(alloc: Global, out: &mut Vec<u8>, text: &str) -> Result<(), Memory>
    ensures { OnOk result (out.new.items ≡ out.old.items ++ compact_text (string text.now)) }
{
    if has_escapes(text.as_bytes()) {
        push_escaped(alloc, out, text)
    } else {
        push_quoted(out, text)
    }
}

// Writes a text in quotes as it stands.
fn push_quoted(out: &mut Vec<u8>, text: &str) -> Result<(), Memory>
    ensures { OnOk result (out.new.items ≡ out.old.items ++ (34 ∷ (text.now ++ 34 ∷ []))) }
{
    out.push(b'"')?;
    out.extend_from_slice(text.as_bytes())?;
    out.push(b'"')?;
    Ok(())
}

// Writes a text in quotes with its escapes, by a value of its own.
fn push_escaped(alloc: Global, out: &mut Vec<u8>, text: &str) -> Result<(), Memory>
    ensures { OnOk result (out.new.items ≡ out.old.items ++ compact_text (string text.now)) }
{
    let written = Value::try_from_str(alloc, text)?.to_vec(alloc)?;
    out.extend_from_slice(&written)
}

// Writes what begins a member: a comma where one stands before it, its key and a colon.
pub(crate) fn push_key(
    alloc: Global,
    out: &mut Vec<u8>,
    later: bool,
    key: &str,
) -> Result<(), Memory>
    ensures { OnOk result (out.new.items ≡ out.old.items ++ key_text later key.now) }
{
    push_comma(out, later)?;
    push_string(alloc, out, key)?;
    out.push(b':')?;
    Ok(())
}

// Writes a member after another: its value is a text.
pub(crate) fn push_text(
    alloc: Global,
    out: &mut Vec<u8>,
    key: &str,
    text: &str,
) -> Result<(), Memory>
    ensures { OnOk result (out.new.items ≡ out.old.items ++ member_text true key.now (string text.now)) }
{
    push_key(alloc, out, true, key)?;
    push_string(alloc, out, text)
}
