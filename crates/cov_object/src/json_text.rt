ghost use Rattle.std.specs.Prelude.{◌≡◌, option_map, IfOk};
ghost use Rattle.serde_json.specs.Read.{read};
ghost use Rattle.serde_json.specs.View.{view};
ghost use Rattle.cov_object.specs.JsonText.{json_of};

use items::Memory;
use serde_json::Value;
use std::alloc::{AllocError, Global};

/// The JSON value that bytes are: none where they are no UTF-8, against the grammar, nested more than
/// 127 deep, or with a number that no float can hold. Want of memory is the only error.
pub fn read_value(alloc: Global, bytes: &[u8]) -> Result<Option<Value>, Memory>
    ensures { IfOk result (λ found. option_map view found ≡ json_of bytes.now) }
{
    match std::str::from_utf8(bytes) {
        Ok(text) => text_value(alloc, text),
        Err(_) => Ok(None),
    }
}

// The JSON value that a text is.
pub(crate) fn text_value(alloc: Global, text: &str) -> Result<Option<Value>, Memory>
    ensures { IfOk result (λ found. option_map view found ≡ read text.now) }
{
    match Value::from_str(alloc, text) {
        Ok(value) => Ok(Some(value)),
        Err(error) => if error.is_memory() {
            Err(AllocError)
        } else {
            Ok(None)
        },
    }
}
