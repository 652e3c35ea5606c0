ghost use Rattle.std.specs.Prelude.{◌≡◌, IfOk, string_bytes};
ghost use Rattle.js_reading.specs.Productions.{string_of};
ghost use Rattle.cov_rewritten.specs.Counters as counters;
ghost use Rattle.cov_rewritten.specs.Preamble as spec;

use items::{Memory, Text};
use js_lexer::units_of;
use js_tree::Spelled;
use serde_json::Value;
use std::alloc::Global;

// A text as JSON spells it.
pub(crate) fn json_string(alloc: Global, text: &str) -> Result<Spelled, Memory>
    ensures { IfOk result (λ string. string ≡ spec.json_string text.now) }
{
    let value = Value::String(String::from_str(alloc, text)?);
    let spelling = value.to_string(alloc)?;
    spelled(alloc, spelling)
}

// A string that is spelt so.
pub(crate) fn spelled(alloc: Global, spelling: String) -> Result<Spelled, Memory>
    ensures { IfOk result (λ string. string ≡ string_of (string_bytes spelling)) }
{
    let units = units_of(alloc, spelling.as_str())?;
    Ok(Spelled {
        spelling: Text::from_string(spelling),
        units,
    })
}

// A text without quotes, backslashes and ends of lines, in quotes.
pub(crate) fn quoted(alloc: Global, text: &str) -> Result<Spelled, Memory>
    ensures { IfOk result (λ string. string ≡ counters.quoted text.now) }
{
    let spelling = format!(in alloc; "\"{text}\"")?;
    spelled(alloc, spelling)
}
