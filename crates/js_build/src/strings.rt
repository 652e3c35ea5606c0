ghost use Rattle.std.specs.Prelude.{◌≡◌, IfOk};
ghost use Rattle.js_reading.specs.Productions as productions;

use items::{Memory, Text};
use js_tree::Spelled;
use std::alloc::Global;

/// What a string literal is (ECMA-262, 12.9.4).
pub(crate) fn string(alloc: Global, spelling: &str) -> Result<Spelled, Memory>
    ensures { IfOk result (λ string. string ≡ productions.string_of spelling.now) }
{
    Ok(Spelled {
        spelling: Text::from_str(alloc, spelling)?,
        units: js_lexer::units_of(alloc, spelling)?,
    })
}

/// What a part of a template is (12.9.6).
pub(crate) fn template_text(alloc: Global, spelling: &str) -> Result<Spelled, Memory>
    ensures { IfOk result (λ text. text ≡ productions.text_of spelling.now) }
{
    Ok(Spelled {
        spelling: Text::from_str(alloc, spelling)?,
        units: js_lexer::template_units(alloc, spelling)?,
    })
}
