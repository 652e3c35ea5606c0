ghost use Rattle.std.specs.Prelude.{◌≡◌, IfOk};
ghost use Rattle.path_globs.specs.Source as spec;

use crate::normal_form::normal;
use items::{Memory, Text};
use std::alloc::Global;

/// The source path that a text names: its normal form, `None` where it has none that ends with
/// `.js`. Want of memory is the only error.
pub fn source_path(alloc: Global, text: &str) -> Result<Option<Text>, Memory>
    ensures { IfOk result (λ found. found ≡ spec.source_path text.now) }
{
    let Some(path) = normal(alloc, text)? else {
        return Ok(None);
    };
    if path.ends_with(".js") {
        Ok(Some(Text::from_string(path)))
    } else {
        Ok(None)
    }
}
