ghost use Rattle.std.specs.Prelude.{◌≡◌, IfOk};
ghost use Rattle.cov_v8.specs.Path as spec;

use items::{Memory, Text};
use path_globs::source_path;
use std::alloc::Global;

// A url without `file://` in front.
fn without_scheme(url: &str) -> &str
    ensures { result.now ≡ spec.without_scheme url.now }
{
    match url.strip_prefix("file://") {
        Some(rest) => rest,
        None => url,
    }
}

/// The source path that a `url` names: without `file://` in front, in normal form; `None` where it has
/// none that ends with `.js`. Want of memory is the only error.
pub fn source_of(alloc: Global, url: &str) -> Result<Option<Text>, Memory>
    ensures { IfOk result (λ found. found ≡ spec.source_of url.now) }
{
    source_path(alloc, without_scheme(url))
}
