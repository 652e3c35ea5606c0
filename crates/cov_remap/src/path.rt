ghost use Rattle.std.specs.Prelude.{◌≡◌, IfOk};
ghost use Rattle.cov_remap.specs.SourcePath as spec;
ghost use Rattle.path_globs.specs.NormalForm.{is_from_root as spec_from_root};

use items::{Memory, Text};
use path_globs::path_beside;
use std::alloc::Global;

// The path of a source that the map of a file names.
pub(crate) fn source_path(alloc: Global, file: &str, text: &str) -> Result<Text, Memory>
    ensures { IfOk result (λ path. path ≡ spec.source_path file.now text.now) }
{
    if has_scheme(text) || is_from_root(text) {
        return Text::from_str(alloc, text);
    }
    let path = path_beside(alloc, file, text)?;
    Ok(Text::from_string(path))
}

// Whether a text has `://`.
fn has_scheme(text: &str) -> bool
    ensures { result ≡ spec.has_scheme text.now }
{
    let mut rest = text.as_bytes();
    'bytes: while let Some((_first, after)) = rest.split_first() {
        if rest.starts_with(b"://") {
            return true;
        }
        rest = after;
    }
    false
}

// Whether a path is one from the root.
fn is_from_root(path: &str) -> bool
    ensures { result ≡ spec_from_root path.now }
{
    path.starts_with('/')
}
