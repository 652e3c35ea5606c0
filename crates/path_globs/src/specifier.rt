ghost use Rattle.std.specs.Prelude.{◌≡◌, ◌++◌, option_map, string_bytes, IfOk};
ghost use Rattle.path_globs.specs.Specifier as spec;

use crate::normal_form::normal;
use items::Memory;
use std::alloc::Global;

/// The path of the file that the file at `from` asks for by a specifier: its normal form, with `.js`
/// where the specifier doesn't end so. `None` where the specifier begins with neither `./` nor `../`,
/// or where there is no normal form. Want of memory is the only error.
pub fn resolve(alloc: Global, from: &str, specifier: &str) -> Result<Option<String>, Memory>
    ensures { IfOk result (λ found. option_map string_bytes found ≡ spec.resolve from.now specifier.now) }
{
    if !is_relative(specifier) {
        return Ok(None);
    }
    let path = joined(alloc, from, specifier)?;
    normal(alloc, &path)
}

/// Whether a specifier is resolved from the folder of the file that asks.
fn is_relative(specifier: &str) -> bool
    ensures { result ≡ spec.is_relative specifier.now }
{
    specifier.starts_with("./") || specifier.starts_with("../")
}

/// The path that a specifier names, before it is brought to normal form.
fn joined(alloc: Global, from: &str, specifier: &str) -> Result<String, Memory>
    ensures { IfOk result (λ path. string_bytes path ≡ spec.folder from.now ++ (specifier.now ++ spec.ending specifier.now)) }
{
    let folder = folder(from);
    let ending = ending(specifier);
    format!(in alloc; "{folder}{specifier}{ending}")
}

/// A path up to and with its last `/`: nothing where it has none.
pub(crate) fn folder(path: &str) -> &str
    ensures { result.now ≡ spec.folder path.now }
{
    match path.rfind('/') {
        Some(at) => &path[..at + 1],
        None => "",
    }
}

/// A source's ending, where it isn't there.
fn ending(specifier: &str) -> &'static str
    ensures { result.now ≡ spec.ending specifier.now }
{
    if specifier.ends_with(".js") {
        ""
    } else {
        ".js"
    }
}
