ghost use Rattle.std.specs.Prelude.{◌≡◌, if◌then◌else◌, map, Some, None, option_map, string_bytes, IfOk};
ghost use Rattle.path_globs.specs.NormalForm as spec;

use items::Memory;
use std::alloc::Global;

/// The normal form of a path: without empty components and `.`, and with each `..` resolved;
/// `None` where nothing stands before a `..`. Want of memory is the only error.
pub fn normal(alloc: Global, path: &str) -> Result<Option<String>, Memory>
    ensures { IfOk result (λ found. option_map string_bytes found ≡ spec.normal path.now) }
{
    let mut kept = Vec::new(alloc);
    for component in path.split('/') {
        if !take(&mut kept, component)? {
            return Ok(None);
        }
    }
    Ok(Some(spelled(alloc, is_from_root(path), &kept)?))
}

/// Whether a path is one from the root: whether it begins with `/`.
pub(crate) fn is_from_root(path: &str) -> bool
    ensures { result ≡ spec.is_from_root path.now }
{
    path.starts_with('/')
}

/// Takes one component more after those kept. False where it is a `..` and none is kept.
fn take<'a>(kept: &mut Vec<&'a str>, component: &'a str) -> Result<bool, Memory>
    ensures { IfOk result (λ taken. (if taken then Some (map (λ part. part.now) kept.new.items) else None)
        ≡ spec.with_component (map (λ part. part.now) kept.old.items) component.now) }
{
    match component {
        "" | "." => Ok(true),
        ".." => Ok(kept.pop().is_some()),
        _ => {
            kept.push(component)?;
            Ok(true)
        }
    }
}

/// The path of these components, from the root or not.
pub(crate) fn spelled(alloc: Global, from_root: bool, components: &[&str]) -> Result<String, Memory>
    ensures { IfOk result (λ text. string_bytes text ≡ spec.spelled from_root (map (λ part. part.now) components.now)) }
{
    let root = root_of(from_root);
    let joined = components.join(alloc, "/")?;
    format!(in alloc; "{root}{joined}")
}

/// What a path begins with, from the root or not.
fn root_of(from_root: bool) -> &'static str
    ensures { result.now ≡ spec.root from_root }
{
    if from_root { "/" } else { "" }
}
