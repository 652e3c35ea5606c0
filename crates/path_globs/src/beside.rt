ghost use Rattle.std.specs.Prelude.{◌≡◌, map, codes, string_bytes, IfOk, OnOk};
ghost use Rattle.path_globs.specs.Beside as spec;

use crate::normal_form::{is_from_root, spelled};
use crate::specifier::folder;
use items::Memory;
use std::alloc::Global;

/// A path from the folder of a file: without empty components and `.`, and with each `..` resolved
/// but those at the front, which stay. Want of memory is the only error.
pub fn path_beside(alloc: Global, file: &str, path: &str) -> Result<String, Memory>
    ensures { IfOk result (λ found. string_bytes found ≡ spec.beside file.now path.now) }
{
    let folder = folder(file);
    let whole = format!(in alloc; "{folder}{path}")?;
    open_form(alloc, &whole)
}

/// The form of a path in which a `..` at the front stays.
fn open_form(alloc: Global, path: &str) -> Result<String, Memory>
    ensures { IfOk result (λ form. string_bytes form ≡ spec.open_form path.now) }
{
    let mut kept = Vec::new(alloc);
    for component in path.split('/') {
        take(&mut kept, component)?;
    }
    spelled(alloc, is_from_root(path), &kept)
}

/// Takes one component more after those kept.
fn take<'a>(kept: &mut Vec<&'a str>, component: &'a str) -> Result<(), Memory>
    ensures { OnOk result (map (λ part. part.now) kept.new.items ≡ spec.with_component (map (λ part. part.now) kept.old.items) component.now) }
{
    match component {
        "" | "." => Ok(()),
        ".." => up(kept, component),
        _ => {
            kept.push(component)?;
            Ok(())
        }
    }
}

/// Takes the last component away, or keeps a `..` where there is none or another such.
fn up<'a>(kept: &mut Vec<&'a str>, component: &'a str) -> Result<(), Memory>
    requires { component.now ≡ codes ".." }
    ensures { OnOk result (map (λ part. part.now) kept.new.items ≡ spec.up_from (map (λ part. part.now) kept.old.items)) }
{
    match kept.pop() {
        None => {
            kept.push(component)?;
            Ok(())
        }
        Some(last) => {
            if last == ".." {
                kept.push(last)?;
                kept.push(component)?;
            }
            Ok(())
        }
    }
}
