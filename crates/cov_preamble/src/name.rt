ghost use Rattle.std.specs.Prelude.{◌≡◌, IfOk, string_bytes};
ghost use Rattle.cov_preamble.specs.Name as spec;

use crate::digits::{number_of, push_in_base_36};
use items::Memory;
use js_tree::Name;
use sha1::Sha1;
use std::alloc::Global;

/// The name of a file's function: `cov_`, and the first twelve hexadecimal digits of the SHA-1 of its
/// path as a number in base 36. While that is one of the names, `_` is put at its end.
pub fn cov_name(alloc: Global, path: &str, names: &[Name]) -> Result<String, Memory>
    ensures { IfOk result (λ name. string_bytes name ≡ spec.cov_name path.now names.now) }
{
    let name = first_name(alloc, path)?;
    apart_from(name, names)
}

// The name that doesn't heed the names of the source.
fn first_name(alloc: Global, path: &str) -> Result<String, Memory>
    ensures { IfOk result (λ name. string_bytes name ≡ spec.first_name path.now) }
{
    let number = number_of(Sha1::digest(path.as_bytes()));
    let mut name = String::from_str(alloc, "cov_")?;
    push_in_base_36(&mut name, 12, number)?;
    Ok(name)
}

// The name, with as many `_` at its end as make it none of these.
#[tactic(auto, using(crate::proofs::Apart::apart_more, crate::proofs::Apart::apart_stop, crate::proofs::Apart::apart_out))]
fn apart_from(mut name: String, names: &[Name]) -> Result<String, Memory>
    ensures { IfOk result (λ apart. string_bytes apart ≡ spec.apart_from (string_bytes name) names.now) }
{
    for _ in 0..names.len() {
        if !is_among(&name, names) {
            return Ok(name);
        }
        name.push('_')?;
    }
    Ok(name)
}

fn is_among(name: &str, names: &[Name]) -> bool
    ensures { result ≡ spec.is_among name.now names.now }
{
    for other in names {
        if other.as_str() == name {
            return true;
        }
    }
    false
}
