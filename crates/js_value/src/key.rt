ghost use Rattle.std.specs.Prelude.{◌≡◌};
ghost use Rattle.js_value.specs.Key as spec;

use crate::Str;

/// A key of an object's own, and whether its property is enumerable.
#[derive(Debug, Drop)]
pub struct Key {
    pub key: Str,
    pub enumerable: bool,
}

/// The index that a key is (ECMA-262, 6.1.7): a decimal numeral below 2^32 - 1. It takes no memory.
pub fn index_of(key: &[u16]) -> Option<u32>
    ensures { result ≡ spec.index_of key.now }
{
    match key {
        [] => None,
        [48, _, ..] => None,
        _ => digits(key),
    }
}

/// The number that these digits spell, where it is an index.
fn digits(units: &[u16]) -> Option<u32>
    ensures { result ≡ spec.if_index (spec.digits_after 0 units.now) }
{
    let mut number = 0u64;
    for unit in units {
        if *unit < 48 || *unit > 57 {
            return None;
        }
        number = number * 10 + u64::from(*unit - 48);
        if number >= u64::from(u32::MAX) {
            return None;
        }
    }
    Some(number as u32)
}
