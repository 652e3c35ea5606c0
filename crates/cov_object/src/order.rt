ghost use Rattle.std.specs.Prelude.{◌≡◌, map, string_bytes, IfOk};
ghost use Rattle.cov_object.specs.private.Order.{in_key_order};

use crate::digits::digits;
use items::Memory;
use std::alloc::Global;
use std::collections::BTreeMap;

// The things, each beside its id in decimal, in the byte order of the digits: 0, 1, 10, 11, 2.
pub(crate) fn in_digit_order<T>(
    alloc: Global,
    things: &[(u64, T)],
) -> Result<Vec<(String, &T)>, Memory>
    ensures { IfOk result (λ sorted. map (λ thing. (string_bytes thing.0, thing.1.now)) sorted.items ≡ in_key_order things.now) }
{
    let mut sorted = BTreeMap::new(alloc);
    for (id, thing) in things {
        sorted.insert(digits(alloc, *id)?, thing)?;
    }
    sorted.into_iter().collect(alloc)
}
