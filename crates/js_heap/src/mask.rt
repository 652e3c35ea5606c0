ghost use Rattle.std.specs.Prelude.{◌≡◌, map, nat_eq};
ghost use Rattle.std.specs.Int.{bit_at};
ghost use Rattle.js_heap.specs.private.Mask.{bit_of, IsMaskOf, Keeps};

use crate::environment::Binding;
use js_names::SharedName;

/// The mask with the bit of one more name.
pub fn with_bit(mask: u64, name: &SharedName) -> u64
    ensures bit { bit_at result (bit_of name.now) ≡ 1 }
    ensures others { Keeps mask result }
{
    mask | 1 << (name.number() % 64)
}

/// Whether the bit of a name isn't set.
pub fn lacks(mask: u64, name: &SharedName) -> bool
    ensures { result ≡ nat_eq (bit_at mask (bit_of name.now)) 0 }
{
    mask >> (name.number() % 64) & 1 == 0
}

/// The mask of some names.
pub fn mask_of(bindings: &[Binding]) -> u64
    ensures { IsMaskOf result (map (λ b. b.name) bindings.now) }
{
    let mut mask = 0;
    for place in 0..bindings.len() {
        mask = with_bit(mask, &bindings[place].name);
    }
    mask
}
