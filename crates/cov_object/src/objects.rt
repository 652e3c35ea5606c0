ghost use Rattle.std.specs.Prelude.{◌≡◌, ◌++◌, map, true, string_bytes, OnOk};
ghost use Rattle.serde_json.specs.Data.{object};
ghost use Rattle.serde_json.specs.Written.{compact_text};
ghost use Rattle.cov_object.specs.Json.{numbered};
ghost use Rattle.cov_object.specs.private.Order.{members_of};
ghost use Rattle.cov_object.specs.private.Piece.{member_text};

use crate::counted::{Counted, Part};
use crate::order::in_digit_order;
use crate::piece::push_key;
use items::Memory;
use std::alloc::Global;

// Writes two members at the end of `out`: the counts of the things, and their descriptions.
pub(crate) fn push_counted<T: Counted>(
    alloc: Global,
    out: &mut Vec<u8>,
    later: bool,
    counts: &str,
    descriptions: &str,
    things: &[(u64, T)],
) -> Result<(), Memory>
    ensures { OnOk result (out.new.items ≡ out.old.items
        ++ (member_text later counts.now (numbered (T.json Part.Counts) things.now)
        ++ member_text true descriptions.now (numbered (T.json Part.Description) things.now))) }
{
    let sorted = in_digit_order(alloc, things)?;
    push_key(alloc, out, later, counts)?;
    push_object(alloc, out, Part::Counts, &sorted)?;
    push_key(alloc, out, true, descriptions)?;
    push_object(alloc, out, Part::Description, &sorted)
}

// Writes an object of a part of each thing under its key, as the things stand.
fn push_object<T: Counted>(
    alloc: Global,
    out: &mut Vec<u8>,
    part: Part,
    sorted: &[(String, &T)],
) -> Result<(), Memory>
    ensures { OnOk result (out.new.items ≡ out.old.items
        ++ compact_text (object (members_of (T.json part) (map (λ thing. (string_bytes thing.0, thing.1.now)) sorted.now)))) }
{
    out.push(b'{')?;
    for (place, (key, thing)) in sorted.iter().enumerate() {
        push_key(alloc, out, place > 0, key.as_str())?;
        thing.push(alloc, out, part)?;
    }
    out.push(b'}')?;
    Ok(())
}
