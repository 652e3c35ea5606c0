ghost use Rattle.std.specs.Prelude.{◌≡◌, ◌++◌, IfOk, OnOk};
ghost use Rattle.js_scopes.specs.Required.{required_by, required_of, text_of};

use crate::mention::Mention;
use items::{Items, Memory, Text};
use std::alloc::Global;

/// The files that a file asks for, in the order of its text.
pub fn required_in(alloc: Global, found: &[Mention]) -> Result<Items<Text>, Memory>
    ensures { IfOk result (λ required. required ≡ required_of found.now) }
{
    let mut required = Items::new(alloc);
    for mention in found {
        put_required(alloc, mention, &mut required)?;
    }
    Ok(required)
}

fn put_required(alloc: Global, mention: &Mention, required: &mut Items<Text>) -> Result<(), Memory>
    ensures { OnOk result (required.new ≡ required.old ++ required_by mention.now) }
{
    match mention {
        Mention::Variable(_, _) => Ok(()),
        Mention::Label(_, _) => Ok(()),
        Mention::Member(_) => Ok(()),
        Mention::Required(units) => put_text(alloc, units.as_slice(), required),
    }
}

/// Puts the text of units at the end, where no surrogate stands alone.
fn put_text(alloc: Global, units: &[u16], required: &mut Items<Text>) -> Result<(), Memory>
    ensures { OnOk result (required.new ≡ required.old ++ text_of units.now) }
{
    match String::from_utf16(alloc, units)? {
        Ok(text) => required.push(Text::from_string(text)),
        Err(_) => Ok(()),
    }
}
