ghost use Rattle.std.specs.Prelude.{◌≡◌, IfOk, OnOk, map};
ghost use Rattle.std.specs.String.{string_bytes};
ghost use Rattle.js_scopes.specs.Names.{names_of, with_mention, with_name};

use crate::mention::Mention;
use items::{Items, Memory, Text};
use js_tree::Name;
use std::alloc::Global;
use std::collections::BTreeSet;

/// The names of a file, sorted by their bytes, each once. The mentions' own texts are taken.
pub fn names_in(alloc: Global, found: Items<Mention>) -> Result<Items<Name>, Memory>
    ensures { IfOk result (λ names. names ≡ names_of found) }
{
    listed(alloc, sorted(alloc, found)?)
}

#[tactic(auto, using(crate::proofs::Keys::with_mentions_push))]
fn sorted(alloc: Global, found: Items<Mention>) -> Result<BTreeSet<String>, Memory>
    ensures { IfOk result (λ names. map string_bytes names.keys ≡ names_of found) }
{
    let mut names = BTreeSet::new(alloc);
    let mentions = found.into_vec();
    for mention in mentions {
        put_mention(mention, &mut names)?;
    }
    Ok(names)
}

fn put_mention(mention: Mention, names: &mut BTreeSet<String>) -> Result<(), Memory>
    ensures { OnOk result (map string_bytes names.new.keys ≡ with_mention (map string_bytes names.old.keys) mention) }
{
    match mention {
        Mention::Variable(_, name) => put_name(name, names),
        Mention::Label(_, name) => put_name(name, names),
        Mention::Member(name) => put_name(name, names),
        Mention::Required(_) => Ok(()),
    }
}

fn put_name(name: Text, names: &mut BTreeSet<String>) -> Result<(), Memory>
    ensures { OnOk result (map string_bytes names.new.keys ≡ with_name (map string_bytes names.old.keys) name) }
{
    names.insert(name.into_string())?;
    Ok(())
}

/// The names of a set, in its order.
fn listed(alloc: Global, names: BTreeSet<String>) -> Result<Items<Name>, Memory>
    ensures { IfOk result (λ list. list ≡ map string_bytes names.keys) }
{
    let mut list = Items::new(alloc);
    for name in names {
        list.push(Text::from_string(name))?;
    }
    Ok(list)
}
