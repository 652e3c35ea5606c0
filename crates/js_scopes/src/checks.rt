ghost use Rattle.std.specs.Prelude.{◌≡◌, ◌++◌, IfOk, OnOk};
ghost use Rattle.js_scopes.specs.Checks as spec;
ghost use Rattle.js_scopes.specs.Mentions.{mentions_file};
ghost use Rattle.js_tree.specs.Tree.{plain_file};

use crate::fault::ScopeFaultKind;
use crate::faults::Faults;
use crate::mention::Mention;
use crate::reserved::{is_reserved, is_strict};
use crate::scopes::with_scopes;
use items::Memory;
use js_tree::{File, Pos};
use std::alloc::Global;

/// All rules that a file breaks, the names that it writes being given.
#[tactic(auto, unfolding(crate::specs::Checks::faults))]
pub(crate) fn faults_of(
    alloc: Global,
    again: bool,
    file: &File,
    mentions: &[Mention],
) -> Result<Faults, Memory>
    requires { mentions.now ≡ mentions_file (plain_file file.now) }
    ensures { IfOk result (λ found. found ≡ spec.faults again (plain_file file.now)) }
{
    let mut found = Faults::new(alloc);
    reserved_among(again, mentions, &mut found)?;
    with_scopes(alloc, file, found)
}

fn reserved_among(again: bool, mentions: &[Mention], out: &mut Faults) -> Result<(), Memory>
    ensures { OnOk result (out.new ≡ out.old ++ spec.reserved_among again mentions.now) }
{
    for mention in mentions {
        reserved_by(again, mention, out)?;
    }
    Ok(())
}

fn reserved_by(again: bool, mention: &Mention, out: &mut Faults) -> Result<(), Memory>
    ensures { OnOk result (out.new ≡ out.old ++ spec.reserved_by again mention.now) }
{
    match mention {
        Mention::Variable(at, name) => reserved_if(is_reserved(again, name.as_str()), *at, out),
        Mention::Label(at, name) => reserved_if(is_strict(name.as_str()), *at, out),
        Mention::Member(_) => Ok(()),
        Mention::Required(_) => Ok(()),
    }
}

fn reserved_if(holds: bool, at: Pos, out: &mut Faults) -> Result<(), Memory>
    ensures { OnOk result (out.new ≡ out.old ++ spec.reserved_if holds at) }
{
    if holds {
        out.put(at, ScopeFaultKind::Reserved)
    } else {
        Ok(())
    }
}
