ghost use Rattle.std.specs.Prelude.{◌≡◌, ◌≢◌, true, false, Some, None, OnOk, IfOk, IfErr};
ghost use Rattle.std.specs.Cmp.Lexicographic.{slice_cmp};
ghost use Rattle.std.specs.List.Sorted.{IsStrictlySortedBy};
ghost use Rattle.std.specs.Ordering.{nat_cmp};
ghost use Rattle.js_scopes.specs.Checks.{first_fault};
ghost use Rattle.js_scopes.specs.Required.{required_of};
ghost use Rattle.js_scopes.specs.Mentions.{start, mentions_file};
ghost use Rattle.js_scopes.specs.Names.{names_of};
ghost use Rattle.js_tree.specs.Tree.{plain_file};

use crate::checks::faults_of;
use crate::fault::{ScopeFault, ScopeFaultKind};
use crate::mention::Mention;
use crate::mentions::mentions_of;
use crate::names::names_in;
use crate::required::required_in;
use items::{Items, Text};
use js_tree::{File, Name};
use std::alloc::Global;
use std::marker::Model;

/// A file that breaks no early rule, with the names that it writes and the files that it asks for.
#[derive(Drop)]
pub struct Checked {
    file: File,
    lists: Lists,
}

/// What a file writes and asks for.
#[derive(Drop)]
struct Lists {
    names: Items<Name>,
    required: Items<Text>,
}

impl Model for Checked {
    ghost use Rattle.std.specs.Prelude.{◌≡◌, true, None};
    ghost use Rattle.js_scopes.specs.Required.{required_of};
    ghost use Rattle.js_scopes.specs.Checks.{first_fault};
    ghost use Rattle.js_scopes.specs.Mentions.{mentions_file};
    ghost use Rattle.js_scopes.specs.Names.{names_of};
    ghost use Rattle.js_tree.specs.Tree.{plain_file};
    ghost use Rattle.js_tree.specs.declared.tree.File.{File};
    ghost use Rattle.js_tree.specs.contracts.tree.File as file_row;

    ghost Value = { File };

    ghost coded = { file_row.the_row.coded };

    ghost view = { λ checked. checked.file };

    ghost invariant = { λ checked. (first_fault true (plain_file checked.file) ≡ None)
        × (checked.lists.names ≡ names_of (mentions_file (plain_file checked.file)))
        × (checked.lists.required ≡ required_of (mentions_file (plain_file checked.file))) };
}

impl Checked {
    /// The file, lent.
    pub fn file(&self) -> &File
        ensures same { result.now ≡ self.now }
        ensures accepted { first_fault true (plain_file result.now) ≡ None }
    {
        &self.file
    }

    /// The file itself. It takes no memory.
    pub fn into_file(self) -> File
        ensures same { result ≡ self }
        ensures accepted { first_fault true (plain_file result) ≡ None }
    {
        let Checked { file, lists: _ } = self;
        file
    }

    /// The names that the file writes, those of properties and labels among them: sorted by their
    /// UTF-8 bytes, each once. It takes no memory.
    #[tactic(auto, using(crate::proofs::Sorted::names_sorted))]
    pub fn names(&self) -> &[Name]
        ensures names { result.now ≡ names_of (mentions_file (plain_file self.now)) }
        ensures order { IsStrictlySortedBy (slice_cmp nat_cmp) result.now }
    {
        self.lists.names.as_slice()
    }

    /// What the file asks for: the strings without lone surrogates that calls of the name
    /// `require` begin with, in the order of its text, as often as they are written. It takes no
    /// memory.
    pub fn requires_(&self) -> &[Text]
        ensures { result.now ≡ required_of (mentions_file (plain_file self.now)) }
    {
        self.lists.required.as_slice()
    }
}

/// The file, where it breaks no early rule. Else, or on want of memory, the file comes back with
/// the fault that is the first in its text: of those at one place, the first in the order of the
/// kinds.
pub fn check(alloc: Global, file: File) -> Result<Checked, (File, ScopeFault)>
    ensures accepted { OnOk result (first_fault false (plain_file file) ≡ None) }
    ensures file { IfOk result (λ checked. checked ≡ file) }
    ensures fault { IfErr result (λ refused. refused.1.kind ≢ ScopeFaultKind.Memory → first_fault false (plain_file file) ≡ Some refused.1) }
    ensures memory { IfErr result (λ refused. refused.1.kind ≡ ScopeFaultKind.Memory → refused.1.at ≡ start None) }
    ensures file_back { IfErr result (λ refused. refused.0 ≡ file) }
{
    match lists_of(alloc, false, &file) {
        Ok(lists) => Ok(Checked { file, lists }),
        Err(fault) => Err((file, fault)),
    }
}

/// The same for a file that the suite has written: the name `globalThis` may stand in it.
pub fn check_again(alloc: Global, file: File) -> Result<Checked, (File, ScopeFault)>
    ensures accepted { OnOk result (first_fault true (plain_file file) ≡ None) }
    ensures file { IfOk result (λ checked. checked ≡ file) }
    ensures fault { IfErr result (λ refused. refused.1.kind ≢ ScopeFaultKind.Memory → first_fault true (plain_file file) ≡ Some refused.1) }
    ensures memory { IfErr result (λ refused. refused.1.kind ≡ ScopeFaultKind.Memory → refused.1.at ≡ start None) }
    ensures file_back { IfErr result (λ refused. refused.0 ≡ file) }
{
    match lists_of(alloc, true, &file) {
        Ok(lists) => Ok(Checked { file, lists }),
        Err(fault) => Err((file, fault)),
    }
}

/// The lists of a file that breaks no early rule.
fn lists_of(alloc: Global, again: bool, file: &File) -> Result<Lists, ScopeFault>
    ensures accepted { OnOk result (first_fault again (plain_file file.now) ≡ None) }
    ensures allowed { OnOk result (first_fault true (plain_file file.now) ≡ None) }
    ensures names { IfOk result (λ lists. lists.names ≡ names_of (mentions_file (plain_file file.now))) }
    ensures required { IfOk result (λ lists. lists.required ≡ required_of (mentions_file (plain_file file.now))) }
    ensures fault { IfErr result (λ fault. fault.kind ≢ ScopeFaultKind.Memory → first_fault again (plain_file file.now) ≡ Some fault) }
    ensures memory { IfErr result (λ fault. fault.kind ≡ ScopeFaultKind.Memory → fault.at ≡ start None) }
{
    let found = mentions_of(alloc, file)?;
    first_of(alloc, again, file, found.as_slice())?;
    let required = required_in(alloc, found.as_slice())?;
    let names = names_in(alloc, found)?;
    Ok(Lists { names, required })
}

/// Nothing, where no rule is broken; else the first that is.
#[tactic(auto, using(crate::proofs::Again::again_none, crate::proofs::RuleLists::no_memory))]
fn first_of(alloc: Global, again: bool, file: &File, mentions: &[Mention]) -> Result<(), ScopeFault>
    requires { mentions.now ≡ mentions_file (plain_file file.now) }
    ensures accepted { OnOk result (first_fault again (plain_file file.now) ≡ None) }
    ensures allowed { OnOk result (first_fault true (plain_file file.now) ≡ None) }
    ensures fault { IfErr result (λ fault. fault.kind ≢ ScopeFaultKind.Memory → first_fault again (plain_file file.now) ≡ Some fault) }
    ensures memory { IfErr result (λ fault. fault.kind ≡ ScopeFaultKind.Memory → fault.at ≡ start None) }
{
    let found = faults_of(alloc, again, file, mentions)?;
    match found.first() {
        None => Ok(()),
        Some(fault) => Err(fault),
    }
}
