ghost use Rattle.std.specs.Prelude.{◌≡◌, ◌∷◌, ◌++◌, [], true, IfSome, OnOk};
ghost use Rattle.js_scopes.specs.Order as spec;
ghost use Rattle.js_scopes.specs.private.Rules.{is_rule};

use crate::fault::{ScopeFault, ScopeFaultKind};
use items::{Items, Memory};
use js_tree::Pos;
use std::alloc::Global;
use std::marker::Model;

/// The rules that are found broken so far. Want of memory is none of them.
#[derive(Drop)]
pub(crate) struct Faults {
    list: Items<ScopeFault>,
}

impl Model for Faults {
    ghost use Rattle.std.specs.Prelude.{◌≡◌, List, true};
    ghost use Rattle.js_scopes.specs.private.Rules.{are_rules};
    ghost use Rattle.js_scopes.specs.declared.fault.ScopeFault.{ScopeFault};

    ghost Value = { List ScopeFault };

    ghost view = { λ faults. faults.list };

    ghost invariant = { λ faults. are_rules faults.list ≡ true };
}

impl Faults {
    /// None.
    pub(crate) fn new(alloc: Global) -> Faults
        ensures { result ≡ [] }
    {
        Faults {
            list: Items::new(alloc),
        }
    }

    /// Puts one more at the end.
    #[tactic(auto, using(crate::proofs::RuleLists::one_more))]
    pub(crate) fn put(&mut self, at: Pos, kind: ScopeFaultKind) -> Result<(), Memory>
        requires { is_rule kind ≡ true }
        ensures { OnOk result (self.new ≡ self.old ++ record { at = at; kind = kind } ∷ []) }
    {
        self.list.push(ScopeFault { at, kind })
    }

    /// The first in the text.
    #[tactic(auto, using(crate::proofs::RuleLists::first_rule))]
    pub(crate) fn first(&self) -> Option<ScopeFault>
        ensures first { result ≡ spec.first self.now }
        ensures rule { IfSome result (λ fault. is_rule fault.kind ≡ true) }
    {
        let list = self.list.as_slice();
        let mut found = None;
        for index in (0..list.len()).rev() {
            found = Some(earliest(list[index], found));
        }
        found
    }
}

fn earliest(fault: ScopeFault, other: Option<ScopeFault>) -> ScopeFault
    ensures { result ≡ spec.earliest fault other }
{
    match other {
        None => fault,
        Some(other) => {
            if is_before(other, fault) {
                other
            } else {
                fault
            }
        }
    }
}

fn is_before(one: ScopeFault, other: ScopeFault) -> bool
    ensures { result ≡ spec.before one other }
{
    one.at.line < other.at.line
        || (one.at.line == other.at.line
            && (one.at.column < other.at.column
                || (one.at.column == other.at.column && rank(one.kind) < rank(other.kind))))
}

fn rank(kind: ScopeFaultKind) -> u8
    ensures { result ≡ spec.rank kind }
{
    match kind {
        ScopeFaultKind::Duplicate => 0,
        ScopeFaultKind::Label => 1,
        ScopeFaultKind::BreakOutside => 2,
        ScopeFaultKind::ContinueOutside => 2,
        ScopeFaultKind::BadTarget => 3,
        ScopeFaultKind::Reserved => 4,
        ScopeFaultKind::Memory => 5,
    }
}
