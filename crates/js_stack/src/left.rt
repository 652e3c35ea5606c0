ghost use Rattle.std.specs.Prelude.{◌≡◌, [], ◌∷◌, ◌++◌, OnOk, IfSome, IfNone, length};
ghost use Rattle.js_stack.specs.Left.{first_slot};

use items::Memory;
use js_grammar::Slot;
use std::alloc::Global;
use std::marker::Model;

/// The slots of a production that are left. Contracts see them as a list, the next one first.
#[derive(Drop)]
pub(crate) struct Left {
    reversed: Vec<Slot>,
}

impl Model for Left {
    ghost use Rattle.std.specs.Prelude.{List, reverse};
    ghost use Rattle.js_grammar.specs.declared.slot.Slot.{Slot};

    ghost Value = { List Slot };

    ghost view = { λ left. reverse left.reversed.items };
}

impl Left {
    /// No slot is left.
    pub(crate) fn new(alloc: Global) -> Left
        ensures { result ≡ [] }
    {
        Left {
            reversed: Vec::new(alloc),
        }
    }

    /// Puts a slot before the others.
    #[tactic(auto, using(crate::proofs::LeftLemmas::left_rules))]
    pub(crate) fn push(&mut self, slot: Slot) -> Result<(), Memory>
        ensures { OnOk result (self.new ≡ slot ∷ self.old) }
    {
        self.reversed.push(slot)?;
        Ok(())
    }

    /// Takes the next slot off.
    #[tactic(auto, using(crate::proofs::LeftLemmas::left_rules))]
    pub(crate) fn next(&mut self) -> Option<Slot>
        ensures some { IfSome result (λ slot. self.old ≡ slot ∷ self.new) }
        ensures none { IfNone result (self.old ≡ []) }
        ensures emptied { IfNone result (self.new ≡ []) }
    {
        self.reversed.pop()
    }

    /// How many are left.
    #[tactic(auto, using(crate::proofs::LeftLemmas::left_rules))]
    pub(crate) fn len(&self) -> usize
        ensures { result ≡ length self.now }
    {
        self.reversed.len()
    }

    /// The next slot.
    #[tactic(auto, using(crate::proofs::LeftLemmas::left_rules))]
    pub(crate) fn first(&self) -> Option<Slot>
        ensures { result ≡ first_slot self.now }
    {
        match self.reversed.last() {
            Some(slot) => Some(*slot),
            None => None,
        }
    }

    /// Puts the slots of a row before the others.
    pub(crate) fn put(&mut self, row: &'static [Slot]) -> Result<(), Memory>
        ensures { OnOk result (self.new ≡ row.now ++ self.old) }
    {
        let mut row = row;
        while let Some((last, others)) = row.split_last() {
            self.push(*last)?;
            row = others;
        }
        Ok(())
    }
}
