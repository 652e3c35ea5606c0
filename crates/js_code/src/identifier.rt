ghost use Rattle.std.specs.Prelude.{◌≡◌, IfOk};

use items::Memory;
use js_names::SharedName;
use js_tree::{Identifier, Loc};
use std::alloc::Global;
use std::marker::Model;

/// An identifier that is no expression (ECMA-262, 13.1), as a run holds it. Contracts see it as the tree's.
#[derive(Drop)]
pub struct SharedIdentifier {
    loc: Option<Loc>,
    name: SharedName,
}

impl Model for SharedIdentifier {
    ghost use Rattle.js_terms.specs.declared.words.Identifier.{Identifier};

    ghost Value = { Identifier };

    ghost view = { λ identifier. record { loc = identifier.loc; name = identifier.name } };
}

impl SharedIdentifier {
    /// This identifier, or want of memory.
    pub fn new(alloc: Global, identifier: &Identifier) -> Result<SharedIdentifier, Memory>
        ensures { IfOk result (λ shared. shared ≡ identifier.now) }
    {
        Ok(SharedIdentifier {
            loc: identifier.loc,
            name: SharedName::new(alloc, identifier.name.as_str())?,
        })
    }

    /// Its name.
    pub fn name(&self) -> &SharedName
        ensures { result.now ≡ self.now.name }
    {
        &self.name
    }
}
