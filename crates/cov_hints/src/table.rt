ghost use Rattle.std.specs.Prelude.{◌≡◌, IfOk, OnOk};
ghost use Rattle.cov_hints.specs.Table.{hint_in_table, noted};
ghost use Rattle.js_tree.specs.Comments.{hint_before};
ghost use Rattle.js_terms.specs.declared.place.Pos.{Pos};

use crate::pattern::hint_in_text;
use items::Memory;
use js_tree::{Comment, Hint, Pos};
use std::alloc::Global;
use std::collections::BTreeMap;

/// The hints of a file, each by the place of the token that it stands before.
#[derive(Drop)]
pub struct Hints {
    held: BTreeMap<Pos, Hint>,
}

impl Hints {
    /// The hints among a file's comments.
    pub fn of(alloc: Global, comments: &[Comment]) -> Result<Hints, Memory>
        ensures { IfOk result (λ hints. (token : Pos) → hint_in_table hints.held token ≡ hint_before comments.now token) }
    {
        let mut held = BTreeMap::new(alloc);
        for comment in comments {
            note(comment, &mut held)?;
        }
        Ok(Hints { held })
    }

    /// The hint before the token that starts at a place. It takes no memory.
    pub fn before(&self, token: Pos) -> Option<Hint>
        ensures { result ≡ hint_in_table self.now.held token }
    {
        self.held.get(&token).copied()
    }
}

// Notes a comment, if it is a hint.
fn note(comment: &Comment, held: &mut BTreeMap<Pos, Hint>) -> Result<(), Memory>
    ensures { OnOk result ((token : Pos) → hint_in_table held.new token ≡ noted comment.now token (hint_in_table held.old token)) }
{
    if let Some(hint) = hint_in_text(comment.text.as_str()) {
        held.insert(comment.next, hint)?;
    }
    Ok(())
}
