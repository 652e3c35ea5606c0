ghost use Rattle.std.specs.Prelude.{◌≡◌, false};
ghost use Rattle.cov_hints.specs.Table.{hint_in_table};
ghost use Rattle.cov_hints.specs.Left.{left_of};
ghost use Rattle.js_tree.specs.Hints as spec;

use crate::table::Hints;
use js_tree::{Hint, Loc};

/// What hints have left in a part of a file.
#[derive(Clone, Copy)]
pub struct Left<'h> {
    /// The file's hints.
    pub hints: &'h Hints,
    /// Whether the part is taken out.
    pub ignored: bool,
}

impl<'h> Left<'h> {
    /// What is left in a node that stands here. It takes no memory.
    pub fn within(self, place: Option<Loc>) -> Left<'h>
        ensures { left_of result ≡ spec.heed (left_of self.entry) place }
    {
        self.without(Hint::Next, place)
    }

    /// What is left in an arm of an `if` statement that stands here. It takes no memory.
    pub fn within_arm(self, which: Hint, place: Option<Loc>) -> Left<'h>
        ensures { left_of result ≡ spec.heed_arm which (left_of self.entry) place }
    {
        self.without(which, place)
    }

    // What is left where this hint takes a part out.
    fn without(self, which: Hint, place: Option<Loc>) -> Left<'h>
        ensures { left_of result ≡ spec.heed_arm which (left_of self.entry) place }
    {
        Left {
            hints: self.hints,
            ignored: self.ignored || has_hint(self.hints, which, place),
        }
    }

    /// Where something is counted that stands here: nowhere in a part that is taken out. It takes no memory.
    pub fn place(self, place: Option<Loc>) -> Option<Loc>
        ensures { result ≡ spec.heeded_place (left_of self.entry) place }
    {
        if self.ignored { None } else { place }
    }
}

// Whether this hint stands before what starts here.
fn has_hint(hints: &Hints, which: Hint, place: Option<Loc>) -> bool
    ensures { result ≡ spec.is_hint which (spec.hint_at (hint_in_table hints.now.held) place) }
{
    match place {
        None => false,
        Some(loc) => is_hint(which, hints.before(loc.start)),
    }
}

// Whether a hint is this one.
fn is_hint(which: Hint, found: Option<Hint>) -> bool
    ensures { result ≡ spec.is_hint which found }
{
    match found {
        None => false,
        Some(Hint::If) => matches!(which, Hint::If),
        Some(Hint::Else) => matches!(which, Hint::Else),
        Some(Hint::Next) => matches!(which, Hint::Next),
    }
}
