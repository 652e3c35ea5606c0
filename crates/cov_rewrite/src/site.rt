ghost use Rattle.std.specs.Prelude.{◌≡◌};
ghost use Rattle.js_tree.specs.Hints as spec;
ghost use Rattle.cov_rewrite.specs.Site.{counter_of, heed_of};

use cov_hints::Left;
use js_tree::{Hint, Loc};
use std::alloc::Global;

// Where a part of a file is rewritten: what it allocates with, the name of the file's function, and
// what hints have left here.
#[derive(Clone, Copy)]
pub(crate) struct Site<'s> {
    pub(crate) alloc: Global,
    pub(crate) name: &'s str,
    pub(crate) left: Left<'s>,
}

impl<'s> Site<'s> {
    // In a node that stands here.
    pub(crate) fn within(self, place: Option<Loc>) -> Site<'s>
        ensures left { heed_of result ≡ spec.heed (heed_of self.entry) place }
        ensures name { result.name.now ≡ self.entry.name.now }
        ensures counter { counter_of result ≡ counter_of self.entry }
    {
        Site {
            alloc: self.alloc,
            name: self.name,
            left: self.left.within(place),
        }
    }

    // In an arm of an `if` statement that stands here.
    pub(crate) fn within_arm(self, which: Hint, place: Option<Loc>) -> Site<'s>
        ensures left { heed_of result ≡ spec.heed_arm which (heed_of self.entry) place }
        ensures name { result.name.now ≡ self.entry.name.now }
        ensures counter { counter_of result ≡ counter_of self.entry }
    {
        Site {
            alloc: self.alloc,
            name: self.name,
            left: self.left.within_arm(which, place),
        }
    }
}
