ghost use Rattle.std.specs.Prelude.{◌≡◌, ◌++◌, ◌∷◌, [], length, set, slice_get, OnOk};

use items::Memory;
use std::alloc::Global;
use std::marker::Model;

/// Places in a program's code. Contracts see them as a list.
pub struct Places {
    places: Vec<usize>,
}

impl Model for Places {
    ghost use Rattle.std.specs.Prelude.{List, ℕ};

    ghost Value = { List ℕ };

    ghost view = { λ places. places.places.items };
}

impl Drop for Places {
    fn drop(self) {
        let Places { places } = self;
        drop(places);
    }
}

impl Places {
    /// No places.
    pub fn new(alloc: Global) -> Places
        ensures { result ≡ [] }
    {
        Places {
            places: Vec::new(alloc),
        }
    }

    /// How many there are.
    pub fn len(&self) -> usize
        ensures { result ≡ length self.now }
    {
        self.places.len()
    }

    /// One more at the end.
    pub fn push(&mut self, place: usize) -> Result<(), Memory>
        ensures { OnOk result (self.new ≡ self.old ++ place ∷ []) }
    {
        Ok(self.places.push(place)?)
    }

    /// Another place at an index; past the end nothing is done.
    pub fn put(&mut self, index: usize, place: usize)
        ensures { self.new ≡ set self.old index place }
    {
        if let Some(kept) = self.places.get_mut(index) {
            *kept = place;
        }
    }

    /// The place at an index, or none past the end.
    pub fn get(&self, index: usize) -> Option<usize>
        ensures { result ≡ slice_get self.now index }
    {
        self.places.get(index).copied()
    }
}
