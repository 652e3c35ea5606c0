ghost use Rattle.std.specs.Prelude.{◌≡◌, ◌∷◌, [], IfOk, OnOk, MatchOption};
ghost use Rattle.std.specs.String.{string_bytes};
ghost use Rattle.path_globs.specs.Specifier as globs;
ghost use Rattle.cov_run.specs.Asked as spec;

use items::{Memory, Text};
use path_globs::resolve;
use std::alloc::{AllocError, Global};
use std::collections::BTreeSet;
use std::marker::Model;

/// The paths that were asked for, in their order.
#[derive(Drop)]
pub(crate) struct Queue {
    order: Vec<Text>,
    /// How many of them were read.
    read: usize,
    /// The same paths, for looking them up.
    known: BTreeSet<String>,
}

impl Model for Queue {
    ghost use Rattle.std.specs.Prelude.{◌≡◌, ◌≤◌, ℕ, List, length, map, drop};
    ghost use Rattle.std.specs.String.{string_bytes};
    ghost use Rattle.cov_run.specs.Asked.{Asked, is_among};

    ghost Value = { Asked };

    ghost view = { λ queue. record { known = queue.order.items; waiting = drop queue.read queue.order.items } };

    ghost invariant = { λ queue. (queue.read ≤ length queue.order.items)
        × ((path : List ℕ) → is_among path (map string_bytes queue.known.keys) ≡ is_among path queue.order.items) };
}

impl Queue {
    /// The path of the entry alone, which does not wait: it is read first.
    pub(crate) fn new(alloc: Global, entry: &str) -> Result<Queue, Memory>
        ensures { IfOk result (λ queue. spec.before_others entry.now queue ≡ spec.only_entry entry.now) }
    {
        let mut order = Vec::new(alloc);
        order.push(Text::from_str(alloc, entry)?)?;
        let mut known = BTreeSet::new(alloc);
        known.insert(String::from_str(alloc, entry)?)?;
        Ok(Queue {
            order,
            read: 1,
            known,
        })
    }

    /// The path that is read next, which waits no more.
    pub(crate) fn next(&mut self, alloc: Global) -> Result<Option<Text>, Memory>
        ensures { IfOk result (λ found. MatchOption found ((self.old.waiting ≡ []) × (self.new ≡ self.old)) (λ path. self.old ≡ spec.before_others path self.new)) }
    {
        match self.order.as_slice().get(self.read) {
            None => Ok(None),
            Some(path) => {
                let path = Text::from_str(alloc, path.as_str())?;
                self.read += 1;
                Ok(Some(path))
            }
        }
    }

    /// Puts a path at the end, where it was not asked for before.
    fn put(&mut self, alloc: Global, path: String) -> Result<(), Memory>
        ensures { OnOk result (self.new ≡ spec.with_path self.old (string_bytes path)) }
    {
        if self.known.contains(path.as_str()) {
            return Ok(());
        }
        let copy = Text::from_str(alloc, path.as_str())?;
        self.order.push(copy)?;
        match self.known.insert(path) {
            Ok(_) => Ok(()),
            Err(_) => {
                drop(self.order.pop());
                Err(AllocError)
            }
        }
    }

    /// Puts the path of what the file at a path asks for by a specifier.
    fn ask(&mut self, alloc: Global, from: &str, specifier: &str) -> Result<(), Memory>
        ensures { OnOk result (self.new ≡ spec.with_found self.old (globs.resolve from.now specifier.now)) }
    {
        match resolve(alloc, from, specifier)? {
            Some(path) => self.put(alloc, path),
            None => Ok(()),
        }
    }

    /// Puts the paths of all that the file at a path asks for by these specifiers.
    pub(crate) fn ask_all(
        &mut self,
        alloc: Global,
        from: &str,
        specifiers: &[Text],
    ) -> Result<(), Memory>
        ensures { OnOk result (self.new ≡ spec.with_specifiers from.now self.old specifiers.now) }
    {
        for specifier in specifiers {
            self.ask(alloc, from, specifier.as_str())?;
        }
        Ok(())
    }
}
