ghost use Rattle.std.specs.Prelude.{◌≡◌, ◌≢◌, IsOkAnd, OnErr};

use crate::{Failed, Memory, Store};
use std::alloc::Global;
use std::collections::BTreeMap;

/// A store over memory that never answers `Device`.
#[derive(Debug, Drop)]
pub struct SureStore {
    alloc: Global,
    files: BTreeMap<String, Vec<u8>>,
}

impl SureStore {
    ghost use Rattle.cov_base.specs.Files.{contents_of};
    ghost use Rattle.cov_base.specs.SureStore.{held_of};

    /// A store that holds these bytes at these paths. It takes no memory; what is put later is
    /// kept on the allocator.
    pub fn new(alloc: Global, held: BTreeMap<String, Vec<u8>>) -> Result<SureStore, Memory>
        ensures { IsOkAnd result (λ store. held_of store ≡ contents_of held) }
    {
        Ok(SureStore { alloc, files: held })
    }
}

impl Store for SureStore {
    ghost use Rattle.std.specs.Prelude.{Some};
    ghost use Rattle.cov_base.specs.Causes.{HasCause};
    ghost use Rattle.cov_base.specs.Store.{ReadsHeld, PutsAt};
    ghost use Rattle.cov_base.specs.SureStore.{held_of};

    ghost held = { λ store. Some (held_of store) };

    ghost read_faults = { λ _. 0 };

    ghost put_faults = { λ _. 0 };

    ghost fails = { λ _ _ _. ⊥ };

    /// A copy of what is held at the path, `None` where nothing is, or want of memory.
    fn read(&mut self, path: &str) -> Result<Option<Vec<u8>>, Failed>
        ensures value { ReadsHeld (Some (held_of self.old)) path.now result }
        ensures unchanged { held_of self.new ≡ held_of self.old }
        ensures cause { HasCause 0 0 result }
        ensures never_device { result ≢ Err Failed.Device }
    {
        match self.files.get(path) {
            Some(bytes) => Ok(Some(Vec::from_slice(self.alloc, bytes.as_slice())?)),
            None => Ok(None),
        }
    }

    /// Sets the path, and no other, to a copy of the bytes, or answers want of memory and changes
    /// nothing.
    fn put(&mut self, path: &str, bytes: &[u8]) -> Result<(), Failed>
        ensures value { PutsAt
            path.now bytes.now (Some (held_of self.old)) (Some (held_of self.new)) result }
        ensures cause { HasCause 0 0 result }
        ensures unchanged { OnErr result (held_of self.new ≡ held_of self.old) }
        ensures never_device { result ≢ Err Failed.Device }
    {
        let key = String::from_str(self.alloc, path)?;
        let value = Vec::from_slice(self.alloc, bytes)?;
        self.files.insert(key, value).map_err(Memory::from)?;
        Ok(())
    }
}
