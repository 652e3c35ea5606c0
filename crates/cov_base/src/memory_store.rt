ghost use Rattle.std.specs.Prelude.{◌≡◌, ◌↔◌, Contains, IsOkAnd, OnErr};

use crate::calls::Calls;
use crate::{Failed, Memory, Store, SureStore};
use std::alloc::Global;
use std::collections::BTreeMap;

/// A store over memory whose calls answer `Device` at given numbers. Its reads and puts are
/// numbered together from 1, and the number stands still at 2^64 - 1.
#[derive(Debug, Drop)]
pub struct MemoryStore {
    store: SureStore,
    calls: Calls,
    read_faults: u64,
    put_faults: u64,
}

impl MemoryStore {
    ghost use Rattle.cov_base.specs.Files.{contents_of};
    ghost use Rattle.cov_base.specs.MemoryStore.{held_of, fails_of, calls_of, read_faults_of, put_faults_of};

    /// A store that holds these bytes at these paths, and fails at these numbers. It takes no
    /// memory; what is put later is kept on the allocator.
    pub fn new(
        alloc: Global,
        held: BTreeMap<String, Vec<u8>>,
        fails: Vec<u64>,
    ) -> Result<MemoryStore, Memory>
        ensures held { IsOkAnd result (λ store. held_of store ≡ contents_of held) }
        ensures fails { IsOkAnd result (λ store. fails_of store ≡ fails.items) }
        ensures calls { IsOkAnd result (λ store. calls_of store ≡ 0) }
        ensures read_faults { IsOkAnd result (λ store. read_faults_of store ≡ 0) }
        ensures put_faults { IsOkAnd result (λ store. put_faults_of store ≡ 0) }
    {
        Ok(MemoryStore {
            store: SureStore::new(alloc, held)?,
            calls: Calls::new(fails),
            read_faults: 0,
            put_faults: 0,
        })
    }
}

impl Store for MemoryStore {
    ghost use Rattle.std.specs.Prelude.{Some};
    ghost use Rattle.cov_base.specs.private.Calls.{raised, faults_after};
    ghost use Rattle.cov_base.specs.Causes.{HasCause};
    ghost use Rattle.cov_base.specs.Store.{ReadsHeld, PutsAt};
    ghost use Rattle.cov_base.specs.MemoryStore.{held_of, fails_of, calls_of, read_faults_of, put_faults_of};

    ghost held = { λ memory. Some (held_of memory) };

    ghost read_faults = { read_faults_of };

    ghost put_faults = { put_faults_of };

    ghost fails = { λ before _ _. Contains (fails_of before) (raised (calls_of before)) };

    /// A copy of what is held at the path, `None` where nothing is, or want of memory; `Device`
    /// where the call's number is one of those that fail.
    fn read(&mut self, path: &str) -> Result<Option<Vec<u8>>, Failed>
        ensures value { ReadsHeld (Some (held_of self.old)) path.now result }
        ensures unchanged { held_of self.new ≡ held_of self.old }
        ensures cause { HasCause (read_faults_of self.old) (read_faults_of self.new) result }
        ensures puts { put_faults_of self.new ≡ put_faults_of self.old }

        ensures device { (result ≡ Err Failed.Device)
            ↔ Contains (fails_of self.old) (raised (calls_of self.old)) }
        ensures faults { read_faults_of self.new ≡ faults_after result (read_faults_of self.old) }
        ensures calls { calls_of self.new ≡ raised (calls_of self.old) }
        ensures fails { fails_of self.new ≡ fails_of self.old }
    {
        if self.calls.next_fails() {
            self.read_faults = self.read_faults.saturating_add(1);
            return Err(Failed::Device);
        }
        self.store.read(path)
    }

    /// Sets the path, and no other, to a copy of the bytes. Nothing changes on want of memory, nor
    /// on `Device`, which it answers where the call's number is one of those that fail.
    fn put(&mut self, path: &str, bytes: &[u8]) -> Result<(), Failed>
        ensures value { PutsAt
            path.now bytes.now (Some (held_of self.old)) (Some (held_of self.new)) result }
        ensures cause { HasCause (put_faults_of self.old) (put_faults_of self.new) result }
        ensures reads { read_faults_of self.new ≡ read_faults_of self.old }

        ensures unchanged { OnErr result (held_of self.new ≡ held_of self.old) }
        ensures device { (result ≡ Err Failed.Device)
            ↔ Contains (fails_of self.old) (raised (calls_of self.old)) }
        ensures faults { put_faults_of self.new ≡ faults_after result (put_faults_of self.old) }
        ensures calls { calls_of self.new ≡ raised (calls_of self.old) }
        ensures fails { fails_of self.new ≡ fails_of self.old }
    {
        if self.calls.next_fails() {
            self.put_faults = self.put_faults.saturating_add(1);
            return Err(Failed::Device);
        }
        self.store.put(path, bytes)
    }
}
