// A store and a sink over memory whose calls want memory at given numbers. They tell nothing.
use cov_base::{Failed, MemorySink, MemoryStore, Sink, Store};

/// The calls so far, numbered from 1, and the numbers of those that want memory.
#[derive(Drop)]
struct Calls {
    made: u64,
    wants: Vec<u64>,
}

impl Calls {
    fn next_wants(&mut self) -> bool {
        self.made = self.made.saturating_add(1);
        self.wants.as_slice().contains(&self.made)
    }
}

/// The store.
#[derive(Drop)]
pub(crate) struct WantingStore {
    store: MemoryStore,
    calls: Calls,
}

impl WantingStore {
    pub(crate) fn new(store: MemoryStore, wants: Vec<u64>) -> WantingStore {
        let calls = Calls { made: 0, wants };
        WantingStore { store, calls }
    }
}

impl Store for WantingStore {
    ghost use Rattle.std.specs.Prelude.{None};
    ghost use Rattle.cov_base.specs.MemoryStore.{read_faults_of, put_faults_of};

    ghost held = { λ _. None };

    ghost read_faults = { λ wanting. read_faults_of wanting.store };

    ghost put_faults = { λ wanting. put_faults_of wanting.store };

    fn read(&mut self, path: &str) -> Result<Option<Vec<u8>>, Failed> {
        if self.calls.next_wants() {
            return Err(Failed::Memory);
        }
        self.store.read(path)
    }

    fn put(&mut self, path: &str, bytes: &[u8]) -> Result<(), Failed> {
        if self.calls.next_wants() {
            return Err(Failed::Memory);
        }
        self.store.put(path, bytes)
    }
}

/// The sink.
#[derive(Drop)]
pub(crate) struct WantingSink {
    sink: MemorySink,
    calls: Calls,
}

impl WantingSink {
    pub(crate) fn new(sink: MemorySink, wants: Vec<u64>) -> WantingSink {
        let calls = Calls { made: 0, wants };
        WantingSink { sink, calls }
    }

    pub(crate) fn taken(&self) -> &[u8] {
        self.sink.taken()
    }
}

impl Sink for WantingSink {
    ghost use Rattle.std.specs.Prelude.{None};
    ghost use Rattle.cov_base.specs.MemorySink.{faults_of};

    ghost taken = { λ _. None };

    ghost faults = { λ wanting. faults_of wanting.sink };

    fn write(&mut self, bytes: &[u8]) -> Result<usize, Failed> {
        if self.calls.next_wants() {
            return Err(Failed::Memory);
        }
        self.sink.write(bytes)
    }
}
