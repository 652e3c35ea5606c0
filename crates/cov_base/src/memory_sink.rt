ghost use Rattle.std.specs.Prelude.{◌≡◌, ◌↔◌, [], ◌++◌, length, take, Contains, IfOk, IsOkAnd};

use crate::calls::Calls;
use crate::{Failed, Memory, Sink, SureSink};
use std::alloc::Global;

/// A sink over memory whose writes answer `Device` at given numbers. Its writes are numbered from
/// 1, and the number stands still at 2^64 - 1.
#[derive(Debug, Drop)]
pub struct MemorySink {
    sink: SureSink,
    calls: Calls,
    faults: u64,
}

impl MemorySink {
    ghost use Rattle.cov_base.specs.MemorySink.{taken_of, fails_of, calls_of, faults_of};

    /// A sink that has taken nothing yet, and fails at these numbers. It takes no memory.
    pub fn new(alloc: Global, fails: Vec<u64>) -> Result<MemorySink, Memory>
        ensures taken { IsOkAnd result (λ sink. taken_of sink ≡ []) }
        ensures fails { IsOkAnd result (λ sink. fails_of sink ≡ fails.items) }
        ensures calls { IsOkAnd result (λ sink. calls_of sink ≡ 0) }
        ensures faults { IsOkAnd result (λ sink. faults_of sink ≡ 0) }
    {
        Ok(MemorySink {
            sink: SureSink::new(alloc)?,
            calls: Calls::new(fails),
            faults: 0,
        })
    }

    /// The bytes taken, lent. It takes no memory.
    pub fn taken(&self) -> &[u8]
        ensures { result.now ≡ taken_of self.now }
    {
        self.sink.taken()
    }
}

impl Sink for MemorySink {
    ghost use Rattle.std.specs.Prelude.{Some};
    ghost use Rattle.cov_base.specs.private.Calls.{raised, faults_after};
    ghost use Rattle.cov_base.specs.Causes.{HasCause};
    ghost use Rattle.cov_base.specs.Sink.{count_of, TakesSome};
    ghost use Rattle.cov_base.specs.MemorySink.{taken_of, fails_of, calls_of, faults_of};

    ghost taken = { λ memory. Some (taken_of memory) };

    ghost faults = { faults_of };

    /// Takes all the bytes, or none where it answers want of memory or the write's number is one
    /// of those that fail.
    fn write(&mut self, bytes: &[u8]) -> Result<usize, Failed>
        ensures bound { TakesSome result bytes.now }
        ensures taken { taken_of self.new ≡ taken_of self.old ++ take (count_of result) bytes.now }
        ensures cause { HasCause (faults_of self.old) (faults_of self.new) result }

        ensures whole { IfOk result (λ count. count ≡ length bytes.now) }
        ensures device { (result ≡ Err Failed.Device)
            ↔ Contains (fails_of self.old) (raised (calls_of self.old)) }
        ensures faults { faults_of self.new ≡ faults_after result (faults_of self.old) }
        ensures calls { calls_of self.new ≡ raised (calls_of self.old) }
        ensures fails { fails_of self.new ≡ fails_of self.old }
    {
        if self.calls.next_fails() {
            self.faults = self.faults.saturating_add(1);
            return Err(Failed::Device);
        }
        self.sink.write(bytes)
    }
}
