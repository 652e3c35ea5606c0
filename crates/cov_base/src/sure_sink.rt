ghost use Rattle.std.specs.Prelude.{◌≡◌, [], ◌++◌, length, take, IfOk, IsOkAnd};

use crate::{Failed, Memory, Sink};
use std::alloc::Global;

/// A sink over memory that never answers `Device`.
#[derive(Debug, Drop)]
pub struct SureSink {
    taken: Vec<u8>,
}

impl SureSink {
    ghost use Rattle.cov_base.specs.SureSink.{taken_of};

    /// A sink that has taken nothing yet. It takes no memory.
    pub fn new(alloc: Global) -> Result<SureSink, Memory>
        ensures { IsOkAnd result (λ sink. taken_of sink ≡ []) }
    {
        Ok(SureSink {
            taken: Vec::new(alloc),
        })
    }

    /// The bytes taken, lent. It takes no memory.
    pub fn taken(&self) -> &[u8]
        ensures { result.now ≡ taken_of self.now }
    {
        self.taken.as_slice()
    }

    /// The bytes taken. It takes no memory.
    pub fn into_taken(self) -> Vec<u8>
        ensures { result.items ≡ taken_of self }
    {
        self.taken
    }
}

impl Sink for SureSink {
    ghost use Rattle.std.specs.Prelude.{Some, Err, ◌≢◌};
    ghost use Rattle.cov_base.specs.Causes.{HasCause};
    ghost use Rattle.cov_base.specs.Sink.{count_of, TakesSome};
    ghost use Rattle.cov_base.specs.SureSink.{taken_of};

    ghost taken = { λ sink. Some (taken_of sink) };

    ghost faults = { λ _. 0 };

    /// Takes all the bytes, or answers want of memory and takes none.
    fn write(&mut self, bytes: &[u8]) -> Result<usize, Failed>
        ensures bound { TakesSome result bytes.now }
        ensures taken { taken_of self.new ≡ taken_of self.old ++ take (count_of result) bytes.now }
        ensures cause { HasCause 0 0 result }
        ensures whole { IfOk result (λ count. count ≡ length bytes.now) }
        ensures never_device { result ≢ Err Failed.Device }
    {
        self.taken.extend_from_slice(bytes)?;
        Ok(bytes.len())
    }
}
