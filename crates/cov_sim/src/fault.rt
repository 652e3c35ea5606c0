use cov_sources::Why;
use items::Text;
use std::alloc::{AllocError, AllocFailed};

/// Why no texts are given.
#[derive(Debug, Drop)]
pub enum InstrumentFault {
    /// A file isn't accepted, the first one of the list.
    Refused {
        /// Its path.
        path: Text,
        /// Why it isn't.
        why: Why,
    },
    /// Want of memory.
    Memory,
}

impl From<AllocError> for InstrumentFault {
    ghost use Rattle.std.specs.Prelude.{◌≡◌};
    ghost use Rattle.cov_sim.specs.declared.fault.InstrumentFault.TheVariants.{Memory as out_of_memory};

    ghost from_gives = { λ _ fault. fault ≡ out_of_memory };

    fn from(_error: AllocError) -> InstrumentFault {
        InstrumentFault::Memory
    }
}

impl<T: Drop> From<AllocFailed<T>> for InstrumentFault {
    ghost use Rattle.std.specs.Prelude.{◌≡◌};
    ghost use Rattle.cov_sim.specs.declared.fault.InstrumentFault.TheVariants.{Memory as out_of_memory};

    ghost from_gives = { λ _ fault. fault ≡ out_of_memory };

    fn from(_error: AllocFailed<T>) -> InstrumentFault {
        InstrumentFault::Memory
    }
}
