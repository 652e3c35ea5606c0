use cov_merge::Key;
use items::Text;
use source_map::MapFault;
use std::alloc::{AllocError, AllocFailed};

/// Why a coverage map isn't remapped.
#[derive(Debug, Drop)]
pub enum RemapFault {
    /// The source map of a file isn't one: the first such file by its path.
    BadMap {
        /// The file's path.
        path: Text,
        /// What is wrong with its map.
        fault: MapFault,
    },
    /// The counts of a key come to 2^53 or more.
    CountTooLarge {
        /// The key.
        key: Key,
        /// Its running sum where it first reaches 2^53.
        sum: u64,
    },
    /// Want of memory.
    Memory,
}

impl From<AllocError> for RemapFault {
    ghost use Rattle.std.specs.Prelude.{◌≡◌};
    ghost use Rattle.cov_remap.specs.declared.fault.RemapFault.TheVariants as why;

    ghost from_gives = { λ _ fault. fault ≡ why.Memory };

    fn from(_want: AllocError) -> RemapFault {
        RemapFault::Memory
    }
}

impl<T: Drop> From<AllocFailed<T>> for RemapFault {
    ghost use Rattle.std.specs.Prelude.{◌≡◌};
    ghost use Rattle.cov_remap.specs.declared.fault.RemapFault.TheVariants as why;

    ghost from_gives = { λ _ fault. fault ≡ why.Memory };

    fn from(_want: AllocFailed<T>) -> RemapFault {
        RemapFault::Memory
    }
}
