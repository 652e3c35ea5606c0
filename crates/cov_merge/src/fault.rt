use crate::key::Key;
use std::alloc::AllocError;

/// Why maps aren't merged.
#[derive(Debug, Drop)]
pub enum MergeFault {
    /// The counts of a key come to 2^53 or more. It is the first such key: by the paths of the
    /// files in byte order, then statements before functions before branches, then in the order
    /// in which keys first appear.
    CountTooLarge {
        /// The key.
        key: Key,
        /// Its running sum where it first reaches 2^53.
        sum: u64,
    },
    /// Want of memory.
    Memory,
}

impl From<AllocError> for MergeFault {
    ghost use Rattle.std.specs.Prelude.{◌≡◌};
    ghost use Rattle.cov_merge.specs.declared.fault.MergeFault.TheVariants as why;

    ghost from_gives = { λ _ fault. fault ≡ why.Memory };

    fn from(_want: AllocError) -> MergeFault {
        MergeFault::Memory
    }
}
