ghost use Rattle.std.specs.Prelude.{◌≡◌, ◌≢◌};
ghost use Rattle.cov_object.specs.declared.fault.CoverageFault.TheVariants.{Memory as OutOfMemory, BadMember as bad_member_of};

use items::Text;
use std::alloc::{AllocError, AllocFailed, Global};
use thiserror::Error;

/// Why bytes are no coverage map.
#[derive(Debug, Drop, Error)]
pub enum CoverageFault {
    /// They are more than 16 MiB.
    #[error("longer than 16 MiB")]
    TooLong,
    /// They are no JSON: no UTF-8, against the grammar, nested more than 127 deep, or with a number
    /// that no float can hold.
    #[error("not JSON")]
    BadJson,
    /// A member is missing or isn't of its form.
    #[error("member {}", .name.as_str())]
    BadMember {
        /// The file's path; empty where the whole is no object.
        path: Text,
        /// The member of the file's coverage; `file` where the whole is no object.
        name: Text,
    },
    /// A count isn't a whole number from 0 to 2^53 - 1.
    #[error("count {}", .name.as_str())]
    Count {
        /// The file's path.
        path: Text,
        /// Where it stands, as `s.3`, `f.0` or `b.1.0`.
        name: Text,
    },
    /// Want of memory.
    #[error("out of memory")]
    Memory,
}

impl From<AllocError> for CoverageFault {
    ghost from_gives = { λ _ e. e ≡ OutOfMemory };

    fn from(_refused: AllocError) -> CoverageFault {
        CoverageFault::Memory
    }
}

impl<T: Drop> From<AllocFailed<T>> for CoverageFault {
    ghost from_gives = { λ _ e. e ≡ OutOfMemory };

    fn from(_refused: AllocFailed<T>) -> CoverageFault {
        CoverageFault::Memory
    }
}

// The fault of a member, or want of memory.
pub(crate) fn bad_member(alloc: Global, path: &str, name: &str) -> CoverageFault
    ensures { result ≢ OutOfMemory → result ≡ bad_member_of path.now name.now }
{
    let Ok(path) = Text::from_str(alloc, path) else {
        return CoverageFault::Memory;
    };
    match Text::from_str(alloc, name) {
        Ok(name) => CoverageFault::BadMember { path, name },
        Err(_) => CoverageFault::Memory,
    }
}
