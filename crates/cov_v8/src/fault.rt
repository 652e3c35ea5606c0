ghost use Rattle.std.specs.Prelude.{◌≡◌, ◌≢◌};
ghost use Rattle.cov_v8.specs.declared.fault.V8Fault.TheVariants.{Memory as OutOfMemory, BadMember as bad_member_of};

use items::Text;
use std::alloc::{AllocError, AllocFailed, Global};
use thiserror::Error;

/// Why bytes are no coverage of V8's, or fit a source not.
#[derive(Debug, Drop, Error)]
pub enum V8Fault {
    /// They are more than 16 MiB.
    #[error("longer than 16 MiB")]
    TooLong,
    /// They are no JSON.
    #[error("not JSON")]
    BadJson,
    /// A member is missing or isn't of its form.
    #[error("member {}", .name.as_str())]
    BadMember {
        /// The member.
        name: Text,
    },
    /// Want of memory.
    #[error("out of memory")]
    Memory,
}

impl From<AllocError> for V8Fault {
    ghost from_gives = { λ _ fault. fault ≡ OutOfMemory };

    fn from(_want: AllocError) -> V8Fault {
        V8Fault::Memory
    }
}

impl<T: Drop> From<AllocFailed<T>> for V8Fault {
    ghost from_gives = { λ _ fault. fault ≡ OutOfMemory };

    fn from(_want: AllocFailed<T>) -> V8Fault {
        V8Fault::Memory
    }
}

// The fault of a member, or want of memory.
pub(crate) fn bad_member(alloc: Global, name: &str) -> V8Fault
    ensures { result ≢ OutOfMemory → result ≡ bad_member_of name.now }
{
    match Text::from_str(alloc, name) {
        Ok(name) => V8Fault::BadMember { name },
        Err(_) => V8Fault::Memory,
    }
}
