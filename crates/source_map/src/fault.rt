use items::Text;
use std::alloc::{AllocError, AllocFailed};
use thiserror::Error;

/// Why bytes are no source map.
#[derive(Debug, Drop, Error)]
pub enum MapFault {
    /// They are more than are allowed.
    #[error("too long")]
    TooLong,
    /// They are no JSON.
    #[error("not JSON")]
    BadJson,
    /// A member is missing or isn't of its form.
    #[error("member {}", .name.as_str())]
    BadMember {
        /// The member; `version` where the whole is no object.
        name: Text,
    },
    /// A segment isn't of its form.
    #[error("mappings at {at}")]
    BadMappings {
        /// How many bytes of the mappings stand before it.
        at: u64,
    },
    /// Want of memory.
    #[error("out of memory")]
    Memory,
}

impl From<AllocError> for MapFault {
    ghost use Rattle.std.specs.Prelude.{◌≡◌};
    ghost use Rattle.source_map.specs.declared.fault.MapFault.TheVariants as why;

    ghost from_gives = { λ _ fault. fault ≡ why.Memory };

    fn from(_want: AllocError) -> MapFault {
        MapFault::Memory
    }
}

impl<T: Drop> From<AllocFailed<T>> for MapFault {
    ghost use Rattle.std.specs.Prelude.{◌≡◌};
    ghost use Rattle.source_map.specs.declared.fault.MapFault.TheVariants as why;

    ghost from_gives = { λ _ fault. fault ≡ why.Memory };

    fn from(_want: AllocFailed<T>) -> MapFault {
        MapFault::Memory
    }
}
