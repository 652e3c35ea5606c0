use cov_sources::Why;
use items::Text;
use source_map::MapFault;
use std::alloc::{AllocError, AllocFailed};
use thiserror::Error;

/// Why no sources are loaded.
#[derive(Debug, Drop, Error)]
pub enum LoadFault {
    /// There is no file at the path of the entry.
    #[error("no file")]
    NoFile,
    /// The file at this path is no source: the first in the order of loading.
    #[error("refused: {}", .path.as_str())]
    Refused {
        /// The path.
        path: Text,
        /// Why it is none.
        why: Why,
    },
    /// What stands beside a source at this path is no source map: the first in the order of loading.
    #[error("bad map: {}", .path.as_str())]
    BadMap {
        /// The path.
        path: Text,
        /// Why it is none: it isn't too long, and memory isn't wanting.
        fault: MapFault,
    },
    /// The file at this path has more bytes than a source, or a source map, may have.
    #[error("too long: {}", .path.as_str())]
    TooLong {
        /// The path.
        path: Text,
    },
    /// There is a 1,025th source.
    #[error("too many files")]
    TooManyFiles,
    /// The store failed when it read the file at this path.
    #[error("read failed: {}", .path.as_str())]
    ReadFault {
        /// The path.
        path: Text,
    },
    /// Want of memory.
    #[error("out of memory")]
    Memory,
}

impl From<AllocError> for LoadFault {
    ghost use Rattle.std.specs.Prelude.{◌≡◌};
    ghost use Rattle.cov_run.specs.declared.fault.LoadFault.TheVariants as fault;

    ghost from_gives = { λ _ given. given ≡ fault.Memory };

    fn from(_want: AllocError) -> LoadFault {
        LoadFault::Memory
    }
}

impl<T: Drop> From<AllocFailed<T>> for LoadFault {
    ghost use Rattle.std.specs.Prelude.{◌≡◌};
    ghost use Rattle.cov_run.specs.declared.fault.LoadFault.TheVariants as fault;

    ghost from_gives = { λ _ given. given ≡ fault.Memory };

    fn from(_want: AllocFailed<T>) -> LoadFault {
        LoadFault::Memory
    }
}

/// Why a session has no end.
#[derive(Debug, Drop, Error)]
pub enum SessionFault {
    /// The file at this path is no source: the first of the list.
    #[error("refused: {}", .path.as_str())]
    Refused {
        /// The path.
        path: Text,
        /// Why it is none.
        why: Why,
    },
    /// The run left no coverage.
    #[error("no coverage")]
    NotCoverage,
    /// Want of memory.
    #[error("out of memory")]
    Memory,
}

impl From<AllocError> for SessionFault {
    ghost use Rattle.std.specs.Prelude.{◌≡◌};
    ghost use Rattle.cov_run.specs.declared.fault.SessionFault.TheVariants as fault;

    ghost from_gives = { λ _ given. given ≡ fault.Memory };

    fn from(_want: AllocError) -> SessionFault {
        SessionFault::Memory
    }
}

impl<T: Drop> From<AllocFailed<T>> for SessionFault {
    ghost use Rattle.std.specs.Prelude.{◌≡◌};
    ghost use Rattle.cov_run.specs.declared.fault.SessionFault.TheVariants as fault;

    ghost from_gives = { λ _ given. given ≡ fault.Memory };

    fn from(_want: AllocFailed<T>) -> SessionFault {
        SessionFault::Memory
    }
}
