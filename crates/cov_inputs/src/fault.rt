use crate::Refusal;
use items::Text;
use std::alloc::AllocError;
use thiserror::Error;

/// Why coverage files aren't read and merged.
#[derive(Debug, Drop, Error)]
pub enum InputFault {
    /// They have no sums.
    #[error("refused")]
    Refused(Refusal),
    /// The store failed when it read the file at this path.
    #[error("read failed: {}", .path.as_str())]
    ReadFailed {
        /// The path.
        path: Text,
    },
    /// Want of memory.
    #[error("out of memory")]
    Memory,
}

impl From<AllocError> for InputFault {
    ghost use Rattle.std.specs.Prelude.{◌≡◌};
    ghost use Rattle.cov_inputs.specs.declared.fault.InputFault.TheVariants as why;

    ghost from_gives = { λ _ fault. fault ≡ why.Memory };

    fn from(_want: AllocError) -> InputFault {
        InputFault::Memory
    }
}
