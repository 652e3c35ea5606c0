use cov_base::Failed;
use std::alloc::AllocError;

/// Why a text isn't written whole.
#[derive(Clone, Copy, Debug, PartialEq, Eq)]
pub enum PrintFault {
    /// The sink failed.
    Sink(Failed),
    /// Want of memory for the printing.
    Memory,
}

impl From<Failed> for PrintFault {
    ghost use Rattle.std.specs.Prelude.{◌≡◌};
    ghost use Rattle.js_sheet.specs.declared.fault.PrintFault.TheVariants.{Sink};

    ghost from_gives = { λ failed fault. fault ≡ Sink failed };

    fn from(failed: Failed) -> PrintFault {
        PrintFault::Sink(failed)
    }
}

impl From<AllocError> for PrintFault {
    ghost use Rattle.std.specs.Prelude.{◌≡◌};
    ghost use Rattle.js_sheet.specs.declared.fault.PrintFault.TheVariants.{Memory};

    ghost from_gives = { λ _ fault. fault ≡ Memory };

    fn from(_want: AllocError) -> PrintFault {
        PrintFault::Memory
    }
}
