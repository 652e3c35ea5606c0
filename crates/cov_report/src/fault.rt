use cov_base::Failed;
use std::alloc::AllocError;

/// Why a report isn't written whole.
#[derive(Clone, Copy, Debug, PartialEq, Eq)]
pub enum ReportFault {
    /// The sink failed.
    Sink(Failed),
    /// Want of memory for the report.
    Memory,
}

impl From<Failed> for ReportFault {
    ghost use Rattle.std.specs.Prelude.{◌≡◌};
    ghost use Rattle.cov_report.specs.declared.fault.ReportFault.TheVariants.{Sink};

    ghost from_gives = { λ failed fault. fault ≡ Sink failed };

    fn from(failed: Failed) -> ReportFault {
        ReportFault::Sink(failed)
    }
}

impl From<AllocError> for ReportFault {
    ghost use Rattle.std.specs.Prelude.{◌≡◌};
    ghost use Rattle.cov_report.specs.declared.fault.ReportFault.TheVariants.{Memory};

    ghost from_gives = { λ _ fault. fault ≡ Memory };

    fn from(_want: AllocError) -> ReportFault {
        ReportFault::Memory
    }
}
