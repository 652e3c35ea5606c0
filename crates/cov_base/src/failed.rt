use std::alloc::AllocError;

/// Why a store or a sink gave no answer.
#[derive(Clone, Copy, Debug, PartialEq, Eq)]
pub enum Failed {
    /// The device refused. It comes only where the object's count of that kind of call rose.
    Device,
    /// Want of memory, which is no fault of the device and isn't counted.
    Memory,
}

impl From<AllocError> for Failed {
    ghost use Rattle.std.specs.Prelude.{◌≡◌};
    ghost use Rattle.cov_base.specs.declared.failed.Failed.TheVariants.{Memory};

    ghost from_gives = { λ _ failed. failed ≡ Memory };

    fn from(_error: AllocError) -> Failed {
        Failed::Memory
    }
}
