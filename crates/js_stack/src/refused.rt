use items::Memory;

/// Why a token is not taken.
#[derive(Clone, Copy, Debug, PartialEq, Eq)]
pub enum Refusal {
    /// No file goes on with it.
    Syntax,
    /// Want of memory.
    Memory,
}

impl From<Memory> for Refusal {
    ghost use Rattle.std.specs.Prelude.{◌≡◌};
    ghost use Rattle.js_stack.specs.declared.refused.Refusal.TheVariants as why;

    ghost from_gives = { λ _ refusal. refusal ≡ why.Memory };

    fn from(_want: Memory) -> Refusal {
        Refusal::Memory
    }
}
