use items::Memory;
use js_reading::Unsupported;

/// A text that is no file of the grammar, or is not read.
#[derive(Clone, Copy, Debug, PartialEq, Eq)]
pub struct Refused {
    /// How many bytes of the text stand before the place of the refusal: the start of the token that
    /// is refused, the start of what is no token, the end of the text, or the start of the first token
    /// of a form that is left out.
    pub at: usize,
    /// Why it is refused.
    pub why: Refusal,
}

/// Why a text is refused.
#[derive(Clone, Copy, Debug, PartialEq, Eq)]
pub enum Refusal {
    /// The tree would be higher than the limit.
    TooDeep,
    /// The text is no file of the grammar.
    Syntax,
    /// The text has this form of the standard, which the language leaves out.
    Unsupported(Unsupported),
    /// Want of memory.
    Memory,
}

impl From<Memory> for Refusal {
    ghost use Rattle.std.specs.Prelude.{◌≡◌};
    ghost use Rattle.js_parser.specs.declared.refused.Refusal.TheVariants as why;

    ghost from_gives = { λ _ refusal. refusal ≡ why.Memory };

    fn from(_want: Memory) -> Refusal {
        Refusal::Memory
    }
}
