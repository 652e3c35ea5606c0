use items::Memory;
use js_tree::Pos;

/// What the early rules refuse.
#[derive(Clone, Copy, Debug, PartialEq, Eq)]
pub struct ScopeFault {
    /// Where it is broken: the start of the later name (Duplicate), of the inner label or of the label that is named
    /// (Label), of the statement (BreakOutside, ContinueOutside), of the operand's name (BadTarget), of the name (Reserved);
    /// line 1, column 0 where the node has no place, and for `Memory`.
    pub at: Pos,
    /// Which rule.
    pub kind: ScopeFaultKind,
}

/// Why a file is refused.
#[derive(Clone, Copy, Debug, PartialEq, Eq)]
pub enum ScopeFaultKind {
    /// A scope declares a name twice, where one of the two may not be another's.
    Duplicate,
    /// A label stands inside a statement of the same label, or one is named that isn't round the statement, or by `continue`
    /// one that isn't a loop's.
    Label,
    /// `break` stands outside every loop and `switch` of its function.
    BreakOutside,
    /// `continue` stands outside every loop of its function.
    ContinueOutside,
    /// `delete` is of a bare name.
    BadTarget,
    /// A name that the suite refuses is bound or referred to, or a word that strict code reserves is
    /// a name or a label.
    Reserved,
    /// There was not enough memory.
    Memory,
}

impl From<Memory> for ScopeFault {
    ghost use Rattle.std.specs.Prelude.{◌≡◌, None};
    ghost use Rattle.js_scopes.specs.Mentions.{start};
    ghost use Rattle.js_scopes.specs.declared.fault.ScopeFaultKind.TheVariants as kind;

    ghost from_gives = { λ _ fault. fault ≡ record { at = start None; kind = kind.Memory } };

    fn from(_error: Memory) -> ScopeFault {
        ScopeFault {
            at: Pos { line: 1, column: 0 },
            kind: ScopeFaultKind::Memory,
        }
    }
}
