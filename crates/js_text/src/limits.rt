ghost use Rattle.std.specs.Prelude.{◌≡◌};
ghost use Rattle.js_text.specs.Limits.{source_limits, again_limits};

/// How long a text may be and how high its tree.
#[derive(Clone, Copy, Debug, PartialEq, Eq)]
pub struct Limits {
    /// How many bytes a text may have.
    pub bytes: u64,
    /// How high the tree of a text may be.
    pub height: u64,
}

impl Limits {
    /// The limits of a source text: 1,048,576 bytes and height 128.
    pub fn source() -> Limits
        ensures { result ≡ source_limits }
    {
        Limits {
            bytes: 1 << 20,
            height: 128,
        }
    }

    /// The limits of a text that is read again, as a program wrote it: 2^40 bytes and height 2,048.
    pub fn again() -> Limits
        ensures { result ≡ again_limits }
    {
        Limits {
            bytes: 1 << 40,
            height: 2_048,
        }
    }
}
