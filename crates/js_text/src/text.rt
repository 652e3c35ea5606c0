ghost use Rattle.std.specs.Prelude.{◌≡◌, ℕ, [], ◌≤◌, ◌<◌, ◌↔◌, ◌⊎◌, length, IfOk, OnOk, IsOk, IsTrue};
ghost use Rattle.std.specs.Str.{IsUtf8};
ghost use Rattle.std.specs.Str.Lossy.{utf8_valid_len};
ghost use Rattle.js_text.specs.Position as spec;

use crate::{Cursor, Limits};
use js_terms::Pos;
use std::alloc::Global;
use std::marker::Model;

/// A source text, which is UTF-8. Contracts see it as the list of its bytes.
#[derive(Debug, Drop)]
pub struct Text {
    text: String,
}

impl Model for Text {
    ghost use Rattle.std.specs.Prelude.{List, ℕ};
    ghost use Rattle.std.specs.String.{string_bytes};

    ghost Value = { List ℕ };

    ghost view = { λ held. string_bytes held.text };
}

/// Why bytes are no source text.
#[derive(Clone, Copy, Debug, PartialEq, Eq)]
pub enum TextFault {
    /// There are more bytes than the limit allows.
    TooLong {
        /// How many bytes there are.
        len: u64,
    },
    /// The bytes are within the limit, and aren't UTF-8.
    NotUtf8 {
        /// How many bytes the longest UTF-8 front has: the fault begins there.
        at: u64,
    },
    /// Want of memory. It isn't answered today, since a text takes no memory.
    Memory,
}

impl Text {
    /// The text that the bytes spell. Their number is tested first, and nothing is decoded before.
    pub fn from_bytes(_alloc: Global, bytes: Vec<u8>, limits: Limits) -> Result<Text, TextFault>
        ensures ok { IfOk result (λ text. text ≡ bytes.items) }
        ensures ok_within { OnOk result (length bytes.items ≤ limits.bytes) }
        ensures ok_utf8 { OnOk result (IsUtf8 bytes.items) }

        ensures too_long { (len : ℕ) → (result ≡ Err (TextFault.TooLong len))
            ↔ ((limits.bytes < length bytes.items) × (len ≡ length bytes.items)) }
        ensures not_utf8 { (at : ℕ) → (result ≡ Err (TextFault.NotUtf8 at))
            ↔ ((length bytes.items ≤ limits.bytes) × (¬ IsUtf8 bytes.items) × (at ≡ utf8_valid_len bytes.items)) }
        ensures complete { length bytes.items ≤ limits.bytes → IsUtf8 bytes.items
            → IsOk result ⊎ (result ≡ Err TextFault.Memory) }
    {
        let len = bytes.len() as u64;
        if len > limits.bytes {
            return Err(TextFault::TooLong { len });
        }
        match String::from_utf8(bytes) {
            Ok(text) => Ok(Text { text }),
            Err(error) => Err(TextFault::NotUtf8 {
                at: error.utf8_error().valid_up_to() as u64,
            }),
        }
    }

    /// The text, lent. It takes no memory.
    pub fn as_str(&self) -> &str
        ensures { result.now ≡ self.now }
    {
        self.text.as_str()
    }

    /// How many bytes the text has.
    pub fn len(&self) -> usize
        ensures { result ≡ length self.now }
    {
        self.text.len()
    }

    /// Whether the text has no bytes.
    pub fn is_empty(&self) -> bool
        ensures { IsTrue result ↔ (self.now ≡ []) }
    {
        self.text.is_empty()
    }

    /// The line and the column of the place at this many bytes of the text. Within a character it is
    /// the place before it. The text up to there is read.
    pub fn position(&self, at: usize) -> Pos
        requires { at ≤ length self.now }
        ensures { result ≡ spec.position self.now at }
    {
        let mut cursor = Cursor::new(self.as_str());
        while let Some(next) = cursor.peek() {
            if at - cursor.at() < next.len_utf8() {
                break;
            }
            cursor.bump();
        }
        cursor.position()
    }
}
