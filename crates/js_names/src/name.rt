ghost use Rattle.std.specs.Prelude.{◌≡◌, ◌≤◌, ◌<◌, ◌+◌, ◌^◌, IfOk, length, fold};
ghost use Rattle.std.specs.Str.{bytes_eq};
ghost use Rattle.js_names.specs.Name as spec;
ghost use Rattle.js_names.specs.Name.{number_of, AreBytes};

use items::Memory;
use std::alloc::Global;
use std::marker::Model;
use std::rc::RcStr;

/// How many bytes the text of a name may have at most whose number is that of no other name.
const SHORT: usize = 7;

/// What the numbers of longer names are added to.
const LONG: u64 = 1 << 63;

/// A name of a program (ECMA-262, 12.7), with its number: names of different numbers are different, and those of the same number below
/// 2^63 are the same. Copies share the text. Contracts see it as the list of its bytes.
#[derive(Drop)]
pub struct SharedName {
    text: RcStr,
    number: u64,
}

impl Model for SharedName {
    ghost use Rattle.std.specs.Prelude.{◌≡◌, ◌≤◌, List, ℕ, length};
    ghost use Rattle.std.specs.Rc.{rc_str_bytes};
    ghost use Rattle.js_names.specs.Name.{number_of, AreBytes};

    ghost Value = { List ℕ };

    ghost view = { λ name. rc_str_bytes name.text };

    ghost invariant = { λ name. (name.number ≡ number_of (rc_str_bytes name.text)) × (length (rc_str_bytes name.text) ≤ 7 → AreBytes (rc_str_bytes name.text)) };
}

impl SharedName {
    /// The name of this text, or want of memory.
    pub fn new(alloc: Global, text: &str) -> Result<SharedName, Memory>
        ensures { IfOk result (λ name. name ≡ text.now) }
    {
        Ok(SharedName {
            text: RcStr::from_str(alloc, text)?,
            number: number_of_text(text),
        })
    }

    /// The same name once more, with the same text, or want of memory: too many share it.
    pub fn copy(&self) -> Result<SharedName, Memory>
        ensures { IfOk result (λ copy. copy ≡ self.now) }
    {
        Ok(SharedName {
            text: self.text.clone()?,
            number: self.number,
        })
    }

    /// Its text.
    pub fn as_str(&self) -> &str
        ensures { result.now ≡ self.now }
    {
        self.text.as_str()
    }

    /// Its number.
    pub fn number(&self) -> u64
        ensures { result ≡ number_of self.now }
    {
        self.number
    }

    /// Whether it is another name: the texts are looked at only where the numbers are the same, and those of long names.
    pub fn is(&self, other: &SharedName) -> bool
        ensures { result ≡ bytes_eq self.now other.now }
    {
        self.number == other.number
            && (self.number < LONG || self.text.as_str() == other.text.as_str())
    }
}

/// The number of a text.
fn number_of_text(text: &str) -> u64
    ensures number { result ≡ number_of text.now }
    ensures bytes { length text.now ≤ 7 → AreBytes text.now }
{
    let bytes = text.as_bytes();
    if bytes.len() <= SHORT {
        numeral(bytes)
    } else {
        LONG + u64::from(hash(bytes))
    }
}

/// The number of a short text.
fn numeral(bytes: &[u8]) -> u64
    requires short { length bytes.now ≤ 7 }
    ensures number { result ≡ spec.numeral bytes.now }
    ensures below { result < 2 ^ 63 }
    ensures bytes { AreBytes bytes.now }
{
    let mut number = 0;
    for index in (0..bytes.len()).rev() {
        number = number * 257 + (u64::from(bytes[index]) + 1);
    }
    number
}

/// A number that texts may share.
fn hash(bytes: &[u8]) -> u32
    ensures { result ≡ fold spec.with_byte 0 bytes.now }
{
    bytes
        .iter()
        .fold(0, |number, byte| with_byte(number, *byte))
}

/// That of a text and one byte more.
fn with_byte(number: u32, byte: u8) -> u32
    ensures { result ≡ spec.with_byte number byte }
{
    ((u64::from(number) * 31 + u64::from(byte)) % (1 << 32)) as u32
}
