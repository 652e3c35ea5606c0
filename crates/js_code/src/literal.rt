ghost use Rattle.std.specs.Prelude.{◌≡◌, ◌++◌, IfOk, OnOk};
ghost use Rattle.std.specs.Char.Escape.{encode_utf16};
ghost use Rattle.js_value.specs.Numbers.{literal_number};
ghost use Rattle.js_value.specs.Functions.{name_units};

use items::{Memory, Text};
use js_names::SharedName;
use js_tree::Spelled;
use js_value::{Str, number_of};
use std::alloc::Global;
use std::marker::Model;

/// A numeral with its value, which is worked out once. Contracts see it as its spelling.
#[derive(Drop)]
pub struct Numeral {
    spelling: Text,
    value: Option<i64>,
}

impl Model for Numeral {
    ghost use Rattle.std.specs.Prelude.{◌≡◌, List, ℕ};
    ghost use Rattle.js_value.specs.Numbers.{literal_number};

    ghost Value = { List ℕ };

    ghost view = { λ numeral. numeral.spelling };

    ghost invariant = { λ numeral. numeral.value ≡ literal_number numeral.spelling };
}

impl Numeral {
    /// The numeral with this spelling, or want of memory.
    pub fn new(alloc: Global, spelling: &str) -> Result<Numeral, Memory>
        ensures { IfOk result (λ numeral. numeral ≡ spelling.now) }
    {
        Ok(Numeral {
            spelling: Text::from_str(alloc, spelling)?,
            value: number_of(spelling),
        })
    }

    /// Its value (ECMA-262, 12.9.3.3), where that is in range.
    pub fn value(&self) -> Option<i64>
        ensures { result ≡ literal_number self.now }
    {
        self.value
    }

    /// Its spelling.
    pub fn spelling(&self) -> &str
        ensures { result.now ≡ self.now }
    {
        self.spelling.as_str()
    }
}

/// A string literal with its value.
#[derive(Drop)]
pub struct StringValue {
    /// The source's characters, with the quotes.
    pub spelling: Text,
    /// The text that it stands for.
    pub units: Str,
}

impl StringValue {
    ghost use Rattle.js_code.specs.Literal.{spelled_of};

    /// The literal of this string, or want of memory.
    pub fn new(alloc: Global, string: &Spelled) -> Result<StringValue, Memory>
        ensures { IfOk result (λ literal. spelled_of literal ≡ string.now) }
    {
        Ok(StringValue {
            spelling: Text::from_str(alloc, string.spelling.as_str())?,
            units: Str::from_vec(string.units.as_slice().to_vec(alloc)?)?,
        })
    }
}

/// A name with its 16-bit units, which are worked out once. Contracts see it as the name.
#[derive(Drop)]
pub struct Word {
    name: SharedName,
    units: Str,
}

impl Model for Word {
    ghost use Rattle.std.specs.Prelude.{◌≡◌, List, ℕ};
    ghost use Rattle.js_value.specs.Functions.{name_units};

    ghost Value = { List ℕ };

    ghost view = { λ word. word.name };

    ghost invariant = { λ word. word.units ≡ name_units word.name };
}

impl Word {
    /// The word of this name, or want of memory.
    pub fn new(alloc: Global, name: &str) -> Result<Word, Memory>
        ensures { IfOk result (λ word. word ≡ name.now) }
    {
        Ok(Word {
            name: SharedName::new(alloc, name)?,
            units: units_of(alloc, name)?,
        })
    }

    /// The name.
    pub fn name(&self) -> &SharedName
        ensures { result.now ≡ self.now }
    {
        &self.name
    }

    /// Its units.
    pub fn units(&self) -> &Str
        ensures { result.now ≡ name_units self.now }
    {
        &self.units
    }
}

/// The 16-bit units of a name, or want of memory.
fn units_of(alloc: Global, name: &str) -> Result<Str, Memory>
    ensures { IfOk result (λ units. units ≡ name_units name.now) }
{
    let mut units = Vec::new(alloc);
    for character in name.chars() {
        push_units(&mut units, character)?;
    }
    Str::from_vec(units)
}

/// Puts the one or two units of a character at the end.
fn push_units(units: &mut Vec<u16>, character: char) -> Result<(), Memory>
    ensures { OnOk result (units.new.items ≡ units.old.items ++ encode_utf16 character) }
{
    let code = character as u32;
    if code < 0x1_0000 {
        units.push(code as u16)?;
    } else {
        let above = code - 0x1_0000;
        units.push((0xD800 + above / 0x400) as u16)?;
        units.push((0xDC00 + above % 0x400) as u16)?;
    }
    Ok(())
}
