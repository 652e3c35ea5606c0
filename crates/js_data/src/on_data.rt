ghost use Rattle.std.specs.Prelude.{map};
ghost use Rattle.js_value.specs.Arguments.{seen};
ghost use Rattle.js_value.specs.OnData as spec;
ghost use Rattle.js_data.specs.Does.{Does};

use crate::math::{abs, floor, max, min};
use crate::number_text::{boolean_to_string, number_to_string};
use crate::parts::split;
use crate::print::print;
use crate::search::{text_ends_with, text_includes, text_index_of, text_starts_with};
use crate::texts::{
    char_at, char_code_at, from_char_code, substring, text_repeat, text_slice, text_to_string, trim,
};
use js_value::{Datum, Halt, OnData, Value};
use std::alloc::Global;

/// What the function gives for `this` and the arguments; or its complaint, its refusal, or want of memory.
pub fn of_data(
    alloc: Global,
    function: OnData,
    this: &Value,
    arguments: &[Value],
) -> Result<Datum, Halt>
    ensures { Does (spec.of_data function (seen this.now) (map seen arguments.now)) result }
{
    match function {
        OnData::Print => print(alloc, arguments),
        OnData::FromCharCode => from_char_code(alloc, arguments),
        OnData::CharAt => char_at(alloc, this, arguments),
        OnData::CharCodeAt => char_code_at(alloc, this, arguments),
        OnData::EndsWith => text_ends_with(alloc, this, arguments),
        OnData::TextIncludes => text_includes(alloc, this, arguments),
        OnData::TextIndexOf => text_index_of(alloc, this, arguments),
        OnData::Repeat => text_repeat(alloc, this, arguments),
        OnData::TextSlice => text_slice(alloc, this, arguments),
        OnData::Split => split(alloc, this, arguments),
        OnData::StartsWith => text_starts_with(alloc, this, arguments),
        OnData::Substring => substring(alloc, this, arguments),
        OnData::TextToString => text_to_string(this),
        OnData::Trim => trim(alloc, this),
        OnData::NumberToString => number_to_string(alloc, this, arguments),
        OnData::BooleanToString => boolean_to_string(alloc, this),
        OnData::Abs => abs(arguments),
        OnData::Floor => floor(arguments),
        OnData::Max => max(arguments),
        OnData::Min => min(arguments),
    }
}
