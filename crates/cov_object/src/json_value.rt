// A JSON value from the tokens of a text, with only as much of the text read as the value takes.
ghost use Rattle.std.specs.Prelude.{◌≡◌, ◌<◌, ◌≤◌, ◌==◌, length, slice_index, IsTrue, true, false, option_map, Err, IfOk, OnOk};
ghost use Rattle.json.specs.Json.{value as tokens_value, items, members};
ghost use Rattle.serde_json.specs.Data.{no_members, depth as depth_of, items_depth, members_depth};
ghost use Rattle.serde_json.specs.Read.{of_json, of_items, of_members, converted, number_of, number_from, float_of};
ghost use Rattle.serde_json.specs.View.{view, items_view, members_view, number_view};
ghost use Rattle.cov_object.specs.declared.json_value.Unread.TheVariants.{NoJson};

use fast_float::Numeral;
use json::{Invalid, Reader, Token};
use serde_json::{Map, Number, Value};
use std::alloc::{AllocError, AllocFailed, Global};

// Why nothing was read.
#[derive(Drop)]
pub(crate) enum Unread {
    // The tokens are no JSON, or nest too deep, or a number is one that no float can hold.
    NoJson,
    // Want of memory.
    Memory,
}

impl From<Invalid> for Unread {
    ghost use Rattle.cov_object.specs.declared.json_value.Unread.TheVariants.{NoJson as no_json};

    ghost from_gives = { λ _ e. e ≡ no_json };

    fn from(_refused: Invalid) -> Unread {
        Unread::NoJson
    }
}

impl From<AllocError> for Unread {
    ghost use Rattle.cov_object.specs.declared.json_value.Unread.TheVariants.{Memory as out_of_memory};

    ghost from_gives = { λ _ e. e ≡ out_of_memory };

    fn from(_refused: AllocError) -> Unread {
        Unread::Memory
    }
}

impl<T: Drop> From<AllocFailed<T>> for Unread {
    ghost use Rattle.cov_object.specs.declared.json_value.Unread.TheVariants.{Memory as out_of_memory};

    ghost from_gives = { λ _ e. e ≡ out_of_memory };

    fn from(_refused: AllocFailed<T>) -> Unread {
        Unread::Memory
    }
}

// The next value, which nests no deeper than the depth.
#[cycle(next)]
pub(crate) fn next_value(
    alloc: Global,
    reader: &mut Reader<'_>,
    depth: usize,
) -> Result<Value, Unread>
    ensures ok { IfOk result (λ v. converted of_json (tokens_value depth reader.old) ≡ Some (view v, reader.new)) }
    ensures nests { IfOk result (λ v. depth_of (view v) ≤ depth) }
    ensures shorter { OnOk result (length reader.new < length reader.old) }
    ensures err { result ≡ Err NoJson → converted of_json (tokens_value depth reader.old) ≡ None }
{
    let token = reader.next().ok_or(Invalid)?;
    match token {
        Token::Null => Ok(Value::Null),
        Token::Bool(flag) => Ok(Value::Bool(flag)),
        Token::Number(text) => match number_in(text) {
            Some(number) => Ok(Value::Number(number)),
            None => Err(Unread::NoJson),
        },
        Token::String(text) => Ok(Value::String(String::from_str(alloc, text)?)),
        Token::BeginArray => if depth > 0 {
            Ok(Value::Array(next_items(alloc, reader, depth - 1)?))
        } else {
            Err(Unread::NoJson)
        },
        Token::BeginObject => if depth > 0 {
            Ok(Value::Object(next_members(alloc, reader, depth - 1)?))
        } else {
            Err(Unread::NoJson)
        },
        Token::Key(_) | Token::EndArray | Token::EndObject | Token::Bad => Err(Unread::NoJson),
    }
}

// The items up to the bracket that closes the array.
#[cycle(next)]
fn next_items(alloc: Global, reader: &mut Reader<'_>, depth: usize) -> Result<Vec<Value>, Unread>
    ensures ok { IfOk result (λ found. converted of_items (items (tokens_value depth) (length reader.old) reader.old)
        ≡ Some (items_view found.items, reader.new)) }
    ensures nests { IfOk result (λ found. items_depth (items_view found.items) ≤ depth) }
    ensures shorter { OnOk result (length reader.new < length reader.old) }
    ensures err { result ≡ Err NoJson → converted of_items (items (tokens_value depth) (length reader.old) reader.old) ≡ None }
{
    let mut found = Vec::new(alloc);
    'items: while !reader.take_end_array() {
        let value = next_value(alloc, reader, depth)?;
        found.push(value)?;
    }
    Ok(found)
}

// The members up to the brace that closes the object; of equal keys the last one counts.
#[cycle(next)]
fn next_members(
    alloc: Global,
    reader: &mut Reader<'_>,
    depth: usize,
) -> Result<Map<String, Value>, Unread>
    ensures ok { IfOk result (λ found. converted (λ ms. of_members ms no_members) (members (tokens_value depth) (length reader.old) reader.old)
        ≡ Some (members_view found.entries, reader.new)) }
    ensures nests { IfOk result (λ found. members_depth (members_view found.entries) ≤ depth) }
    ensures shorter { OnOk result (length reader.new < length reader.old) }
    ensures err { result ≡ Err NoJson
        → converted (λ ms. of_members ms no_members) (members (tokens_value depth) (length reader.old) reader.old) ≡ None }
{
    let mut found = Map::new(alloc);
    'members: while let Some(name) = reader.next_key()? {
        let key = String::from_str(alloc, name)?;
        let value = next_value(alloc, reader, depth)?;
        drop(found.insert(key, value)?);
    }
    Ok(found)
}

// The number that a token's text writes; none where no float can hold it.
#[tactic(auto, unfolding(serde_json::specs::Read::number_of))]
pub(crate) fn number_in(text: &str) -> Option<Number>
    ensures { option_map number_view result ≡ number_of text.now }
{
    let bytes = text.as_bytes();
    if has_minus(bytes) {
        number_below(&Numeral::scan(&bytes[1..]))
    } else {
        number_from_zero(&Numeral::scan(bytes))
    }
}

// Whether a minus sign comes first.
fn has_minus(bytes: &[u8]) -> bool
    ensures sign { result ≡ (slice_index bytes.now 0 == 45) }
    ensures first { IsTrue result → 0 < length bytes.now }
{
    !bytes.is_empty() && bytes[0] == b'-'
}

// A number without a sign.
fn number_from_zero(numeral: &Numeral<'_>) -> Option<Number>
    ensures { option_map number_view result ≡ number_from false numeral.now }
{
    match numeral.to_u64() {
        Some(whole) => Number::from_u128(whole as u128),
        None => nearest_number(false, numeral),
    }
}

// A number after a minus sign. The whole number 0 is a float there.
fn number_below(numeral: &Numeral<'_>) -> Option<Number>
    ensures { option_map number_view result ≡ number_from true numeral.now }
{
    match numeral.to_i64(true) {
        Some(whole) => if whole < 0 {
            Number::from_i128(whole as i128)
        } else {
            nearest_number(true, numeral)
        },
        None => nearest_number(true, numeral),
    }
}

// The nearest float, where it is finite.
fn nearest_number(negative: bool, numeral: &Numeral<'_>) -> Option<Number>
    ensures { option_map number_view result ≡ float_of negative numeral.now }
{
    Number::from_f64(numeral.to_float::<f64>(negative))
}
