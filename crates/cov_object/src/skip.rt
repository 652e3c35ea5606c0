// Values that are passed over: they are JSON like any other, and are held nowhere.
ghost use Rattle.std.specs.Prelude.{◌≡◌, ◌<◌, ◌∷◌, length, true, false, Some, None, Ok, OnOk, OnErr};
ghost use Rattle.json.specs.Token.{begin_object};
ghost use Rattle.json.specs.Json.{value as tokens_value, items, members, parse_map};
ghost use Rattle.serde_json.specs.Data.{no_members};
ghost use Rattle.serde_json.specs.Find.{as_object};
ghost use Rattle.serde_json.specs.Read.{of_json, of_items, of_members, converted};
ghost use Rattle.cov_object.specs.private.ByMember.{left};

use crate::json_value::number_in;
use json::{Invalid, Reader, Token};

// Passes over the next value, which nests no deeper than the depth.
#[cycle(skip)]
pub(crate) fn skip_value(reader: &mut Reader<'_>, depth: usize) -> Result<(), Invalid>
    ensures ok { OnOk result (left (converted of_json (tokens_value depth reader.old)) ≡ Some reader.new) }
    ensures shorter { OnOk result (length reader.new < length reader.old) }
    ensures err { OnErr result (converted of_json (tokens_value depth reader.old) ≡ None) }
{
    let entered = enter_object(reader, depth)?;
    if entered {
        skip_members(reader, depth - 1)
    } else {
        Ok(())
    }
}

// Takes the brace that opens an object; any other value is passed over, and it tells false.
#[cycle(skip)]
pub(crate) fn enter_object(reader: &mut Reader<'_>, depth: usize) -> Result<bool, Invalid>
    ensures object { result ≡ Ok true → reader.old ≡ begin_object ∷ reader.new }
    ensures deep { result ≡ Ok true → 0 < depth }
    ensures other { result ≡ Ok false → parse_map as_object (converted of_json (tokens_value depth reader.old)) ≡ Some (None, reader.new) }
    ensures shorter { OnOk result (length reader.new < length reader.old) }
    ensures err { OnErr result (converted of_json (tokens_value depth reader.old) ≡ None) }
{
    let token = reader.next().ok_or(Invalid)?;
    match token {
        Token::Null => Ok(false),
        Token::Bool(_) => Ok(false),
        Token::Number(text) => match number_in(text) {
            Some(_) => Ok(false),
            None => Err(Invalid),
        },
        Token::String(_) => Ok(false),
        Token::BeginArray => if depth > 0 {
            skip_items(reader, depth - 1)?;
            Ok(false)
        } else {
            Err(Invalid)
        },
        Token::BeginObject => if depth > 0 { Ok(true) } else { Err(Invalid) },
        Token::Key(_) | Token::EndArray | Token::EndObject | Token::Bad => Err(Invalid),
    }
}

// The items up to the bracket that closes the array.
#[cycle(skip)]
fn skip_items(reader: &mut Reader<'_>, depth: usize) -> Result<(), Invalid>
    ensures ok { OnOk result (left (converted of_items (items (tokens_value depth) (length reader.old) reader.old)) ≡ Some reader.new) }
    ensures shorter { OnOk result (length reader.new < length reader.old) }
    ensures err { OnErr result (converted of_items (items (tokens_value depth) (length reader.old) reader.old) ≡ None) }
{
    'items: while !reader.take_end_array() {
        skip_value(reader, depth)?;
    }
    Ok(())
}

// The members up to the brace that closes the object.
#[cycle(skip)]
fn skip_members(reader: &mut Reader<'_>, depth: usize) -> Result<(), Invalid>
    ensures ok { OnOk result (left (converted (λ ms. of_members ms no_members) (members (tokens_value depth) (length reader.old) reader.old)) ≡ Some reader.new) }
    ensures shorter { OnOk result (length reader.new < length reader.old) }
    ensures err { OnErr result (converted (λ ms. of_members ms no_members) (members (tokens_value depth) (length reader.old) reader.old) ≡ None) }
{
    'members: while let Some(_) = reader.next_key()? {
        skip_value(reader, depth)?;
    }
    Ok(())
}
