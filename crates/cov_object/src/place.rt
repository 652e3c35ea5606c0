ghost use Rattle.std.specs.Prelude.{◌≡◌, ◌++◌, Some, OnOk};
ghost use Rattle.serde_json.specs.Written.{compact_text};
ghost use Rattle.cov_object.specs.Json as spec;

use crate::digits::push_digits;
use crate::location::{Location, Position};
use items::Memory;

// Where things stand, each written at the end of `out`. The members stand in the byte order of
// their keys.

// Writes a part of a file.
pub(crate) fn push_location(out: &mut Vec<u8>, location: Location) -> Result<(), Memory>
    ensures { OnOk result (out.new.items ≡ out.old.items ++ compact_text (spec.location_data location)) }
{
    out.extend_from_slice(b"{\"end\":")?;
    push_position(out, location.end)?;
    out.extend_from_slice(b",\"start\":")?;
    push_position(out, location.start)?;
    out.push(b'}')?;
    Ok(())
}

// Writes a place, or the empty object for none.
fn push_position(out: &mut Vec<u8>, place: Option<Position>) -> Result<(), Memory>
    ensures { OnOk result (out.new.items ≡ out.old.items ++ compact_text (spec.position_data place)) }
{
    match place {
        Some(place) => push_place(out, place),
        None => out.extend_from_slice(b"{}"),
    }
}

// Writes a place by its line and its column.
fn push_place(out: &mut Vec<u8>, place: Position) -> Result<(), Memory>
    ensures { OnOk result (out.new.items ≡ out.old.items ++ compact_text (spec.position_data (Some place))) }
{
    out.extend_from_slice(b"{\"column\":")?;
    push_column(out, place.column)?;
    out.extend_from_slice(b",\"line\":")?;
    push_digits(out, u64::from(place.line.get()))?;
    out.push(b'}')?;
    Ok(())
}

// Writes a column, or null for the line's end.
fn push_column(out: &mut Vec<u8>, column: Option<u32>) -> Result<(), Memory>
    ensures { OnOk result (out.new.items ≡ out.old.items ++ compact_text (spec.column_data column)) }
{
    match column {
        Some(column) => push_digits(out, u64::from(column)),
        None => out.extend_from_slice(b"null"),
    }
}
