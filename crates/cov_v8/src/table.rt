ghost use Rattle.std.specs.Prelude.{◌≡◌, ◌<◌, ◌+◌, ◌++◌, ℕ, List, [], length, IfOk, OnOk};
ghost use Rattle.std.specs.Str.{chars};
ghost use Rattle.cov_v8.specs.private.Table as spec;
ghost use Rattle.cov_v8.specs.Coverage.{part as spec_part, position_at, units as units_of};

use cov_object::{Line, Location, Position};
use items::Memory;
use js_text::Cursor;
use js_tree::Pos;
use std::alloc::Global;

// Puts a position at the end for each unit of a character.
fn push_copies(all: &mut Vec<Pos>, character: char, position: Pos) -> Result<(), Memory>
    ensures { OnOk result (all.new.items ≡ all.old.items ++ spec.copies character position) }
{
    all.push(position)?;
    if character >= '\u{10000}' {
        all.push(position)?;
    }
    Ok(())
}

// The position at each offset of a text, its end's too.
pub(crate) fn table(alloc: Global, text: &str) -> Result<Vec<Pos>, Memory>
    ensures { IfOk result (λ all. all.items ≡ spec.table (chars text.now)) }
{
    let mut cursor = Cursor::new(text);
    let mut all = Vec::new(alloc);
    let mut here = cursor.position();
    'next: while let Some(next) = cursor.bump() {
        push_copies(&mut all, next, here)?;
        here = cursor.position();
    }
    all.push(here)?;
    Ok(all)
}

// How many units stand before the end of the text.
pub(crate) fn end(table: &[Pos]) -> u64
    requires known { spec.IsTable table.now }
    ensures last { result + 1 ≡ length table.now }
    ensures units { (cs : List ℕ) → table.now ≡ spec.table cs → result ≡ units_of cs }
{
    table.len() as u64 - 1
}

// The position at an offset.
fn position(table: &[Pos], at: usize) -> Position
    requires known { spec.IsTable table.now }
    requires within { at < length table.now }
    ensures { (cs : List ℕ) → table.now ≡ spec.table cs → result ≡ position_at cs at }
{
    let pos = table[at];
    Position {
        line: Line::new(pos.line),
        column: Some(pos.column),
    }
}

// The part of a text between two offsets.
pub(crate) fn part(table: &[Pos], start: usize, end: usize) -> Location
    requires known { spec.IsTable table.now }
    requires start_within { start < length table.now }
    requires end_within { end < length table.now }
    ensures { (cs : List ℕ) → table.now ≡ spec.table cs → result ≡ spec_part cs start end }
{
    Location {
        start: Some(position(table, start)),
        end: Some(position(table, end)),
    }
}
