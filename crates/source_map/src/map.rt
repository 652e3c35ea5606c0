ghost use Rattle.std.specs.Prelude.{◌≡◌, ◌≢◌, ◌≤◌, ◌-◌, ◌+◌, ◌*◌, ◌^◌, ℕ, length, option_map, Ok, Err, IfOk, IfErr, IfSome, IfNone};
ghost use Rattle.source_map.specs.declared.fault.MapFault.TheVariants.{Memory as OutOfMemory};
ghost use Rattle.source_map.specs.Kept.{HasTexts};
ghost use Rattle.source_map.specs.Laws.{IsMap};
ghost use Rattle.source_map.specs.Read.{source_map_of};
ghost use Rattle.source_map.specs.Trace as spec;
ghost use Rattle.source_map.specs.Write.{map_text};

use crate::fault::MapFault;
use crate::laws::reading;
use crate::place::{Parts, Traced};
use crate::steps::Steps;
use crate::{composed, fit, kept, reader, search, written};
use cov_object::SourceMapText;
use items::Memory;
use std::alloc::Global;
use std::marker::Model;
use std::sync::ledger::Ledger;

/// A source map: its segments stand in order, and its numbers are in range. Contracts see it as its parts.
#[derive(Debug, Drop)]
pub struct SourceMap {
    parts: Parts,
}

/// A source map of a file that was itself made from other sources.
pub type InputMap = SourceMap;

impl Model for SourceMap {
    ghost use Rattle.source_map.specs.declared.place.Parts.{Parts};
    ghost use Rattle.source_map.specs.Kept.{HasTexts};
    ghost use Rattle.source_map.specs.Laws.{IsMap};

    ghost Value = { Parts };

    ghost view = { λ map. map.parts };

    ghost invariant = { λ map. IsMap map.parts };
}

impl SourceMap {
    /// The map of these parts; none where a number is out of range or the segments stand in no order.
    pub fn of(parts: Parts) -> Option<SourceMap>
        ensures some { IfSome result (λ map. map ≡ parts) }
        ensures none { IfNone result (IsMap parts → ⊥) }
    {
        if fit::is_map(&parts) {
            Some(SourceMap { parts })
        } else {
            None
        }
    }

    /// The text of a source; none where it is null or past the list.
    pub fn source(&self, number: u32) -> Option<&str>
        ensures { option_map (λ text. text.now) result ≡ spec.source self.now number }
    {
        search::source(&self.parts, number)
    }

    /// What a place comes from: lines count from 1, and no column is the line's end.
    pub fn trace(&self, line: u32, column: Option<u32>) -> Option<Traced>
        ensures value { result ≡ spec.trace self.now line column }
        ensures from_one { IfSome result (λ place. 1 ≤ place.line) }
    {
        search::trace(&self.parts, line, column)
    }

    /// The same, with the steps that it takes: on a line of n segments no more than n has binary digits.
    pub fn trace_counted<L: Ledger>(
        &self,
        line: u32,
        column: Option<u32>,
        steps: &mut Steps<L>,
    ) -> Option<Traced>
        ensures value { result ≡ spec.trace self.now line column }
        ensures from_one { IfSome result (λ place. 1 ≤ place.line) }
        ensures later { steps.old ≤ steps.new }
        ensures few { 2 ^ (steps.new - steps.old) ≤ 2 * length (spec.on_line line self.now.segments) + 1 }
    {
        search::trace_counted(&self.parts, line, column, steps)
    }
}

/// The source map that so many bytes at most tell as JSON. `TooLong` comes exactly over `most`, before
/// all else; of the other faults the first one comes.
pub fn read(alloc: Global, bytes: &[u8], most: u64) -> Result<SourceMap, MapFault>
    ensures ok { IfOk result (λ map. source_map_of most bytes.now ≡ Ok map) }
    ensures err { IfErr result (λ fault. fault ≢ OutOfMemory → source_map_of most bytes.now ≡ Err fault) }
{
    reading();
    match reader::read(alloc, bytes, most) {
        Ok(parts) => Ok(SourceMap { parts }),
        Err(fault) => Err(fault),
    }
}

/// The outer map and then the inner one.
pub fn compose(alloc: Global, outer: &SourceMap, inner: &SourceMap) -> Result<SourceMap, Memory>
    ensures { IfOk result (λ map. map ≡ spec.composed outer.now inner.now) }
{
    reading();
    match composed::compose(alloc, &outer.parts, &inner.parts) {
        Ok(parts) => Ok(SourceMap { parts }),
        Err(want) => Err(want),
    }
}

/// The text of a map, with no space. The map is read back from it, where it isn't too long. Want of
/// memory is the only error.
pub fn write(alloc: Global, map: &SourceMap) -> Result<Vec<u8>, Memory>
    ensures text { IfOk result (λ text. text.items ≡ map_text map.now) }
    ensures reads_back { (most : ℕ) → IfOk result (λ text. length text.items ≤ most → source_map_of most text.items ≡ Ok map.now) }
{
    written::write(alloc, &map.parts)
}

/// The map as the coverage of a file keeps it: its text. Want of memory is the only error.
pub fn kept_text(alloc: Global, map: &SourceMap) -> Result<SourceMapText, Memory>
    ensures { IfOk result (λ text. text ≡ map_text map.now) }
{
    kept::kept_parts(alloc, &map.parts)
}

/// Does nothing but look at the texts of a map, which are UTF-8 as its type says.
pub fn look_at(map: &SourceMap)
    ensures { HasTexts map.now }
{
    kept::look_at_parts(&map.parts);
}
