ghost use Rattle.std.specs.Prelude.{◌≡◌, ◌++◌, map, OnOk};
ghost use Rattle.serde_json.specs.Data.{array};
ghost use Rattle.serde_json.specs.View.{items_of};
ghost use Rattle.serde_json.specs.Written.{compact_text};
ghost use Rattle.cov_object.specs.Json as spec;

use crate::digits::push_digits;
use crate::file::PathCoverage;
use crate::piece::push_comma;
use crate::place::push_location;
use items::Memory;

// Writes where each path of a branch stands, at the end of `out`.
pub(crate) fn push_path_locations(out: &mut Vec<u8>, paths: &[PathCoverage]) -> Result<(), Memory>
    ensures { OnOk result (out.new.items ≡ out.old.items
        ++ compact_text (array (items_of (map (λ path. spec.location_data path.location) paths.now)))) }
{
    out.push(b'[')?;
    for (place, path) in paths.iter().enumerate() {
        push_comma(out, place > 0)?;
        push_location(out, path.location)?;
    }
    out.push(b']')?;
    Ok(())
}

// Writes how often each path of a branch was taken.
pub(crate) fn push_path_counts(out: &mut Vec<u8>, paths: &[PathCoverage]) -> Result<(), Memory>
    ensures { OnOk result (out.new.items ≡ out.old.items
        ++ compact_text (array (items_of (map (λ path. spec.count_data path.count) paths.now)))) }
{
    out.push(b'[')?;
    for (place, path) in paths.iter().enumerate() {
        push_comma(out, place > 0)?;
        push_digits(out, path.count.get())?;
    }
    out.push(b']')?;
    Ok(())
}
