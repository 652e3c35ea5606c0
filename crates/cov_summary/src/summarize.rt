ghost use Rattle.std.specs.Prelude.{◌≡◌, IfOk};
ghost use Rattle.std.specs.List.{All};
ghost use Rattle.cov_summary.specs.Sums as spec;

use crate::sums::{FileSums, Summary, Sums, file_sums, with_file};
use cov_object::CoverageMap;
use items::{Items, Memory, Text};
use std::alloc::Global;

/// The totals of a coverage map. Want of memory is the only error.
pub fn summary(alloc: Global, map: &CoverageMap) -> Result<Summary, Memory>
    ensures value { IfOk result (λ summary. summary ≡ spec.summary_of map.now) }
    ensures exact { IfOk result (λ summary. spec.AreExact summary.total) }
    ensures exact_each { IfOk result (λ summary. All (λ file. spec.AreExact file.sums) summary.files) }
{
    let mut total = Sums::none();
    let mut files = Items::new(alloc);
    for file in map.files() {
        total = with_file(alloc, total, file)?;
        files.push(FileSums {
            path: Text::from_str(alloc, file.path.as_str())?,
            sums: file_sums(alloc, file)?,
        })?;
    }
    Ok(Summary { total, files })
}
