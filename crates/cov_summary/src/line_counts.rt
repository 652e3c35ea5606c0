ghost use Rattle.std.specs.Prelude.{◌≡◌, IfOk};
ghost use Rattle.cov_summary.specs.Lines.{lines_of};

use cov_object::FileCoverage;
use items::Memory;
use std::alloc::Global;
use std::collections::BTreeMap;

/// The lines of a file on which a statement starts, ascending, each with the greatest count of the
/// statements that start on it.
pub fn lines(alloc: Global, file: &FileCoverage) -> Result<Vec<(u32, u64)>, Memory>
    ensures { IfOk result (λ lines. lines.items ≡ lines_of file.now) }
{
    let mut lines = BTreeMap::new(alloc);
    for (_, statement) in file.statements.as_slice() {
        if let Some(start) = statement.location.start {
            let line = start.line.get();
            let count = statement.count.get();
            let most = match lines.get(&line) {
                Some(other) if *other > count => *other,
                _ => count,
            };
            lines.insert(line, most)?;
        }
    }
    lines.into_iter().collect(alloc)
}
