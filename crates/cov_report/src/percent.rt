ghost use Rattle.std.specs.Prelude.{◌≡◌, string_bytes, IfOk};
ghost use Rattle.cov_report.specs.Percent.{percent_text};

use items::Memory;
use std::alloc::Global;

/// A percentage that is told in hundredths, as a decimal without zeros at its end, or want of memory.
pub fn percent_of(alloc: Global, hundredths: u64) -> Result<String, Memory>
    ensures { IfOk result (λ text. string_bytes text ≡ percent_text hundredths) }
{
    let whole = hundredths / 100;
    let tenths = hundredths / 10 % 10;
    let ones = hundredths % 10;
    if ones > 0 {
        format!(in alloc; "{whole}.{tenths}{ones}")
    } else if tenths > 0 {
        format!(in alloc; "{whole}.{tenths}")
    } else {
        format!(in alloc; "{whole}")
    }
}
