ghost use Rattle.std.specs.Prelude.{◌≡◌, ◌++◌, OnOk};
ghost use Rattle.serde_json.specs.Written.{compact_text};
ghost use Rattle.cov_object.specs.Json as spec;

use crate::branch::BranchCoverage;
use crate::file::FunctionCoverage;
use crate::list::push_path_locations;
use crate::piece::push_string;
use crate::place::push_location;
use items::Memory;
use std::alloc::Global;

// What a function and a branch are, each written at the end of `out`. The members stand in the byte
// order of their keys.

// Writes a function, without its count.
pub(crate) fn push_function(
    alloc: Global,
    out: &mut Vec<u8>,
    function: &FunctionCoverage,
) -> Result<(), Memory>
    ensures { OnOk result (out.new.items ≡ out.old.items ++ compact_text (spec.function_data function.now)) }
{
    out.extend_from_slice(b"{\"decl\":")?;
    push_location(out, function.declaration)?;
    out.extend_from_slice(b",\"loc\":")?;
    push_location(out, function.location)?;
    out.extend_from_slice(b",\"name\":")?;
    push_string(alloc, out, function.name.as_str())?;
    out.push(b'}')?;
    Ok(())
}

// Writes a branch, without its counts.
pub(crate) fn push_branch(
    alloc: Global,
    out: &mut Vec<u8>,
    branch: &BranchCoverage,
) -> Result<(), Memory>
    ensures { OnOk result (out.new.items ≡ out.old.items ++ compact_text (spec.branch_data branch.now)) }
{
    out.extend_from_slice(b"{\"loc\":")?;
    push_location(out, branch.location())?;
    out.extend_from_slice(b",\"locations\":")?;
    push_path_locations(out, branch.paths())?;
    out.extend_from_slice(b",\"type\":")?;
    push_string(alloc, out, branch.kind())?;
    out.push(b'}')?;
    Ok(())
}
