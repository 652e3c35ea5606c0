ghost use Rattle.std.specs.Prelude.{◌≡◌, ◌∷◌, [], ℕ, List, Option, Err, IfOk};
ghost use Rattle.cov_base.specs.Store.{Held};
ghost use Rattle.cov_run.specs.declared.fault.LoadFault.TheVariants.{ReadFault};
ghost use Rattle.cov_words.specs.declared.command.SourceTask.TheVariants.{Demo};
ghost use Rattle.cov_commands.specs.Demo as spec;
ghost use Rattle.cov_commands.specs.Source.{ComesTo};
ghost use Rattle.cov_commands.specs.private.Shown.{IsSummed, fault_of, unshown_by};

use crate::answer::Answer;
use crate::demo_file::demo_text;
use crate::demo_sums::demo_summary;
use cov_run::{LoadFault, SessionEnd, SessionFault, session};
use cov_sources::{Source, Sources, Why};
use items::{Items, Memory, Text};
use js_text::TextFault;
use std::alloc::Global;

/// The steps of the run: 2^53 - 1.
pub(crate) const DEMO_TURNS: u64 = 9_007_199_254_740_991;

/// The answer of `demo`: what the file that is made of a number, with so many functions, printed, and the sums of its coverage
/// after it; and how it ended.
pub(crate) fn demo(alloc: Global, seed: u64, count: u64, path: &str) -> Result<Answer, LoadFault>
    ensures comes { (told : Option Held) → ComesTo path.now told (Demo seed count) result }
    ensures read { (at : List ℕ) → result ≡ Err (ReadFault at) → ⊥ }
{
    let Ok(sources) = sources_of(alloc, seed, count, path) else {
        return Err(LoadFault::Memory);
    };
    match session(alloc, &sources, DEMO_TURNS) {
        Ok(left) => match summed(alloc, left) {
            Ok(answer) => Ok(answer),
            Err(_) => Err(LoadFault::Memory),
        },
        Err(fault) => Err(unshown(fault)),
    }
}

/// The one source: the file that is made, at a path.
fn sources_of(alloc: Global, seed: u64, count: u64, path: &str) -> Result<Sources, Memory>
    ensures { IfOk result (λ sources. sources.items ≡ spec.demo_source path.now seed count ∷ []) }
{
    let source = source_of(alloc, seed, count, path)?;
    let mut sources = Vec::new(alloc);
    sources.push(source)?;
    Ok(sources)
}

/// The file that is made, at a path.
fn source_of(alloc: Global, seed: u64, count: u64, path: &str) -> Result<Source, Memory>
    ensures { IfOk result (λ source. source ≡ spec.demo_source path.now seed count) }
{
    let text = demo_text(alloc, seed, count)?;
    Ok(Source {
        path: Text::from_str(alloc, path)?,
        bytes: Items::from_vec(text.into_bytes()),
        counted: true,
        input: None,
    })
}

/// What a run printed, and the sums of its coverage after it.
fn summed(alloc: Global, left: SessionEnd) -> Result<Answer, Memory>
    ensures { IfOk result (λ answer. IsSummed left.end left.output left.coverage answer) }
{
    let SessionEnd {
        end,
        output,
        coverage,
    } = left;
    let summary = demo_summary(alloc, &coverage)?;
    let mut printed = output.into_vec();
    printed.extend_from_slice(summary.as_str().as_bytes())?;
    Ok(Answer {
        output: Items::from_vec(printed),
        end,
        coverage: None,
    })
}

/// Why there is no run. One that left no coverage is want of memory: no run of such a source is known to.
fn unshown(fault: SessionFault) -> LoadFault
    ensures { result ≡ unshown_by fault }
{
    match fault {
        SessionFault::Refused { path, why } => refused(path, why),
        SessionFault::NotCoverage => LoadFault::Memory,
        SessionFault::Memory => LoadFault::Memory,
    }
}

/// That the source at a path isn't accepted.
fn refused(path: Text, why: Why) -> LoadFault
    ensures { result ≡ fault_of path why }
{
    match why {
        Why::NoText(TextFault::TooLong { len: _ }) => LoadFault::TooLong { path },
        why => LoadFault::Refused { path, why },
    }
}
