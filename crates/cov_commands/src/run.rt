ghost use Rattle.std.specs.Prelude.{◌≡◌, ◌<◌, ℕ, List, length, map, string_bytes, Err, IfOk, Some};
ghost use Rattle.cov_base.specs.Causes.{Rose};
ghost use Rattle.cov_object.specs.declared.file.FileCoverage.{FileCoverage};
ghost use Rattle.cov_sim.specs.Refused.{IsFirstRefused};
ghost use Rattle.cov_sources.specs.declared.why.Why.{Why};
ghost use Rattle.cov_run.specs.Session.{Leaves};
ghost use Rattle.cov_run.specs.declared.fault.LoadFault.TheVariants.{ReadFault};
ghost use Rattle.cov_words.specs.declared.command.SourceTask.TheVariants.{Run};
ghost use Rattle.cov_commands.specs.Source.{ComesTo};

use crate::answer::Answer;
use cov_base::Store;
use cov_run::{LoadFault, SessionEnd, SessionFault, load, session};
use cov_sources::Sources;
use items::{Memory, Text};
use std::alloc::{AllocError, Global};

/// The answer of `run`: what the program of the file at a path printed, how it ended, and its coverage. The files for whose
/// paths one of these patterns stands aren't counted.
pub(crate) fn run<S: Store>(
    alloc: Global,
    turns: u64,
    exclude: &[Text],
    path: &str,
    store: &mut S,
) -> Result<Answer, LoadFault>
    ensures comes { (out : List ℕ) → ComesTo path.now (S.held store.old) (Run turns out exclude.now) result }
    ensures failed { (at : List ℕ) → result ≡ Err (ReadFault at) → (before : S) × S.fails before at store.new }
    ensures rose { (at : List ℕ) → result ≡ Err (ReadFault at) → Rose (S.read_faults store.old) (S.read_faults store.new) }
    ensures unchanged { S.held store.new ≡ S.held store.old }
    ensures puts { S.put_faults store.new ≡ S.put_faults store.old }
{
    let Ok(patterns) = strings_of(alloc, exclude) else {
        return Err(LoadFault::Memory);
    };
    match load(alloc, store, path, patterns.as_slice()) {
        Ok(sources) => match counted(alloc, &sources, turns) {
            Ok(answer) => Ok(answer),
            Err(_) => Err(LoadFault::Memory),
        },
        Err(fault) => Err(fault),
    }
}

/// A copy of each of these texts.
fn strings_of(alloc: Global, texts: &[Text]) -> Result<Vec<String>, Memory>
    ensures { IfOk result (λ strings. map string_bytes strings.items ≡ texts.now) }
{
    let mut strings = Vec::new(alloc);
    for text in texts {
        strings.push(String::from_str(alloc, text.as_str())?)?;
    }
    Ok(strings)
}

/// What the first of these sources, which are accepted, printed, how it ended, and its coverage. Where the run left no
/// coverage that is want of memory: no run of such sources is known to.
fn counted(alloc: Global, sources: &Sources, turns: u64) -> Result<Answer, Memory>
    requires some { 0 < length sources.now.items }
    requires accepted { (path : List ℕ) (because : Why) → IsFirstRefused sources.now.items path because → ⊥ }
    ensures { IfOk result (λ answer. (files : List FileCoverage) × Leaves sources.now.items turns answer.end answer.output files × (answer.coverage ≡ Some files)) }
{
    match session(alloc, sources, turns) {
        Ok(
            SessionEnd {
                end,
                output,
                coverage,
            },
        ) => Ok(Answer {
            output,
            end,
            coverage: Some(coverage),
        }),
        Err(SessionFault::Refused { path: _, why: _ }) => unreachable!(),
        Err(SessionFault::NotCoverage) => Err(AllocError),
        Err(SessionFault::Memory) => Err(AllocError),
    }
}
