ghost use Rattle.std.specs.Prelude.{◌≡◌, ℕ, List, Err};
ghost use Rattle.cov_base.specs.Causes.{Rose};
ghost use Rattle.cov_run.specs.declared.fault.LoadFault.TheVariants.{ReadFault};
ghost use Rattle.cov_commands.specs.Source.{ComesTo};

use crate::demo::demo;
use crate::exec::exec;
use crate::maps::maps;
use crate::run::run;
use cov_base::Store;
use cov_object::CoverageMap;
use cov_run::LoadFault;
use cov_words::SourceTask;
use items::Items;
use js_meaning::End;
use std::alloc::Global;

/// What a command answers to the source that it names.
#[derive(Drop)]
pub struct Answer {
    /// What is printed.
    pub output: Items<u8>,
    /// How it ended.
    pub end: End,
    /// The coverage that is put, which only `run` has.
    pub coverage: Option<CoverageMap>,
}

/// The answer to a task on the file at a path, or why there is none.
pub(crate) fn answer_to<S: Store>(
    alloc: Global,
    task: &SourceTask,
    path: &str,
    store: &mut S,
) -> Result<Answer, LoadFault>
    ensures comes { ComesTo path.now (S.held store.old) task.now result }
    ensures failed { (at : List ℕ) → result ≡ Err (ReadFault at) → (before : S) × S.fails before at store.new }
    ensures rose { (at : List ℕ) → result ≡ Err (ReadFault at) → Rose (S.read_faults store.old) (S.read_faults store.new) }
    ensures unchanged { S.held store.new ≡ S.held store.old }
    ensures puts { S.put_faults store.new ≡ S.put_faults store.old }
{
    match task {
        SourceTask::Maps => maps(alloc, path, store),
        SourceTask::Exec { turns } => exec(alloc, *turns, path, store),
        SourceTask::Run {
            turns,
            out: _,
            exclude,
        } => run(alloc, *turns, exclude.as_slice(), path, store),
        SourceTask::Demo { seed, count } => demo(alloc, *seed, *count, path),
    }
}
