// What an answer leaves: its output is written, and then its coverage is put.
ghost use Rattle.std.specs.Prelude.{◌≡◌, ◌⊎◌, Err, OnOk};
ghost use Rattle.cov_base.specs.Causes.{Rose};
ghost use Rattle.cov_base.specs.Sink.{after_more, TakesPrefix};
ghost use Rattle.cov_base.specs.declared.failed.Failed.TheVariants.{Device};
ghost use Rattle.cov_commands.specs.private.HandedOn.{CountsPuts, StoredBy};

use crate::answer::Answer;
use crate::perform::put;
use cov_base::{Failed, Sink, Store, write_all};
use cov_object::CoverageMap;
use cov_words::SourceTask;
use std::alloc::Global;

/// Writes the output of the answer to a task, and then puts its coverage.
pub(crate) fn hand_on<S: Store, O: Sink>(
    alloc: Global,
    task: &SourceTask,
    answer: &Answer,
    store: &mut S,
    out: &mut O,
) -> Result<(), Failed>
    ensures all { OnOk result (O.taken out.new ≡ after_more (O.taken out.old) answer.now.output) }
    ensures prefix { TakesPrefix (O.taken out.old) (O.taken out.new) answer.now.output }
    ensures rose { result ≡ Err Device → (Rose (O.faults out.old) (O.faults out.new)) ⊎ (Rose (S.put_faults store.old) (S.put_faults store.new)) }
    ensures stores { StoredBy task.now answer.now.coverage (S.held store.old) (S.held store.new) result }
    ensures puts { CountsPuts task.now (S.put_faults store.old) (S.put_faults store.new) }
    ensures reads { S.read_faults store.new ≡ S.read_faults store.old }
{
    match write_all(out, answer.output.as_slice()) {
        Ok(()) => put_coverage(alloc, task, &answer.coverage, store),
        Err(failed) => Err(failed),
    }
}

/// Puts the coverage of an answer to `run` at the path of the task; no other has any.
fn put_coverage<S: Store>(
    alloc: Global,
    task: &SourceTask,
    coverage: &Option<CoverageMap>,
    store: &mut S,
) -> Result<(), Failed>
    ensures rose { result ≡ Err Device → Rose (S.put_faults store.old) (S.put_faults store.new) }
    ensures stores { StoredBy task.now coverage.now (S.held store.old) (S.held store.new) result }
    ensures puts { CountsPuts task.now (S.put_faults store.old) (S.put_faults store.new) }
    ensures reads { S.read_faults store.new ≡ S.read_faults store.old }
{
    match task {
        SourceTask::Run {
            turns: _,
            out,
            exclude: _,
        } => match coverage {
            Some(map) => put(alloc, store, out.as_str(), map),
            None => Ok(()),
        },
        SourceTask::Maps => Ok(()),
        SourceTask::Exec { turns: _ } => Ok(()),
        SourceTask::Demo { seed: _, count: _ } => Ok(()),
    }
}
