ghost use Rattle.std.specs.Prelude.{◌≡◌, ◌≢◌, ◌⊎◌, ℕ, List, Some, IsSome};
ghost use Rattle.cov_base.specs.Causes.{Rose};
ghost use Rattle.cov_base.specs.Sink.{TakesPrefix};
ghost use Rattle.cov_words.specs.declared.command.Command.TheVariants.{OnCoverage};
ghost use Rattle.cov_commands.specs.Line.{message_of};
ghost use Rattle.cov_commands.specs.Program.{IsDue, Comes, IsOutput, PrintsAll, PrintsOutput, PrintsPrefix, PrintsNothing, Stores, CountsPuts, SaysFailedRead, SaysLines, SaysAtMost};
ghost use Rattle.cov_commands.specs.Coverage.{message_of_refusal};
ghost use Rattle.cov_commands.specs.private.Performed.{message_of_fault};

use crate::complaints::complain;
use crate::line::Complaint;
use crate::perform::perform;
use crate::status::Status;
use cov_base::{Failed, Sink, Store};
use cov_inputs::{InputFault, Refusal, gathered};
use cov_words::CoverageTask;
use items::Text;
use std::alloc::Global;

/// What is said of coverage files that have no sums.
fn complaint_of_refusal(why: &Refusal) -> Complaint<'_>
    ensures { message_of result ≡ message_of_refusal why.now }
{
    match why {
        Refusal::NoFile { path } => Complaint::NoFile {
            path: path.as_str(),
        },
        Refusal::TooLong { path } => Complaint::TooLong {
            path: path.as_str(),
        },
        Refusal::NotUtf8 { path, at } => Complaint::NotUtf8 {
            path: path.as_str(),
            at: *at as usize,
        },
        Refusal::BadInput { path, what } => Complaint::BadInput {
            path: path.as_str(),
            what,
        },
        Refusal::CountTooLarge { sum } => Complaint::CountTooLarge { sum: *sum },
    }
}

/// What is said of coverage files that were not read or have no sums.
pub(crate) fn complaint_of(fault: &InputFault) -> Complaint<'_>
    ensures { message_of result ≡ message_of_fault fault.now }
{
    match fault {
        InputFault::Refused(why) => complaint_of_refusal(why),
        InputFault::ReadFailed { path } => Complaint::ReadFailed {
            path: path.as_str(),
        },
        InputFault::Memory => Complaint::OutOfMemory,
    }
}

/// Does what is to be done with the coverage files at these paths.
pub fn on_coverage<S: Store, O: Sink, E: Sink>(
    alloc: Global,
    task: &CoverageTask,
    files: &[Text],
    store: &mut S,
    out: &mut O,
    err: &mut E,
) -> Status
    ensures due { IsDue (Some (OnCoverage task.now files.now)) result (S.held store.old) }
    ensures comes { Comes (Some (OnCoverage task.now files.now)) result (S.held store.old) }
    ensures read_fault { result ≡ Status.ReadFault → Rose (S.read_faults store.old) (S.read_faults store.new) }
    ensures failed_read { result ≡ Status.ReadFault → SaysFailedRead (λ path. (before : S) × S.fails before path store.new)
        (E.taken err.old) (E.taken err.new) (E.faults err.old) (E.faults err.new) }
    ensures write_fault { result ≡ Status.WriteFault → (Rose (O.faults out.old) (O.faults out.new)) ⊎ (Rose (S.put_faults store.old) (S.put_faults store.new)) }

    ensures printed { PrintsAll result
        → PrintsOutput (Some (OnCoverage task.now files.now)) result (S.held store.old) (O.taken out.old) (O.taken out.new) }
    ensures prefix { PrintsPrefix (Some (OnCoverage task.now files.now)) (S.held store.old) (O.taken out.old) (O.taken out.new) }
    ensures defined { IsSome (S.held store.old) → (output : List ℕ)
        → IsOutput (Some (OnCoverage task.now files.now)) (S.held store.old) output
        → TakesPrefix (O.taken out.old) (O.taken out.new) output }
    ensures nothing { PrintsNothing result → O.taken out.new ≡ O.taken out.old }

    ensures stores { Stores (Some (OnCoverage task.now files.now)) result (S.held store.old) (S.held store.new) }
    ensures puts { CountsPuts (Some (OnCoverage task.now files.now)) (S.put_faults store.old) (S.put_faults store.new) }

    ensures says { result ≢ Status.Memory → SaysLines (Some (OnCoverage task.now files.now)) result (S.held store.old)
        (E.taken err.old) (E.taken err.new) (E.faults err.old) (E.faults err.new) }
    ensures one_line { result ≡ Status.Memory
        → SaysAtMost (Some (OnCoverage task.now files.now)) (S.held store.old) (E.taken err.old) (E.taken err.new) }
{
    let sums = match gathered(alloc, store, files) {
        Ok(sums) => sums,
        Err(fault) => return complain(alloc, &complaint_of(&fault), err),
    };
    match perform(alloc, task, &sums, store, out) {
        Ok(below) => {
            if below.is_empty() {
                return Status::Ok;
            }
            let shortfalls = below.as_slice();
            complain(alloc, &Complaint::Below { shortfalls }, err)
        }
        Err(Failed::Device) => complain(alloc, &Complaint::WriteFailed, err),
        Err(Failed::Memory) => complain(alloc, &Complaint::OutOfMemory, err),
    }
}
