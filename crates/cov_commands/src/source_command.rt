ghost use Rattle.std.specs.Prelude.{◌≡◌, ◌≢◌, ◌⊎◌, ℕ, List, Some, IsSome};
ghost use Rattle.cov_base.specs.Causes.{Rose};
ghost use Rattle.cov_base.specs.Sink.{TakesPrefix};
ghost use Rattle.cov_words.specs.declared.command.Command.TheVariants.{OnSource};
ghost use Rattle.cov_commands.specs.Program.{IsDue, Comes, IsOutput, PrintsAll, PrintsOutput, PrintsPrefix, PrintsNothing, Stores, CountsPuts, SaysFailedRead, SaysLines, SaysAtMost};

use crate::answer::answer_to;
use crate::complaints::complain;
use crate::fault::complaint_of_fault;
use crate::hand_on::hand_on;
use crate::line::Complaint;
use crate::said::said_of;
use crate::status::Status;
use cov_base::{Failed, Sink, Store};
use cov_words::SourceTask;
use std::alloc::Global;

/// Does what is to be done with the source file at a path.
pub fn on_source<S: Store, O: Sink, E: Sink>(
    alloc: Global,
    task: &SourceTask,
    path: &str,
    store: &mut S,
    out: &mut O,
    err: &mut E,
) -> Status
    ensures due { IsDue (Some (OnSource task.now path.now)) result (S.held store.old) }
    ensures comes { Comes (Some (OnSource task.now path.now)) result (S.held store.old) }
    ensures read_fault { result ≡ Status.ReadFault → Rose (S.read_faults store.old) (S.read_faults store.new) }
    ensures failed_read { result ≡ Status.ReadFault → SaysFailedRead (λ path. (before : S) × S.fails before path store.new)
        (E.taken err.old) (E.taken err.new) (E.faults err.old) (E.faults err.new) }
    ensures write_fault { result ≡ Status.WriteFault → (Rose (O.faults out.old) (O.faults out.new)) ⊎ (Rose (S.put_faults store.old) (S.put_faults store.new)) }

    ensures printed { PrintsAll result
        → PrintsOutput (Some (OnSource task.now path.now)) result (S.held store.old) (O.taken out.old) (O.taken out.new) }
    ensures prefix { PrintsPrefix (Some (OnSource task.now path.now)) (S.held store.old) (O.taken out.old) (O.taken out.new) }
    ensures defined { IsSome (S.held store.old) → (output : List ℕ)
        → IsOutput (Some (OnSource task.now path.now)) (S.held store.old) output
        → TakesPrefix (O.taken out.old) (O.taken out.new) output }
    ensures nothing { PrintsNothing result → O.taken out.new ≡ O.taken out.old }

    ensures stores { Stores (Some (OnSource task.now path.now)) result (S.held store.old) (S.held store.new) }
    ensures puts { CountsPuts (Some (OnSource task.now path.now)) (S.put_faults store.old) (S.put_faults store.new) }

    ensures says { result ≢ Status.Memory → SaysLines (Some (OnSource task.now path.now)) result (S.held store.old)
        (E.taken err.old) (E.taken err.new) (E.faults err.old) (E.faults err.new) }
    ensures one_line { result ≡ Status.Memory
        → SaysAtMost (Some (OnSource task.now path.now)) (S.held store.old) (E.taken err.old) (E.taken err.new) }
{
    let answer = match answer_to(alloc, task, path, store) {
        Ok(answer) => answer,
        Err(fault) => return complain(alloc, &complaint_of_fault(path, &fault), err),
    };
    match hand_on(alloc, task, &answer, store, out) {
        Ok(()) => match said_of(task, &answer.end) {
            Some(complaint) => complain(alloc, &complaint, err),
            None => Status::Ok,
        },
        Err(Failed::Device) => complain(alloc, &Complaint::WriteFailed, err),
        Err(Failed::Memory) => complain(alloc, &Complaint::OutOfMemory, err),
    }
}
