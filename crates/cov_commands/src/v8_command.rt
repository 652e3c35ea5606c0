ghost use Rattle.std.specs.Prelude.{◌≡◌, ◌≢◌, Some};
ghost use Rattle.cov_base.specs.Causes.{Rose};
ghost use Rattle.cov_words.specs.declared.command.Command.TheVariants.{OnV8};
ghost use Rattle.cov_commands.specs.Program.{IsDue, Comes, Stores, CountsPuts, SaysFailedRead, SaysLines, SaysAtMost};

use crate::complaints::complain;
use crate::coverage_command::complaint_of;
use crate::line::Complaint;
use crate::perform::put;
use crate::status::Status;
use cov_base::{Failed, Sink, Store};
use cov_inputs::gathered_v8;
use items::Text;
use std::alloc::Global;

/// Puts the sums of what V8's coverage files at these paths tell of their sources at a path.
pub fn on_v8<S: Store, E: Sink>(
    alloc: Global,
    out: &str,
    files: &[Text],
    store: &mut S,
    err: &mut E,
) -> Status
    ensures due { IsDue (Some (OnV8 out.now files.now)) result (S.held store.old) }
    ensures comes { Comes (Some (OnV8 out.now files.now)) result (S.held store.old) }
    ensures read_fault { result ≡ Status.ReadFault → Rose (S.read_faults store.old) (S.read_faults store.new) }
    ensures failed_read { result ≡ Status.ReadFault → SaysFailedRead (λ path. (before : S) × S.fails before path store.new)
        (E.taken err.old) (E.taken err.new) (E.faults err.old) (E.faults err.new) }
    ensures write_fault { result ≡ Status.WriteFault → Rose (S.put_faults store.old) (S.put_faults store.new) }

    ensures stores { Stores (Some (OnV8 out.now files.now)) result (S.held store.old) (S.held store.new) }
    ensures puts { CountsPuts (Some (OnV8 out.now files.now)) (S.put_faults store.old) (S.put_faults store.new) }

    ensures says { result ≢ Status.Memory → SaysLines (Some (OnV8 out.now files.now)) result (S.held store.old)
        (E.taken err.old) (E.taken err.new) (E.faults err.old) (E.faults err.new) }
    ensures one_line { result ≡ Status.Memory
        → SaysAtMost (Some (OnV8 out.now files.now)) (S.held store.old) (E.taken err.old) (E.taken err.new) }
{
    let sums = match gathered_v8(alloc, store, files) {
        Ok(sums) => sums,
        Err(fault) => return complain(alloc, &complaint_of(&fault), err),
    };
    match put(alloc, store, out, &sums) {
        Ok(()) => Status::Ok,
        Err(Failed::Device) => complain(alloc, &Complaint::WriteFailed, err),
        Err(Failed::Memory) => complain(alloc, &Complaint::OutOfMemory, err),
    }
}
