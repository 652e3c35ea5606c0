ghost use Rattle.std.specs.Prelude.{◌≡◌, ◌≢◌, Some};
ghost use Rattle.cov_base.specs.Causes.{Rose};
ghost use Rattle.cov_commands.specs.Instrument.{Each, IsSourcePath};
ghost use Rattle.cov_words.specs.declared.command.Command.TheVariants.{Instrument};
ghost use Rattle.cov_commands.specs.Program.{IsDue, Comes, Stores, CountsPuts, SaysFailedRead, SaysLines, SaysAtMost};

use crate::below::put_all;
use crate::complaints::complain;
use crate::fault::complaint_of_fault;
use crate::line::Complaint;
use crate::status::Status;
use crate::written::all_written;
use cov_base::{Failed, Sink, Store};
use items::Text;
use std::alloc::Global;

/// Puts the instrumented texts of the source files at these paths below a folder, and beside each its map, which leads where a file's own
/// source map does, if one stands beside it. All files are read, each with its map, before anything is put. A file that one of its comments takes out is put as it is, without a map.
pub fn on_instrument<S: Store, E: Sink>(
    alloc: Global,
    out: &str,
    files: &[Text],
    store: &mut S,
    err: &mut E,
) -> Status
    requires { Each IsSourcePath files.now }

    ensures due { IsDue (Some (Instrument out.now files.now)) result (S.held store.old) }
    ensures comes { Comes (Some (Instrument out.now files.now)) result (S.held store.old) }
    ensures read_fault { result ≡ Status.ReadFault → Rose (S.read_faults store.old) (S.read_faults store.new) }
    ensures failed_read { result ≡ Status.ReadFault → SaysFailedRead (λ path. (before : S) × S.fails before path store.new)
        (E.taken err.old) (E.taken err.new) (E.faults err.old) (E.faults err.new) }
    ensures write_fault { result ≡ Status.WriteFault → Rose (S.put_faults store.old) (S.put_faults store.new) }

    ensures stores { Stores (Some (Instrument out.now files.now)) result (S.held store.old) (S.held store.new) }
    ensures puts { CountsPuts (Some (Instrument out.now files.now)) (S.put_faults store.old) (S.put_faults store.new) }

    ensures says { result ≢ Status.Memory → SaysLines (Some (Instrument out.now files.now)) result (S.held store.old)
        (E.taken err.old) (E.taken err.new) (E.faults err.old) (E.faults err.new) }
    ensures one_line { result ≡ Status.Memory
        → SaysAtMost (Some (Instrument out.now files.now)) (S.held store.old) (E.taken err.old) (E.taken err.new) }
{
    let list = match all_written(alloc, store, files) {
        Ok(list) => list,
        Err(stopped) => {
            return complain(alloc, &complaint_of_fault(stopped.file, &stopped.why), err);
        }
    };
    match put_all(alloc, store, out, list.as_slice()) {
        Ok(()) => Status::Ok,
        Err(Failed::Device) => complain(alloc, &Complaint::WriteFailed, err),
        Err(Failed::Memory) => complain(alloc, &Complaint::OutOfMemory, err),
    }
}
