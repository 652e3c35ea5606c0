ghost use Rattle.std.specs.Prelude.{◌≡◌, ◌≢◌, ◌⊎◌};
ghost use Rattle.cov_base.specs.Sink.{TakesPrefix};
ghost use Rattle.cov_commands.specs.Program.{Says};
ghost use Rattle.cov_commands.specs.Line as said;
ghost use Rattle.cov_commands.specs.Status as statuses;

use crate::line::{Complaint, line, out_of_memory};
use crate::status::Status;
use cov_base::{Failed, Sink, write_all};
use std::alloc::Global;

/// The status with which each complaint is said.
fn status_of(complaint: &Complaint<'_>) -> Status
    ensures { result ≡ statuses.status_of (said.message_of complaint.now) }
{
    match complaint {
        Complaint::Usage => Status::Usage,
        Complaint::Syntax { path: _, place: _ }
        | Complaint::Unsupported {
            path: _,
            place: _,
            form: _,
        }
        | Complaint::TooDeep { path: _, place: _ }
        | Complaint::Broken { path: _, fault: _ }
        | Complaint::NotUtf8 { path: _, at: _ } => Status::Refused,
        Complaint::ReadFailed { path: _ } => Status::ReadFault,
        Complaint::WriteFailed => Status::WriteFault,
        Complaint::OutOfMemory => Status::Memory,
        Complaint::TooLong { path: _ } => Status::Limit,
        Complaint::TooManyFiles => Status::Limit,
        Complaint::NoFile { path: _ } => Status::NoFile,
        Complaint::Uncaught { shown: _ } => Status::Threw,
        Complaint::Range { kind: _ } => Status::Range,
        Complaint::Going { turns: _ } => Status::Going,
        Complaint::BadInput { path: _, what: _ } | Complaint::BadMap { path: _, fault: _ } => {
            Status::BadInput
        }
        Complaint::CountTooLarge { sum: _ } => Status::Limit,
        Complaint::Below { shortfalls: _ } => Status::Below,
    }
}

/// Says that memory is wanting, as far as the sink takes it, and gives that status. It takes no
/// memory.
pub fn say_out_of_memory<E: Sink>(err: &mut E) -> Status
    ensures status { result ≡ Status.Memory }
    ensures says { TakesPrefix (E.taken err.old) (E.taken err.new) (said.line said.OutOfMemory) }
{
    let _ = write_all(err, out_of_memory().as_bytes());
    Status::Memory
}

/// Says the complaint's line and gives its status. A fault of the sink changes no status; where
/// memory is wanting for the line that is the status.
pub fn complain<E: Sink>(alloc: Global, complaint: &Complaint<'_>, err: &mut E) -> Status
    ensures status { (result ≡ statuses.status_of (said.message_of complaint.now)) ⊎ (result ≡ Status.Memory) }
    ensures says { result ≢ Status.Memory
        → Says (said.line (said.message_of complaint.now)) (E.taken err.old) (E.taken err.new) (E.faults err.old) (E.faults err.new) }
    ensures one_line { (message : said.Message) × ((message ≡ said.message_of complaint.now) ⊎ (message ≡ said.OutOfMemory))
        × TakesPrefix (E.taken err.old) (E.taken err.new) (said.line message) }
{
    let Ok(text) = line(alloc, complaint) else {
        return say_out_of_memory(err);
    };
    match write_all(err, text.as_slice()) {
        Ok(()) | Err(Failed::Device) => status_of(complaint),
        Err(Failed::Memory) => Status::Memory,
    }
}
