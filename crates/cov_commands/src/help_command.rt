ghost use Rattle.std.specs.Prelude.{◌≡◌, ◌≢◌, Option, Some};
ghost use Rattle.cov_base.specs.Causes.{Rose};
ghost use Rattle.cov_base.specs.Store.{Held};
ghost use Rattle.cov_words.specs.declared.command.Command.TheVariants.{Help};
ghost use Rattle.cov_commands.specs.Help as spec;
ghost use Rattle.cov_commands.specs.Program.{PrintsAll, SaysLines, SaysAtMost};

use crate::complaints::complain;
use crate::help::help_text;
use crate::line::Complaint;
use crate::status::Status;
use cov_base::{Failed, Sink, write_all};
use std::alloc::Global;

/// Prints the forms of the words.
pub fn on_help<O: Sink, E: Sink>(alloc: Global, out: &mut O, err: &mut E) -> Status
    ensures due { spec.IsDue result }
    ensures write_fault { result ≡ Status.WriteFault → Rose (O.faults out.old) (O.faults out.new) }
    ensures printed { PrintsAll result → spec.PrintsOutput (O.taken out.old) (O.taken out.new) }
    ensures prefix { spec.PrintsPrefix (O.taken out.old) (O.taken out.new) }
    ensures says { (told : Option Held) → result ≢ Status.Memory
        → SaysLines (Some Help) result told (E.taken err.old) (E.taken err.new) (E.faults err.old) (E.faults err.new) }
    ensures one_line { (told : Option Held) → result ≡ Status.Memory
        → SaysAtMost (Some Help) told (E.taken err.old) (E.taken err.new) }
{
    match write_all(out, help_text().as_bytes()) {
        Ok(()) => Status::Ok,
        Err(Failed::Device) => complain(alloc, &Complaint::WriteFailed, err),
        Err(Failed::Memory) => complain(alloc, &Complaint::OutOfMemory, err),
    }
}
