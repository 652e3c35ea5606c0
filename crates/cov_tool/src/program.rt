ghost use Rattle.std.specs.Prelude.{◌≡◌, ◌≢◌, ◌⊎◌, ℕ, List, IsSome, map, string_bytes};
ghost use Rattle.cov_base.specs.Causes.{Rose};
ghost use Rattle.cov_base.specs.Sink.{TakesPrefix};
ghost use Rattle.cov_words.specs.Words as asked;
ghost use Rattle.cov_commands.specs.Meant.{DoesByMeaning};
ghost use Rattle.cov_commands.specs.Program.{IsDue, Comes, IsUsage, IsOutput, PrintsAll, PrintsOutput, PrintsPrefix, PrintsNothing, Stores, CountsPuts, SaysFailedRead, SaysLines, SaysAtMost};

use cov_base::{Sink, Store};
use cov_commands::{
    Complaint, Status, by_meaning, complain, on_coverage, on_help, on_instrument, on_source, on_v8,
};
use cov_words::{Command, command_of, plain_words};
use std::alloc::Global;

/// Does all that the program does: takes the words after the program's name, reads from the store,
/// prints to `out`, complains on `err`, and gives the exit status.
///
/// Three commands are on a source file: `maps FILE` prints its zero FileCoverage as Istanbul's JSON has
/// it, and LF; `exec [--turns N] FILE` runs it and prints what it prints, and where the run ends
/// otherwise than done, that is said after it; `run [--turns N] [--out P] [--exclude GLOBS] ENTRY` does
/// the same by the instrumented texts, and puts the JSON of the coverage and LF at P. `instrument --out DIR FILE..` is on source files: it
/// puts the instrumented text of each below DIR, and its map beside it. Three are on coverage files, which are read and merged
/// one after another: `merge --out P FILE..` puts their JSON and LF at P, `report [--reporter R]
/// FILE..` prints a report, and `check [--lines N] [--statements N] [--branches N] [--functions N]
/// FILE..` says which percentages are below their thresholds. `v8 --out P FILE..` is on V8's coverage
/// files: it puts the JSON of what they tell of their sources and LF at P. `--help` alone prints these forms and
/// those of the commands that are still to come.
pub fn cov<S: Store, O: Sink, E: Sink>(
    alloc: Global,
    words: &[String],
    store: &mut S,
    out: &mut O,
    err: &mut E,
) -> Status
    // When each status comes: only where it is due, and wherever it is due, but that a fault of the store or a sink and want of
    // memory may come first.
    ensures due { IsDue (asked.command_of (map string_bytes words.now)) result (S.held store.old) }
    ensures comes { Comes (asked.command_of (map string_bytes words.now)) result (S.held store.old) }
    ensures usage { IsUsage (asked.command_of (map string_bytes words.now)) result }
    ensures read_fault { result ≡ Status.ReadFault → Rose (S.read_faults store.old) (S.read_faults store.new) }
    ensures failed_read { result ≡ Status.ReadFault → SaysFailedRead (λ path. (before : S) × S.fails before path store.new)
        (E.taken err.old) (E.taken err.new) (E.faults err.old) (E.faults err.new) }
    ensures write_fault { result ≡ Status.WriteFault → (Rose (O.faults out.old) (O.faults out.new)) ⊎ (Rose (S.put_faults store.old) (S.put_faults store.new)) }

    // What has been printed.
    ensures printed { PrintsAll result
        → PrintsOutput (asked.command_of (map string_bytes words.now)) result (S.held store.old) (O.taken out.old) (O.taken out.new) }
    ensures prefix { PrintsPrefix (asked.command_of (map string_bytes words.now)) (S.held store.old) (O.taken out.old) (O.taken out.new) }
    ensures defined { IsSome (S.held store.old) → (output : List ℕ)
        → IsOutput (asked.command_of (map string_bytes words.now)) (S.held store.old) output
        → TakesPrefix (O.taken out.old) (O.taken out.new) output }
    ensures nothing { PrintsNothing result → O.taken out.new ≡ O.taken out.old }

    // What the store holds, and its count of failed puts.
    ensures stores { Stores (asked.command_of (map string_bytes words.now)) result (S.held store.old) (S.held store.new) }
    ensures puts { CountsPuts (asked.command_of (map string_bytes words.now)) (S.put_faults store.old) (S.put_faults store.new) }

    // What has been said: the status's lines, or for want of memory a prefix of its line or of theirs.
    ensures says { result ≢ Status.Memory → SaysLines (asked.command_of (map string_bytes words.now)) result (S.held store.old)
        (E.taken err.old) (E.taken err.new) (E.faults err.old) (E.faults err.new) }
    ensures one_line { result ≡ Status.Memory
        → SaysAtMost (asked.command_of (map string_bytes words.now)) (S.held store.old) (E.taken err.old) (E.taken err.new) }

    // That it is what the sources mean: `run` prints, ends and counts so, and so do the texts that `instrument` puts.
    ensures meant { DoesByMeaning (asked.command_of (map string_bytes words.now)) result (S.held store.old) (S.held store.new) (O.taken out.old) (O.taken out.new)
        (E.taken err.old) (E.taken err.new) (E.faults err.old) (E.faults err.new) }
{
    by_meaning();
    plain_words();
    let Ok(read) = command_of(alloc, words) else {
        return complain(alloc, &Complaint::OutOfMemory, err);
    };
    match &read {
        None => complain(alloc, &Complaint::Usage, err),
        Some(Command::Help) => on_help(alloc, out, err),
        Some(Command::OnSource { task, file }) => {
            on_source(alloc, task, file.as_str(), store, out, err)
        }
        Some(Command::Instrument { out: path, files }) => {
            on_instrument(alloc, path.as_str(), files.as_slice(), store, err)
        }
        Some(Command::OnCoverage { task, files }) => {
            on_coverage(alloc, task, files.as_slice(), store, out, err)
        }
        Some(Command::OnV8 { out: path, files }) => {
            on_v8(alloc, path.as_str(), files.as_slice(), store, err)
        }
    }
}
