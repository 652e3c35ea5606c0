ghost use Rattle.std.specs.Prelude.{◌≡◌, ◌<◌, ◌≤◌, ◌-◌, ◌^◌, ℕ, List, length, map, Err, IfOk, IfErr};
ghost use Rattle.std.specs.List.{AllZip};
ghost use Rattle.js_tree.specs.Plain as plain;
ghost use Rattle.js_scopes.specs.Accepted.{Accepted};
ghost use Rattle.js_meaning.specs.Program as program;
ghost use Rattle.js_machine.specs.Whole.{Begins};
ghost use Rattle.cov_sources.specs.Refused.{IsRefused};
ghost use Rattle.cov_run.specs.Exec.{program_of};
ghost use Rattle.cov_run.specs.Meant.{AreApart, IsMeant};
ghost use Rattle.cov_run.specs.Session.{IsCounting, Leaves, IsFault, first_path};
ghost use Rattle.cov_run.specs.private.Session.{Ends, IsUnmade};
ghost use Rattle.cov_run.specs.declared.fault.SessionFault.TheVariants.{NotCoverage};

use crate::fault::SessionFault;
use cov_object::CoverageMap;
use cov_sim::{counting_tree, look_at_input, simulating};
use cov_sources::{Source, Sources, Why, accept};
use items::{Items, Memory, Text};
use js_machine::{DataFault, Machine, MachineFault, prelude};
use js_meaning::{End, Program, ProgramFile};
use std::alloc::Global;

/// What came of a run that counted what it entered.
#[derive(Drop)]
pub struct SessionEnd {
    /// How it ended.
    pub end: End,
    /// What it printed.
    pub output: Items<u8>,
    /// The coverage that it left.
    pub coverage: CoverageMap,
}

/// Runs the first of these sources, of which there is one at least, in the program of all of them, with so many steps. Each
/// that is counted runs by its instrumented text, which is read again.
///
/// Of files each at a path of its own that ends with `.js`, and up to 2^53 - 1 steps: the end, the output and the coverage are those of the
/// sources' own meaning, and there is always coverage.
///
/// # Errors
/// The first source that isn't accepted, with its cause; that the run left no coverage; want of memory.
pub fn session(alloc: Global, sources: &Sources, steps: u64) -> Result<SessionEnd, SessionFault>
    requires { 0 < length sources.now.items }
    ensures left { IfOk result (λ left. Leaves sources.now.items steps left.end left.output left.coverage) }
    ensures fault { IfErr result (λ fault. IsFault sources.now.items steps fault) }
    ensures meant { AreApart sources.now.items → steps ≤ 2 ^ 53 - 1 → IfOk result (λ left. IsMeant sources.now.items steps left.end left.output left.coverage) }
    ensures counts { AreApart sources.now.items → steps ≤ 2 ^ 53 - 1 → result ≡ Err NotCoverage → ⊥ }
{
    simulating();
    run_first(alloc, sources.as_slice(), steps)
}

/// The same of a slice.
fn run_first(alloc: Global, sources: &[Source], steps: u64) -> Result<SessionEnd, SessionFault>
    requires { 0 < length sources.now }
    ensures left { IfOk result (λ left. Leaves sources.now steps left.end left.output left.coverage) }
    ensures fault { IfErr result (λ fault. IsFault sources.now steps fault) }
{
    match machine_of(alloc, sources) {
        Ok(machine) => ended(machine, steps),
        Err(fault) => Err(fault),
    }
}

/// What comes of a machine that begins, with so many steps.
fn ended(machine: Machine, steps: u64) -> Result<SessionEnd, SessionFault>
    requires { machine.given ≡ 0 }
    ensures { (p : program.Sources) (path : List ℕ) → Begins p path machine → Ends p path steps result }
{
    let mut machine = machine;
    let end = machine.run(steps)?;
    match machine.coverage() {
        Ok(coverage) => Ok(SessionEnd {
            end,
            output: machine.into_output(),
            coverage,
        }),
        Err(DataFault::NotCoverage) => Err(SessionFault::NotCoverage),
        Err(DataFault::Memory) => Err(SessionFault::Memory),
    }
}

/// A machine before the first of the sources.
fn machine_of(alloc: Global, sources: &[Source]) -> Result<Machine, SessionFault>
    requires { 0 < length sources.now }
    ensures begins { IfOk result (λ machine. (files : List program.Source) × AllZip IsCounting sources.now files × Begins (program_of files) (first_path sources.now) machine) }
    ensures fault { IfErr result (λ fault. IsUnmade sources.now fault) }
{
    match program_from(alloc, sources) {
        Ok(program) => match Machine::new(alloc, &program, entry_of(sources)) {
            Ok(machine) => Ok(machine),
            Err(MachineFault::NoEntry) => unreachable!(),
            Err(MachineFault::Memory) => Err(SessionFault::Memory),
        },
        Err(fault) => Err(fault),
    }
}

/// The path of the first of the sources.
fn entry_of(sources: &[Source]) -> &str
    requires { 0 < length sources.now }
    ensures { result.now ≡ first_path sources.now }
{
    match sources {
        [first, ..] => first.path.as_str(),
        [] => unreachable!(),
    }
}

/// The program that runs in place of the sources.
fn program_from(alloc: Global, sources: &[Source]) -> Result<Program, SessionFault>
    ensures made { IfOk result (λ made. (files : List program.Source) × AllZip IsCounting sources.now files × (program.sources_of made ≡ program_of files)) }
    ensures fault { IfErr result (λ fault. IsUnmade sources.now fault) }
{
    match files_of(alloc, sources) {
        Ok(files) => Ok(Program {
            files,
            prelude: prelude(alloc)?,
        }),
        Err(fault) => Err(fault),
    }
}

/// The files that run in place of the sources, or the first source that isn't accepted.
fn files_of(alloc: Global, sources: &[Source]) -> Result<Items<ProgramFile>, SessionFault>
    ensures files { IfOk result (λ files. AllZip IsCounting sources.now (map program.source_of files)) }
    ensures fault { IfErr result (λ fault. IsUnmade sources.now fault) }
{
    let mut files = Items::new(alloc);
    for source in sources {
        match file_of(alloc, source)? {
            Ok(file) => files.push(file)?,
            Err(why) => {
                let path = Text::from_str(alloc, source.path.as_str())?;
                return Err(SessionFault::Refused { path, why });
            }
        }
    }
    Ok(files)
}

/// The file that runs in place of a source, or why it isn't accepted.
fn file_of(alloc: Global, source: &Source) -> Result<Result<ProgramFile, Why>, Memory>
    ensures file { IfOk result (λ answer. IfOk answer (λ file. IsCounting source.now (program.source_of file))) }
    ensures refused { IfOk result (λ answer. IfErr answer (λ why. IsRefused why source.now.bytes)) }
    ensures no_source { IfOk result (λ answer. IfErr answer (λ why. (tree : plain.File) → Accepted source.now.bytes tree → ⊥)) }
{
    let bytes = Vec::from_slice(alloc, source.bytes.as_slice())?;
    match accept(alloc, bytes)? {
        Ok((_, tree)) => {
            let path = Text::from_str(alloc, source.path.as_str())?;
            look_at_input(source);
            let tree = counting_tree(alloc, source, tree)?;
            Ok(Ok(ProgramFile {
                path,
                tree,
                counted: false,
            }))
        }
        Err(why) => Ok(Err(why)),
    }
}
