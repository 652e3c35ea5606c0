ghost use Rattle.std.specs.Prelude.{◌≡◌, IfOk, List, map};
ghost use Rattle.std.specs.List.{AllZip};
ghost use Rattle.js_tree.specs.Tree.{plain_file};
ghost use Rattle.js_scopes.specs.Accepted.{Accepted};
ghost use Rattle.js_meaning.specs.Program as program;
ghost use Rattle.js_machine.specs.Whole.{Begins};
ghost use Rattle.cov_sources.specs.Refused.{HasOnly};
ghost use Rattle.cov_run.specs.Exec.{AreRead, EndsAs, IsFirst, IsRead, program_of};

use cov_sources::{Source, accept};
use items::{Items, Memory, Text};
use js_machine::{Machine, MachineFault, prelude};
use js_meaning::{End, Program, ProgramFile};
use js_scopes::Checked;
use std::alloc::{AllocError, Global};

/// What came of a run.
#[derive(Drop)]
pub struct Ran {
    /// How it ended.
    pub end: End,
    /// What it printed.
    pub output: Items<u8>,
}

/// Runs the first of these sources, which is at the path `entry`, in the program of all of them, with
/// so many steps. None of them is counted. Want of memory is the only error.
pub fn exec(alloc: Global, entry: &str, sources: &[Source], turns: u64) -> Result<Ran, Memory>
    requires first { IsFirst entry.now sources.now }
    requires read { AreRead sources.now }
    ensures { IfOk result (λ ran. EndsAs sources.now entry.now turns ran.end ran.output) }
{
    let mut machine = machine_before(alloc, entry, sources)?;
    let end = machine.run(turns)?;
    Ok(Ran {
        end,
        output: machine.into_output(),
    })
}

/// A machine before the first of the sources.
fn machine_before(alloc: Global, entry: &str, sources: &[Source]) -> Result<Machine, Memory>
    requires first { IsFirst entry.now sources.now }
    requires read { AreRead sources.now }
    ensures { IfOk result (λ machine. (files : List program.Source) × AllZip IsRead sources.now files × Begins (program_of files) entry.now machine) }
{
    let program = program_from(alloc, sources)?;
    match Machine::new(alloc, &program, entry) {
        Ok(machine) => Ok(machine),
        Err(MachineFault::NoEntry) => unreachable!(),
        Err(MachineFault::Memory) => Err(AllocError),
    }
}

/// The program of these sources.
fn program_from(alloc: Global, sources: &[Source]) -> Result<Program, Memory>
    requires { AreRead sources.now }
    ensures { IfOk result (λ made. (files : List program.Source) × AllZip IsRead sources.now files × (program.sources_of made ≡ program_of files)) }
{
    Ok(Program {
        files: files_of(alloc, sources)?,
        prelude: prelude(alloc)?,
    })
}

/// The sources as files of a program.
fn files_of(alloc: Global, sources: &[Source]) -> Result<Items<ProgramFile>, Memory>
    requires { AreRead sources.now }
    ensures { IfOk result (λ files. AllZip IsRead sources.now (map program.source_of files)) }
{
    let mut files = Items::new(alloc);
    for source in sources {
        files.push(file_of(alloc, source)?)?;
    }
    Ok(files)
}

/// A source as a file of a program.
fn file_of(alloc: Global, source: &Source) -> Result<ProgramFile, Memory>
    requires { (file : program.Source) × IsRead source.now file }
    ensures { IfOk result (λ file. IsRead source.now (program.source_of file)) }
{
    let tree = tree_of(alloc, source)?;
    Ok(ProgramFile {
        path: Text::from_str(alloc, source.path.as_str())?,
        tree,
        counted: source.counted,
    })
}

/// The tree of a source.
fn tree_of(alloc: Global, source: &Source) -> Result<Checked, Memory>
    requires { (file : program.Source) × IsRead source.now file }
    ensures accepted { IfOk result (λ tree. Accepted source.now.bytes (plain_file tree)) }
    ensures only { IfOk result (λ tree. HasOnly source.now.bytes (plain_file tree)) }
{
    let bytes = Vec::from_slice(alloc, source.bytes.as_slice())?;
    match accept(alloc, bytes)? {
        Ok((_, tree)) => Ok(tree),
        Err(_) => unreachable!(),
    }
}
