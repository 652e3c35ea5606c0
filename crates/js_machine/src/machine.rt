// The machine as its callers see it.

ghost use Rattle.std.specs.Prelude.{◌≡◌, ◌+◌, ◌<◌, ◌^◌, List, true, None, IfOk, IsErr, OnErr};
ghost use Rattle.cov_object.specs.declared.file.FileCoverage.{FileCoverage};
ghost use Rattle.js_meaning.specs.Program.{sources_of, file_at};
ghost use Rattle.js_machine.specs.private.Opening.{Opens};
ghost use Rattle.js_coverage.specs.Coverage.{IsCoverage};
ghost use Rattle.js_machine.specs.Whole.{Begins, Goes, output_of, heap_in};

use crate::data::{Control, Frame};
use crate::file_actions::start_file;
use crate::names::Words;
use crate::opening::opening;
use crate::run::run_on;
use crate::settle::{end_of, rest_control};
use crate::state::State;
use cov_object::CoverageMap;
use items::{Items, Memory};
use js_code::Code;
use js_coverage::{DataFault, coverage_of};
use js_meaning::{Completion, End, Program};
use std::alloc::{AllocError, Global};
use std::marker::Model;
use std::mem;

/// Why there is no machine.
#[derive(Clone, Copy, Debug, PartialEq, Eq)]
pub enum MachineFault {
    /// No file of the program has the path.
    NoEntry,
    /// There was not enough memory.
    Memory,
}

impl From<Memory> for MachineFault {
    ghost use Rattle.std.specs.Prelude.{◌≡◌};
    ghost use Rattle.js_machine.specs.declared.machine.MachineFault.TheVariants as fault;

    ghost from_gives = { λ _ given. given ≡ fault.Memory };

    fn from(_error: Memory) -> MachineFault {
        MachineFault::Memory
    }
}

/// Runs a file of a program, a number of steps at a time, as the program's written meaning says
/// where no file is counted.
pub struct Machine {
    alloc: Global,
    code: Code,
    words: Words,
    state: State,
    frames: Vec<Frame>,
    control: Control,
    given: u64,
    lost: bool,
}

impl Model for Machine {
    ghost use Rattle.js_machine.specs.Whole.{Whole};
    ghost use Rattle.js_machine.specs.private.Moves.{here};

    ghost Value = { Whole };

    ghost view = { λ m. record { code = m.code; here = here m.frames.items m.control m.state; given = m.given; lost = m.lost } };
}

impl Drop for Machine {
    // Written out, so that what owns a machine needn't prove it again.
    fn drop(self) {
        let Machine {
            alloc: _,
            code,
            words,
            state,
            frames,
            control,
            given: _,
            lost: _,
        } = self;
        drop(code);
        drop(words);
        drop(state);
        drop(frames);
        drop(control);
    }
}

impl Machine {
    /// A machine that stands at the beginning of the file of the program at the path `entry`, or the
    /// fault that there is none.
    pub fn new(alloc: Global, program: &Program, entry: &str) -> Result<Machine, MachineFault>
        ensures begins { IfOk result (λ made. Begins (sources_of program.now) entry.now made) }
        ensures no_entry { result ≡ Err MachineFault.NoEntry → file_at (sources_of program.now) entry.now ≡ None }
    {
        let code = Code::compile(alloc, program)?;
        match code.file_at(entry) {
            Some(file) => Ok(Machine::open(alloc, code, file)?),
            None => {
                drop(code);
                Err(MachineFault::NoEntry)
            }
        }
    }

    // A machine that has this file of its code before it, and nothing behind it.
    fn open(alloc: Global, code: Code, file: usize) -> Result<Machine, Memory>
        ensures { IfOk result (λ made. Opens code file made) }
    {
        let words = Words::new(alloc)?;
        let heap = opening(alloc, &code, &words)?;
        let mut state = State {
            heap,
            output: Vec::new(alloc),
            cache: Vec::new(alloc),
            requiring: Vec::new(alloc),
            starts: Vec::new(alloc),
        };
        let control = start_file(alloc, &code, &mut state, file)?;
        Ok(Machine {
            alloc,
            code,
            words,
            state,
            frames: Vec::new(alloc),
            control,
            given: 0,
            lost: false,
        })
    }

    /// Goes on with so many steps more: how the run ends with all the steps that were given. It is
    /// `Going` exactly where a step is asked for and none is left; a run that ended otherwise has
    /// the same end again. After want of memory there is no end any more.
    pub fn run(&mut self, steps: u64) -> Result<End, Memory>
        requires { self.old.given + steps < 2 ^ 64 }
        ensures goes { IfOk result (λ end. Goes self.old end self.new) }
        ensures given { self.new.given ≡ self.old.given + steps }
        ensures lost { OnErr result (self.new.lost ≡ true) }
        ensures after { self.old.lost ≡ true → IsErr result }
    {
        self.given += steps;
        if self.lost {
            return Err(AllocError);
        }
        self.lost = true;
        let control = take(&mut self.control);
        let rest = run_on(
            self.alloc,
            &self.code,
            &self.words,
            &mut self.state,
            &mut self.frames,
            control,
            steps,
        )?;
        let end = end_of(self.alloc, &self.state, &rest);
        put(&mut self.control, rest_control(rest));
        let end = end?;
        self.lost = false;
        Ok(end)
    }

    /// How many steps all runs were given.
    pub fn given(&self) -> u64
        ensures { result ≡ self.now.given }
    {
        self.given
    }

    /// What was printed, lent.
    pub fn output(&self) -> &[u8]
        ensures { result.now ≡ output_of self.now }
    {
        self.state.output.as_slice()
    }

    /// The coverage that the program left, or the fault that what it left is none. After want of
    /// memory in a run it is not looked for.
    pub fn coverage(&self) -> Result<CoverageMap, DataFault>
        ensures coverage { IfOk result (λ map. IsCoverage (heap_in self.now) map) }
        ensures none { result ≡ Err DataFault.NotCoverage → (files : List FileCoverage) → IsCoverage (heap_in self.now) files → ⊥ }
        ensures lost { self.now.lost ≡ true → result ≡ Err DataFault.Memory }
    {
        if self.lost {
            return Err(DataFault::Memory);
        }
        coverage_of(self.alloc, &self.state.heap)
    }

    /// What was printed, handed on. It takes no memory.
    pub fn into_output(self) -> Items<u8>
        ensures { result ≡ output_of self }
    {
        let Machine {
            alloc: _,
            code,
            words,
            state,
            frames,
            control,
            given: _,
            lost: _,
        } = self;
        drop(code);
        drop(words);
        drop(frames);
        drop(control);
        let State {
            heap,
            output,
            cache,
            requiring,
            starts,
        } = state;
        drop(heap);
        drop(cache);
        drop(requiring);
        drop(starts);
        Items::from_vec(output)
    }
}

// Puts what is next in its place.
fn put(control: &mut Control, next: Control)
    ensures { control.new ≡ next }
{
    drop(mem::replace(control, next));
}

// What is next, out of its place.
fn take(control: &mut Control) -> Control
    ensures { result ≡ control.old }
{
    mem::replace(control, Control::Give(Completion::Break(None)))
}
