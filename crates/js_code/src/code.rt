ghost use Rattle.std.specs.Prelude.{◌≡◌, ◌<◌, ◌^◌, ◌-◌, Some, None, length, position, slice_get, MatchOption, IfOk};
ghost use Rattle.std.specs.Str.{bytes_eq};
ghost use Rattle.js_meaning.specs.Program.{linked, source_of, sources_of, uncounted, uncounted_source};
ghost use Rattle.js_meaning.specs.Files.{file_names as the_file_names};
ghost use Rattle.js_code.specs.Node.{PartsBelow, ScopeHolds, build};
ghost use Rattle.js_code.specs.Code.{node_at, reader};
ghost use Rattle.js_code.specs.Program.{IsCodeOf};
ghost use Rattle.js_code.specs.private.Compiled.{CompiledFile, CompiledFiles, sources_from};

use crate::compile::stmts;
use crate::compiling::{Compiling, begin, copied};
use crate::hoisting::hoisted;
use crate::names::body_scope;
use crate::node::Node;
use crate::scopes::BodyScope;
use items::{Items, Memory, Text};
use js_meaning::{Program, ProgramFile};
use js_names::SharedName;
use std::alloc::Global;
use std::marker::Model;

/// The code of a file.
#[derive(Drop)]
pub struct FileCode {
    /// Its path.
    pub path: Text,
    /// What it begins with, beside the names of its objects.
    pub scope: BodyScope,
    /// The place of the list of its statements.
    pub statements: usize,
}

/// The code of a program: its nodes, each of which stands after its parts; its functions by their numbers; its files; and the
/// prelude.
pub struct Code {
    code: Compiling,
    files: Items<FileCode>,
    prelude: usize,
}

impl Model for Code {
    ghost use Rattle.js_code.specs.Program.{ProgramCode};

    ghost Value = { ProgramCode };

    ghost view = { λ made. record { nodes = made.code.nodes; functions = made.code.functions; files = made.files; prelude = made.prelude } };
}

impl Drop for Code {
    // Written out, so that what owns code needn't prove it again.
    fn drop(self) {
        let Code {
            code,
            files,
            prelude: _,
        } = self;
        drop(code);
        drop(files);
    }
}

impl Code {
    /// The code of a program, as it runs where no file is counted. Only want of memory is an error.
    pub fn compile(alloc: Global, program: &Program) -> Result<Code, Memory>
        ensures { IfOk result (λ code. IsCodeOf (linked (uncounted (sources_of program.now))) code) }
    {
        let mut code = begin(alloc);
        let list = stmts(alloc, program.prelude.file().body.as_slice(), &mut code);
        let prelude = code.finish(list)?;
        let files = compile_files(alloc, program.files.as_slice(), &mut code)?;
        Ok(Code {
            code,
            files,
            prelude,
        })
    }

    /// The node at a place: past the end it is a missing part.
    pub fn node(&self, place: usize) -> &Node
        ensures is { result.now ≡ node_at self.now.nodes place }
        ensures read { reader self.now.nodes place ≡ build (reader self.now.nodes) result.now }
        ensures below { PartsBelow place result.now }
        ensures scope { ScopeHolds (reader self.now.nodes) result.now }
        ensures few { length self.now.nodes < 2 ^ 64 - 1 }
    {
        self.code.node(place)
    }

    /// The place of the code of the function with a number.
    pub fn function(&self, number: u64) -> Option<usize>
        ensures { result ≡ slice_get self.now.functions number }
    {
        self.code.function(number)
    }

    /// The file with a number.
    pub fn file(&self, number: usize) -> Option<&FileCode>
        ensures { MatchOption result (slice_get self.now.files number ≡ None) (λ file. slice_get self.now.files number ≡ Some file.now) }
    {
        self.files.as_slice().get(number)
    }

    /// The number of the file with a path.
    pub fn file_at(&self, path: &str) -> Option<usize>
        ensures { result ≡ position (λ file. bytes_eq file.path path.now) self.now.files }
    {
        self.files
            .as_slice()
            .iter()
            .position(|file| file.path.as_str() == path)
    }

    /// The place of the list of the prelude's statements.
    pub fn prelude(&self) -> usize
        ensures { result ≡ self.now.prelude }
    {
        self.prelude
    }
}

/// The code of the files of a program, one after another.
fn compile_files(
    alloc: Global,
    files: &[ProgramFile],
    code: &mut Compiling,
) -> Result<Items<FileCode>, Memory>
    ensures { IfOk result (λ made. CompiledFiles code.old code.new made (sources_from files.now 0 (length code.old.functions))) }
{
    let mut made = Items::new(alloc);
    for index in 0..files.len() {
        let file = compile_file(alloc, &files[index], code)?;
        made.push(file)?;
    }
    Ok(made)
}

/// The code of a file.
fn compile_file(alloc: Global, file: &ProgramFile, code: &mut Compiling) -> Result<FileCode, Memory>
    ensures { IfOk result (λ made. CompiledFile code.old code.new made (uncounted_source (source_of file.now))) }
{
    let body = file.tree.file().body.as_slice();
    let list = stmts(alloc, body, code);
    let statements = code.finish(list)?;
    let functions = hoisted(alloc, code, statements)?;
    let names = file_names(alloc)?;
    let scope = body_scope(alloc, false, names, body, functions)?;
    let path = copied(alloc, &file.path)?;
    Ok(FileCode {
        path,
        scope,
        statements,
    })
}

/// The names of a file's objects.
fn file_names(alloc: Global) -> Result<Items<SharedName>, Memory>
    ensures { IfOk result (λ names. names ≡ the_file_names) }
{
    let mut names = Items::new(alloc);
    names.push(SharedName::new(alloc, "exports")?)?;
    names.push(SharedName::new(alloc, "require")?)?;
    names.push(SharedName::new(alloc, "module")?)?;
    Ok(names)
}
