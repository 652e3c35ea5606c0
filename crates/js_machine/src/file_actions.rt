// Files are started and required.

ghost use Rattle.std.specs.Prelude.{◌≡◌, ◌+◌, ◌∷◌, ◌++◌, [], List, Some, false, IfOk, OnOk, map, option_map, codes};
ghost use Rattle.std.specs.String.{string_bytes};
ghost use Rattle.js_value.specs.State.{Store};
ghost use Rattle.js_value.specs.Objects.{freeze, next_object};
ghost use Rattle.js_value.specs.Environments.{next_environment};
ghost use Rattle.js_value.specs.Running.{cached as cached_in, leave_cache as left_cache, requiring_path as requiring_in};
ghost use Rattle.js_value.specs.Requiring.{required_path as required_in};
ghost use Rattle.js_value.specs.Realm.{function_made, global_environment as the_global, object, object as object_told};
ghost use Rattle.js_value.specs.declared.built_in.Place.TheVariants.{FunctionPrototype};
ghost use Rattle.js_heap.specs.Environment.{plain_binding};
ghost use Rattle.js_heap.specs.Heap.{heap_of};
ghost use Rattle.js_code.specs.Program.{IsCodeOf, ReadsFile};
ghost use Rattle.js_code.specs.declared.node.Node.{Node};
ghost use Rattle.js_meaning.specs.Meaning as M;
ghost use Rattle.js_meaning.specs.Files as F;
ghost use Rattle.js_meaning.specs.Program.{Source, Sources};
ghost use Rattle.js_meaning.specs.Scopes.{scope_made, variable_of};
ghost use Rattle.js_machine.specs.private.Carries.{Carries};
ghost use Rattle.js_machine.specs.private.Config.{View, view_of, control_comp, step_comp, path_at as path_told};
ghost use Rattle.js_machine.specs.private.State.{store_in, Becomes};
ghost use Rattle.js_machine.specs.private.Weight.{Weights, control_weight};

use crate::data::{Action, Control, Frame, Step, Task};
use crate::function_actions::define_named;
use crate::scopes::{enter_body, make_scope};
use crate::state::{CachedFile, RequiringFile, State};
use crate::steps::undefined;
use items::{Items, Memory, Text};
use js_code::{Code, FileCode};
use js_heap::{Binding, Env, Flags, Heap, ObjectKind};
use js_host::{ascii, global_environment, object_at};
use js_meaning::Completion;
use js_names::SharedName;
use js_value::{Complaint, FUNCTIONS, Object, Place, Primitive, Str, Value};
use path_globs::resolve;
use std::alloc::Global;

/// A file starts: its objects are made, it comes into the cache, and its names are made.
#[inline(never)]
pub fn start_file(
    alloc: Global,
    code: &Code,
    state: &mut State,
    file: usize,
) -> Result<Control, Memory>
    ensures becomes { IfOk result (λ control. (p : Sources) (base : Store) → Carries p code.now →
        Becomes (F.start_file p file) (store_in base state.old) (control_comp (view_of p code.now.nodes) control) (store_in base state.new)) }
    ensures output { OnOk result (state.new.output.items ≡ state.old.output.items) }
{
    match code.file(file) {
        Some(source) => start_source(alloc, state, source, file),
        None => Ok(undefined()),
    }
}

// The same of a file that is there.
fn start_source(
    alloc: Global,
    state: &mut State,
    source: &FileCode,
    file: usize,
) -> Result<Control, Memory>
    ensures becomes { IfOk result (λ control. (p : Sources) (nodes : List Node) (of : Source) (base : Store) → ReadsFile nodes source.now of → of.counted ≡ false →
        Becomes (F.run_source p of file) (store_in base state.old) (control_comp (view_of p nodes) control) (store_in base state.new)) }
    ensures output { OnOk result (state.new.output.items ≡ state.old.output.items) }
{
    state.starts.push(file)?;
    let objects = make_objects(alloc, &mut state.heap)?;
    state.cache.push(CachedFile {
        path: Text::from_str(alloc, source.path.as_str())?,
        object: objects.module,
    })?;
    state.requiring.push(RequiringFile {
        function: objects.require,
        path: Text::from_str(alloc, source.path.as_str())?,
    })?;
    let env = make_file_scope(alloc, &mut state.heap, objects)?;
    let inner = enter_body(alloc, &mut state.heap, &source.scope, env)?;
    Ok(Control::Begin(Task::RunFile {
        statements: source.statements,
        env: inner,
    }))
}

// The objects of a file.
#[derive(Clone, Copy)]
struct FileObjects {
    exports: Object,
    module: Object,
    require: Object,
}

// Makes the objects `exports`, `module`, whose property `exports` is the first, and `require`, which is frozen.
fn make_objects(alloc: Global, heap: &mut Heap) -> Result<FileObjects, Memory>
    ensures made { OnOk result (heap_of heap.new ≡ F.file_objects (heap_of heap.old)) }
    ensures exports { IfOk result (λ objects. objects.exports.index ≡ next_object (heap_of heap.old)) }
    ensures module_object { IfOk result (λ objects. objects.module.index ≡ next_object (heap_of heap.old) + 1) }
    ensures require { IfOk result (λ objects. objects.require.index ≡ next_object (heap_of heap.old) + 2) }
{
    let parent = Some(object_at(Place::ObjectPrototype));
    let exports = heap.object(ObjectKind::Plain, parent)?;
    let module = heap.object(ObjectKind::Plain, parent)?;
    let flags = Flags {
        enumerable: true,
        writable: true,
    };
    define_named(
        alloc,
        heap,
        module,
        b"exports",
        Value::Object(exports),
        flags,
    )?;
    let require = make_require(alloc, heap)?;
    Ok(FileObjects {
        exports,
        module,
        require,
    })
}

// Makes an object `require`.
fn make_require(alloc: Global, heap: &mut Heap) -> Result<Object, Memory>
    ensures made { OnOk result (heap_of heap.new
        ≡ freeze (next_object (heap_of heap.old)) (function_made FunctionPrototype FUNCTIONS (codes "require") 1 (heap_of heap.old))) }
    ensures object { IfOk result (λ object. object.index ≡ next_object (heap_of heap.old)) }
{
    let parent = Some(object_at(Place::FunctionPrototype));
    let function = heap.object(ObjectKind::BuiltIn(FUNCTIONS as u32), parent)?;
    let flags = Flags {
        enumerable: false,
        writable: false,
    };
    let length = Value::Primitive(Primitive::Number(1));
    define_named(alloc, heap, function, b"length", length, flags)?;
    let name = Value::Primitive(Primitive::Text(ascii(alloc, b"require")?));
    define_named(alloc, heap, function, b"name", name, flags)?;
    heap.freeze(function);
    Ok(function)
}

// Makes the environment of a file, with its objects.
fn make_file_scope(alloc: Global, heap: &mut Heap, objects: FileObjects) -> Result<Env, Memory>
    ensures made { OnOk result (heap_of heap.new ≡ scope_made (
        variable_of (object objects.exports.index) (codes "exports") ∷ variable_of (object objects.require.index) (codes "require")
        ∷ variable_of (object objects.module.index) (codes "module") ∷ []) the_global (heap_of heap.old)) }
    ensures environment { IfOk result (λ env. env.index ≡ next_environment (heap_of heap.old)) }
{
    let mut names = Items::new(alloc);
    put_object(alloc, &mut names, "exports", objects.exports)?;
    put_object(alloc, &mut names, "require", objects.require)?;
    put_object(alloc, &mut names, "module", objects.module)?;
    make_scope(heap, names, global_environment())
}

// Puts a name with an object at the end.
fn put_object(
    alloc: Global,
    names: &mut Items<Binding>,
    name: &str,
    object: Object,
) -> Result<(), Memory>
    ensures { OnOk result (map plain_binding names.new ≡ map plain_binding names.old ++ variable_of (object_told object.index) name.now ∷ []) }
{
    names.push(Binding {
        name: SharedName::new(alloc, name)?,
        value: Some(Value::Object(object)),
        constant: false,
    })
}

/// What a file gives that was required: the property `exports` of its `module`.
#[inline(never)]
pub fn exports(alloc: Global, state: &State, path: &str) -> Result<Control, Memory>
    ensures means { IfOk result (λ control. (t : View) (base : Store) → control_comp t control
        ≡ M.give (F.exports_in (heap_of state.now.heap) (cached_in (store_in base state.now) path.now))) }
    ensures less { IfOk result (λ control. (w : Weights) → control_weight w control ≡ 0) }
{
    match cached(state, path) {
        None => Ok(undefined()),
        Some(module) => {
            let key = ascii(alloc, b"exports")?;
            match state.heap.get(module, &key) {
                Some(value) => Ok(Control::Give(Completion::Normal(value.copy()?))),
                None => Ok(undefined()),
            }
        }
    }
}

// The object `module` of a file that was started.
fn cached(state: &State, path: &str) -> Option<Object>
    ensures { (base : Store) → option_map (λ o. o.index) result ≡ cached_in (store_in base state.now) path.now }
{
    for file in state.cache.as_slice() {
        if file.path.as_str() == path {
            return Some(file.object);
        }
    }
    None
}

/// A file leaves the cache.
#[inline(never)]
pub fn leave_cache(state: &mut State, path: &str)
    ensures { (base : Store) → store_in base state.new ≡ left_cache path.now (store_in base state.old) }
{
    state.cache.retain(|file| file.path.as_str() != path);
}

/// The path of a file.
#[inline(never)]
pub fn path_at<'a>(code: &'a Code, file: usize) -> &'a str
    ensures { (p : Sources) → IsCodeOf p code.now → result.now ≡ path_told p file }
{
    match code.file(file) {
        Some(source) => source.path.as_str(),
        None => "",
    }
}

/// `require` of a text by an object `require`.
#[inline(never)]
pub fn require(
    alloc: Global,
    code: &Code,
    state: &mut State,
    callee: Object,
    units: &Str,
) -> Result<Step, Memory>
    ensures { IfOk result (λ step. (p : Sources) (base : Store) → Carries p code.now →
        Becomes (F.require_path p (store_in base state.old) (required_in (store_in base state.old) callee.index units.now)) (store_in base state.old)
        (step_comp (view_of p code.now.nodes) step) (store_in base state.new)) }
{
    match required_path(alloc, state, callee, units)? {
        None => Ok(no_such_file()),
        Some(path) => require_path(alloc, code, state, path.as_str()),
    }
}

// The error that there is no such file.
fn no_such_file() -> Step
    ensures { result ≡ Step.Go (Control.Do (Action.Throw Complaint.NoSuchFile)) }
{
    Step::Go(Control::Do(Action::Throw(Complaint::NoSuchFile)))
}

// The path that a text names from the file that an object `require` was made for.
fn required_path(
    alloc: Global,
    state: &State,
    callee: Object,
    units: &Str,
) -> Result<Option<String>, Memory>
    ensures { IfOk result (λ path. (base : Store) → option_map string_bytes path ≡ required_in (store_in base state.now) callee.index units.now) }
{
    match requiring_path(state, callee) {
        None => Ok(None),
        Some(from) => match String::from_utf16(alloc, units.as_slice())? {
            Ok(specifier) => resolve(alloc, from, specifier.as_str()),
            Err(_) => Ok(None),
        },
    }
}

// The path of the file that an object `require` was made for.
fn requiring_path<'a>(state: &'a State, callee: Object) -> Option<&'a str>
    ensures { (base : Store) → option_map (λ path. path.now) result ≡ requiring_in (store_in base state.now) callee.index }
{
    for requiring in state.requiring.as_slice() {
        if requiring.function == callee {
            return Some(requiring.path.as_str());
        }
    }
    None
}

// `require` of a path: a file that was started is not started again.
fn require_path(alloc: Global, code: &Code, state: &mut State, path: &str) -> Result<Step, Memory>
    ensures { IfOk result (λ step. (p : Sources) (base : Store) → Carries p code.now →
        Becomes (F.require_path p (store_in base state.old) (Some path.now)) (store_in base state.old)
        (step_comp (view_of p code.now.nodes) step) (store_in base state.new)) }
{
    if cached(state, path).is_some() {
        return Ok(Step::Go(exports(alloc, state, path)?));
    }
    match code.file_at(path) {
        None => Ok(no_such_file()),
        Some(file) => {
            let control = start_file(alloc, code, state, file)?;
            Ok(Step::Push(Frame::AfterStart { file }, control))
        }
    }
}
