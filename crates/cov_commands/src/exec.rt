ghost use Rattle.std.specs.Prelude.{◌≡◌, ℕ, List, None, Err, IfOk};
ghost use Rattle.cov_base.specs.Causes.{Rose};
ghost use Rattle.cov_run.specs.Exec.{AreRead, EndsAs, IsFirst};
ghost use Rattle.cov_run.specs.declared.fault.LoadFault.TheVariants.{ReadFault};
ghost use Rattle.cov_words.specs.declared.command.SourceTask.TheVariants.{Exec};
ghost use Rattle.cov_commands.specs.Source.{ComesTo};

use crate::answer::Answer;
use cov_base::Store;
use cov_run::{LoadFault, Ran, load};
use cov_sources::Source;
use items::Memory;
use std::alloc::Global;

/// The answer of `exec`: what the program of the file at a path printed, and how it ended.
pub(crate) fn exec<S: Store>(
    alloc: Global,
    turns: u64,
    path: &str,
    store: &mut S,
) -> Result<Answer, LoadFault>
    ensures comes { ComesTo path.now (S.held store.old) (Exec turns) result }
    ensures failed { (at : List ℕ) → result ≡ Err (ReadFault at) → (before : S) × S.fails before at store.new }
    ensures rose { (at : List ℕ) → result ≡ Err (ReadFault at) → Rose (S.read_faults store.old) (S.read_faults store.new) }
    ensures unchanged { S.held store.new ≡ S.held store.old }
    ensures puts { S.put_faults store.new ≡ S.put_faults store.old }
{
    match load(alloc, store, path, &[]) {
        Ok(sources) => match run_of(alloc, path, sources.as_slice(), turns) {
            Ok(answer) => Ok(answer),
            Err(_) => Err(LoadFault::Memory),
        },
        Err(fault) => Err(fault),
    }
}

/// What the first of these sources, which is at a path, printed, and how it ended.
fn run_of(alloc: Global, path: &str, sources: &[Source], turns: u64) -> Result<Answer, Memory>
    requires first { IsFirst path.now sources.now }
    requires read { AreRead sources.now }
    ensures ends { IfOk result (λ answer. EndsAs sources.now path.now turns answer.end answer.output) }
    ensures none { IfOk result (λ answer. answer.coverage ≡ None) }
{
    let Ran { end, output } = cov_run::exec(alloc, path, sources, turns)?;
    Ok(Answer {
        output,
        end,
        coverage: None,
    })
}
