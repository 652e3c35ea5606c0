ghost use Rattle.std.specs.Prelude.{◌≡◌};
ghost use Rattle.cov_commands.specs.Help as spec;

/// The forms of the words, each after `cov ` on a line of its own. It takes no memory.
pub(crate) fn help_text() -> &'static str
    ensures { result.now ≡ spec.help_text }
{
    "cov maps FILE\ncov exec [--turns N] FILE\ncov instrument --out DIR FILE..\ncov run [--turns N] [--out P] [--exclude GLOBS] ENTRY\ncov merge --out P FILE..\ncov report [--reporter R] FILE..\ncov check [--lines N] [--statements N] [--branches N] [--functions N] FILE..\ncov demo SEED COUNT\ncov v8 --out P FILE..\n"
}
