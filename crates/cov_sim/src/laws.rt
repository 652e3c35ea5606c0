ghost use Rattle.cov_sim.specs.Headline.{Headline};
ghost use Rattle.cov_sim.specs.Laws.{NamesFunctions, SpellsSources, ReadsSources};

use cov_again::again;
use js_reading::language;

/// The data that the preamble of an accepted source holds is spelt as JavaScript, and the text of
/// the source, instrumented, is read again as the instrumented tree.
pub fn reading()
    ensures names { NamesFunctions }
    ensures spelt { SpellsSources }
    ensures again { ReadsSources }
{}

/// The headline: the texts of accepted sources, read again, do what the sources do and count it.
pub fn simulating()
    ensures { Headline }
{
    language();
    again();
}
