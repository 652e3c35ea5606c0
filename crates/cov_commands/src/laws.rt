ghost use Rattle.cov_commands.specs.Meant.{RunsAreMeant, DemosAreMeant, ActsAreMeant};

use cov_run::{programs, sessions_mean};
use cov_sim::simulating;

/// What `run` and `demo` do is what the meaning of their sources is, and the texts that `instrument` puts
/// do what their sources do.
pub fn by_meaning()
    ensures runs { RunsAreMeant }
    ensures demos { DemosAreMeant }
    ensures acts { ActsAreMeant }
{
    programs();
    sessions_mean();
    simulating();
}
