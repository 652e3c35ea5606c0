ghost use Rattle.std.specs.Prelude.{◌≡◌, option_map};
ghost use Rattle.cov_commands.specs.Source as spec;
ghost use Rattle.cov_commands.specs.Line.{message_of};

use crate::demo::DEMO_TURNS;
use crate::line::Complaint;
use cov_words::SourceTask;
use js_meaning::End;

/// The steps that a task allows: `maps` runs nothing.
fn turns_of(task: &SourceTask) -> u64
    ensures { result ≡ spec.turns_of task.now }
{
    match task {
        SourceTask::Maps => 0,
        SourceTask::Exec { turns } => *turns,
        SourceTask::Run {
            turns,
            out: _,
            exclude: _,
        } => *turns,
        SourceTask::Demo { seed: _, count: _ } => DEMO_TURNS,
    }
}

/// What is said of a task's end; nothing where it is done.
pub(crate) fn said_of<'a>(task: &SourceTask, end: &'a End) -> Option<Complaint<'a>>
    ensures { option_map message_of result ≡ spec.said_of task.now end.now }
{
    match end {
        End::Done => None,
        End::Threw(shown) => Some(Complaint::Uncaught {
            shown: shown.as_slice(),
        }),
        End::Range(kind) => Some(Complaint::Range { kind: *kind }),
        End::Going => Some(Complaint::Going {
            turns: turns_of(task),
        }),
    }
}
