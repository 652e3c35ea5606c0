ghost use Rattle.std.specs.Prelude.{◌≡◌};
ghost use Rattle.cov_commands.specs.Source as spec;
ghost use Rattle.cov_commands.specs.Line.{message_of};

use crate::line::Complaint;
use cov_run::LoadFault;
use cov_sources::Why;
use js_parser::Refusal;
use js_text::TextFault;
use js_tree::Pos;

/// The complaint that the file at a path isn't loaded.
pub(crate) fn complaint_of_fault<'a>(path: &'a str, fault: &'a LoadFault) -> Complaint<'a>
    ensures { message_of result ≡ spec.message_of_fault path.now fault.now }
{
    match fault {
        LoadFault::NoFile => Complaint::NoFile { path },
        LoadFault::Refused { path, why } => complaint_of_cause(path.as_str(), why),
        LoadFault::BadMap { path, fault } => Complaint::BadMap {
            path: path.as_str(),
            fault,
        },
        LoadFault::TooLong { path } => Complaint::TooLong {
            path: path.as_str(),
        },
        LoadFault::TooManyFiles => Complaint::TooManyFiles,
        LoadFault::ReadFault { path } => Complaint::ReadFailed {
            path: path.as_str(),
        },
        LoadFault::Memory => Complaint::OutOfMemory,
    }
}

/// The complaint that the file at a path is no source.
fn complaint_of_cause<'a>(path: &'a str, why: &Why) -> Complaint<'a>
    ensures { message_of result ≡ spec.message_of_cause path.now why.now }
{
    match why {
        Why::NoText(TextFault::TooLong { len: _ }) => Complaint::TooLong { path },
        Why::NoText(TextFault::NotUtf8 { at }) => Complaint::NotUtf8 {
            path,
            at: *at as usize,
        },
        Why::NoText(TextFault::Memory) => Complaint::OutOfMemory,
        Why::Unread { refused, place } => complaint_of_refusal(path, *place, refused.why),
        Why::Broken(fault) => Complaint::Broken {
            path,
            fault: *fault,
        },
    }
}

/// The complaint that the text of the file at a path is refused at a place.
fn complaint_of_refusal(path: &str, place: Pos, why: Refusal) -> Complaint<'_>
    ensures { message_of result ≡ spec.message_of_unread path.now place why }
{
    match why {
        Refusal::Syntax => Complaint::Syntax { path, place },
        Refusal::Unsupported(form) => Complaint::Unsupported { path, place, form },
        Refusal::TooDeep => Complaint::TooDeep { path, place },
        Refusal::Memory => Complaint::OutOfMemory,
    }
}
