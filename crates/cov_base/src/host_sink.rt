ghost use Rattle.std.specs.Prelude.{◌≡◌, ◌≢◌};
ghost use Rattle.std.specs.Io.KnownBytes.{WriteAppends};
ghost use Rattle.cov_base.specs.Sink.{TakesSome};

use crate::{Failed, Sink};
use std::io;
use std::io::ErrorKind;

/// A sink over a writer of the host, as the process's standard output. It keeps no bytes back:
/// each write passes them straight on.
#[derive(Drop)]
pub struct HostSink<W> {
    writer: W,
    faults: u64,
}

/// How often one call of the host is made at most, where signals interrupt it.
pub(crate) const MOST_TRIES: u32 = 64;

impl<W: io::Write> HostSink<W> {
    ghost use Rattle.cov_base.specs.HostSink.{faults_of, writer_of};

    /// A sink over the writer. It takes no memory.
    pub fn new(writer: W) -> HostSink<W>
        ensures writer { writer_of result ≡ writer }
        ensures faults { faults_of result ≡ 0 }
    {
        HostSink { writer, faults: 0 }
    }
}

impl<W: io::Write> Sink for HostSink<W> {
    ghost use Rattle.std.specs.Prelude.{None};
    ghost use Rattle.cov_base.specs.private.Calls.{faults_after};
    ghost use Rattle.cov_base.specs.Causes.{HasCause};
    ghost use Rattle.cov_base.specs.HostSink.{faults_of, writer_of};

    ghost taken = { λ _. None };

    ghost faults = { faults_of };

    ghost wants = { λ _ _ _. ⊥ };

    /// Passes the bytes on to the writer. It is `Device` where the writer fails, takes none of a
    /// piece that has bytes, or was interrupted too often.
    fn write(&mut self, bytes: &[u8]) -> Result<usize, Failed>
        ensures bound { TakesSome result bytes.now }
        ensures cause { HasCause (faults_of self.old) (faults_of self.new) result }
        ensures faults { faults_of self.new ≡ faults_after result (faults_of self.old) }
        ensures passed { WriteAppends
            (W.contents (writer_of self.old)) (W.contents (writer_of self.new)) result bytes.now }
        ensures never_memory { result ≢ Err Failed.Memory }
    {
        let written = write_some(&mut self.writer, bytes);
        if let Err(Failed::Device) = written {
            self.faults = self.faults.saturating_add(1);
        }
        written
    }
}

// One write, tried again where it was interrupted.
fn write_some<W: io::Write>(writer: &mut W, bytes: &[u8]) -> Result<usize, Failed>
    ensures bound { TakesSome result bytes.now }
    ensures passed { WriteAppends (W.contents writer.old) (W.contents writer.new) result bytes.now }
    ensures never_memory { result ≢ Err Failed.Memory }
{
    for _ in 0..MOST_TRIES {
        match writer.write(bytes) {
            Ok(0) if !bytes.is_empty() => return Err(Failed::Device),
            Ok(count) => return Ok(count),
            Err(error) if error.kind() == ErrorKind::Interrupted => {}
            Err(_) => return Err(Failed::Device),
        }
    }
    Err(Failed::Device)
}
