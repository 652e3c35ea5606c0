// The loop that writes whole texts.
use cov_base::{Failed, Sink, SureSink, write_all};
use std::test::Fail;

// A sink that takes so many bytes at most at a time, and at least one, into a sure one.
#[derive(Drop)]
pub(crate) struct Narrow {
    sink: SureSink,
    most: usize,
    writes: usize,
}

impl Narrow {
    pub(crate) fn new(sink: SureSink, most: usize) -> Narrow {
        Narrow {
            sink,
            most: most.max(1),
            writes: 0,
        }
    }

    pub(crate) fn taken(&self) -> &[u8] {
        self.sink.taken()
    }
}

impl Sink for Narrow {
    ghost use Rattle.std.specs.Prelude.{Some};
    ghost use Rattle.cov_base.specs.SureSink.{taken_of};

    ghost taken = { λ narrow. Some (taken_of narrow.sink) };

    ghost faults = { λ _. 0 };

    fn write(&mut self, bytes: &[u8]) -> Result<usize, Failed> {
        self.writes = self.writes.saturating_add(1);
        let most = self.most.max(1);
        if bytes.len() > most {
            self.sink.write(&bytes[..most])
        } else {
            self.sink.write(bytes)
        }
    }
}

#[test]
fn short_writes_are_gone_on_with(rt: HostRuntime) -> Result<(), Fail> {
    let mut narrow = Narrow::new(SureSink::new(rt.alloc())?, 1);

    assert_eq!(rt; write_all(&mut narrow, b"seven b"), Ok(()));
    assert_eq!(rt; narrow.taken(), b"seven b".as_slice());
    assert_eq!(rt; narrow.writes, 7, "one turn for each byte");
    assert_eq!(rt; write_all(&mut narrow, b""), Ok(()));
    assert_eq!(rt; narrow.writes, 7, "none for nothing");
    Ok(())
}
