// The edge to the host: files in a folder of the test's own, and writers that fail.
use crate::reads::{fails, holds, lacks, length};
use cov_base::{Failed, HostSink, HostStore, LONGEST_READ, Memory, Sink, Store, write_all};
use std::alloc::Global;
use std::test::Fail;
use std::{fs, io};

const FOLDER: &str = "cov_base_host_edge";

// A writer whose first calls are interrupted, and which then takes two bytes, or none.
#[derive(Drop)]
struct Halting {
    interrupted: u32,
    takes: usize,
    seen: Vec<u8>,
}

impl io::Write for Halting {
    fn write(&mut self, buf: &[u8]) -> io::Result<usize> {
        if self.interrupted > 0 {
            self.interrupted -= 1;
            return Err(io::Error::from(io::ErrorKind::Interrupted));
        }
        let count = buf.len().min(self.takes);
        self.seen.extend_from_slice(&buf[..count])?;
        Ok(count)
    }

    fn flush(&mut self) -> io::Result<()> {
        Ok(())
    }
}

fn stubborn(alloc: Global, interrupted: u32, takes: usize) -> Halting {
    Halting {
        interrupted,
        takes,
        seen: Vec::new(alloc),
    }
}

fn long_file(alloc: Global) -> Result<Vec<u8>, Memory> {
    let mut bytes = vec![in alloc; 7; LONGEST_READ]?;
    bytes.extend_from_slice(b"cut off")?;
    Ok(bytes)
}

#[test]
fn files_are_put_and_read(rt: HostRuntime) -> Result<(), Fail> {
    let mut store = HostStore::new(&rt);

    assert!(rt; lacks(&mut store, "cov_base_host_edge/missing"));
    assert_eq!(rt; store.put("cov_base_host_edge/a/b/c.js", b"let c;"), Ok(()));
    assert!(rt; holds(&mut store, "cov_base_host_edge/a/b/c.js", b"let c;"));
    assert_eq!(rt; store.put("cov_base_host_edge/a/b/c.js", b""), Ok(()));
    assert!(rt; holds(&mut store, "cov_base_host_edge/a/b/c.js", b""));

    // a folder on the way is a file; a folder is neither read nor put
    assert!(rt; lacks(&mut store, "cov_base_host_edge/a/b/c.js/d"));
    assert_eq!(rt;
        store.put("cov_base_host_edge/a/b/c.js/d", b""),
        Err(Failed::Device)
    );
    assert!(rt; fails(&mut store, "cov_base_host_edge/a"));
    assert_eq!(rt; store.put("cov_base_host_edge/a", b""), Err(Failed::Device));
    fs::remove_dir_all(&rt, FOLDER)?;
    Ok(())
}

#[test]
fn a_long_file_is_cut(rt: HostRuntime) -> Result<(), Fail> {
    let mut store = HostStore::new(&rt);
    let bytes = long_file(rt.alloc())?;

    assert_eq!(rt; store.put("cov_base_long_file", bytes.as_slice()), Ok(()));
    let count = length(&mut store, "cov_base_long_file");
    fs::remove_file(&rt, "cov_base_long_file")?;
    assert_eq!(rt; count, Some(16_777_217));
    Ok(())
}

#[test]
fn a_writer_is_tried_again(rt: HostRuntime) -> Result<(), Fail> {
    let alloc = rt.alloc();

    let mut sink = HostSink::new(stubborn(alloc, 3, 2));
    assert_eq!(rt; sink.write(b"abc"), Ok(2));
    assert_eq!(rt; write_all(&mut sink, b"defgh"), Ok(()));
    let mut full = HostSink::new(stubborn(alloc, 0, 0));
    assert_eq!(rt; full.write(b""), Ok(0));
    assert_eq!(rt; full.write(b"a"), Err(Failed::Device), "nothing was taken");
    let mut endless = HostSink::new(stubborn(alloc, 1000, 2));
    assert_eq!(rt; endless.write(b"a"), Err(Failed::Device));
    Ok(())
}

#[test]
fn the_standard_streams_are_written(rt: HostRuntime) -> Result<(), Fail> {
    let mut output = HostSink::new(io::writer(&rt));
    assert_eq!(rt; write_all(&mut output, b"to the standard output\n"), Ok(()));
    let mut errors = HostSink::new(rt.stderr());
    assert_eq!(rt; write_all(&mut errors, b"to the standard error\n"), Ok(()));
    Ok(())
}
