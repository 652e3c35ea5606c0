ghost use Rattle.std.specs.Prelude.{◌≡◌, ◌≢◌, ◌<◌, ◌≤◌, ◌↔◌, ◌⊎◌, ◌++◌, ℕ, List, IfOk, IfSome, IsTrue, length, take, vec_len};
ghost use Rattle.std.specs.IoError.{error_kind};
ghost use Rattle.std.specs.Io.KnownBytes.{Consumes, IsAtEnd};

use crate::host_sink::MOST_TRIES;
use crate::{Failed, Memory, Store};
use std::alloc::Global;
use std::io::{ErrorKind, Read};
use std::path::Path;
use std::rt::Files;
use std::{fs, io};

/// How many bytes of a file a read gives at most: 16 MiB, and one more that shows a longer file.
pub const LONGEST_READ: usize = 16 * 1024 * 1024 + 1;

// How many bytes one call asks of the host.
const PIECE: usize = 64 * 1024;

/// A store over the files of the host. A path that isn't absolute is taken from the folder that
/// the process runs in.
#[derive(Drop)]
pub struct HostStore<R> {
    rt: R,
    read_faults: u64,
    put_faults: u64,
}

impl<R: Files + AllocGlobal> HostStore<R> {
    ghost use Rattle.cov_base.specs.HostStore.{read_faults_of, put_faults_of};

    /// A store over the runtime's files. It takes no memory.
    pub fn new(rt: R) -> HostStore<R>
        ensures reads { read_faults_of result ≡ 0 }
        ensures puts { put_faults_of result ≡ 0 }
    {
        HostStore {
            rt,
            read_faults: 0,
            put_faults: 0,
        }
    }
}

impl<R: Files + AllocGlobal> Store for HostStore<R> {
    ghost use Rattle.std.specs.Prelude.{None};
    ghost use Rattle.cov_base.specs.private.Calls.{faults_after};
    ghost use Rattle.cov_base.specs.Causes.{HasCause};
    ghost use Rattle.cov_base.specs.HostStore.{read_faults_of, put_faults_of};

    ghost held = { λ _. None };

    ghost read_faults = { read_faults_of };

    ghost put_faults = { put_faults_of };

    /// The file's bytes, cut after `LONGEST_READ`; `None` where there is no such file; want of
    /// memory; and `Device` for every other fault of the host.
    fn read(&mut self, path: &str) -> Result<Option<Vec<u8>>, Failed>
        ensures cut { IfOk result
            (λ found. IfSome found (λ bytes. length bytes.items ≤ LONGEST_READ)) }
        ensures cause { HasCause (read_faults_of self.old) (read_faults_of self.new) result }
        ensures puts { put_faults_of self.new ≡ put_faults_of self.old }
        ensures faults { read_faults_of self.new ≡ faults_after result (read_faults_of self.old) }
    {
        let found = read_file(&self.rt, path);
        if let Err(Failed::Device) = found {
            self.read_faults = self.read_faults.saturating_add(1);
        }
        found
    }

    /// Makes the folders that are missing and writes the file whole. Every fault is `Device`.
    fn put(&mut self, path: &str, bytes: &[u8]) -> Result<(), Failed>
        ensures cause { HasCause (put_faults_of self.old) (put_faults_of self.new) result }
        ensures reads { read_faults_of self.new ≡ read_faults_of self.old }
        ensures faults { put_faults_of self.new ≡ faults_after result (put_faults_of self.old) }
        ensures never_memory { result ≢ Err Failed.Memory }
    {
        match write_file(&self.rt, path, bytes) {
            Ok(()) => Ok(()),
            Err(_) => {
                self.put_faults = self.put_faults.saturating_add(1);
                Err(Failed::Device)
            }
        }
    }
}

fn read_file<R: Files + AllocGlobal>(rt: &R, path: &str) -> Result<Option<Vec<u8>>, Failed>
    ensures { IfOk result (λ found. IfSome found (λ bytes. length bytes.items ≤ LONGEST_READ)) }
{
    match fs::open(rt, path) {
        Ok(mut file) => Ok(Some(read_start(rt.alloc(), &mut file)?)),
        Err(error) if is_absence(&error) => Ok(None),
        Err(_) => Err(Failed::Device),
    }
}

// Whether nothing is at the path, or a folder on the way to it is a file.
fn is_absence(error: &io::Error) -> bool
    ensures { IsTrue result ↔ ((error_kind error.now ≡ ErrorKind.NotFound)
        ⊎ (error_kind error.now ≡ ErrorKind.NotADirectory)) }
{
    matches!(error.kind(), ErrorKind::NotFound | ErrorKind::NotADirectory)
}

// Room for one piece.
fn room(alloc: Global) -> Result<Vec<u8>, Memory>
    ensures { IfOk result (λ piece. vec_len piece ≡ PIECE) }
{
    vec![in alloc; 0; PIECE]
}

// The first bytes of a file, in pieces, so that only the growth of the result can want memory.
fn read_start<F: Read>(alloc: Global, file: &mut F) -> Result<Vec<u8>, Failed>
    ensures cut { IfOk result (λ bytes. length bytes.items ≤ LONGEST_READ) }
    ensures start { IfOk result
        (λ bytes. IfSome (F.remaining file.old) (λ all. bytes.items ≡ take LONGEST_READ all)) }
{
    let mut piece = room(alloc)?;
    let mut bytes = Vec::new(alloc);
    while bytes.len() < LONGEST_READ {
        let wanted = PIECE.min(LONGEST_READ - bytes.len());
        let count = append_some(file, &mut piece[..wanted], &mut bytes)?;
        if count == 0 {
            return Ok(bytes);
        }
    }
    Ok(bytes)
}

// One more piece of the file, read into the room for it and put at the end of the bytes.
fn append_some<F: Read>(
    file: &mut F,
    piece: &mut [u8],
    bytes: &mut Vec<u8>,
) -> Result<usize, Failed>
    ensures bound { IfOk result (λ count. count ≤ length piece.old) }
    ensures more { IfOk result (λ count. (more : List ℕ) × (length more ≡ count)
        × (bytes.new.items ≡ bytes.old.items ++ more)
        × Consumes (F.remaining file.old) (F.remaining file.new) more) }
    ensures end { IfOk result
        (λ count. count ≡ 0 → 0 < length piece.old → IsAtEnd (F.remaining file.new)) }
{
    let count = read_some(file, piece)?;
    bytes.extend_from_slice(&piece[..count])?;
    Ok(count)
}

// One read, tried again where it was interrupted.
fn read_some<F: Read>(file: &mut F, piece: &mut [u8]) -> Result<usize, Failed>
    ensures bound { IfOk result (λ count. count ≤ length piece.new) }
    ensures bytes { IfOk result
        (λ count. Consumes (F.remaining file.old) (F.remaining file.new) (take count piece.new)) }
    ensures end { IfOk result
        (λ count. count ≡ 0 → 0 < length piece.old → IsAtEnd (F.remaining file.new)) }
{
    for _ in 0..MOST_TRIES {
        match file.read(piece) {
            Ok(count) => return Ok(count),
            Err(error) if error.kind() == ErrorKind::Interrupted => {}
            Err(_) => return Err(Failed::Device),
        }
    }
    Err(Failed::Device)
}

fn write_file<R: Files>(rt: &R, path: &str, bytes: &[u8]) -> io::Result<()> {
    if let Some(folder) = Path::new(path).parent() {
        fs::create_dir_all(rt, folder)?;
    }
    fs::write(rt, path, bytes)
}
