//! The tables of rows: files of commands, each with the answer that is wanted beneath it. Prints of each file
//! that is named that it is as written, or all of it with the answers that were found. A line that isn't understood
//! is told with its number, and ends the program with an error.
#![tactic(auto)]

mod call;
mod names;
mod parts;
mod pattern;
mod place;
mod printed;
mod script;
mod shape;
mod spelled;
mod tokens;
mod wanting;

use script::answered;
use std::{env, fs, io};

fn main(rt: HostRuntime) -> io::Result<()> {
    let words = env::args(&rt).map_err(|_| io::Error::from(io::ErrorKind::InvalidInput))?;
    for path in words.skip(1) {
        let written = fs::read_to_string(&rt, path.as_str())?;
        match answered(rt.alloc(), written.as_str())? {
            Ok(found) if found.as_str() == written.as_str() => {
                println!(rt; "{path}: as written")?;
            }
            Ok(found) => println!(rt; "{path}: not as written, but\n{found}")?,
            Err(line) => {
                println!(rt; "{path}:{line}: not understood")?;
                return Err(io::Error::from(io::ErrorKind::InvalidInput));
            }
        }
    }
    Ok(())
}
