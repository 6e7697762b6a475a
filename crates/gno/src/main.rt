//! The program `gno`.
#![tactic(auto)]

mod streams;

use gno_base::List;
use gno_cmd::gno;
use gno_port::{FailAt, KeptTable, MemoryKeeper};
use std::alloc::Global;
use std::env;
use std::io::{self, ErrorKind};
use std::process::ExitCode;
use streams::{StdSink, StdSource};

/// The exit status where a word of the command line is no text.
const BAD_WORD: u8 = 2;

/// The exit status where the words of the command line found no memory.
const NO_MEMORY: u8 = 7;

fn main(rt: HostRuntime) -> ExitCode {
    match words_of(&rt) {
        Ok(words) => ExitCode::from(run(&rt, &words)),
        Err(error) if error.kind() == ErrorKind::InvalidData => {
            let _ = eprintln!(rt; "gno: a word is not UTF-8");
            ExitCode::from(BAD_WORD)
        }
        Err(_) => {
            let _ = eprintln!(rt; "gno: out of memory");
            ExitCode::from(NO_MEMORY)
        }
    }
}

// The words behind the program's name.
fn words_of(rt: &HostRuntime) -> io::Result<Vec<String>> {
    let mut words = Vec::new(rt.alloc());
    for word in env::args(rt)?.skip(1) {
        words.push(word)?;
    }
    Ok(words)
}

// Runs the command on the process's streams, and gives its exit status.
fn run(rt: &HostRuntime, words: &[String]) -> u8 {
    let alloc: Global = rt.alloc();
    let mut input = StdSource::new(rt.stdin());
    let mut out = StdSink::new(rt.stdout());
    let mut err = StdSink::new(rt.stderr());
    let keeper = MemoryKeeper::new(List::<KeptTable>::new(alloc), List::<FailAt>::new(alloc));
    let (status, _keeper) = gno(alloc, words, &mut input, &mut out, &mut err, keeper);
    status.number()
}
