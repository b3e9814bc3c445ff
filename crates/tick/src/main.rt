//! Runs `tick` on the real files and streams, and ends with the status of its outcome.
#![tactic(auto)]

use host_edge::{FileStore, StdSink, StdSource};
use std::alloc::AllocError;
use std::process::ExitCode;
use std::{env, io};
use tick_top::{status, tick};

const NO_MEMORY: u8 = 76;

const BAD_WORDS: u8 = 64;

fn words_of(rt: &HostRuntime) -> io::Result<Vec<String>> {
    Ok(env::args(rt)?.collect(rt.alloc())?)
}

fn run(rt: &HostRuntime, words: &[String]) -> Result<u8, AllocError> {
    let mut store = FileStore::new(rt, rt.alloc());
    let mut input = StdSource::new(rt.stdin());
    let mut out = StdSink::new(rt.stdout());
    let mut err = StdSink::new(rt.stderr());
    let ended = tick(
        rt.alloc(),
        words,
        &mut store,
        &mut input,
        &mut out,
        &mut err,
    )?;
    Ok(status(&ended.outcome))
}

fn main(rt: HostRuntime) -> ExitCode {
    let code = match words_of(&rt) {
        Ok(words) => match run(&rt, &words) {
            Ok(code) => code,
            Err(AllocError) => {
                let _ = eprintln!(&rt; "tick: no memory");
                NO_MEMORY
            }
        },
        Err(e) if e.kind() == io::ErrorKind::OutOfMemory => {
            let _ = eprintln!(&rt; "tick: no memory");
            NO_MEMORY
        }
        Err(_) => BAD_WORDS,
    };
    ExitCode::from(code)
}
