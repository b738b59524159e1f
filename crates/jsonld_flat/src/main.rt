//! `jsonld_flat`: expands or flattens a JSON-LD document from standard input to standard output.
//!
//! All that it does is the call of [`ld_run::run_alone`]; here the real streams, the folder of contexts and the words are handed to it.
#![tactic(auto)]

use ld_io::{DirFolder, StdSink, StdSource};
use ld_run::{OUT_OF_MEMORY, Status, run_alone};
use std::io::ErrorKind;
use std::process::ExitCode;
use std::{env, io};

/// The folder of contexts, in the working folder.
const CONTEXTS: &str = "contexts";

fn main(rt: HostRuntime) -> ExitCode {
    let status = match words(&rt) {
        Ok(words) => run(&rt, words.as_slice()),
        Err(error) => without_words(&rt, &error),
    };
    ExitCode::from(status.number())
}

/// The words after the program's name.
fn words(rt: &HostRuntime) -> io::Result<Vec<String>> {
    let mut args = env::args(rt)?;
    let _name = args.next();
    let mut words = Vec::new(rt.alloc());
    for word in args {
        if words.push(word).is_err() {
            return Err(io::Error::from(ErrorKind::OutOfMemory));
        }
    }
    Ok(words)
}

fn run(rt: &HostRuntime, words: &[String]) -> Status {
    let Ok(path) = String::from_str(rt.alloc(), CONTEXTS) else {
        return without_memory(rt);
    };
    let mut source = StdSource::new(rt.stdin());
    let mut folder = DirFolder::new(rt, path);
    let mut out = StdSink::new(rt.stdout());
    let mut err = StdSink::new(rt.stderr());
    run_alone(
        rt.alloc(),
        words,
        &mut source,
        &mut folder,
        &mut out,
        &mut err,
    )
}

/// Words that aren't UTF-8 give no order; no word at all does neither.
fn without_words(rt: &HostRuntime, error: &io::Error) -> Status {
    if error.kind() != ErrorKind::OutOfMemory {
        return run(rt, &[]);
    }
    without_memory(rt)
}

/// Says that memory was refused before the call.
fn without_memory(rt: &HostRuntime) -> Status {
    match rt.eprint(OUT_OF_MEMORY) {
        Ok(()) => Status::OutOfMemory,
        Err(_) => Status::WriteFault,
    }
}
