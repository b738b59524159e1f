//! Makes single calls of the libraries over standard input, so that `bench/calls.py` can measure them.
//!
//! `call_bench canonical` writes the canonical JSON of the document that it reads. `call_bench resolve` resolves each
//! line that it reads against `http://a/b/c/d;p?q`. `call_bench read` reads a document and writes how many values it has.
//! `call_bench load FOLDER` loads a folder of contexts, and writes how
//! many of the IRIs that it reads, one on each line, have a context there. `call_bench process` processes the context that
//! it reads, and writes how many terms that gives; `call_bench copy` then copies the outcome 100,000 times, too.
//! `call_bench lines` reads N-Quads and writes how many quads they are; `call_bench quads` writes them again. It ends
//! with status 1 where it can't.
#![tactic(auto)]

use ctx_process::{Flags, process};
use ctx_store::{Loaded, Store, load};
use ctx_types::ActiveContext;
use iri_ref::resolve;
use json_canon::canonical;
use ld_io::{DirFolder, Sink, StdSink, StdSource, read_to_end, write_and_finish};
use ld_json::{Text, read_tree, weight};
use nquads_text::{read_lines, write_quads};
use std::alloc::{AllocError, Global};
use std::process::ExitCode;
use std::{env, str};

/// The base of section 5.4 of RFC 3986.
const BASE: &str = "http://a/b/c/d;p?q";

/// How many copies `copy` makes.
const COPIES: u32 = 100_000;

fn main(rt: HostRuntime) -> ExitCode {
    match run(&rt) {
        Some(()) => ExitCode::SUCCESS,
        None => ExitCode::FAILURE,
    }
}

/// Reads the word and the input, makes the calls, and writes what they gave.
fn run(rt: &HostRuntime) -> Option<()> {
    let word = env::args(rt).ok()?.nth(1)?;
    let input = read_to_end(rt.alloc(), &mut StdSource::new(rt.stdin())).ok()?;
    let output = match word.as_str() {
        "canonical" => canonical_text(rt.alloc(), input.as_slice())?,
        "resolve" => resolved_lines(rt.alloc(), input.as_slice())?,
        "read" => number_line(rt.alloc(), values_of(rt.alloc(), input.as_slice())?)?,
        "load" => number_line(rt.alloc(), loaded_lines(rt, input.as_slice())?)?,
        "process" => number_line(
            rt.alloc(),
            processed(rt.alloc(), input.as_slice())?.terms.len() as u64,
        )?,
        "lines" => number_line(rt.alloc(), quads_of(rt.alloc(), input.as_slice())?)?,
        "quads" => return write_again(rt, input.as_slice()),
        "copy" => number_line(rt.alloc(), copied(rt.alloc(), input.as_slice())?)?,
        _ => return None,
    };
    write_and_finish(&mut StdSink::new(rt.stdout()), output.as_slice()).ok()
}

fn canonical_text(alloc: Global, input: &[u8]) -> Option<Vec<u8>> {
    let tree = read_tree(alloc, input).ok()?;
    canonical(alloc, &tree).ok()
}

fn resolved_lines(alloc: Global, input: &[u8]) -> Option<Vec<u8>> {
    let text = str::from_utf8(input).ok()?;
    let mut output = Vec::new(alloc);
    for line in text.lines() {
        append_resolved(alloc, &mut output, line).ok()?;
    }
    Some(output)
}

fn append_resolved(alloc: Global, output: &mut Vec<u8>, line: &str) -> Result<(), AllocError> {
    let target = resolve(alloc, BASE, line)?;
    output.extend_from_slice(target.as_str().as_bytes())?;
    output.push(b'\n')?;
    Ok(())
}

/// How many values the document has.
fn values_of(alloc: Global, input: &[u8]) -> Option<u64> {
    let tree = read_tree(alloc, input).ok()?;
    Some(weight(&tree))
}

fn number_line(alloc: Global, number: u64) -> Option<Vec<u8>> {
    let line = format!(in alloc; "{number}\n").ok()?;
    Some(line.into_bytes())
}

/// How many of the IRIs have a context in the folder that the second word names.
fn loaded_lines(rt: &HostRuntime, input: &[u8]) -> Option<u64> {
    let path = env::args(rt).ok()?.nth(2)?;
    let store = load(rt.alloc(), &mut DirFolder::new(rt, path)).ok()?;
    let mut count = 0u64;
    for iri in str::from_utf8(input).ok()?.lines() {
        if let Some(Loaded::Readable(_)) = store.get(iri) {
            count = count.saturating_add(1);
        }
    }
    Some(count)
}

/// What a context makes of the initial one.
fn processed(alloc: Global, input: &[u8]) -> Option<ActiveContext> {
    let local = read_tree(alloc, input).ok()?;
    let base = Text::new(alloc, BASE).ok()?;
    let active = ActiveContext::initial(alloc, Some(&base)).ok()?;
    let flags = Flags {
        override_protected: false,
        propagate: true,
        validate_scoped: true,
    };
    process(
        alloc,
        &active,
        &local,
        Some(&base),
        &Store::none(alloc),
        flags,
    )
    .ok()
}

/// How many terms the copies have together.
fn copied(alloc: Global, input: &[u8]) -> Option<u64> {
    let context = processed(alloc, input)?;
    let mut count = 0u64;
    for _ in 0..COPIES {
        let copy = context.copy(alloc).ok()?;
        count = count.saturating_add(copy.terms.len() as u64);
    }
    Some(count)
}

/// How many quads the lines have.
fn quads_of(alloc: Global, input: &[u8]) -> Option<u64> {
    let quads = read_lines(alloc, input, 1).ok()?;
    Some(quads.len() as u64)
}

/// Reads the quads, and writes them to standard output.
fn write_again(rt: &HostRuntime, input: &[u8]) -> Option<()> {
    let quads = read_lines(rt.alloc(), input, 1).ok()?;
    let mut sink = StdSink::new(rt.stdout());
    write_quads(quads.as_slice(), &mut sink).ok()?;
    sink.finish().ok()
}
