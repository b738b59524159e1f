//! Runs the program's call on cases, which it reads from standard input, a line each: the words, a tab, and the document.
//!
//! The words stand a space apart. The document is the source, and the folder of contexts is `contexts`. A line that begins with `#` says what the
//! cases behind it show, and is written as it is. An empty line is passed over. For a case it writes the words and the document, and in a line
//! below, behind an arrow, the number of the exit status, and what went to the output, or else what went to the error output. Where the status
//! isn't said in the words of the error output, its own words stand in one more line.
#![tactic(auto)]

use ld_io::{DirFolder, ListSink, ListSource};
use ld_run::{Status, run_alone};
use std::io;
use std::io::ErrorKind;

/// The folder of contexts, in the working folder.
const CONTEXTS: &str = "contexts";

/// How many bytes an output has room for.
const ROOM: u64 = 65_536;

fn main(rt: HostRuntime) -> io::Result<()> {
    for line in rt.lines(rt.alloc()) {
        answer_line(&rt, line?.as_str())?;
    }
    Ok(())
}

/// Writes what a line of the input gives.
fn answer_line(rt: &HostRuntime, line: &str) -> io::Result<()> {
    if line.is_empty() {
        return Ok(());
    }
    if line.starts_with('#') {
        return println!(rt; "{line}");
    }
    match line.split_once('\t') {
        Some((words, document)) => answer_case(rt, words, document),
        None => println!(rt; "{line} is no case"),
    }
}

/// Writes a case, and what it gives.
fn answer_case(rt: &HostRuntime, words: &str, document: &str) -> io::Result<()> {
    println!(rt; "{words} {document}")?;
    let mut out = ListSink::new(rt.alloc(), u32::MAX, Vec::new(rt.alloc()), ROOM)?;
    let mut err = ListSink::new(rt.alloc(), u32::MAX, Vec::new(rt.alloc()), ROOM)?;
    let status = run(rt, words, document, &mut out, &mut err)?;
    let number = status.number();
    print!(rt; "-> {number} ")?;
    write_text(rt, out.bytes())?;
    write_text(rt, err.bytes())?;
    write_said(rt, &status, err.bytes())
}

/// Makes the program's call.
fn run(
    rt: &HostRuntime,
    words: &str,
    document: &str,
    out: &mut ListSink,
    err: &mut ListSink,
) -> io::Result<Status> {
    let words = words_of(rt, words)?;
    let bytes = String::from_str(rt.alloc(), document)?.into_bytes();
    let mut source = ListSource::new(bytes, u32::MAX, Vec::new(rt.alloc()));
    let mut folder = DirFolder::new(rt, String::from_str(rt.alloc(), CONTEXTS)?);
    let status = run_alone(
        rt.alloc(),
        words.as_slice(),
        &mut source,
        &mut folder,
        out,
        err,
    );
    Ok(status)
}

/// The words of a case.
fn words_of(rt: &HostRuntime, text: &str) -> io::Result<Vec<String>> {
    let mut words = Vec::new(rt.alloc());
    for word in text.split(' ') {
        words.push(String::from_str(rt.alloc(), word)?)?;
    }
    Ok(words)
}

/// Writes what an output holds; nothing where it holds nothing.
fn write_text(rt: &HostRuntime, bytes: &[u8]) -> io::Result<()> {
    match str::from_utf8(bytes) {
        Ok(text) => print!(rt; "{text}"),
        Err(_) => Err(io::Error::from(ErrorKind::InvalidData)),
    }
}

/// Writes how the status is said, where the error output has other words.
fn write_said(rt: &HostRuntime, status: &Status, bytes: &[u8]) -> io::Result<()> {
    let said = format!(in rt.alloc(); "error: {status}\n")?;
    if bytes.is_empty() || bytes == said.as_bytes() {
        return Ok(());
    }
    println!(rt; "   said as {status}")
}
