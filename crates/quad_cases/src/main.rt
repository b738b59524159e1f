//! Answers cases of N-Quads, which it reads from standard input, a line each: a word, and a text.
//!
//! In a text `%` and two hexadecimal digits stand for a byte, and `@@` for what is put there.
//!
//! | Word | What it does | What it writes |
//! |---|---|---|
//! | `read` | reads the text and writes its quads | the quads, or the place of the bad line |
//! | `from NUMBER` | the same, of a text whose first line has that number | the same |
//! | `fault COUNT` | the same, into a sink that takes 7 bytes at once and fails at its call of that number, from 0 | what the sink holds |
//! | `cut` | reads every front of the text | the answers, each with the lengths that give it |
//! | `bytes` | reads the text with each byte for `@@` | the answers, each with its bytes |
//! | `chars` | reads the text with characters of every plane for `@@` | the answers, each with its characters |
//! | `long COUNT` | reads the text with that many letters for `@@` | how many quads there are, and whether they are written as they stood |
//! | `many COUNT` | reads the text that many times | the same |
//!
//! A line that begins with `#` says what the cases behind it show, and is written as it is. An empty line is passed over.
#![tactic(auto)]

mod answer;
mod runs;
mod text;

use answer::{faulted, long, many, read, read_from};
use runs::{bytes, chars, cut};
use std::alloc::{AllocError, Global};
use std::io;
use text::plain;

fn main(rt: HostRuntime) -> io::Result<()> {
    for line in rt.lines(rt.alloc()) {
        answer_line(&rt, line?.as_str())?;
    }
    Ok(())
}

/// Writes what a line of the input gives.
fn answer_line(rt: &HostRuntime, line: &str) -> io::Result<()> {
    if line.is_empty() {
        return Ok(());
    }
    if line.starts_with('#') {
        return println!(rt; "{line}");
    }
    let answer = answer_of(rt.alloc(), line)?;
    println!(rt; "{line}\n  -> {answer}")
}

fn answer_of(alloc: Global, line: &str) -> Result<String, AllocError> {
    let (word, rest) = line.split_once(' ').unwrap_or((line, ""));
    match word {
        "fault" | "from" | "long" | "many" => counted(alloc, word, rest),
        _ => {
            let text = plain(alloc, rest)?;
            match word {
                "cut" => cut(alloc, text.as_slice()),
                "bytes" => bytes(alloc, text.as_slice()),
                "chars" => chars(alloc, text.as_slice()),
                _ => read(alloc, text.as_slice()),
            }
        }
    }
}

fn counted(alloc: Global, word: &str, rest: &str) -> Result<String, AllocError> {
    let (number, rest) = rest.split_once(' ').unwrap_or((rest, ""));
    let count = number.parse::<u32>().unwrap_or(0);
    let text = plain(alloc, rest)?;
    match word {
        "fault" => faulted(alloc, text.as_slice(), count),
        "from" => read_from(alloc, text.as_slice(), count),
        "long" => long(alloc, text.as_slice(), count),
        _ => many(alloc, text.as_slice(), count),
    }
}
