//! Answers cases of context processing (JSON-LD 1.1 API, section 4.1), which it reads from standard input, a line each.
//!
//! A case is five fields or more, with a tab between two of them:
//!
//! 1. the flags: `o` where protected terms may be defined anew, `p` where the context propagates, `v` where remote contexts
//!    that are under way are processed again; `-` for none
//! 2. the base URL of the initial context and of the local contexts; `-` for none
//! 3. the folder of contexts; `-` for none
//! 4. what to show: `code`, `term NAME`, `iri TEXT`, `context` or `count`
//! 5. the local contexts, which are processed one after the other, beginning with the initial context: the last one by the
//!    flags, and those before it as the context of a document is
//!
//! `repeat COUNT TEXT` stands for a long local context: what is in angle brackets in it is written that many times, with the
//! number of the time for `#` and the next number for `+`. Outside of them `#` is the count.
//!
//! A line that begins with `#` says what the cases behind it show, and is written as it is. An empty line is passed over. For
//! a case it writes what was to be shown of it, an arrow and the answer: `ok` or what was asked for, the standard's code where
//! the context is refused, or why the case could not be tried.
#![tactic(auto)]

mod answer;
mod case;
mod repeat;
mod showing;

use answer::answer;
use case::case_of;
use std::io;

fn main(rt: HostRuntime) -> io::Result<()> {
    for line in rt.lines(rt.alloc()) {
        answer_line(&rt, line?.as_str())?;
    }
    Ok(())
}

/// Writes what a line of the input gives.
fn answer_line(rt: &HostRuntime, line: &str) -> io::Result<()> {
    if line.is_empty() {
        return Ok(());
    }
    if line.starts_with('#') {
        return println!(rt; "{line}");
    }
    match case_of(line) {
        Some(case) => {
            let shown = case.shown;
            let text = answer(rt, &case)?;
            println!(rt; "{shown} -> {text}")
        }
        None => println!(rt; "{line} -> no case"),
    }
}
