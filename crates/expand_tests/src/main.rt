//! Makes the calls of expansion that the program doesn't make itself on cases (JSON-LD 1.1 API, sections 5.1 and 5.3), which it reads from
//! standard input, a line each.
//!
//! A case is a word and fields, with a tab before each field:
//!
//! | Word | Call | Fields |
//! |---|---|---|
//! | `range` | `expand_range` | the number of the first item, the active property, `map` where the array stands in a map of indexes, the place of the array, the base URL, the contexts, the items |
//! | `value` | `expand_value` | the property, the base URL, the contexts, the value |
//! | `add` | `add_value` | `array` where the entry becomes an array, the key, the map, the value |
//! | `finish` | `finish_map` | the active property, the map |
//! | `cut` | `cut`, and `is_legal` of its plan and of the plan with each piece twice | the weight, the base URL, the document |
//!
//! `-` stands for a field that is absent. A place is an array of keys and numbers. Several contexts stand one behind another with ` then `
//! between them, and are processed in that order, beginning with the initial context. Contexts that have an IRI come from the folder
//! `contexts`.
//!
//! A line that begins with `#` says what the cases behind it show, and is written as it is. An empty line is passed over. For a case it
//! writes the line, and in a line below, behind an arrow, what the call gives: a JSON text, `nothing`, or the standard's code, for
//! `expand_range` with the place of the error. Of a plan it gives the pieces: the place of the array, the numbers of the first item and of the one
//! behind the last, the active property, and whether the array stands in a map of indexes.
#![tactic(auto)]

mod answer;
mod case;
mod cutting;

use answer::answer;
use case::case_of;
use ctx_store::{Store, load};
use ld_io::DirFolder;
use std::io;
use std::io::ErrorKind;

/// The folder of contexts, in the working folder.
const CONTEXTS: &str = "contexts";

fn main(rt: HostRuntime) -> io::Result<()> {
    let path = String::from_str(rt.alloc(), CONTEXTS)?;
    match load(rt.alloc(), &mut DirFolder::new(&rt, path)) {
        Ok(store) => answer_lines(&rt, &store),
        Err(_) => Err(io::Error::from(ErrorKind::NotFound)),
    }
}

fn answer_lines(rt: &HostRuntime, store: &Store) -> io::Result<()> {
    for line in rt.lines(rt.alloc()) {
        answer_line(rt, store, line?.as_str())?;
    }
    Ok(())
}

/// Writes what a line of the input gives.
fn answer_line(rt: &HostRuntime, store: &Store, line: &str) -> io::Result<()> {
    if line.is_empty() {
        return Ok(());
    }
    if line.starts_with('#') {
        return println!(rt; "{line}");
    }
    match case_of(line) {
        Some(case) => {
            let text = answer(rt.alloc(), store, &case)?;
            println!(rt; "{line}\n-> {text}")
        }
        None => println!(rt; "{line}\n-> no case"),
    }
}
