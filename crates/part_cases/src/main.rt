//! Makes node maps of documents in parts, in every way, and compares them with node map generation at once (JSON-LD 1.1 API, section 7.2). It
//! reads cases from standard input, a line each: a word, perhaps fields, and an expanded document, or items, of at most eight items.
//!
//! | Word | What it does | What it writes |
//! |---|---|---|
//! | `ways` | divides the items into chunks, merges the runs of each shard, renames them and joins the shards, in each of the ways below | how many ways there are, whether all give what generation gives, and that |
//! | `sides` | takes each item as a chunk of its own, merges the runs of each shard from the left and from the right, and renames them | how many shards there are, of one to four, and whether both give the same shard each time |
//! | `ops` | takes the items as a chunk: its number, its graph, the subject and the property under which they stand, and `reverse` or `-` stand before them | the chunk's operations |
//! | `cut` | cuts the items by the weight that stands before them, which is at least 1 | the chunks |
//! | `sums` | sums such a chunk as a range that stays, and as a spine | in how many of one to four shards each is the sum of the chunk's operations, and that in one |
//! | `behind` | sums such a chunk, and behind it one with the same items and the next number | whether spines give the same, and the sum |
//! | `spine` | gives the operations of such a chunk as a spine, whose number stands before that of the chunk | the spine's operations |
//!
//! A way is a division of the items, an order of merging, a number of shards, and an order in which the shards are joined:
//!
//! - each division into one to five rows of neighbouring items, and where there are fewer items than five, those dealt to more chunks too, so
//!   that some chunks have none;
//! - each bracketing of the chunks, and `merge_range`, which stands behind them;
//! - one to four shards, and each order of these.
//!
//! Same is the node map by its compact text, with the count of labels, or the conflict of indexes with its node and both indexes. A run has a
//! first conflict where generation ends with one, and else none has.
//!
//! A line that begins with `#` says what the cases behind it show, and is written as it is. An empty line is passed over.
#![tactic(auto)]

mod chunks;
mod division;
mod merging;
mod operations;
mod outcome;
mod saying;
mod sides;
mod sums;
mod ways;

use chunks::{chunks_text, weighed_of};
use ld_json::{ReadRefusal, Tree, Trees, read_tree};
use operations::{range_of, range_text, spine_text};
use sides::both_sides;
use std::alloc::{AllocError, Global};
use std::io;
use sums::{behind_text, sums_text};
use ways::all_ways;

/// How many items a document has at most.
const ITEMS: usize = 8;

/// What a case asks of a range.
#[derive(Clone, Copy)]
enum Asked {
    /// Its operations.
    Ops,
    /// The operations of the spine with this number that has its own.
    Spine(u32),
    /// Its sum.
    Sums,
    /// Its sum, and behind it that of the chunk with the next number.
    Behind,
}

fn main(rt: HostRuntime) -> io::Result<()> {
    for line in rt.lines(rt.alloc()) {
        answer_line(&rt, line?.as_str())?;
    }
    Ok(())
}

/// Writes what a line of the input gives.
fn answer_line(rt: &HostRuntime, line: &str) -> io::Result<()> {
    if line.is_empty() {
        return Ok(());
    }
    if line.starts_with('#') {
        return println!(rt; "{line}");
    }
    let answer = answer_of(rt.alloc(), line)?;
    println!(rt; "{line}\n  -> {answer}")
}

fn answer_of(alloc: Global, line: &str) -> Result<String, AllocError> {
    let (word, rest) = line.split_once(' ').unwrap_or((line, ""));
    let answer = match word {
        "ways" => ways_answer(alloc, rest)?,
        "sides" => sides_answer(alloc, rest)?,
        "ops" => range_answer(alloc, rest, Asked::Ops)?,
        "sums" => range_answer(alloc, rest, Asked::Sums)?,
        "behind" => range_answer(alloc, rest, Asked::Behind)?,
        "spine" => spine_answer(alloc, rest)?,
        "cut" => chunks_answer(alloc, rest)?,
        _ => None,
    };
    match answer {
        Some(text) => Ok(text),
        None => format!(in alloc; "no case"),
    }
}

fn ways_answer(alloc: Global, text: &str) -> Result<Option<String>, AllocError> {
    match document_of(alloc, text)? {
        Some(items) => Ok(Some(all_ways(alloc, items)?)),
        None => Ok(None),
    }
}

fn sides_answer(alloc: Global, text: &str) -> Result<Option<String>, AllocError> {
    match document_of(alloc, text)? {
        Some(items) => Ok(Some(both_sides(alloc, items)?)),
        None => Ok(None),
    }
}

fn spine_answer(alloc: Global, text: &str) -> Result<Option<String>, AllocError> {
    let (number, fields) = text.split_once(' ').unwrap_or((text, ""));
    match number.parse() {
        Ok(number) => range_answer(alloc, fields, Asked::Spine(number)),
        Err(_) => Ok(None),
    }
}

fn chunks_answer(alloc: Global, text: &str) -> Result<Option<String>, AllocError> {
    let Some((weight, items)) = weighed_of(text) else {
        return Ok(None);
    };
    match document_of(alloc, items)? {
        Some(items) => Ok(Some(chunks_text(alloc, weight, items.as_slice())?)),
        None => Ok(None),
    }
}

/// What is asked of a range.
fn range_answer(alloc: Global, fields: &str, asked: Asked) -> Result<Option<String>, AllocError> {
    let Some(range) = range_of(fields) else {
        return Ok(None);
    };
    let Some(items) = document_of(alloc, range.items)? else {
        return Ok(None);
    };
    let items = items.as_slice();
    let text = match asked {
        Asked::Ops => range_text(alloc, &range, items)?,
        Asked::Spine(number) => spine_text(alloc, number, &range, items)?,
        Asked::Sums => sums_text(alloc, &range, items)?,
        Asked::Behind => behind_text(alloc, &range, items)?,
    };
    Ok(Some(text))
}

/// The items of a document; None where the text is no array of so few items.
fn document_of(alloc: Global, text: &str) -> Result<Option<Trees>, AllocError> {
    match read_tree(alloc, text.as_bytes()) {
        Ok(tree) => Ok(items_of(tree)),
        Err(ReadRefusal::OutOfMemory) => Err(AllocError),
        Err(_) => Ok(None),
    }
}

fn items_of(tree: Tree) -> Option<Trees> {
    match tree {
        Tree::Items(items) => Some(items).filter(|items| items.len() <= ITEMS),
        _ => None,
    }
}
