// Operations, as texts.

use ld_json::{Tree, text_of};
use op_types::{Entries, Entry, Name, Op, Ops};
use std::alloc::{AllocError, Global};

/// Operations, with a semicolon between two of them: a word and names, for some with what is added behind them. An IRI stands in angle
/// brackets, and `(2,5)` is the node with the number 5 among those without an id of the chunk with the number 2.
pub(crate) fn ops_text(alloc: Global, ops: &Ops) -> Result<String, AllocError> {
    let mut out = String::new(alloc);
    for op in ops {
        if !out.is_empty() {
            out.push_str("; ")?;
        }
        push_op(alloc, &mut out, op)?;
    }
    if out.is_empty() {
        out.push_str("no operations")?;
    }
    Ok(out)
}

fn push_op(alloc: Global, out: &mut String, op: &Op) -> Result<(), AllocError> {
    match op {
        Op::UseLabel { name } => push_names(alloc, out, "label", &[name]),
        Op::EnsureGraph { graph } => push_names(alloc, out, "graph", &[graph]),
        Op::EnsureNode { graph, node } => push_names(alloc, out, "node", &[graph, node]),
        Op::EnsureProperty {
            graph,
            node,
            property,
        } => push_names(alloc, out, "property", &[graph, node, property]),
        Op::AddEntry {
            graph,
            node,
            property,
            entry,
        } => {
            push_names(alloc, out, "entry", &[graph, node, property])?;
            out.push_str(" ")?;
            push_entry(alloc, out, entry)
        }
        Op::AppendList {
            graph,
            node,
            property,
            list,
        } => {
            push_names(alloc, out, "list", &[graph, node, property])?;
            out.push_str(" ")?;
            push_entries(alloc, out, list)
        }
        Op::AddType { graph, node, name } => push_names(alloc, out, "type", &[graph, node, name]),
        Op::SetIndex { graph, node, index } => {
            push_names(alloc, out, "index", &[graph, node])?;
            out.push_str(" ")?;
            out.push_str(index.as_str())
        }
    }
}

/// A word, and names with a space before each.
fn push_names(
    alloc: Global,
    out: &mut String,
    word: &str,
    names: &[&Name],
) -> Result<(), AllocError> {
    out.push_str(word)?;
    for name in names {
        out.push_str(" ")?;
        push_name(alloc, out, name)?;
    }
    Ok(())
}

/// A name, as `ops_text` has it.
pub(crate) fn push_name(alloc: Global, out: &mut String, name: &Name) -> Result<(), AllocError> {
    match name {
        Name::Iri(text) => {
            out.push_str("<")?;
            out.push_str(text.as_str())?;
            out.push_str(">")
        }
        Name::Source(text) => out.push_str(text.as_str()),
        Name::Fresh { chunk, number } => {
            let text = format!(in alloc; "({chunk},{number})")?;
            out.push_str(text.as_str())
        }
    }
}

/// An entry: a value as JSON, a reference as a name, a list in brackets.
#[cycle(entry)]
pub(crate) fn push_entry(alloc: Global, out: &mut String, entry: &Entry) -> Result<(), AllocError> {
    match entry {
        Entry::Value(value) => push_value(alloc, out, value),
        Entry::Reference(name) => push_name(alloc, out, name),
        Entry::List(entries) => push_entries(alloc, out, entries),
    }
}

/// Entries of a list, in brackets, with a space before each.
#[cycle(entry)]
fn push_entries(alloc: Global, out: &mut String, entries: &Entries) -> Result<(), AllocError> {
    out.push_str("[")?;
    for entry in entries {
        out.push_str(" ")?;
        push_entry(alloc, out, entry)?;
    }
    out.push_str(" ]")
}

pub(crate) fn push_value(alloc: Global, out: &mut String, value: &Tree) -> Result<(), AllocError> {
    let bytes = text_of(alloc, value)?;
    out.push_str(str::from_utf8(bytes.as_slice()).unwrap_or("no text"))
}
