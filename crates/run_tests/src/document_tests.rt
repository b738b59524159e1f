use crate::runs::{NEVER, ROOM, flatten_on, left, sink_of, source_of};
use ld_io::ListSource;
use std::alloc::{AllocError, Global};
use std::test::Fail;

// What documents give stands as rows in `expand_cases`, but for bytes that are no text, and documents that are too long for a row.

#[test]
fn bytes_that_are_no_text_are_refused(rt: HostRuntime) -> Result<(), Fail> {
    let alloc = rt.alloc();
    let mut source = source_of(alloc, b"[\"\xff\"]", 100, NEVER)?;
    let mut out = sink_of(alloc, 100, NEVER, ROOM)?;
    let mut err = sink_of(alloc, 100, NEVER, ROOM)?;
    let status = flatten_on(alloc, &mut source, &mut out, &mut err)?;
    assert!(rt; left(&status, &out, &err, (1, b"", b"error: syntax\n")));
    Ok(())
}

#[test]
fn an_input_over_256_mib_is_too_large(rt: HostRuntime) -> Result<(), Fail> {
    let alloc = rt.alloc();
    let mut source = ListSource::repeat(b'a', 268_435_457);
    let mut out = sink_of(alloc, 100, NEVER, ROOM)?;
    let mut err = sink_of(alloc, 100, NEVER, ROOM)?;
    let status = flatten_on(alloc, &mut source, &mut out, &mut err)?;
    assert!(rt; left(&status, &out, &err, (6, b"", b"error: input too large\n")));
    Ok(())
}

/// How many items the documents have: up to 4,096 stand in rows of one, up to 8,192 in rows of two, up to 12,288 in rows of three, and more
/// in rows of four.
const COUNTS: [u32; 6] = [4_095, 4_096, 4_097, 8_192, 8_193, 12_289];

/// How many bytes a source or a sink takes at once, and has room for.
const LONG: u32 = 4_000_000;

/// A document of so many items. Each has a label, names the item that is as far from the other end, has a node without an id, and says
/// something of one node.
fn document(alloc: Global, count: u32) -> Result<String, AllocError> {
    let mut text = String::from_str(alloc, "[null")?;
    for number in 0..count {
        let other = count.saturating_sub(number + 1);
        let value = number % 3;
        let item = format!(in alloc;
            r#",{{"@id":"_:n{number}","e:p":[{{"@id":"_:n{other}"}},{{"e:q":{number}}}],"e:s":{{"@id":"e:all","e:r":{value}}}}}"#
        )?;
        text.push_str(item.as_str())?;
    }
    text.push_str("]")?;
    Ok(text)
}

/// The number of the label that the item with this number gets. Two items far from both ends take three labels: the first of the two takes
/// its own, that of the other, and that of the node without an id; an item in the middle takes two.
fn label_of(count: u32, number: u32) -> u64 {
    let other = count.saturating_sub(number).saturating_sub(1);
    if number <= other {
        3 * u64::from(number)
    } else {
        3 * u64::from(other) + 1
    }
}

/// The number of the label that the node without an id in the item with this number gets.
fn inner_label_of(count: u32, number: u32) -> u64 {
    let other = count.saturating_sub(number).saturating_sub(1);
    let halves = u64::from(count / 2);
    let middle = u64::from(count % 2);
    if number < other {
        3 * u64::from(number) + 2
    } else if number == other {
        3 * halves + 1
    } else {
        2 * halves + middle + u64::from(number)
    }
}

/// The nodes that are due for a document of so many items, in any order.
fn nodes(alloc: Global, count: u32) -> Result<Vec<String>, AllocError> {
    let mut nodes = Vec::new(alloc);
    nodes.push(format!(in alloc;
        r#"{{"@id":"e:all","e:r":[{{"@value":0}},{{"@value":1}},{{"@value":2}}]}}"#
    )?)?;
    for number in 0..count {
        let label = label_of(count, number);
        let other = label_of(count, count.saturating_sub(number + 1));
        let inner = inner_label_of(count, number);
        nodes.push(format!(in alloc;
            r#"{{"@id":"_:b{label}","e:p":[{{"@id":"_:b{other}"}},{{"@id":"_:b{inner}"}}],"e:s":[{{"@id":"e:all"}}]}}"#
        )?)?;
        nodes.push(format!(in alloc; r#"{{"@id":"_:b{inner}","e:q":[{{"@value":{number}}}]}}"#)?)?;
    }
    Ok(nodes)
}

/// The flattened form that is due: the nodes in the order of their ids' bytes.
fn flattened(alloc: Global, count: u32) -> Result<String, AllocError> {
    let mut nodes = nodes(alloc, count)?;
    nodes.sort_unstable();
    let mut text = String::new(alloc);
    for node in &nodes {
        text.push_str(if text.is_empty() { "[" } else { "," })?;
        text.push_str(node.as_str())?;
    }
    text.push_str("]\n")?;
    Ok(text)
}

/// Whether a document of so many items gives what is due.
fn is_flattened(alloc: Global, count: u32) -> Result<bool, AllocError> {
    let text = document(alloc, count)?;
    let mut source = source_of(alloc, text.as_bytes(), LONG, NEVER)?;
    let mut out = sink_of(alloc, LONG, NEVER, u64::from(LONG))?;
    let mut err = sink_of(alloc, 100, NEVER, ROOM)?;
    let status = flatten_on(alloc, &mut source, &mut out, &mut err)?;
    let due = flattened(alloc, count)?;
    Ok(left(&status, &out, &err, (0, due.as_bytes(), b"")))
}

#[test]
fn labels_and_values_go_over_rows_of_items(rt: HostRuntime) -> Result<(), Fail> {
    for count in &COUNTS {
        assert!(rt; is_flattened(rt.alloc(), *count)?, "{count} items");
    }
    Ok(())
}
