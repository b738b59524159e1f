use crate::runs::{NEVER, ROOM, flatten_on, left, sink_of, source_of};
use ld_run::Status;
use std::test::Fail;

/// A document of one node.
const NODE: &str = r#"[{"@id":"http://e/a","http://e/p":[{"@value":"v"}]}]"#;

/// What that document gives.
const NODE_LINE: &str = "[{\"@id\":\"http://e/a\",\"http://e/p\":[{\"@value\":\"v\"}]}]\n";

/// Two nodes, of which the second comes first by its id.
const TWO_NODES: &str =
    r#"[{"@id":"http://e/b","http://e/p":[{"@id":"http://e/a"}]},{"@id":"http://e/a","http://e/p":[{"@value":"v"}]}]"#;

/// What the document of the two nodes gives.
const TWO_NODES_LINE: &str =
    "[{\"@id\":\"http://e/a\",\"http://e/p\":[{\"@value\":\"v\"}]},{\"@id\":\"http://e/b\",\"http://e/p\":[{\"@id\":\"http://e/a\"}]}]\n";

#[test]
fn small_reads_and_writes_give_the_same_bytes(rt: HostRuntime) -> Result<(), Fail> {
    let alloc = rt.alloc();
    for (name, reading, writing) in &[
        ("a byte a read", 1, 100),
        ("a byte a write", 100, 1),
        ("a few bytes a call", 7, 3),
    ] {
        assert!(rt; *reading > 0 && *writing > 0);
        let mut source = source_of(alloc, TWO_NODES.as_bytes(), *reading, NEVER)?;
        let mut out = sink_of(alloc, *writing, NEVER, ROOM)?;
        let mut err = sink_of(alloc, 1, NEVER, ROOM)?;
        let status = flatten_on(alloc, &mut source, &mut out, &mut err)?;
        assert!(rt;
            left(&status, &out, &err, (0, TWO_NODES_LINE.as_bytes(), b"")),
            "{name}"
        );
    }
    Ok(())
}

#[test]
fn a_source_that_fails_is_a_read_fault(rt: HostRuntime) -> Result<(), Fail> {
    let alloc = rt.alloc();
    for (name, failing) in &[("at once", 0), ("in the middle", 3), ("at its end", 6)] {
        let mut source = source_of(alloc, NODE.as_bytes(), 10, *failing)?;
        let mut out = sink_of(alloc, 100, NEVER, ROOM)?;
        let mut err = sink_of(alloc, 100, NEVER, ROOM)?;
        let status = flatten_on(alloc, &mut source, &mut out, &mut err)?;
        assert!(rt;
            left(&status, &out, &err, (3, b"", b"error: read fault\n")),
            "{name}"
        );
    }
    Ok(())
}

#[test]
fn an_output_that_fails_is_a_write_fault_and_holds_a_front(rt: HostRuntime) -> Result<(), Fail> {
    let alloc = rt.alloc();
    for (name, step, failing, room, written) in &[
        ("at once", 10, 0, ROOM, ""),
        ("at the second call", 10, 1, ROOM, "[{\"@id\":\"h"),
        ("without room", 10, NEVER, 0, ""),
        ("with too little room", 10, NEVER, 4, "[{\"@"),
        ("where it is finished", 100, 1, ROOM, NODE_LINE),
    ] {
        assert!(rt; *step > 0);
        let mut source = source_of(alloc, NODE.as_bytes(), 100, NEVER)?;
        let mut out = sink_of(alloc, *step, *failing, *room)?;
        let mut err = sink_of(alloc, 100, NEVER, ROOM)?;
        let status = flatten_on(alloc, &mut source, &mut out, &mut err)?;
        let want = (5, written.as_bytes(), b"error: write fault\n".as_slice());
        assert!(rt; left(&status, &out, &err, want), "{name}");
    }
    Ok(())
}

#[test]
fn an_error_output_that_fails_is_a_write_fault(rt: HostRuntime) -> Result<(), Fail> {
    let alloc = rt.alloc();
    for (name, text, failing, room, said) in &[
        ("for a refusal", "[1.5]", 0, ROOM, ""),
        ("at the second call", "[1.5]", 1, ROOM, "error: num"),
        ("where it is finished", "[", 2, ROOM, "error: syntax\n"),
        ("for a fault of the output", NODE, 0, 0, ""),
    ] {
        let mut source = source_of(alloc, text.as_bytes(), 100, NEVER)?;
        let mut out = sink_of(alloc, 100, NEVER, *room)?;
        let mut err = sink_of(alloc, 10, *failing, ROOM)?;
        let status = flatten_on(alloc, &mut source, &mut out, &mut err)?;
        assert!(rt;
            left(&status, &out, &err, (5, b"", said.as_bytes())),
            "{name}"
        );
    }
    Ok(())
}

#[test]
fn a_status_is_said_in_words(rt: HostRuntime) -> Result<(), Fail> {
    let alloc = rt.alloc();
    let said = format!(in alloc;
        "{}; {}; {}; {}",
        Status::Done,
        Status::Usage,
        Status::ReadFault,
        Status::FolderFault
    )?;
    assert!(rt; said.as_str() == "done; usage; read fault; folder fault");
    let said = format!(in alloc;
        "{}; {}; {}",
        Status::WriteFault,
        Status::TooLarge,
        Status::OutOfMemory
    )?;
    assert!(rt; said.as_str() == "write fault; input too large; out of memory");
    Ok(())
}
