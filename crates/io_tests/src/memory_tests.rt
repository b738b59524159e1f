use ld_io::*;
use std::test::Fail;

// What is read, how many bytes a call, the calls that fail, and why the reading stops.
const READS: [(&str, u32, &[u64], Option<ReadStop>); 7] = [
    ("one byte a call", 1, &[], None),
    ("three bytes a call", 3, &[], None),
    ("all at once", 100, &[], None),
    ("the first call fails", 3, &[0], Some(ReadStop::Failed)),
    ("a later call fails", 3, &[2], Some(ReadStop::Failed)),
    ("the call at the end fails", 3, &[3], Some(ReadStop::Failed)),
    ("a call that is not made fails", 3, &[4], None),
];

#[test]
fn a_source_gives_its_bytes_in_steps_and_fails_at_the_listed_calls(
    rt: HostRuntime,
) -> Result<(), Fail> {
    for (name, step, failing, stop) in &READS {
        assert!(rt; *step > 0);
        let bytes = b"abcdefg".to_vec(rt.alloc())?;
        let mut source = ListSource::new(bytes, *step, failing.to_vec(rt.alloc())?);
        match read_to_end(rt.alloc(), &mut source) {
            Ok(got) => assert!(rt;
                stop.is_none() && got.as_slice() == b"abcdefg".as_slice(),
                "{name}"
            ),
            Err(got) => assert_eq!(rt; Some(got), *stop, "{name}"),
        }
    }
    Ok(())
}

#[test]
fn a_failed_call_loses_no_bytes(rt: HostRuntime) -> Result<(), Fail> {
    let failing = [1].to_vec(rt.alloc())?;
    let mut source = ListSource::new(b"abcde".to_vec(rt.alloc())?, 2, failing);
    let mut buf = [0u8; 8];
    for answer in &[Ok(2), Err(Failed), Ok(2)] {
        assert!(rt; source.read(&mut buf) == *answer);
    }
    assert!(rt; &buf[..2] == b"cd".as_slice());
    for answer in &[Ok(1), Ok(0)] {
        assert!(rt; source.read(&mut buf) == *answer);
    }
    Ok(())
}

#[test]
fn a_byte_is_repeated(rt: HostRuntime) -> Result<(), Fail> {
    for count in &[0, 1, 65_536, 100_000] {
        let mut source = ListSource::repeat(b'a', *count);
        let bytes = read_to_end(rt.alloc(), &mut source)?;
        assert_eq!(rt; bytes.len() as u64, *count);
        assert!(rt; bytes.iter().all(|b| *b == b'a'), "{count}");
    }
    Ok(())
}

// How many bytes a call, the calls that fail, the room, whether all of `abcdef` is written, and
// what the sink then holds.
const WRITES: [(&str, u32, &[u64], u64, bool, &[u8]); 9] = [
    ("all at once", 10, &[], 100, true, b"abcdef"),
    ("two bytes a call", 2, &[], 100, true, b"abcdef"),
    ("just enough room", 4, &[], 6, true, b"abcdef"),
    ("too little room", 10, &[], 4, false, b"abcd"),
    ("no room", 10, &[], 0, false, b""),
    ("the first write fails", 2, &[0], 100, false, b""),
    ("the second write fails", 2, &[1], 100, false, b"ab"),
    ("the finish fails", 2, &[3], 100, false, b"abcdef"),
    (
        "a call that is not made fails",
        2,
        &[4],
        100,
        true,
        b"abcdef",
    ),
];

#[test]
fn a_sink_takes_what_it_has_room_for_and_fails_at_the_listed_calls(
    rt: HostRuntime,
) -> Result<(), Fail> {
    for (name, step, failing, room, ok, held) in &WRITES {
        assert!(rt; *step > 0);
        let mut sink = ListSink::new(rt.alloc(), *step, failing.to_vec(rt.alloc())?, *room)?;
        let result = write_and_finish(&mut sink, b"abcdef");
        assert_eq!(rt; result.is_ok(), *ok, "{name}");
        assert_eq!(rt; sink.bytes(), *held, "{name}");
    }
    Ok(())
}

#[test]
fn no_bytes_are_written_without_a_call(rt: HostRuntime) -> Result<(), Fail> {
    let mut sink = ListSink::new(rt.alloc(), 1, [0].to_vec(rt.alloc())?, 0)?;
    assert!(rt; write_all(&mut sink, b"") == Ok(()));
    for answer in &[Err(Failed), Ok(())] {
        assert!(rt; sink.finish() == *answer);
    }
    assert!(rt; sink.write(b"") == Ok(0));
    assert!(rt; sink.write(b"a") == Err(Failed));
    Ok(())
}

#[test]
fn stops_are_said_in_words(rt: HostRuntime) -> Result<(), Fail> {
    let (folder, read) = (FolderStop::Failed, ReadStop::TooLarge);
    let said = format!(in rt.alloc(); "{}; {folder}; {read}", Failed)?;
    assert!(rt; said.as_str() == "fault; folder fault; input too large");
    Ok(())
}
