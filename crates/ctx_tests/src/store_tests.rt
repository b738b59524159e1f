use ctx_store::*;
use ld_io::MapFolder;
use std::alloc::{AllocError, Global};
use std::test::Fail;

// A folder with this index, a context and a file that is no JSON text.
fn folder(alloc: Global, index: &[u8], failing: &[u64]) -> Result<MapFolder, AllocError> {
    let mut files = Vec::new(alloc);
    for (name, bytes) in [
        ("index.txt", index),
        ("x.json", b"{\"@context\":{}}".as_slice()),
        ("y.json", b"{".as_slice()),
    ] {
        files.push((String::from_str(alloc, name)?, bytes.to_vec(alloc)?))?;
    }
    Ok(MapFolder::new(files, failing.to_vec(alloc)?))
}

// Why a folder with this index, of which these reads fail, gives no store.
fn refusal(
    alloc: Global,
    index: &[u8],
    failing: &[u64],
) -> Result<Option<StoreRefusal>, AllocError> {
    let mut folder = folder(alloc, index, failing)?;
    Ok(load(alloc, &mut folder).err())
}

const INDEXES: [(&str, &str, Option<StoreRefusal>); 14] = [
    ("no line", "", None),
    ("no line feed at the end", "http://e/x x.json", None),
    (
        "CR LF",
        "http://e/x x.json\r\n\r\nhttp://e/y y.json\r\n",
        None,
    ),
    ("empty lines", "\n\nhttp://e/x x.json\n\n", None),
    (
        "a CR before no LF",
        "http://e/x x.json\r",
        Some(StoreRefusal::IndexLine { line: 1 }),
    ),
    (
        "a second line without a name",
        "http://e/x x.json\nbroken",
        Some(StoreRefusal::IndexLine { line: 2 }),
    ),
    (
        "a repeated IRI",
        "http://e/x x.json\n\nhttp://e/x y.json",
        Some(StoreRefusal::IndexLine { line: 3 }),
    ),
    (
        "a name with a slash",
        "http://e/x a/x.json",
        Some(StoreRefusal::IndexLine { line: 1 }),
    ),
    (
        "a name that begins with a dot",
        "http://e/x .x.json",
        Some(StoreRefusal::IndexLine { line: 1 }),
    ),
    (
        "no name",
        "http://e/x ",
        Some(StoreRefusal::IndexLine { line: 1 }),
    ),
    (
        "two spaces",
        "http://e/x  x.json",
        Some(StoreRefusal::IndexLine { line: 1 }),
    ),
    (
        "no scheme",
        "x x.json",
        Some(StoreRefusal::IndexLine { line: 1 }),
    ),
    (
        "a missing file",
        "http://e/x x.json\n\nhttp://e/z z.json",
        Some(StoreRefusal::Missing { line: 3 }),
    ),
    (
        "broken behind a missing file",
        "http://e/z z.json\nbroken",
        Some(StoreRefusal::IndexLine { line: 2 }),
    ),
];

#[test]
fn an_index_is_refused_at_its_first_broken_line(rt: HostRuntime) -> Result<(), Fail> {
    for (name, index, want) in &INDEXES {
        let refusal = refusal(rt.alloc(), index.as_bytes(), &[])?;
        assert_eq!(rt; refusal, *want, "{name}");
    }
    Ok(())
}

#[test]
fn a_line_that_is_not_utf_8_is_broken(rt: HostRuntime) -> Result<(), Fail> {
    let refusal = refusal(rt.alloc(), b"http://e/x x.json\nhttp://e/\xff y.json", &[])?;
    assert!(rt; refusal == Some(StoreRefusal::IndexLine { line: 2 }));
    Ok(())
}

#[test]
fn a_failing_read_is_a_folder_fault(rt: HostRuntime) -> Result<(), Fail> {
    for (name, call, want) in &[
        ("the index", 0, Some(StoreRefusal::FolderFault)),
        ("the first file", 1, Some(StoreRefusal::FolderFault)),
        ("no read", 2, None),
    ] {
        let refusal = refusal(rt.alloc(), b"http://e/x x.json", &[*call])?;
        assert_eq!(rt; refusal, *want, "{name}");
    }
    Ok(())
}

fn kind(file: Option<&Loaded>) -> &'static str {
    match file {
        Some(Loaded::Readable(_)) => "readable",
        Some(Loaded::Unreadable) => "unreadable",
        None => "absent",
    }
}

#[test]
fn an_iri_has_the_file_of_its_line(rt: HostRuntime) -> Result<(), Fail> {
    let alloc = rt.alloc();
    let mut folder = folder(alloc, b"http://e/y y.json\nhttp://e/x x.json\n", &[])?;
    let Ok(store) = load(alloc, &mut folder) else {
        assert!(rt; false);
        return Ok(());
    };
    for (iri, want) in &[
        ("http://e/x", "readable"),
        ("http://e/y", "unreadable"),
        ("http://e/z", "absent"),
    ] {
        assert_eq!(rt; kind(store.get(iri)), *want, "{iri}");
    }
    Ok(())
}

#[test]
fn a_folder_without_an_index_holds_nothing(rt: HostRuntime) -> Result<(), Fail> {
    let alloc = rt.alloc();
    let mut folder = MapFolder::new(Vec::new(alloc), Vec::new(alloc));
    assert!(rt; load(alloc, &mut folder).is_ok());
    assert!(rt; kind(Store::none(alloc).get("http://e/x")) == "absent");
    Ok(())
}

#[test]
fn a_refusal_is_said_in_words(rt: HostRuntime) -> Result<(), Fail> {
    for (refusal, words) in &[
        (StoreRefusal::IndexLine { line: 2 }, "context index line 2"),
        (
            StoreRefusal::Missing { line: 3 },
            "missing context file at index line 3",
        ),
        (StoreRefusal::FolderFault, "folder fault"),
        (StoreRefusal::OutOfMemory, "out of memory"),
    ] {
        let said = refusal.to_string(rt.alloc())?;
        assert_eq!(rt; said.as_str(), *words);
    }
    Ok(())
}
