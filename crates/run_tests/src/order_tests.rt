use crate::runs::{Files, NEVER, ROOM, folder_of, left, run_on, sink_of, source_of};
use ld_io::{Folder, FolderStop, ListSource, MapFolder, read_to_end};
use std::alloc::{AllocError, Global};
use std::test::Fail;

// On each line words that give no order; on the first there are none.
const NO_ORDERS: &str = "
expanded
flat
Flatten
--contexts flatten
flatten flatten
flatten expand
flatten x
flatten --
flatten -- --contexts
flatten help
help
--help
flatten --help
flatten -h
flatten --contexts --contexts
flatten --contexts=
flatten --contexts=x
flatten --contexts x
flatten --context
flatten --Contexts
flatten -contexts
flatten --workers 4
flatten --base
flatten --base=
flatten --base x
flatten --base=x
flatten --base http://e/<
flatten --base --contexts
flatten --base -x
flatten --base http://e/ x
flatten --base http://e/ --base http://e/
flatten --base http://e/ --base=http://e/
flatten --base=http://e/ --contexts --base=http://f/
flatten --bas http://e/
flatten --bas=http://e/
flatten --base=http://e/ http://e/
flatten --base = http://e/
flatten --weight
flatten --weight=
flatten --weight 0
flatten --weight=0
flatten --weight 1000001
flatten --weight 1000000000000000000000001
flatten --weight 01
flatten --weight +1
flatten --weight -1
flatten --weight 1x
flatten --weight 1.0
flatten --weight 2 --weight 2
flatten --weight=2 --weight 3
flatten --weight --contexts
flatten --weigh 2";

// On each line words that give an order.
const ORDERS: &str = "flatten
expand
flatten --contexts
expand --contexts
flatten --base http://e/
expand --base=http://e/
expand --base=e:?a=b
flatten --base http://e/ --contexts
flatten --contexts --base http://e/
flatten --contexts --base=http://e/
expand --base=http://e/ --contexts
flatten --weight 1
expand --weight=1
flatten --weight 1000000
flatten --weight=999999 --base http://e/ --contexts
expand --contexts --weight 10 --base=http://e/";

// What is left of a source and a folder whose first calls fail: the first fault that each still gives.
fn is_untouched(alloc: Global, source: &mut ListSource) -> bool {
    read_to_end(alloc, source).is_err()
}

fn is_folder_untouched(alloc: Global, folder: &mut MapFolder) -> bool {
    matches!(folder.read(alloc, "x"), Err(FolderStop::Failed))
}

#[test]
fn words_that_give_no_order_are_refused_before_anything_is_read(
    rt: HostRuntime,
) -> Result<(), Fail> {
    let alloc = rt.alloc();
    for words in NO_ORDERS.lines() {
        let mut source = source_of(alloc, b"[]", 100, 0)?;
        let mut folder = folder_of(alloc, &[], 0)?;
        let mut out = sink_of(alloc, 100, NEVER, ROOM)?;
        let mut err = sink_of(alloc, 100, NEVER, ROOM)?;
        let status = run_on(alloc, words, &mut source, &mut folder, &mut out, &mut err)?;
        assert!(rt;
            left(&status, &out, &err, (2, b"", b"error: usage\n")),
            "{words}"
        );
        let untouched = is_untouched(alloc, &mut source) && is_folder_untouched(alloc, &mut folder);
        assert!(rt; untouched, "{words}");
    }
    assert!(rt; NO_ORDERS.lines().count() == 53);
    Ok(())
}

#[test]
fn words_that_give_an_order_have_the_source_read(rt: HostRuntime) -> Result<(), Fail> {
    let alloc = rt.alloc();
    for words in ORDERS.lines() {
        let mut source = source_of(alloc, b"[]", 100, 0)?;
        let mut folder = folder_of(alloc, &[], NEVER)?;
        let mut out = sink_of(alloc, 100, NEVER, ROOM)?;
        let mut err = sink_of(alloc, 100, NEVER, ROOM)?;
        let status = run_on(alloc, words, &mut source, &mut folder, &mut out, &mut err)?;
        assert!(rt;
            left(&status, &out, &err, (3, b"", b"error: read fault\n")),
            "{words}"
        );
    }
    assert!(rt; ORDERS.lines().count() == 16);
    Ok(())
}

#[test]
fn the_folder_is_not_touched_where_the_words_ask_for_no_contexts(
    rt: HostRuntime,
) -> Result<(), Fail> {
    let alloc = rt.alloc();
    for words in &["flatten", "expand", "flatten --base http://e/"] {
        let mut source = source_of(alloc, b"[1.5]", 100, NEVER)?;
        let mut folder = folder_of(alloc, &[], 0)?;
        let mut out = sink_of(alloc, 100, NEVER, ROOM)?;
        let mut err = sink_of(alloc, 100, NEVER, ROOM)?;
        let status = run_on(alloc, words, &mut source, &mut folder, &mut out, &mut err)?;
        assert!(rt;
            left(&status, &out, &err, (1, b"", b"error: number at byte 1\n")),
            "{words}"
        );
        assert!(rt; is_folder_untouched(alloc, &mut folder), "{words}");
    }
    Ok(())
}

// An index with one file.
const INDEX: &str = "http://e/x x.json\n";

// Folders that are refused, each with the number of the call that fails, and the number and the line of the refusal.
const REFUSED: [(&str, Files, u64, u8, &str); 8] = [
    (
        "a line that is no entry",
        &[("index.txt", "http://e/x x.json\nbroken\n")],
        NEVER,
        1,
        "error: context index line 2\n",
    ),
    (
        "a line that is no entry behind a missing file",
        &[("index.txt", "http://e/x x.json\nhttp://e/x y.json\n")],
        NEVER,
        1,
        "error: context index line 2\n",
    ),
    (
        "a missing file",
        &[("index.txt", INDEX)],
        NEVER,
        1,
        "error: missing context file at index line 1\n",
    ),
    (
        "a missing file behind an empty line",
        &[
            ("index.txt", "\nhttp://e/x x.json\nhttp://e/y y.json\n"),
            ("x.json", "{}"),
        ],
        NEVER,
        1,
        "error: missing context file at index line 3\n",
    ),
    (
        "a fault of the index",
        &[("index.txt", INDEX), ("x.json", "{}")],
        0,
        4,
        "error: folder fault\n",
    ),
    (
        "a fault of a file",
        &[("index.txt", INDEX), ("x.json", "{}")],
        1,
        4,
        "error: folder fault\n",
    ),
    (
        "a fault of a file that is missing",
        &[("index.txt", INDEX)],
        1,
        4,
        "error: folder fault\n",
    ),
    (
        "a fault behind a missing file",
        &[("index.txt", "http://e/x x.json\nhttp://e/y y.json\n")],
        2,
        1,
        "error: missing context file at index line 1\n",
    ),
];

// Whether the folder is refused so by these words, and the source, whose first call fails, isn't touched.
fn refuses_folder(
    alloc: Global,
    words: &str,
    (files, failing): (Files, u64),
    (number, said): (u8, &str),
) -> Result<bool, AllocError> {
    let mut source = source_of(alloc, b"[1.5]", 100, 0)?;
    let mut folder = folder_of(alloc, files, failing)?;
    let mut out = sink_of(alloc, 100, NEVER, ROOM)?;
    let mut err = sink_of(alloc, 100, NEVER, ROOM)?;
    let status = run_on(alloc, words, &mut source, &mut folder, &mut out, &mut err)?;
    let is_left = left(&status, &out, &err, (number, b"", said.as_bytes()));
    Ok(is_left && is_untouched(alloc, &mut source))
}

#[test]
fn a_folder_that_is_refused_is_named_before_the_source_is_read(
    rt: HostRuntime,
) -> Result<(), Fail> {
    for (name, files, failing, number, said) in &REFUSED {
        let refused = refuses_folder(
            rt.alloc(),
            "flatten --contexts",
            (files, *failing),
            (*number, said),
        )?;
        assert!(rt; refused, "{name}");
        let refused = refuses_folder(
            rt.alloc(),
            "expand --base e: --contexts",
            (files, *failing),
            (*number, said),
        )?;
        assert!(rt; refused, "{name}");
    }
    Ok(())
}
