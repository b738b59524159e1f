use ld_io::*;
use std::alloc::{AllocError, Global};
use std::fs::File;
use std::io::Write;
use std::test::Fail;
use std::{fs, io};

// A folder of three files, two of one name, whose third call fails.
fn listed_folder(alloc: Global) -> Result<MapFolder, AllocError> {
    let mut files = Vec::new(alloc);
    for (name, bytes) in &[("a", "first"), ("b", ""), ("a", "second")] {
        let name = String::from_str(alloc, name)?;
        files.push((name, bytes.as_bytes().to_vec(alloc)?))?;
    }
    Ok(MapFolder::new(files, [2].to_vec(alloc)?))
}

// Whether the folder's answer is the file with these bytes, no file, or that refusal.
fn is_answer(
    got: &Result<Option<Vec<u8>>, FolderStop>,
    want: &Result<Option<&[u8]>, FolderStop>,
) -> bool {
    match (got, want) {
        (Ok(Some(file)), Ok(Some(bytes))) => file.as_slice() == *bytes,
        (Ok(None), Ok(None)) => true,
        (Err(got), Err(want)) => *got == *want,
        _ => false,
    }
}

const LISTED: [(&str, Result<Option<&[u8]>, FolderStop>); 4] = [
    ("a", Ok(Some(b"first"))),
    ("b", Ok(Some(b""))),
    ("a", Err(FolderStop::Failed)),
    ("c", Ok(None)),
];

#[test]
fn a_folder_answers_the_first_file_of_a_name(rt: HostRuntime) -> Result<(), Fail> {
    let mut folder = listed_folder(rt.alloc())?;
    for (name, answer) in &LISTED {
        let got = folder.read(rt.alloc(), name);
        assert!(rt; is_answer(&got, answer), "{name}");
    }
    Ok(())
}

const FOLDER: &str = "dir_folder_test";

/// The greatest number of bytes that a file may have.
const FILE_LIMIT: usize = 16_777_216;

/// As many bytes as a file may have, of which no two halves are alike.
fn full_file(alloc: Global) -> Result<Vec<u8>, AllocError> {
    let mut bytes = vec![in alloc; b'x'; FILE_LIMIT]?;
    if let Some(first) = bytes.first_mut() {
        *first = b'a';
    }
    if let Some(last) = bytes.last_mut() {
        *last = b'z';
    }
    Ok(bytes)
}

/// A real folder with some files, of which one has as many bytes as a file may have and one has a
/// byte more, and with a folder in it.
fn make_folder(rt: &HostRuntime) -> io::Result<()> {
    fs::create_dir_all(rt, "dir_folder_test/folder")?;
    fs::write(rt, "dir_folder_test/small", b"{}".as_slice())?;
    fs::write(
        rt,
        "dir_folder_test/other",
        b"{\"@context\":\"\xc3\xa9\"}\r\n\0".as_slice(),
    )?;
    fs::write(rt, "dir_folder_test/empty", b"".as_slice())?;
    fs::write(rt, "dir_folder_test/at_limit", full_file(rt.alloc())?)?;
    File::create(rt, "dir_folder_test/past_limit")?.set_len(16_777_217)
}

const REAL: [(&str, &str, Result<Option<&[u8]>, FolderStop>); 8] = [
    (FOLDER, "small", Ok(Some(b"{}"))),
    (
        FOLDER,
        "other",
        Ok(Some(b"{\"@context\":\"\xc3\xa9\"}\r\n\0")),
    ),
    (FOLDER, "empty", Ok(Some(b""))),
    (FOLDER, "past_limit", Err(FolderStop::Failed)),
    (FOLDER, "folder", Err(FolderStop::Failed)),
    (FOLDER, "absent", Ok(None)),
    ("no_such_folder", "small", Ok(None)),
    ("dir_folder_test/small", "small", Err(FolderStop::Failed)),
];

#[test]
fn a_real_folder_answers_the_bytes_of_a_file_none_or_a_fault(rt: HostRuntime) -> Result<(), Fail> {
    let alloc = rt.alloc();
    make_folder(&rt)?;
    for (folder, name, answer) in &REAL {
        let mut dir = DirFolder::new(&rt, String::from_str(alloc, folder)?);
        let got = dir.read(alloc, name);
        assert!(rt; is_answer(&got, answer), "{folder}/{name}");
    }
    let mut dir = DirFolder::new(&rt, String::from_str(alloc, FOLDER)?);
    let full = full_file(alloc)?;
    assert!(rt; is_answer(&dir.read(alloc, "at_limit"), &Ok(Some(full.as_slice()))));
    fs::remove_dir_all(&rt, FOLDER)?;
    Ok(())
}
