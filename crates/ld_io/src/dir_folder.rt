//! A real folder. It tells nothing of its files: std is trusted to pass on their true bytes.
ghost use Rattle.std.specs.Prelude.{◌≡◌, ℕ, ◌≤◌, None, Option, IfOk, IfErr, IfSome, IsSome, vec_len};
ghost use Rattle.std.specs.IoError.{error_kind};
ghost use Rattle.ld_io.specs.FolderFaults.{CountsFolderFaults};
ghost use Rattle.ld_io.specs.FolderReads.{unopened};

use super::streams::StdSource;
use super::traits::{Folder, FolderStop};
use super::whole::{ReadStop, read_within};
use std::alloc::{AllocError, Global};
use std::fs::File;
use std::io;
use std::io::{ErrorKind, Read};
use std::path::Path;
use std::rt::Files;

/// The greatest number of bytes that a file may have: 16 MiB.
const FILE_LIMIT: usize = 16_777_216;

impl From<AllocError> for FolderStop {
    ghost use Rattle.ld_io.specs.declared.traits.FolderStop.TheVariants.{OutOfMemory};

    ghost from_gives = { λ _ stop. stop ≡ OutOfMemory };

    fn from(_error: AllocError) -> FolderStop {
        FolderStop::OutOfMemory
    }
}

impl From<ReadStop> for FolderStop {
    ghost use Rattle.ld_io.specs.FolderReads.{unread};

    ghost from_gives = { λ read stop. stop ≡ unread read };

    fn from(read: ReadStop) -> FolderStop {
        match read {
            ReadStop::OutOfMemory => FolderStop::OutOfMemory,
            ReadStop::Failed | ReadStop::TooLarge => FolderStop::Failed,
        }
    }
}

/// What the folder answers where a file can't be opened.
fn unopened(error: &io::Error) -> Result<Option<Vec<u8>>, FolderStop>
    ensures { result ≡ unopened (error_kind error.now) }
{
    match error.kind() {
        ErrorKind::NotFound => Ok(None),
        ErrorKind::OutOfMemory => Err(FolderStop::OutOfMemory),
        _ => Err(FolderStop::Failed),
    }
}

/// All the bytes of a file, at most `limit` of them.
fn bytes_of<F: Read + Drop>(alloc: Global, file: F, limit: usize) -> Result<Vec<u8>, FolderStop>
    ensures bytes { IfOk result (λ v. IfSome (F.remaining file) (λ xs. xs ≡ v.items)) }
    ensures within { IfOk result (λ v. vec_len v ≤ limit) }
{
    Ok(read_within(alloc, &mut StdSource::new(file), limit)?)
}

/// What the folder answers for a file that was to be opened.
fn answer<F: Read + Drop>(
    alloc: Global,
    opened: io::Result<F>,
    limit: usize,
) -> Result<Option<Vec<u8>>, FolderStop>
    ensures unopened { IfErr opened (λ error. result ≡ unopened (error_kind error)) }
    ensures there { IfOk opened (λ _. IfOk result (λ found. IsSome found)) }
    ensures bytes { IfOk opened (λ file. IfOk result (λ found. IfSome found (λ v. IfSome (F.remaining file) (λ xs. xs ≡ v.items)))) }
    ensures within { IfOk result (λ found. IfSome found (λ v. vec_len v ≤ limit)) }
{
    match opened {
        Ok(file) => Ok(Some(bytes_of(alloc, file, limit)?)),
        Err(error) => unopened(&error),
    }
}

/// The bytes of the file of that name in the folder.
fn read_file<R: Files>(
    alloc: Global,
    files: &R,
    folder: &str,
    name: &str,
) -> Result<Option<Vec<u8>>, FolderStop>
    ensures within { IfOk result (λ found. IfSome found (λ v. vec_len v ≤ FILE_LIMIT)) }
{
    let path = Path::new(folder).join(alloc, name)?;
    answer(alloc, File::open(files, path), FILE_LIMIT)
}

/// A folder of the file system.
///
/// A file that isn't there, also where the folder isn't, is answered by `None`. Each other error of
/// the file system is a fault, and raises the count; so is a file of more than 16,777,216 bytes. A
/// read that a signal interrupted is made again, and is no error. The bytes are answered only after
/// the end of the file was seen.
#[derive(Drop)]
pub struct DirFolder<R: Files> {
    files: R,
    path: String,
    faults: u64,
}

impl<R: Files> DirFolder<R> {
    /// The folder at `path`, reached through the runtime `files`, which may be a reference to one.
    /// Its count of faults is 0. Nothing is opened yet.
    pub fn new(files: R, path: String) -> DirFolder<R>
        ensures files { ⟦<DirFolder<R> as Folder>⟧.files result ≡ None }
        ensures faults { ⟦<DirFolder<R> as Folder>⟧.faults result ≡ 0 }
    {
        DirFolder {
            files,
            path,
            faults: 0,
        }
    }
}

impl<R: Files> Folder for DirFolder<R> {
    ghost files = { λ _. None };

    ghost faults = { λ s. s.faults };

    fn read(&mut self, alloc: Global, name: &str) -> Result<Option<Vec<u8>>, FolderStop>
        ensures faults { CountsFolderFaults self.old.faults self.new.faults result }
        ensures within { IfOk result (λ found. IfSome found (λ v. vec_len v ≤ FILE_LIMIT)) }
    {
        let result = read_file(alloc, &self.files, self.path.as_str(), name);
        if let Err(FolderStop::Failed) = result {
            self.faults = self.faults.saturating_add(1);
        }
        result
    }
}
