//! A folder in memory, for tests and for callers that have the files at hand.
ghost use Rattle.std.specs.Prelude.{◌≡◌, ℕ, not, Some, Option, IfOk, IfErr, IsTrue};
ghost use Rattle.std.specs.Option.{option_map};
ghost use Rattle.std.specs.FinMap.{find, from_entries};
ghost use Rattle.std.specs.Ordering.{nat_cmp};
ghost use Rattle.std.specs.Cmp.Lexicographic.{slice_cmp};
ghost use Rattle.ld_io.specs.Faults.{is_failing};
ghost use Rattle.ld_io.specs.FolderFaults.{CountsFolderFaults};
ghost use Rattle.ld_io.specs.FolderState.{after_lookup};
ghost use Rattle.ld_io.specs.Files.{IsFileAt};
ghost use Rattle.ld_io.specs.Named.{named_files};

use super::calls::is_failing;
use super::traits::{Folder, FolderStop};
use std::alloc::Global;
use std::marker::Model;

/// The file of the first pair of that name.
fn file_of<'a>(files: &'a [(String, Vec<u8>)], name: &str) -> Option<&'a Vec<u8>>
    ensures { option_map (λ file. file.now.items) result
        ≡ find (slice_cmp nat_cmp) name.now (named_files files.now) }
{
    for file in files {
        if name == file.0.as_str() {
            return Some(&file.1);
        }
    }
    None
}

/// A copy of the file, if there is one.
fn copy_of(alloc: Global, file: Option<&Vec<u8>>) -> Result<Option<Vec<u8>>, FolderStop>
    ensures ok { IfOk result (λ copy. option_map (λ v. v.items) copy ≡ option_map (λ v. v.now.items) file.entry) }
    ensures err { IfErr result (λ stop. stop ≡ FolderStop.OutOfMemory) }
{
    let Some(file) = file else {
        return Ok(None);
    };
    match Vec::from_slice(alloc, file.as_slice()) {
        Ok(copy) => Ok(Some(copy)),
        Err(_) => Err(FolderStop::OutOfMemory),
    }
}

/// A folder whose files lie in memory. Its calls of `read` are numbered from 0; the 2^64th and
/// each later one has the number 2^64 - 1.
#[derive(Drop)]
pub struct MapFolder {
    files: Vec<(String, Vec<u8>)>,
    failing: Vec<u64>,
    calls: u64,
    faults: u64,
}

impl Model for MapFolder {
    ghost use Rattle.ld_io.specs.FolderState.{FolderState};
    ghost use Rattle.ld_io.specs.Named.{named_files};

    ghost Value = { FolderState };

    ghost view = { λ s. record { files = named_files s.files.items; failing = s.failing.items; calls = s.calls; faults = s.faults } };
}

impl MapFolder {
    /// A folder of these files, by their names. Of two pairs with one name the first counts. The
    /// calls whose numbers are in `failing` fail, and no others.
    pub fn new(files: Vec<(String, Vec<u8>)>, failing: Vec<u64>) -> MapFolder
        ensures { result ≡ record { files = named_files files.items; failing = failing.items; calls = 0; faults = 0 } }
    {
        MapFolder {
            files,
            failing,
            calls: 0,
            faults: 0,
        }
    }
}

impl Folder for MapFolder {
    ghost files = { λ s. Some (from_entries s.files) };

    ghost faults = { λ s. s.faults };

    fn read(&mut self, alloc: Global, name: &str) -> Result<Option<Vec<u8>>, FolderStop>
        ensures files { self.new.files ≡ self.old.files }
        ensures found { IsFileAt (Some (from_entries self.old.files)) name.now result }
        ensures faults { CountsFolderFaults self.old.faults self.new.faults result }
        ensures failing { IsTrue (is_failing self.old.failing self.old.calls) → result ≡ Err FolderStop.Failed }
        ensures failed { result ≡ Err FolderStop.Failed → IsTrue (is_failing self.old.failing self.old.calls) }
        ensures after { self.new ≡ after_lookup self.old }
    {
        let fails = is_failing(self.failing.as_slice(), self.calls);
        self.calls = self.calls.saturating_add(1);
        if fails {
            self.faults = self.faults.saturating_add(1);
            return Err(FolderStop::Failed);
        }
        copy_of(alloc, file_of(self.files.as_slice(), name))
    }
}
