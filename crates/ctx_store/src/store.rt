// The contexts of a folder.
ghost use Rattle.std.specs.Prelude.{◌≡◌, ◌+◌, List, [], length, IfOk, IfErr, IfSome, OnOk, MatchResult};
ghost use Rattle.std.specs.Option.{option_map};
ghost use Rattle.std.specs.FinMap as map;
ghost use Rattle.std.specs.Map.{lookup};
ghost use Rattle.std.specs.BTreeMap.{is_at, insert_entry};
ghost use Rattle.ld_model.specs.Tree.{byte_order};
ghost use Rattle.ld_json.specs.Read.{reading};
ghost use Rattle.ld_io.specs.Files.{IsFileAt};
ghost use Rattle.ctx_store.specs.Index.{lines};
ghost use Rattle.ctx_store.specs.Stored.{stored, holds, filed, tree_read};
ghost use Rattle.ctx_store.specs.View.{loaded_view};
ghost use Rattle.ctx_store.specs.Stops.{Answers, CountsStoreFaults, IsReadRefusal, FilesLine};

use crate::index::{check_index, entry_on, next_line};
use ld_io::{Folder, FolderStop};
use ld_json::{ReadRefusal, Tree, read_tree};
use std::alloc::{AllocError, Global};
use std::collections::BTreeMap;
use std::marker::Model;
use thiserror::Error;

/// The file of an IRI.
#[derive(Drop)]
pub enum Loaded {
    /// The tree that it reads as.
    Readable(Tree),
    /// It is no JSON text, or a number in it is refused.
    Unreadable,
}

/// Why a folder gives no store.
#[derive(Clone, Copy, Debug, PartialEq, Eq, Error)]
pub enum StoreRefusal {
    /// A line of the index breaks its rule.
    #[error("context index line {line}")]
    IndexLine {
        /// The number of the first such line, counted from 1.
        line: u64,
    },
    /// A line of the index names a file that is not there.
    #[error("missing context file at index line {line}")]
    Missing {
        /// The number of the first such line, counted from 1.
        line: u64,
    },
    /// The folder failed, and its count of faults rose.
    #[error("folder fault")]
    FolderFault,
    /// Memory was refused.
    #[error("out of memory")]
    OutOfMemory,
}

impl From<AllocError> for StoreRefusal {
    ghost use Rattle.ctx_store.specs.declared.store.StoreRefusal.TheVariants.{OutOfMemory};

    ghost from_gives = { λ _ e. e ≡ OutOfMemory };

    fn from(_error: AllocError) -> StoreRefusal {
        StoreRefusal::OutOfMemory
    }
}

impl From<FolderStop> for StoreRefusal {
    ghost use Rattle.ctx_store.specs.Stops.{refusal_of_stop};

    ghost from_gives = { λ stop e. e ≡ refusal_of_stop stop };

    fn from(stop: FolderStop) -> StoreRefusal {
        match stop {
            FolderStop::Failed => StoreRefusal::FolderFault,
            FolderStop::OutOfMemory => StoreRefusal::OutOfMemory,
        }
    }
}

/// The files of a folder, by their IRIs. Contracts see the IRIs in the order of their bytes, each with the tree of its
/// file, or with none where the file is unreadable.
#[derive(Drop)]
pub struct Store {
    files: BTreeMap<String, Loaded>,
}

impl Model for Store {
    ghost use Rattle.std.specs.Prelude.{List, ℕ, Option};
    ghost use Rattle.std.specs.Coded.{coded_ℕ, coded_list, coded×, coded_option};
    ghost use Rattle.ld_model.specs.Tree as model;
    ghost use Rattle.ld_model.specs.TreeCode.{tree_code};

    ghost Value = { List (List ℕ × Option model.Tree) };

    ghost coded = { coded_list (coded× (coded_list coded_ℕ) (coded_option tree_code)) };

    ghost use Rattle.ctx_store.specs.View.{contexts_view};

    ghost view = { λ s. contexts_view s.files.entries };
}

impl Store {
    /// No IRI. It takes no memory.
    pub fn none(alloc: Global) -> Store
        ensures { result ≡ [] }
    {
        Store {
            files: BTreeMap::new(alloc),
        }
    }

    /// The file of an IRI; None where the index has no such IRI. It takes a time that grows with the logarithm of the
    /// number of IRIs.
    pub fn get(&self, iri: &str) -> Option<&Loaded>
        ensures { option_map (λ file. loaded_view file.now) result ≡ lookup (is_at (byte_order iri.now)) self.now }
    {
        self.files.get(iri)
    }

    // Gives an IRI its file.
    fn put(&mut self, alloc: Global, iri: &str, file: Loaded) -> Result<(), AllocError>
        ensures { OnOk result (self.new ≡ insert_entry byte_order self.old iri.now (loaded_view file)) }
    {
        match self.files.insert(String::from_str(alloc, iri)?, file) {
            Ok(_) => Ok(()),
            Err(_) => Err(AllocError),
        }
    }
}

/// What the bytes of a file read as.
fn loaded_of(alloc: Global, bytes: &[u8]) -> Result<Loaded, AllocError>
    ensures { IfOk result (λ file. loaded_view file ≡ tree_read (reading bytes.now)) }
{
    match read_tree(alloc, bytes) {
        Ok(tree) => Ok(Loaded::Readable(tree)),
        Err(ReadRefusal::OutOfMemory) => Err(AllocError),
        Err(_) => Ok(Loaded::Unreadable),
    }
}

/// The bytes of a file, if it is there.
fn read_file<F: Folder>(
    alloc: Global,
    folder: &mut F,
    name: &str,
) -> Result<Option<Vec<u8>>, StoreRefusal>
    ensures files { F.files folder.new ≡ F.files folder.old }
    ensures found { IsFileAt (F.files folder.old) name.now result }
    ensures refusal { IfErr result IsReadRefusal }
    ensures faults { CountsStoreFaults (F.faults folder.old) (F.faults folder.new) result }
{
    Ok(folder.read(alloc, name)?)
}

/// Reads the file of one line into the store.
fn load_file<F: Folder>(
    alloc: Global,
    folder: &mut F,
    store: &mut Store,
    number: u64,
    iri: &str,
    name: &str,
) -> Result<(), StoreRefusal>
    ensures files { F.files folder.new ≡ F.files folder.old }
    ensures answer { IfSome (F.files folder.old) (λ files. FilesLine (map.get files name.now) iri.now number store.old store.new result) }
    ensures faults { CountsStoreFaults (F.faults folder.old) (F.faults folder.new) result }
{
    let Some(bytes) = read_file(alloc, folder, name)? else {
        return Err(StoreRefusal::Missing { line: number });
    };
    let file = loaded_of(alloc, bytes.as_slice())?;
    store.put(alloc, iri, file)?;
    Ok(())
}

/// Reads the files of an index in the order of its lines.
fn load_files<F: Folder>(alloc: Global, folder: &mut F, index: &[u8]) -> Result<Store, StoreRefusal>
    ensures files { F.files folder.new ≡ F.files folder.old }
    ensures answer { IfSome (F.files folder.old) (λ files. Answers (filed files [] 1 (lines index.now)) result) }
    ensures faults { CountsStoreFaults (F.faults folder.old) (F.faults folder.new) result }
{
    let mut store = Store::none(alloc);
    let mut rest = index;
    let mut number = 0u64;
    while !rest.is_empty() {
        let (line, behind) = next_line(rest);
        rest = behind;
        number += 1;
        if let Some((iri, name)) = entry_on(line) {
            load_file(alloc, folder, &mut store, number, iri, name)?;
        }
    }
    Ok(store)
}

/// Loads the contexts of a folder. Its file `index.txt` names a file for each IRI; where there is no such file the store
/// is empty. The index is looked through whole, and then the files are read, in the order of the lines.
///
/// A line feed ends a line, and a carriage return right before it is dropped. An empty line is passed over. Any other one is
/// an IRI that no line before it has, a space, and a file's name: 1 to 255 ASCII letters, digits, `.`, `_` and `-`, with no
/// dot in front.
///
/// A file that [`read_tree`] refuses is `Unreadable`, save where memory was refused.
///
/// # Errors
///
/// - `IndexLine` exactly where a line of the index is none of these.
/// - `Missing` exactly where a line's file is not there when it is read.
/// - `FolderFault` only where the folder's count of faults rose.
/// - `OutOfMemory` where memory is refused.
pub fn load<F: Folder>(alloc: Global, folder: &mut F) -> Result<Store, StoreRefusal>
    ensures files { F.files folder.new ≡ F.files folder.old }
    ensures answer { IfSome (F.files folder.old) (λ files. Answers (stored files) result) }
    ensures faults { CountsStoreFaults (F.faults folder.old) (F.faults folder.new) result }
{
    let Some(index) = read_file(alloc, folder, "index.txt")? else {
        return Ok(Store::none(alloc));
    };
    check_index(alloc, index.as_slice())?;
    load_files(alloc, folder, index.as_slice())
}
