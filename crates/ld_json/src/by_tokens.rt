// Reading a text by its tokens, straight into the tree.
ghost use Rattle.std.specs.Prelude.{◌≡◌, ◌<◌, ◌&&◌, [], ◌∷◌, ◌++◌, length, Some, None, IfOk, OnOk, MatchResult, true, IsUtf8};
ghost use Rattle.std.specs.List.{AllByRecursion};
ghost use Rattle.std.specs.Option.{is_none};
ghost use Rattle.json.specs.Json.{value, items, members};
ghost use Rattle.serde_json.specs.Read.{converted};
ghost use Rattle.ld_tree.specs.View.{view};
ghost use Rattle.ld_json.specs.Numbers.{are_accepted};
ghost use Rattle.ld_json.specs.Numbers as numbers;
ghost use Rattle.ld_json.specs.Marks as marks;
ghost use Rattle.ld_json.specs.Read.{reading, reads, Refuses, SaysOfNumbers};
ghost use Rattle.ld_json.specs.Tokens.{tree_read, items_read, members_read, text_read, all_in, IsRefused, HasNoMark};

use crate::location::Place;
use crate::marks::misplaced;
use crate::numbers::refused_number;
use crate::reading::ReadRefusal;
use crate::token_numbers::{Seen, number_at};
use json::{Invalid, Reader, Scratch, Token};
use ld_tree::{Members, Text, Tree, Trees};
use std::alloc::{AllocError, Global};

/// How deep a text may nest.
const MAX_DEPTH: usize = 127;

/// How many values or members are so few that they are moved where they have no room for more.
const FEW: usize = 2048;

/// Why no tree was read.
#[derive(Clone, Copy, Debug, Drop)]
pub(crate) enum Stop {
    /// The text is no JSON.
    Syntax,
    /// Memory was refused.
    OutOfMemory,
}

impl From<AllocError> for Stop {
    ghost use Rattle.ld_json.specs.declared.by_tokens.Stop.TheVariants.{OutOfMemory};

    ghost from_gives = { λ _ e. e ≡ OutOfMemory };

    fn from(_error: AllocError) -> Stop {
        Stop::OutOfMemory
    }
}

impl From<Invalid> for Stop {
    ghost use Rattle.ld_json.specs.declared.by_tokens.Stop.TheVariants.{Syntax};

    ghost from_gives = { λ _ e. e ≡ Syntax };

    fn from(_error: Invalid) -> Stop {
        Stop::Syntax
    }
}

/// As `read_tree`.
pub(crate) fn read_by_tokens(alloc: Global, bytes: &[u8]) -> Result<Tree, ReadRefusal>
    ensures answer { MatchResult result (λ t. reading bytes.now ≡ reads (view t))
        (λ e. Refuses e (reading bytes.now)) }
    ensures numbers { MatchResult result (λ _. are_accepted bytes.now ≡ true)
        (λ e. SaysOfNumbers e (are_accepted bytes.now)) }
{
    let (tree, seen) = match tree_by_tokens(alloc, bytes) {
        Ok(read) => read,
        Err(Stop::Syntax) => return Err(ReadRefusal::Syntax),
        Err(Stop::OutOfMemory) => return Err(ReadRefusal::OutOfMemory),
    };
    if let Some(at) = refused_unless(seen.accepted, bytes) {
        return Err(ReadRefusal::Number { at });
    }
    match misplaced_unless(alloc, seen.unmarked, &tree)? {
        Some(place) => Err(ReadRefusal::VersionNumber { place }),
        None => Ok(tree),
    }
}

/// Where the first number begins that isn't accepted, where it is known whether each is.
fn refused_unless(accepted: bool, bytes: &[u8]) -> Option<u64>
    requires { accepted ≡ is_none (numbers.refused_number bytes.now) }
    ensures { result ≡ numbers.refused_number bytes.now }
{
    if accepted {
        return None;
    }
    refused_number(bytes)
}

/// The first place where the number 1.1 stands elsewhere than at `@version`, where none is known to stand anywhere.
fn misplaced_unless(alloc: Global, unmarked: bool, tree: &Tree) -> Result<Option<Place>, AllocError>
    requires { unmarked ≡ true → HasNoMark (view tree.now) }
    ensures { IfOk result (λ p. p ≡ marks.misplaced (view tree.now)) }
{
    if unmarked {
        return Ok(None);
    }
    misplaced(alloc, tree)
}

/// The tree of a text in UTF-8, and what was seen of its numbers.
fn tree_by_tokens(alloc: Global, bytes: &[u8]) -> Result<(Tree, Seen), Stop>
    ensures ok { IfOk result (λ r. IsUtf8 bytes.now × (text_read bytes.now ≡ Some (view r.0))) }
    ensures accepted { IfOk result (λ r. r.1.accepted ≡ are_accepted bytes.now) }
    ensures unmarked { IfOk result (λ r. r.1.unmarked ≡ true → HasNoMark (view r.0)) }
    ensures err { IsRefused result → IsUtf8 bytes.now → text_read bytes.now ≡ None }
{
    match simdutf8::compat::from_utf8(bytes) {
        Ok(text) => read_all(alloc, text),
        Err(_) => Err(Stop::Syntax),
    }
}

fn read_all(alloc: Global, text: &str) -> Result<(Tree, Seen), Stop>
    ensures ok { IfOk result (λ r. text_read text.now ≡ Some (view r.0)) }
    ensures accepted { IfOk result (λ r. r.1.accepted ≡ are_accepted text.now) }
    ensures unmarked { IfOk result (λ r. r.1.unmarked ≡ true → HasNoMark (view r.0)) }
    ensures err { IsRefused result → text_read text.now ≡ None }
{
    let mut scratch = Scratch::new(alloc);
    let mut reader = Reader::new(text, &mut scratch)?;
    let mut seen = Seen {
        accepted: true,
        unmarked: true,
    };
    let tree = read(alloc, &mut reader, &mut seen, MAX_DEPTH)?;
    if reader.next().is_some() {
        return Err(Stop::Syntax);
    }
    Ok((tree, seen))
}

#[cycle(read)]
#[inline(always)]
fn read(alloc: Global, reader: &mut Reader<'_>, seen: &mut Seen, depth: usize) -> Result<Tree, Stop>
    ensures ok { IfOk result
        (λ t. converted tree_read (value depth reader.old) ≡ Some (view t, reader.new)) }
    ensures shorter { OnOk result (length reader.new < length reader.old) }
    ensures accepted { OnOk result ((seen.new.accepted && all_in reader.new)
        ≡ (seen.old.accepted && all_in reader.old)) }
    ensures unmarked { IfOk result (λ t. seen.new.unmarked ≡ true
        → (seen.old.unmarked ≡ true) × HasNoMark (view t)) }
    ensures err { IsRefused result → converted tree_read (value depth reader.old) ≡ None }
{
    let token = reader.next().ok_or(Invalid)?;
    match token {
        Token::String(text) => Ok(Tree::Str(Text::new(alloc, text)?)),
        Token::Number(text) => match number_at(text, seen) {
            Some(tree) => Ok(tree),
            None => Err(Stop::Syntax),
        },
        Token::Bool(b) => Ok(Tree::Truth(b)),
        Token::Null => Ok(Tree::Null),
        Token::EndObject | Token::EndArray | Token::Key(_) | Token::Bad => Err(Stop::Syntax),
        Token::BeginArray => {
            if depth == 0 {
                return Err(Stop::Syntax);
            }
            Ok(Tree::Items(read_items(alloc, reader, seen, depth - 1)?))
        }
        Token::BeginObject => {
            if depth == 0 {
                return Err(Stop::Syntax);
            }
            Ok(Tree::Map(read_members(alloc, reader, seen, depth - 1)?))
        }
    }
}

#[cycle(read)]
#[inline(never)]
fn read_items(
    alloc: Global,
    reader: &mut Reader<'_>,
    seen: &mut Seen,
    depth: usize,
) -> Result<Trees, Stop>
    ensures ok { IfOk result
        (λ ts. converted items_read (items (value depth) (length reader.old) reader.old)
        ≡ Some (ts, reader.new)) }
    ensures shorter { OnOk result (length reader.new < length reader.old) }
    ensures accepted { OnOk result ((seen.new.accepted && all_in reader.new)
        ≡ (seen.old.accepted && all_in reader.old)) }
    ensures unmarked { IfOk result (λ ts. seen.new.unmarked ≡ true
        → (seen.old.unmarked ≡ true) × AllByRecursion HasNoMark ts) }
    ensures err { IsRefused result
        → converted items_read (items (value depth) (length reader.old) reader.old) ≡ None }
{
    let mut found = Vec::new(alloc);
    'items: while !reader.take_end_array() {
        let item = read(alloc, reader, seen, depth)?;
        push(&mut found, item)?;
    }
    let fitted = fit(alloc, found)?;
    Ok(Trees::from_vec(fitted))
}

#[cycle(read)]
#[inline(never)]
fn read_members(
    alloc: Global,
    reader: &mut Reader<'_>,
    seen: &mut Seen,
    depth: usize,
) -> Result<Members, Stop>
    ensures ok { IfOk result
        (λ ms. converted (λ js. members_read js [])
        (members (value depth) (length reader.old) reader.old)
        ≡ Some (ms, reader.new)) }
    ensures shorter { OnOk result (length reader.new < length reader.old) }
    ensures accepted { OnOk result ((seen.new.accepted && all_in reader.new)
        ≡ (seen.old.accepted && all_in reader.old)) }
    ensures unmarked { IfOk result (λ ms. seen.new.unmarked ≡ true
        → (seen.old.unmarked ≡ true) × AllByRecursion (λ m. HasNoMark m.1) ms) }
    ensures err { IsRefused result
        → converted (λ js. members_read js [])
        (members (value depth) (length reader.old) reader.old) ≡ None }
{
    let mut found = Vec::new(alloc);
    'members: while let Some(name) = reader.next_key()? {
        let key = Text::new(alloc, name)?;
        let member = read(alloc, reader, seen, depth)?;
        push(&mut found, (key, member))?;
    }
    let fitted = fit(alloc, found)?;
    Ok(Members::from_pairs(fitted)?)
}

/// Puts an item behind the others. The room is made for 1, 2, 4 and so on, since most arrays and objects have one or two.
#[inline(always)]
fn push<T: Drop>(found: &mut Vec<T>, item: T) -> Result<(), AllocError>
    ensures { OnOk result (found.new.items ≡ found.old.items ++ item ∷ []) }
{
    make_room(found)?;
    found.push(item)?;
    Ok(())
}

#[inline(always)]
fn make_room<T>(found: &mut Vec<T>) -> Result<(), AllocError>
    ensures { found.new.items ≡ found.old.items }
{
    if found.len() < found.capacity() {
        return Ok(());
    }
    found.reserve_exact(found.len().max(1))
}

/// The same in no more room than is needed. Many small arrays would keep up to half of theirs, and to cut it off would leave
/// pieces that are too small for anything; a large one never touched it, and would have to be copied.
#[inline(always)]
fn fit<T: Drop>(alloc: Global, found: Vec<T>) -> Result<Vec<T>, AllocError>
    ensures { IfOk result (λ v. v.items ≡ found.items) }
{
    let mut found = found;
    if found.len() == found.capacity() || found.capacity() > FEW {
        return Ok(found);
    }
    let mut exact = Vec::with_capacity(alloc, found.len())?;
    exact.append(&mut found)?;
    Ok(exact)
}
