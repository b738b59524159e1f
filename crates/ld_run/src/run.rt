// The call that the program makes.
ghost use Rattle.std.specs.Prelude.{◌≡◌, ◌⊎◌, List, ℕ, true, false, IsTrue, IfSome, IfErr, OnOk, OnErr, MatchResult, Option};
ghost use Rattle.std.specs.Option.{option_map};
ghost use Rattle.std.specs.Io.KnownBytes.{IsAtEnd};
ghost use Rattle.ld_io.specs.Faults.{Rose};
ghost use Rattle.ld_io.specs.Sinks.{AppendsFront};
ghost use Rattle.ctx_store.specs.Stored.{holds};
ghost use Rattle.ctx_store.specs.Stops.{Answers, CountsStoreFaults};
ghost use Rattle.ld_run.specs.Words.{words_of};
ghost use Rattle.ld_run.specs.Out.{Out, found, is_told_refused, due_of, due_for, due, asks_for_contexts, asks_for_no_input};
ghost use Rattle.ld_run.specs.Stops.{refuses_index, status_of_stop, IsInputStop, IsDueStop, AreDue, CountsSource, CountsFolder};
ghost use Rattle.ld_run.specs.Promise.{sunk, IsDone, IsRefused, SaysLine, WritesFront, OutStays, HasRisen, SaysFront, IsDueStatus, SaidAs, Wrote};
ghost use Rattle.ld_run.specs.Lines.{line_of};

use crate::document::{items_for, text_line};
use crate::status::{OUT_OF_MEMORY, Status, WRITE_FAULT};
use crate::stop::Stop;
use crate::words::{Order, read_words};
use ctx_store::{Store, StoreRefusal, load};
use ld_io::{Folder, Sink, Source, read_to_end, write_and_finish};
use std::alloc::Global;

/// Does all that the program does, on one thread: reads the words, loads the folder's contexts where they ask for that, reads the
/// source to its end, and writes what is due to `out`, or one line to `err`. `words` are those after the program's name.
///
/// The first word is a command. `expand` gives the expanded form of the source's document (JSON-LD 1.1 API, section 5.1), and `flatten`
/// its flattened form (section 7.1), as compact JSON with a line feed. Behind it come options in any order, each at most once:
/// `--base IRI` or `--base=IRI`, split at the first `=`, for the document's base URL, a well-formed IRI; `--contexts`, with which
/// the document may name the contexts of the folder (`ctx_store::load`); and `--weight W` or `--weight=W`, a number from 1 to 1,000,000, for about
/// how many values the pieces have into which the document is cut, which is 2,000 without it and has no say in what is written. Without
/// `--contexts` the folder isn't touched.
///
/// The status is `Done` where the due bytes were written and `out` was finished. Each other status leaves `out` as it
/// was, but for `WriteFault`, which may leave some front of the due bytes there; and it appends its line to `err` and
/// finishes `err`, unless that fails. Where several stand together, the first of these comes:
///
/// - `Usage` where the words give no order. Neither the folder nor the source is touched.
/// - `Refused(IndexLine { line })` where a line of the folder's index breaks its rule, and `Refused(Missing { line })` where a line's file
///   isn't there. The source isn't touched.
/// - `FolderFault` only where the folder's count of faults rose. The source isn't touched.
/// - `ReadFault` only where the source's count of faults rose.
/// - `TooLarge` where the input has more than 268,435,456 bytes.
/// - `Refused(Syntax)` where the input is no JSON text.
/// - `Refused(Number { at })` where it is one, but a number in it isn't accepted; `at` is the first one's first byte.
/// - `Refused(VersionNumber { place })` where all are, but the number 1.1 stands elsewhere than as the value of a key
///   `@version`; `place` is the first such place.
/// - `Refused(Expansion { code, place })` where it reads, but can't be expanded: the first error that the traversal meets.
/// - `Refused(ConflictingIndexes { node, first, second })` for `flatten`, where it is expanded, but states two different indexes of one node.
/// - `WriteFault` only where the count of faults of `out` or of `err` rose.
/// - `OutOfMemory` where memory was refused, at any time.
pub fn run_alone<S: Source, F: Folder, K: Sink, E: Sink>(
    alloc: Global,
    words: &[String],
    source: &mut S,
    folder: &mut F,
    out: &mut K,
    err: &mut E,
) -> Status
    // What is written where all goes well.
    ensures done { result ≡ Status.Done → IsDone (due (words_of words.now) (F.files folder.old) (S.left source.old)) (S.left source.new)
        (sunk K.held K.finished K.faults out.old out.new) × (err.new ≡ err.old) }

    // A refusal comes only where it is due, with its line, and leaves the output as it was.
    ensures refused { IsRefused result (due (words_of words.now) (F.files folder.old) (S.left source.old))
        (sunk E.held E.finished E.faults err.old err.new) (out.new ≡ out.old) }
    ensures untouched { IfSome (due (words_of words.now) (F.files folder.old) (S.left source.old)) (λ d. OutStays d (out.new ≡ out.old)) }

    // Each fault has its cause.
    ensures read_fault { result ≡ Status.ReadFault → Rose (S.faults source.old) (S.faults source.new)
        × SaysLine result (sunk E.held E.finished E.faults err.old err.new) × (out.new ≡ out.old) }
    ensures folder_fault { result ≡ Status.FolderFault → Rose (F.faults folder.old) (F.faults folder.new)
        × SaysLine result (sunk E.held E.finished E.faults err.old err.new) × (out.new ≡ out.old) × (source.new ≡ source.old) }
    ensures write_fault { result ≡ Status.WriteFault → HasRisen (sunk K.held K.finished K.faults out.old out.new)
        ⊎ HasRisen (sunk E.held E.finished E.faults err.old err.new) }
    ensures front { result ≡ Status.WriteFault → IfSome (due (words_of words.now) (F.files folder.old) (S.left source.old))
        (λ d. WritesFront d (sunk K.held K.finished K.faults out.old out.new)) }
    ensures says { result ≡ Status.WriteFault → SaysFront (due (words_of words.now) (F.files folder.old) (S.left source.old))
        (Rose (S.faults source.old) (S.faults source.new)) (Rose (F.faults folder.old) (F.faults folder.new))
        (sunk K.held K.finished K.faults out.old out.new) (sunk E.held E.finished E.faults err.old err.new) }
    ensures says_whole { result ≡ Status.WriteFault → (HasRisen (sunk E.held E.finished E.faults err.old err.new) → ⊥)
        → SaysLine result (sunk E.held E.finished E.faults err.old err.new) }

    // What isn't asked for isn't touched, and the folder's files stay.
    ensures source { asks_for_no_input (words_of words.now) (F.files folder.old) ≡ true → source.new ≡ source.old }
    ensures index { refuses_index result ≡ true → source.new ≡ source.old }
    ensures folder { asks_for_contexts (words_of words.now) ≡ false → folder.new ≡ folder.old }
    ensures files { F.files folder.new ≡ F.files folder.old }

    // Want of memory leaves the output as it was.
    ensures memory { result ≡ Status.OutOfMemory → SaysLine result (sunk E.held E.finished E.faults err.old err.new) × (out.new ≡ out.old) }

    // Where nothing failed, the answer is the one that is due, or want of memory.
    ensures exact { (Rose (S.faults source.old) (S.faults source.new) → ⊥) → (Rose (F.faults folder.old) (F.faults folder.new) → ⊥)
        → (HasRisen (sunk K.held K.finished K.faults out.old out.new) → ⊥) → (HasRisen (sunk E.held E.finished E.faults err.old err.new) → ⊥)
        → IsDueStatus result (due (words_of words.now) (F.files folder.old) (S.left source.old)) ⊎ (result ≡ Status.OutOfMemory) }
{
    match due_text(alloc, words, source, folder) {
        Ok(bytes) => write_text(bytes.as_slice(), out, err),
        Err(stop) => say(alloc, stop.status(), err),
    }
}

/// The bytes to write, or why there are none.
fn due_text<S: Source, F: Folder>(
    alloc: Global,
    words: &[String],
    source: &mut S,
    folder: &mut F,
) -> Result<Vec<u8>, Stop>
    ensures due { MatchResult result (λ v. AreDue v (due (words_of words.now) (F.files folder.old) (S.left source.old)))
        (λ stop. IsDueStop stop (due (words_of words.now) (F.files folder.old) (S.left source.old))) }
    ensures end { OnOk result (IsAtEnd (S.left source.new)) }
    ensures source_faults { MatchResult result (λ _. S.faults source.new ≡ S.faults source.old)
        (λ stop. CountsSource stop (S.faults source.old) (S.faults source.new)) }
    ensures folder_faults { MatchResult result (λ _. F.faults folder.new ≡ F.faults folder.old)
        (λ stop. CountsFolder stop (F.faults folder.old) (F.faults folder.new)) }
    ensures source { asks_for_no_input (words_of words.now) (F.files folder.old) ≡ true → source.new ≡ source.old }
    ensures folder_fault { result ≡ Err Stop.FolderFault → source.new ≡ source.old }
    ensures index { IfErr result (λ stop. refuses_index (status_of_stop stop) ≡ true → source.new ≡ source.old) }
    ensures folder { asks_for_contexts (words_of words.now) ≡ false → folder.new ≡ folder.old }
    ensures files { F.files folder.new ≡ F.files folder.old }
{
    match read_words(alloc, words)? {
        Some(order) => text_for(alloc, order, source, folder),
        None => Err(Stop::Usage),
    }
}

/// The bytes that an order gives.
fn text_for<S: Source, F: Folder>(
    alloc: Global,
    order: Order,
    source: &mut S,
    folder: &mut F,
) -> Result<Vec<u8>, Stop>
    ensures due { MatchResult result (λ v. AreDue v (due_for order (F.files folder.old) (S.left source.old)))
        (λ stop. IsDueStop stop (due_for order (F.files folder.old) (S.left source.old))) }
    ensures end { OnOk result (IsAtEnd (S.left source.new)) }
    ensures source_faults { MatchResult result (λ _. S.faults source.new ≡ S.faults source.old)
        (λ stop. CountsSource stop (S.faults source.old) (S.faults source.new)) }
    ensures folder_faults { MatchResult result (λ _. F.faults folder.new ≡ F.faults folder.old)
        (λ stop. CountsFolder stop (F.faults folder.old) (F.faults folder.new)) }
    ensures source { is_told_refused (found order (F.files folder.old)) ≡ true → source.new ≡ source.old }
    ensures folder_fault { result ≡ Err Stop.FolderFault → source.new ≡ source.old }
    ensures index { IfErr result (λ stop. refuses_index (status_of_stop stop) ≡ true → source.new ≡ source.old) }
    ensures folder { order.contexts ≡ false → folder.new ≡ folder.old }
    ensures files { F.files folder.new ≡ F.files folder.old }
{
    let store = store_for(alloc, &order, folder)?;
    text_of_source(alloc, order, store, source)
}

/// The contexts that an order asks for.
fn store_for<F: Folder>(alloc: Global, order: &Order, folder: &mut F) -> Result<Store, StoreRefusal>
    ensures answer { IfSome (found order.now (F.files folder.old)) (λ s. Answers s result) }
    ensures faults { CountsStoreFaults (F.faults folder.old) (F.faults folder.new) result }
    ensures folder { order.now.contexts ≡ false → folder.new ≡ folder.old }
    ensures files { F.files folder.new ≡ F.files folder.old }
{
    if !order.contexts {
        return Ok(Store::none(alloc));
    }
    load(alloc, folder)
}

/// The bytes that an order gives of the source's document, with the contexts of the store.
fn text_of_source<S: Source>(
    alloc: Global,
    order: Order,
    store: Store,
    source: &mut S,
) -> Result<Vec<u8>, Stop>
    ensures due { MatchResult result (λ v. AreDue v (option_map (due_of order store) (S.left source.old)))
        (λ stop. IsInputStop stop (option_map (due_of order store) (S.left source.old))) }
    ensures end { OnOk result (IsAtEnd (S.left source.new)) }
    ensures faults { MatchResult result (λ _. S.faults source.new ≡ S.faults source.old)
        (λ stop. CountsSource stop (S.faults source.old) (S.faults source.new)) }
    ensures index { IfErr result (λ stop. refuses_index (status_of_stop stop) ≡ false) }
{
    let bytes = read_to_end(alloc, source)?;
    let items = items_for(alloc, order, store, bytes)?;
    let text = text_line(alloc, items)?;
    Ok(text)
}

/// Says why nothing is written; or that memory was refused, where its line wants some.
fn say<E: Sink>(alloc: Global, status: Status, err: &mut E) -> Status
    ensures { SaidAs result status (sunk E.held E.finished E.faults err.old err.new)
        ⊎ SaidAs result Status.OutOfMemory (sunk E.held E.finished E.faults err.old err.new) }
{
    match status.line(alloc) {
        Ok(line) => say_line(status, line.as_str(), err),
        Err(_) => say_line(Status::OutOfMemory, OUT_OF_MEMORY, err),
    }
}

fn say_line<E: Sink>(status: Status, line: &str, err: &mut E) -> Status
    requires { line.now ≡ line_of status }
    ensures { SaidAs result status (sunk E.held E.finished E.faults err.old err.new) }
{
    match write_and_finish(err, line.as_bytes()) {
        Ok(()) => status,
        Err(_) => Status::WriteFault,
    }
}

/// Writes the due bytes, or says that they couldn't be written.
fn write_text<K: Sink, E: Sink>(bytes: &[u8], out: &mut K, err: &mut E) -> Status
    ensures { Wrote result bytes.now (sunk K.held K.finished K.faults out.old out.new)
        (sunk E.held E.finished E.faults err.old err.new) (err.new ≡ err.old) }
{
    match write_and_finish(out, bytes) {
        Ok(()) => Status::Done,
        Err(_) => {
            let _ = say_line(Status::WriteFault, WRITE_FAULT, err);
            Status::WriteFault
        }
    }
}
