// What a case gives.
use crate::case::{Case, PLAIN, Show};
use crate::repeat::long_text;
use crate::showing::{context, definition, iri};
use ctx_process::{ContextStop, Flags, process};
use ctx_store::{Store, StoreRefusal, load};
use ctx_types::ActiveContext;
use ld_io::DirFolder;
use ld_json::{ReadRefusal, Text, Tree, read_tree};
use std::alloc::{AllocError, Global};

/// Why a case gives no context.
#[derive(Clone, Copy)]
enum Stop {
    /// A local context is refused, or memory was.
    Context(ContextStop),
    /// The folder gives no store.
    Folder(StoreRefusal),
    /// A local context is no JSON text.
    NoTree,
}

impl From<ContextStop> for Stop {
    fn from(stop: ContextStop) -> Stop {
        Stop::Context(stop)
    }
}

impl From<StoreRefusal> for Stop {
    fn from(refusal: StoreRefusal) -> Stop {
        Stop::Folder(refusal)
    }
}

impl From<AllocError> for Stop {
    fn from(_error: AllocError) -> Stop {
        Stop::Context(ContextStop::OutOfMemory)
    }
}

/// The answer to a case, in one line.
pub(crate) fn answer(rt: &HostRuntime, case: &Case<'_>) -> Result<String, AllocError> {
    match given(rt, case) {
        Ok(context) => shown(rt.alloc(), &context, &case.show),
        Err(stop) => stop_text(rt.alloc(), stop),
    }
}

/// The context that a case gives.
fn given(rt: &HostRuntime, case: &Case<'_>) -> Result<ActiveContext, Stop> {
    let store = store_of(rt, case.folder)?;
    let base = base_of(rt.alloc(), case.base)?;
    let active = ActiveContext::initial(rt.alloc(), base.as_ref())?;
    match case.locals.rsplit_once('\t') {
        Some((earlier, last)) => {
            let active = taken(rt.alloc(), active, earlier, base.as_ref(), &store)?;
            processed(rt.alloc(), &active, last, base.as_ref(), &store, case.flags)
        }
        None => processed(
            rt.alloc(),
            &active,
            case.locals,
            base.as_ref(),
            &store,
            case.flags,
        ),
    }
}

fn store_of(rt: &HostRuntime, folder: Option<&str>) -> Result<Store, StoreRefusal> {
    match folder {
        Some(name) => {
            let path = String::from_str(rt.alloc(), name)?;
            load(rt.alloc(), &mut DirFolder::new(rt, path))
        }
        None => Ok(Store::none(rt.alloc())),
    }
}

fn base_of(alloc: Global, base: Option<&str>) -> Result<Option<Text>, AllocError> {
    match base {
        Some(base) => Ok(Some(Text::new(alloc, base)?)),
        None => Ok(None),
    }
}

/// What these local contexts make of an active one, one after the other.
fn taken(
    alloc: Global,
    active: ActiveContext,
    locals: &str,
    base: Option<&Text>,
    store: &Store,
) -> Result<ActiveContext, Stop> {
    let mut context = active;
    for local in locals.split('\t') {
        context = processed(alloc, &context, local, base, store, PLAIN)?;
    }
    Ok(context)
}

/// What a local context makes of an active one.
fn processed(
    alloc: Global,
    active: &ActiveContext,
    local: &str,
    base: Option<&Text>,
    store: &Store,
    flags: Flags,
) -> Result<ActiveContext, Stop> {
    let local = tree_of(alloc, local)?;
    let context = process(alloc, active, &local, base, store, flags)?;
    Ok(context)
}

fn tree_of(alloc: Global, field: &str) -> Result<Tree, Stop> {
    let text = long_text(alloc, field)?;
    match read_tree(alloc, text.as_bytes()) {
        Ok(tree) => Ok(tree),
        Err(ReadRefusal::OutOfMemory) => Err(Stop::Context(ContextStop::OutOfMemory)),
        Err(_) => Err(Stop::NoTree),
    }
}

/// What is to be shown of a context, in one line.
fn shown(alloc: Global, given: &ActiveContext, show: &Show<'_>) -> Result<String, AllocError> {
    match show {
        Show::Code => String::from_str(alloc, "ok"),
        Show::Term(name) => match given.terms.get(name) {
            Some(found) => definition(alloc, found),
            None => String::from_str(alloc, "no term"),
        },
        Show::Iri(text) => iri(alloc, given, text),
        Show::Context => context(alloc, given),
        Show::Count => {
            let count = given.terms.len();
            format!(in alloc; "{count}")
        }
    }
}

fn stop_text(alloc: Global, stop: Stop) -> Result<String, AllocError> {
    match stop {
        Stop::Context(ContextStop::Refused(code)) => String::from_str(alloc, code.name()),
        Stop::Context(ContextStop::OutOfMemory) => String::from_str(alloc, "out of memory"),
        Stop::Folder(refusal) => refusal_text(alloc, refusal),
        Stop::NoTree => String::from_str(alloc, "no JSON text"),
    }
}

fn refusal_text(alloc: Global, refusal: StoreRefusal) -> Result<String, AllocError> {
    match refusal {
        StoreRefusal::IndexLine { line } => format!(in alloc; "broken index line {line}"),
        StoreRefusal::Missing { line } => format!(in alloc; "missing file of index line {line}"),
        StoreRefusal::FolderFault => String::from_str(alloc, "folder fault"),
        StoreRefusal::OutOfMemory => String::from_str(alloc, "out of memory"),
    }
}
